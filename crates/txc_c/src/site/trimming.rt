//! Trims of a site's node, whatever is open, and the number and size of its entries.
ghost use Rattle.std.specs.Prelude.{◌≡◌};
ghost use Rattle.txc_c.specs.Trim.{TotalsTold, SiteTrimTransition};

use crate::numbers::node_number;
use crate::opened::acts_leave_others;
use crate::site::Site;
use crate::totals::TxcTotals;
use std::alloc::Global;
use txc_c_types::DONE;

impl Site {
    /// Lets the node keep the longest prefix of its entries, the most recently used first, whose values have at
    /// most `most` bytes in all. Writes how many entries it dropped.
    pub(crate) fn trim(&mut self, alloc: Global, most: usize, dropped: &mut usize) -> u32
        ensures { SiteTrimTransition most dropped.old dropped.new self.old result self.new }
    {
        acts_leave_others();
        match self.caller.trim(alloc, most) {
            Ok(count) => {
                *dropped = count;
                DONE
            }
            Err(error) => node_number(error),
        }
    }

    /// Writes how many entries the node has, how many bytes their values have in all, and how many entries
    /// trims have dropped. It changes nothing.
    pub(crate) fn totals(&mut self, totals: &mut TxcTotals) -> u32
        ensures { TotalsTold totals.new self.old result × (self.new ≡ self.old) }
    {
        let node = self.caller.totals();
        *totals = TxcTotals::of(node.entries, node.bytes, node.trimmed);
        DONE
    }
}
