//! Maintenance of a site, whatever is open, and pins for later transactions.
ghost use Rattle.txc_caller.specs.Ports.{HasGrownDatabase};
ghost use Rattle.txc_caller.specs.CallerTxn.{KeepsCaller};
ghost use Rattle.txc_c.specs.Maintenance.{HasKept, SiteKeepTransition, SitePinTransition};

use crate::kept::TxcKept;
use crate::numbers::{database_number, node_number, pin_number};
use crate::opaque::Opaque;
use crate::opened::acts_leave_others;
use crate::site::Site;
use std::alloc::Global;
use txc_c_types::{DONE, NO_MEMORY};
use txc_caller::Caller;

// Retires pins; lets the node take the events; lets the database drop the versions that no stamp from the
// horizon on needs; then lets the node drop the entries that end there.
fn keep(alloc: Global, caller: &mut Caller<Opaque>, now: u64, age: u64, kept: &mut TxcKept) -> u32
    ensures kept { HasKept now age caller.old result kept.old kept.new caller.new }
    ensures caller { KeepsCaller caller.old caller.new }
    ensures grown { HasGrownDatabase caller.old.ports.database caller.new.ports.database }
{
    let Ok(retired) = caller.retire(alloc, now, age) else {
        return NO_MEMORY;
    };
    kept.retired = retired;
    match caller.vacuum(alloc) {
        Ok(horizon) => {
            kept.horizon = horizon.number();
            match caller.sweep(alloc, horizon) {
                Ok(count) => {
                    kept.swept = count;
                    DONE
                }
                Err(error) => node_number(error),
            }
        }
        Err(error) => database_number(error),
    }
}

impl Site {
    /// Runs the maintenance, whatever is open.
    pub(crate) fn keep(&mut self, alloc: Global, now: u64, age: u64, kept: &mut TxcKept) -> u32
        ensures { SiteKeepTransition now age kept.old kept.new self.old result self.new }
    {
        acts_leave_others();
        keep(alloc, &mut self.caller, now, age, kept)
    }

    /// Pins the newest state, and writes its stamp.
    pub(crate) fn pin(&mut self, alloc: Global, moment: u64, stamp: &mut u32) -> u32
        ensures { SitePinTransition moment stamp.old stamp.new self.old result self.new }
    {
        acts_leave_others();
        match self.caller.pin(alloc, moment) {
            Ok(pinned) => {
                *stamp = pinned.number();
                DONE
            }
            Err(error) => pin_number(error),
        }
    }
}
