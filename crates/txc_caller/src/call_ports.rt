ghost use Rattle.std.specs.Prelude.{◌≡◌};
ghost use Rattle.txc_caller.specs.Ports.{HasGrownDatabase, IsLetGo};

use std::alloc::Global;
use txc_app::App;
use txc_db::HistoryFront;
use txc_stamp::Stamp;
use txc_txn_ports::{PortReply, PortRequest};

/// The ports of a call.
pub(crate) trait CallPorts<A: App> {
    ghost use Rattle.txc_caller.specs.Ports.{CallerPorts, HasAskedPorts};
    ghost use Rattle.txc_txn_ports.specs.PortRequests.{MayAsk};

    // Their value in contracts.
    ghost ports: { Self → CallerPorts };

    /// Makes the transaction's request. `seen` is the history that the transaction has seen.
    fn ask(&mut self, alloc: Global, seen: &HistoryFront, request: PortRequest) -> PortReply
        requires row { seen.now.events ≡ (ports self.old).database.events }
        requires may { MayAsk A.next (ports self.old).database.events 1 seen.now.history request }
        ensures { HasAskedPorts A.next seen.now request (ports self.old) (ports self.new) result };

    /// Removes the hold of a pin that was not added, if there is one. Does not allocate.
    fn let_go(&mut self, unpin: Option<Stamp>)
        ensures unpinned { IsLetGo unpin (ports self.old).database (ports self.new).database }
        ensures same { ports self.new ≡ record (ports self.old) { database = (ports self.new).database } }
        ensures grown { HasGrownDatabase (ports self.old).database (ports self.new).database };
}
