ghost use Rattle.std.specs.Prelude.{◌≡◌, IfErr, IfOk};
ghost use Rattle.txc_txn_rw.specs.RwCore.{IsBegun};

use crate::run_error::RunError;
use std::alloc::Global;
use std::sync::Wait;
use txc_app::App;
use txc_call_definition::{Definition, Function};
use txc_db::Naming;
use txc_txn_rw::RwTxn;

/// The read-write transaction of a change. Its reads do not see its own changes.
pub type ChangeTxn<'a, A, D, J> = RwTxn<'a, J, A, Function<D>>;

/// A change: the reads and writes of one read-write transaction. It is made again after each conflict.
pub trait Change<A: App, D: Definition> {
    ghost use Rattle.txc_txn_rw.specs.RwCore.{RwValue};
    ghost use Rattle.txc_site_ledger.specs.declared.run_error.RunError.{RunError};

    /// The result of the change.
    type Output: Drop;

    // Its relation to the committed transaction: to the base, the results and the changes.
    ghost makes: { Self → RwValue → Self.Output → Type 0 };

    // The errors with which it fails.
    ghost refuses: { Self → RunError → Type 0 };

    /// Makes the calls, the queries and the changes in the transaction, which is new. If it fails, the
    /// transaction is aborted.
    fn make<J: Naming, R: Wait>(
        &self,
        rt: &R,
        alloc: Global,
        txn: &mut ChangeTxn<'_, A, D, J>,
    ) -> Result<Self::Output, RunError>
        requires { IsBegun txn.old.core.base txn.old.core }
        ensures functions { txn.new.objects ≡ txn.old.objects }
        ensures makes { IfOk result (makes self.now txn.new.core) }
        ensures refused { IfErr result (refuses self.now) };
}
