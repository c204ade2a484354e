ghost use Rattle.std.specs.Prelude.{◌≡◌, [], IfErr, IfOk};
ghost use Rattle.txc_tags.specs.Keys.{IsKeyRefusal};

use crate::page_txn::{Begun, PageTxn};
use std::alloc::Global;
use std::sync::Wait;
use txc_app::App;
use txc_call_definition::Definition;
use txc_db::Naming;
use txc_node::Value;
use txc_site_ledger::RunError;
use txc_tags::{Key, KeyError};

/// A page: reads in one read-only transaction, by calls of the application's functions.
pub trait Page<A: App, D: Definition> {
    ghost use Rattle.std.specs.Prelude.{List};
    ghost use Rattle.txc_txn_ports.specs.declared.recorded.Recorded.{Recorded};
    ghost use Rattle.txc_site_ledger.specs.declared.run_error.RunError.{RunError};

    /// The content of the page.
    type Output;

    // Its relation to the calls that it made, in order, with their values.
    ghost shows: { Self → List Recorded → Self.Output → Type 0 };

    // The errors with which it fails.
    ghost refuses: { Self → RunError → Type 0 };

    /// Makes the calls in the transaction, which is new. If it fails, the transaction is aborted.
    fn show<J: Naming, B: Begun, R: Wait>(
        &self,
        rt: &R,
        alloc: Global,
        txn: &mut PageTxn<'_, A, D, J, B>,
    ) -> Result<Self::Output, RunError>
        requires { txn.old.txn.core.recorded ≡ [] }
        ensures shows { IfOk result (shows self.now txn.new.txn.core.recorded) }
        ensures refused { IfErr result (refuses self.now) };
}

/// The page of one call. Its content is the call's value.
#[derive(Drop)]
pub struct OneCall {
    pub key: Key,
}

impl OneCall {
    /// Makes the page of the call of a function with these arguments. Fails if they are not a key. Does not
    /// allocate.
    pub fn new(function: u8, args: &[u32]) -> Result<OneCall, KeyError>
        ensures answer { IfOk result (λ page. page.key ≡ record { function = function; args = args.now }) }
        ensures refused { IfErr result (IsKeyRefusal function args.now) }
    {
        Ok(OneCall {
            key: Key::new(function, args)?,
        })
    }
}

impl<A: App, D: Definition> Page<A, D> for OneCall {
    ghost use Rattle.std.specs.Prelude.{◌≡◌, [], ◌∷◌};
    ghost use Rattle.txc_site_pages.specs.Pages.{IsOfTxn};

    type Output = Value;

    ghost shows = { λ page calls value. calls ≡ record { key = page.key; value = value } ∷ [] };

    ghost refuses = { λ page. IsOfTxn };

    fn show<J: Naming, B: Begun, R: Wait>(
        &self,
        rt: &R,
        alloc: Global,
        txn: &mut PageTxn<'_, A, D, J, B>,
    ) -> Result<Value, RunError> {
        Ok(txn.call(rt, alloc, self.key.copy())?)
    }
}
