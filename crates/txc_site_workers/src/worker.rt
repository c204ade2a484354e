ghost use Rattle.std.specs.Prelude.{IfSome, IsSome};
ghost use Rattle.txc_site_workers.specs.Sites.{IsNewClient};

use crate::client::SiteClient;
use std::alloc::Global;
use std::sync::Wait;
use txc_app::App;
use txc_call_definition::Definition;
use txc_db::Naming;

/// The work of each thread of a site. It is generic in the identity of the site's histories, so that nothing of
/// one site is used with another.
pub trait Worker<A: App, D: Definition> {
    ghost use Rattle.std.specs.Prelude.{ℕ};
    ghost use Rattle.txc_stream.specs.Names.{Name};
    ghost use Rattle.txc_site_workers.specs.declared.plan.Plan.{Plan};

    /// The result of a thread.
    type Output: Send + Drop;

    // The result of the thread of a number, at a site of that plan, over a database with that history.
    ghost gives: { Self → Plan → Name → ℕ → Self.Output → Type 0 };

    /// Does the work of the thread of that number, by a client of its own, which is new and which it takes.
    fn run<J: Naming + Send + Sync, R: Wait>(
        &self,
        rt: &R,
        alloc: Global,
        number: usize,
        client: &mut Option<SiteClient<'_, A, D, J>>,
    ) -> Self::Output
        requires some { IsSome client.old }
        requires new { IfSome client.old (IsNewClient J.node_histories) }
        ensures { IfSome client.old (λ client. gives self.now client.plan J.database_history number result) };
}
