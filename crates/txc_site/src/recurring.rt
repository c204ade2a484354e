use txc_app::App;
use txc_call_definition::Definition;
use txc_db::HistoryFront;
use txc_site_keeper::{KeeperTotals, SiteError};
use txc_site_workers::{SiteStats, Worker};

/// A generation of a site that has ended: each has a database and nodes of its own.
#[derive(Drop)]
pub struct Generation<T> {
    /// Its number, from 0 on.
    pub number: usize,
    /// The history of its database at its beginning.
    pub begun: HistoryFront,
    /// The whole history of its database, once all threads had ended.
    pub ended: HistoryFront,
    /// Result of each thread, in the order of their numbers.
    pub outputs: Vec<T>,
    /// Result of the automatic maintenance, or its error; `None` if the plan has none.
    pub tended: Option<Result<KeeperTotals, SiteError>>,
    /// Counts of the threads' work in all.
    pub stats: SiteStats,
}

/// Workers that are asked after each generation of a site whether another one is to follow.
pub trait Recurring<A: App, D: Definition>: Worker<A, D> {
    ghost use Rattle.std.specs.Prelude.{Bool};
    ghost use Rattle.txc_site.specs.declared.recurring.Generation.{Generation};

    // The relation of the answer to a generation.
    ghost continues: { Self → Generation Self.Output → Bool → Type 0 };

    /// Returns `true` if another generation shall follow this one, which is dropped afterwards.
    fn should_continue(&self, generation: &Generation<Self::Output>) -> bool
        ensures { continues self.now generation.now result };
}
