//! The queues of a batch, and the rule for the items of each.
ghost use Rattle.std.specs.Prelude.{ℕ, All, Contains, IfSome, List};
ghost use Rattle.crossbeam_queue.specs.Passes.{IsPassOf, IsSamePass};
ghost use Rattle.txc_work.specs.Batches.{IsResultOf};
ghost use Rattle.txc_work.specs.declared.job.Job.{Job};
ghost use Rattle.txc_work.specs.declared.job.Outcome.{Outcome};

use crate::job::{Job, Outcome, Receipted};
use crossbeam_queue::protocol::{self, Lesson, Protocol, Split};
use crossbeam_queue::{Pass, RuledArrayQueue};
use std::marker::{Brand, PhantomData};
use std::sync::Wait;

/// Names the jobs of a batch, the functions of its clients, and the relation of an outcome to its job. Generic
/// code in it is called at [`Brand`] once the jobs exist.
pub(crate) trait Batch {
    ghost jobs: { List Job };

    ghost functions: { List ℕ };

    ghost meets: { Job → Outcome → Type 0 };
}

impl Batch for Brand {
    ghost use Rattle.std.specs.Prelude.{[], ⊤};

    ghost jobs = { [] };

    ghost functions = { [] };

    ghost meets = { λ job outcome. ⊤ };
}

/// The rule of the queue of jobs: each item is a job of the batch.
pub(crate) struct JobRule<B> {
    of: PhantomData<B>,
}

impl<B: Batch> Protocol<Job, ()> for JobRule<B> {
    ghost use Rattle.std.specs.Prelude.{All, Contains};

    ghost holds = { λ items views. All (Contains B.jobs) items };

    ghost first = { tt };
}

/// The rule of the queue of results: each item is the outcome of a job of the batch, with its number.
pub(crate) struct ResultRule<B> {
    of: PhantomData<B>,
}

impl<B: Batch> Protocol<Receipted, ()> for ResultRule<B> {
    ghost use Rattle.std.specs.Prelude.{All};
    ghost use Rattle.txc_work.specs.Batches.{IsResultOf};

    ghost holds = { λ items views. All (IsResultOf B.jobs B.meets) items };

    ghost first = { tt };
}

/// A pass is split in two that know as little as it.
pub(crate) struct Twins;

impl Split<()> for Twins {
    ghost left = { λ view. tt };

    ghost right = { λ view. tt };
}

/// The knowledge after a push: none.
struct Put;

impl<T> protocol::Outcome<T, ()> for Put {
    ghost use Rattle.std.specs.Prelude.{⊤};

    ghost then = { λ view item after. ⊤ };
}

impl<T> Lesson<T, ()> for Put {
    ghost use Rattle.std.specs.Prelude.{⊤};

    ghost fact = { λ view items. ⊤ };
}

/// The knowledge after a pop: the rule holds for its item.
struct Taken<B> {
    of: PhantomData<B>,
}

impl<B: Batch> protocol::Outcome<Job, ()> for Taken<B> {
    ghost use Rattle.std.specs.Prelude.{Contains};

    ghost then = { λ view job after. Contains B.jobs job };
}

impl<B: Batch> Lesson<Job, ()> for Taken<B> {
    ghost use Rattle.std.specs.Prelude.{⊤};

    ghost fact = { λ view items. ⊤ };
}

impl<B: Batch> protocol::Outcome<Receipted, ()> for Taken<B> {
    ghost use Rattle.txc_work.specs.Batches.{IsResultOf};

    ghost then = { λ view told after. IsResultOf B.jobs B.meets told };
}

impl<B: Batch> Lesson<Receipted, ()> for Taken<B> {
    ghost use Rattle.std.specs.Prelude.{⊤};

    ghost fact = { λ view items. ⊤ };
}

pub(crate) type JobQueue<B> = RuledArrayQueue<Job, (), JobRule<B>>;

pub(crate) type ResultQueue<B> = RuledArrayQueue<Receipted, (), ResultRule<B>>;

// Puts a job of the batch into the queue, if there is room.
fn put_job<B: Batch, R: Wait>(rt: &R, queue: &JobQueue<B>, pass: &mut Pass<Job, ()>, job: Job)
    requires queue { IsPassOf queue.now pass.old }
    requires of_batch { Contains B.jobs job }
    ensures queue { IsSamePass pass.old pass.new }
{
    let _ = queue.push_as::<Put, R>(rt, pass, job);
}

/// Puts jobs of the batch into the queue, in order, as far as there is room.
pub(crate) fn put_jobs<B: Batch, R: Wait>(
    rt: &R,
    queue: &JobQueue<B>,
    mut pass: Pass<Job, ()>,
    jobs: Vec<Job>,
)
    requires queue { IsPassOf queue.now pass }
    requires of_batch { All (Contains B.jobs) jobs.items }
{
    for job in jobs {
        put_job(rt, queue, &mut pass, job);
    }
}

/// Returns the next job of the batch, or `None` if all were taken.
pub(crate) fn next_job<B: Batch, R: Wait>(
    rt: &R,
    queue: &JobQueue<B>,
    pass: &mut Pass<Job, ()>,
) -> Option<Job>
    requires queue { IsPassOf queue.now pass.old }
    ensures queue { IsSamePass pass.old pass.new }
    ensures of_batch { IfSome result (Contains B.jobs) }
{
    queue.pop_as::<Taken<B>, R>(rt, pass)
}

/// Puts the result of a job of the batch into the queue, if there is room.
pub(crate) fn put_result<B: Batch, R: Wait>(
    rt: &R,
    queue: &ResultQueue<B>,
    pass: &mut Pass<Receipted, ()>,
    told: Receipted,
)
    requires queue { IsPassOf queue.now pass.old }
    requires of_batch { IsResultOf B.jobs B.meets told }
    ensures queue { IsSamePass pass.old pass.new }
{
    let _ = queue.push_as::<Put, R>(rt, pass, told);
}

/// Returns the next result of a job of the batch, if there is one.
pub(crate) fn next_result<B: Batch, R: Wait>(
    rt: &R,
    queue: &ResultQueue<B>,
    pass: &mut Pass<Receipted, ()>,
) -> Option<Receipted>
    requires queue { IsPassOf queue.now pass.old }
    ensures queue { IsSamePass pass.old pass.new }
    ensures of_batch { IfSome result (IsResultOf B.jobs B.meets) }
{
    queue.pop_as::<Taken<B>, R>(rt, pass)
}
