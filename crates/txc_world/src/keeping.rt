//! The keeper's steps, by kind.
ghost use Rattle.txc_world.specs.KeeperStep.{IsKeeperStep};

use crate::port_outcome::with_rows;
use crate::ports::Ports;
use crate::reply::{Refusal, Reply};
use crate::step::KeeperStep;
use std::alloc::Global;
use txc_app::App;

/// Makes a step of the keeper.
pub(crate) fn keep<A: App>(alloc: Global, ports: &mut Ports<A>, keep: &KeeperStep) -> Reply
    ensures { IsKeeperStep keep.now ports.old ports.new result }
{
    match keep {
        KeeperStep::Write(change) => ports.write(alloc, change),
        KeeperStep::Pin(now) => match ports.pin_spare(alloc, *now) {
            Ok(stamp) => Reply::At(stamp),
            Err(refusal) => Reply::Refused(Refusal::Database(refusal)),
        },
        KeeperStep::Add(stamp) => ports.add_spare(*stamp),
        KeeperStep::GiveBack(stamp) => match ports.give_back(&[*stamp]) {
            Ok(()) => Reply::GivenBack,
            Err(unknown) => Reply::Refused(Refusal::GiveBack(unknown)),
        },
        KeeperStep::Retire { now, age } => ports.retire(alloc, *now, *age),
        KeeperStep::Unpin(stamp) => match ports.unpin(*stamp) {
            Ok(()) => Reply::Unpinned,
            Err(refusal) => Reply::Refused(Refusal::Database(refusal)),
        },
        KeeperStep::Vacuum => ports.vacuum(),
        KeeperStep::Query(stamp, query) => {
            match with_rows(alloc, ports.answer(alloc, query, *stamp)) {
                Ok((_found, rows)) => Reply::Rows(rows),
                Err(refusal) => Reply::Refused(Refusal::Database(refusal)),
            }
        }
        KeeperStep::Advance(node) => ports.advance(alloc, *node),
        KeeperStep::Sweep(node, horizon) => ports.sweep(alloc, *node, *horizon),
    }
}
