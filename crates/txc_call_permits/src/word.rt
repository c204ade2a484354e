//! The word of a pool: its rule, which holds between any two steps, and its steps.
use atomic_table::{Play, Split, Table, TableRule};
use std::alloc::Global;

/// The word is the number of seats with a permit, and at most the pool's number of permits.
pub struct CountsPermits;

impl TableRule<(), bool, u64> for CountsPermits {
    ghost use Rattle.txc_call_permits.specs.PermitPool.{IsCounted};
    ghost use Rattle.std.specs.Prelude.{false};

    ghost holds = { IsCounted };

    ghost first = { λ _. false };
}

/// One more permit is out.
pub(crate) struct Take;

impl Play<(), bool> for Take {
    ghost use Rattle.txc_call_permits.specs.PermitPool.{takes_one};

    ghost then = { takes_one };
}

/// One fewer permit is out.
pub(crate) struct Give;

impl Play<(), bool> for Give {
    ghost use Rattle.txc_call_permits.specs.PermitPool.{gives_one};

    ghost then = { gives_one };
}

/// A new seat, which has no permit.
pub(crate) struct SeatOneMore;

impl Split<bool> for SeatOneMore {
    ghost use Rattle.std.specs.Prelude.{false};

    ghost left = { λ _. false };

    ghost right = { λ _. false };
}

pub(crate) type Word = Table<(), bool, u64, CountsPermits, Global>;
