ghost use Rattle.std.specs.Prelude.{◌≡◌, ◌<◌, true, vec_len, vec_capacity, ◌≤◌, All, IfErr, IfOk, map};
ghost use Rattle.txc_db.specs.History.{History};
ghost use Rattle.txc_app.specs.Eval.{Next};
ghost use Rattle.txc_call_registry.specs.Objects.{AllIdle, Objects};
ghost use Rattle.txc_txn_ports.specs.Answers.{IsFresh};
ghost use Rattle.txc_pinset.specs.Members.{choice_of};

mod answers;
mod by_hand;
mod hearing;
mod steps;
mod turns;

use crate::pinning::Pinning;
use std::alloc::{AllocError, Global};
use txc_call::CallMachine;
use txc_cushion::{Pin, Pins};
use txc_db::HistoryFront;
use txc_pinset::{Choice, PinSet};
use txc_stamp::Stamp;
use txc_txn_ports::{Bounds, Recorded};

/// A read-only transaction that makes one port request at a time, and continues with the reply.
///
/// It has no lock, no thread and no clock. Each call is lent the registry of its functions, always the same
/// one.
#[derive(Drop)]
pub struct TxnCore {
    bounds: Bounds,
    renew_after: u64,
    nodes: usize,
    pins: PinSet,
    // The stamps that were issued to it or added by it, each of which has a user for it.
    taken: Vec<Stamp>,
    recorded: Vec<Recorded>,
    machine: CallMachine,
    pub(crate) pinning: Option<Pinning>,
    seen: HistoryFront,
    ghost room: { pins.has_present ≡ true → vec_len taken < vec_capacity taken },
}

// Returns the stamps of the pins, with room for one more.
fn stamps_of(alloc: Global, pins: &[Pin]) -> Result<Vec<Stamp>, AllocError>
    ensures stamps { IfOk result (λ stamps. stamps.items ≡ map (λ p. p.stamp) pins.now) }
    ensures room { IfOk result (λ stamps. vec_len stamps < vec_capacity stamps) }
{
    let mut stamps: Vec<Stamp> = pins.iter().map(|pin| pin.stamp).collect(alloc)?;
    stamps.reserve(1)?;
    Ok(stamps)
}

impl TxnCore {
    ghost use Rattle.txc_txn.specs.TxnCore.{begun_core, value_of};
    ghost use Rattle.txc_txn.specs.TxnCore.{CoreHolds, IsCore, IsIdle};

    /// Begins with the pins that were issued for its bounds. `nodes` is the number of nodes. It renews its
    /// newest pin if that one's time is more than `renew_after` milliseconds before the bounds' `now`. If
    /// memory cannot be allocated, it returns the pins, which the caller must then return to the pincushion.
    pub fn begin(
        alloc: Global,
        nodes: usize,
        renew_after: u64,
        bounds: Bounds,
        pins: Pins,
    ) -> Result<TxnCore, Pins>
        requires { 1 ≤ nodes }
        ensures fits { IfOk result (λ core. (next : Next) (objects : Objects) → AllIdle objects
            → IsCore next objects (value_of core)) }
        ensures holds { IfOk result (λ core. (next : Next) (L : History) (objects : Objects)
            → All (IsFresh L bounds) pins.pins.items → CoreHolds next L objects (value_of core)) }
        ensures idle { IfOk result (λ core. IsIdle (value_of core)) }
        ensures answer { IfOk result (λ core. value_of core
            ≡ begun_core nodes renew_after bounds pins (value_of core).call) }
        ensures handed_back { IfErr result (λ given. given ≡ pins) }
    {
        let Ok(set) = PinSet::begin(alloc, &pins) else {
            return Err(pins);
        };
        let Ok(taken) = stamps_of(alloc, &pins.pins) else {
            return Err(pins);
        };
        let Pins { pins: _, front, .. } = pins;
        Ok(TxnCore {
            bounds,
            renew_after,
            nodes,
            pins: set,
            taken,
            recorded: Vec::new(alloc),
            machine: CallMachine::new(alloc),
            pinning: None,
            seen: front,
        })
    }

    /// Returns where its next query runs: at the newest member, or at the present, which is pinned first.
    pub fn choice(&self) -> Choice
        ensures { result ≡ choice_of self.now.bounds.now self.now.renew_after self.now.pins }
    {
        self.pins.choose(self.bounds.now, self.renew_after)
    }

    /// Returns the members of the pin set, the newest first.
    pub fn members(&self) -> &[Pin]
        ensures { result.now ≡ (value_of self.now).pins.members }
    {
        self.pins.members()
    }

    /// Returns `true` if the pin set has the present.
    pub fn has_present(&self) -> bool
        ensures { result ≡ (value_of self.now).pins.has_present }
    {
        self.pins.has_present()
    }

    /// Returns the completed calls, in order.
    pub fn answers(&self) -> &[Recorded]
        ensures { result.now ≡ (value_of self.now).recorded }
    {
        &self.recorded
    }

    /// Returns a front of the history that it has seen.
    pub fn seen(&self) -> &HistoryFront
        ensures { result.now ≡ (value_of self.now).seen }
    {
        &self.seen
    }
}
