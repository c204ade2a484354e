//! Pins that a client keeps from one transaction to the next.
ghost use Rattle.std.specs.Prelude.{◌≡◌, All, None, map, IfErr, IfOk, IfSome, MatchOption};
ghost use Rattle.txc_db.specs.History.{IsAllowed};
ghost use Rattle.txc_cushion.specs.Cushion.{cushion_front, handed_out};
ghost use Rattle.txc_cushion.specs.Refusals.{IsFirstUnused};
ghost use Rattle.txc_cushion.specs.Pincushion.{CushionMayAnswer};
ghost use Rattle.txc_txn_client.specs.PinLease.{HasBegunKept, IsKeptAfter};

use crate::handed::{Handed, hand_out};
use std::alloc::{AllocError, Global};
use std::marker::Model;
use std::sync::Wait;
use txc_cushion::{Pincushion, Pins, UnknownPin};
use txc_db::Naming;
use txc_txn_ports::Bounds;

// Returns the kept pins if they may be used. Otherwise returns them to the pincushion, and issues others.
fn renewed<J: Naming>(
    rt: &impl Wait,
    alloc: Global,
    cushion: &Pincushion<J>,
    most: u64,
    handed: Option<Handed>,
    bounds: &Bounds,
) -> Result<Handed, AllocError>
    requires { IfSome handed (λ handed. handed.front.events ≡ J.database_history) }
    ensures named { IfOk result (λ handed. handed.front.events ≡ J.database_history) }
    ensures kept { IfOk result
        (IsKeptAfter J.database_history bounds.entry.now (record { most = most; handed = handed })) }
{
    match handed {
        Some(handed) => {
            if handed.may_be_used(most, bounds) {
                return Ok(handed);
            }
            let _ = handed.give_back(rt, cushion);
        }
        None => {}
    }
    hand_out(rt, alloc, cushion, bounds)
}

/// Pins that a client keeps from one transaction to the next, for less than `most` milliseconds. Until they are
/// returned, no vacuum passes them.
///
/// It is linear: [`PinLease::give_back`] must consume it.
pub struct PinLease<'a, J: Naming> {
    cushion: &'a Pincushion<J>,
    most: u64,
    handed: Option<Handed>,
}

impl<'a, J: Naming> Model for PinLease<'a, J> {
    ghost use Rattle.std.specs.Prelude.{◌≡◌, IfSome};
    ghost use Rattle.txc_txn_client.specs.PinLease.{KeptValue};

    ghost Value = { KeptValue };

    ghost view = { λ k. record { most = k.most; handed = k.handed } };

    ghost invariant = { λ k. IfSome k.handed (λ handed. handed.front.events ≡ J.database_history) };
}

impl<'a, J: Naming> PinLease<'a, J> {
    pub(crate) fn new(cushion: &'a Pincushion<J>, most: u64) -> PinLease<'a, J>
        ensures { result ≡ record { most = most; handed = None } }
    {
        PinLease {
            cushion,
            most,
            handed: None,
        }
    }

    // Returns pins for a transaction with these bounds; the transaction returns none of them. If memory for the
    // first ones cannot be allocated, none are kept.
    pub(crate) fn fresh(
        self,
        rt: &impl Wait,
        alloc: Global,
        bounds: &Bounds,
    ) -> (Result<Pins, AllocError>, PinLease<'a, J>)
        ensures most { result.1.most ≡ self.entry.most }
        ensures named { IfOk result.0 (λ given. given.front.events ≡ J.database_history) }
        ensures allowed { IfOk result.0 (λ given. All (λ pin. IsAllowed given.front.history pin.stamp bounds.entry.now.now
            bounds.entry.now.staleness bounds.entry.now.at_least) given.pins.items) }
        ensures answer { IfOk result.0 (CushionMayAnswer J.database_history (λ c given.
            (given.pins.items ≡ handed_out c bounds.entry.now.now bounds.entry.now.staleness bounds.entry.now.at_least)
            × (given.front ≡ cushion_front c))) }
        ensures kept { IfOk result.0 (λ given. HasBegunKept J.database_history bounds.entry.now self.entry result.1
            given.pins.items given.front) }
    {
        let PinLease {
            cushion,
            most,
            handed,
        } = self;
        match renewed(rt, alloc, cushion, most, handed, bounds) {
            Ok(handed) => {
                let pins = handed.fresh(alloc, bounds);
                let handed = Some(handed);
                let kept = PinLease {
                    cushion,
                    most,
                    handed,
                };
                (pins, kept)
            }
            Err(error) => (Err(error), PinLease::new(cushion, most)),
        }
    }

    /// Returns the pins to the pincushion. The client begins no more transactions with them. Fails if one of
    /// them has no user left. Does not allocate.
    pub fn give_back(self, rt: &impl Wait) -> Result<(), UnknownPin>
        ensures refused { IfErr result (λ unknown. MatchOption self.entry.handed ⊥ (λ handed.
            CushionMayAnswer J.database_history (λ c stamp.
            IsFirstUnused c.entries (map (λ pin. pin.stamp) handed.pins) stamp) unknown.stamp)) }
    {
        let PinLease {
            cushion,
            most: _,
            handed,
        } = self;
        match handed {
            Some(handed) => handed.give_back(rt, cushion),
            None => Ok(()),
        }
    }
}
