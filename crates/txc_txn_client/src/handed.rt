//! Issued pins that a client keeps.
ghost use Rattle.std.specs.Prelude.{◌≡◌, All, nat_le, filter, map, IfErr, IfOk};
ghost use Rattle.std.specs.List.{list_all, list_any};
ghost use Rattle.txc_db.specs.History.{IsAllowed};
ghost use Rattle.txc_cushion.specs.Cushion.{cushion_front, handed_out};
ghost use Rattle.txc_cushion.specs.Refusals.{IsFirstUnused};
ghost use Rattle.txc_cushion.specs.Pincushion.{CushionMayAnswer};
ghost use Rattle.txc_txn_client.specs.PinLease.{is_fresh, fresh_of, may_be_used, IsHandedFor};

use crate::client::give_back_each;
use std::alloc::{AllocError, Global};
use std::marker::Model;
use std::sync::Wait;
use txc_cushion::{Pin, Pincushion, Pins, UnknownPin};
use txc_db::Naming;
use txc_stamp::Stamp;
use txc_txn_ports::Bounds;

/// Pins that were issued, each with a user for them, and their stamps, by which they are returned. It is
/// linear: they must be returned.
pub(crate) struct Handed {
    pins: Pins,
    stamps: Vec<Stamp>,
    since: u64,
}

impl Model for Handed {
    ghost use Rattle.std.specs.Prelude.{◌≡◌, map};
    ghost use Rattle.txc_txn_client.specs.PinLease.{HandedValue};

    ghost Value = { HandedValue };

    ghost view = { λ h. record { pins = h.pins.pins.items; front = h.pins.front; since = h.since } };

    ghost invariant = { λ h. h.stamps.items ≡ map (λ pin. pin.stamp) h.pins.pins.items };
}

// Returns `true` if a transaction with these bounds may use the pin.
fn is_fresh(pin: Pin, bounds: &Bounds) -> bool
    ensures { result ≡ is_fresh bounds.entry.now pin }
{
    !pin.is_older(bounds.staleness, bounds.now) && bounds.at_least <= pin.stamp
}

// Returns the fresh pins.
fn fresh_pins(alloc: Global, pins: &[Pin], bounds: &Bounds) -> Result<Vec<Pin>, AllocError>
    ensures { IfOk result (λ fresh. fresh.items ≡ filter (is_fresh bounds.entry.now) pins.now) }
{
    pins.iter()
        .filter(|pin| is_fresh(**pin, bounds))
        .map(|pin| *pin)
        .collect(alloc)
}

// Returns `true` if none of the pins is below the stamp.
fn are_not_below(pins: &[Pin], at_least: Stamp) -> bool
    ensures { result ≡ list_all (λ p. nat_le at_least p.stamp) pins.now }
{
    pins.iter().all(|pin| at_least <= pin.stamp)
}

// Returns `true` if one of the pins is fresh.
fn has_fresh(pins: &[Pin], bounds: &Bounds) -> bool
    ensures { result ≡ list_any (is_fresh bounds.entry.now) pins.now }
{
    pins.iter().any(|pin| is_fresh(*pin, bounds))
}

// Returns the stamps of the pins.
fn stamps_of(alloc: Global, pins: &[Pin]) -> Result<Vec<Stamp>, AllocError>
    ensures { IfOk result (λ stamps. stamps.items ≡ map (λ pin. pin.stamp) pins.now) }
{
    pins.iter().map(|pin| pin.stamp).collect(alloc)
}

impl Handed {
    /// Returns `true` if a transaction may begin with them.
    pub(crate) fn may_be_used(&self, most: u64, bounds: &Bounds) -> bool
        ensures { result ≡ may_be_used most bounds.entry.now self.now }
    {
        self.since <= bounds.now
            && u128::from(bounds.now) < u128::from(self.since) + u128::from(most)
            && are_not_below(&self.pins.pins, bounds.at_least)
            && has_fresh(&self.pins.pins, bounds)
    }

    /// Returns the fresh ones. It takes no lock, and adds no user: the users of the kept pins count for these.
    /// Fails only if memory cannot be allocated.
    pub(crate) fn fresh(&self, alloc: Global, bounds: &Bounds) -> Result<Pins, AllocError>
        ensures pins { IfOk result (λ given. given.pins.items ≡ fresh_of bounds.entry.now self.now) }
        ensures front { IfOk result (λ given. given.front ≡ self.now.front) }
        ensures allowed { IfOk result (λ given. All (λ pin. IsAllowed given.front.history pin.stamp bounds.entry.now.now
            bounds.entry.now.staleness bounds.entry.now.at_least) given.pins.items) }
        ensures answer { IfOk result (CushionMayAnswer self.now.front.events (λ c given.
            (given.pins.items ≡ handed_out c bounds.entry.now.now bounds.entry.now.staleness bounds.entry.now.at_least)
            × (given.front ≡ cushion_front c))) }
    {
        let pins = fresh_pins(alloc, &self.pins.pins, bounds)?;
        let front = self.pins.front.again()?;
        Ok(Pins { pins, front })
    }

    /// Removes one user of each pin. Fails if a stamp has no user left. Does not allocate.
    pub(crate) fn give_back<J: Naming>(
        self,
        rt: &impl Wait,
        cushion: &Pincushion<J>,
    ) -> Result<(), UnknownPin>
        ensures refused { IfErr result (CushionMayAnswer J.database_history (λ c unknown.
            IsFirstUnused c.entries (map (λ pin. pin.stamp) self.pins) unknown.stamp)) }
    {
        let Handed {
            pins: _,
            stamps,
            since: _,
        } = self;
        cushion.give_back(rt, &stamps)
    }
}

/// Issues pins for these bounds. If memory cannot be allocated, they are returned to the pincushion.
pub(crate) fn hand_out<J: Naming>(
    rt: &impl Wait,
    alloc: Global,
    cushion: &Pincushion<J>,
    bounds: &Bounds,
) -> Result<Handed, AllocError>
    ensures named { IfOk result (λ handed. handed.front.events ≡ J.database_history) }
    ensures handed { IfOk result (IsHandedFor J.database_history bounds.entry.now) }
{
    let Bounds {
        now,
        staleness,
        at_least,
    } = *bounds;
    let pins = cushion.fresh(rt, alloc, now, staleness, at_least)?;
    match stamps_of(alloc, &pins.pins) {
        Ok(stamps) => Ok(Handed {
            pins,
            stamps,
            since: now,
        }),
        Err(error) => {
            give_back_each(rt, cushion, &pins);
            Err(error)
        }
    }
}
