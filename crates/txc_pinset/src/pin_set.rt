ghost use Rattle.std.specs.Prelude.{◌≡◌, ◌+◌, ◌<◌, ◌≤◌, ◌↔◌, [], All, IfOk, OnOk, OnErr, IsErr, MatchOption, true, vec_len, vec_capacity};
ghost use Rattle.std.specs.List.{filter, list_any};
ghost use Rattle.txc_cushion.specs.Pin.{pin_of};
ghost use Rattle.txc_pinset.specs.Members.{is_held_by, kept};

use crate::choice::Choice;
use std::alloc::{AllocError, Global};
use std::marker::Model;
use thiserror::Error;
use txc_cushion::{Pin, Pins, pin_of};
use txc_db::Pinned;
use txc_stamp::{Reach, Stamp};

/// Error: the reach holds no member, so the set would be empty.
#[derive(Clone, Copy, Debug, PartialEq, Eq, Error)]
#[error("the reach holds no stamp of the pin set")]
pub struct WouldEmpty;

/// The stamps at which a transaction may still be serialised. As long as it has read nothing, the present is
/// one of them, although it has no stamp yet.
///
/// Contracts see the members, the newest first, and whether the present is in the set. A pin set is never
/// empty: it has a member, or the present. Only [`PinSet::begin`] allocates.
#[derive(Drop)]
pub struct PinSet {
    members: Vec<Pin>,
    has_present: bool,
}

impl Model for PinSet {
    ghost use Rattle.std.specs.Prelude.{vec_capacity};
    ghost use Rattle.txc_pinset.specs.Members.{PinSetValue, IsHeld};

    ghost Value = { PinSetValue };

    ghost view = { λ p. record { members = p.members.items; has_present = p.has_present } };

    ghost invariant = { λ p. IsHeld (record { members = p.members.items; has_present = p.has_present }) (vec_capacity p.members) };
}

// Returns `true` if the reach holds the stamp of the pin.
fn is_held(reach: Reach, pin: &Pin) -> bool
    ensures { result ≡ is_held_by reach pin.now }
{
    reach.holds(pin.stamp)
}

// Returns `true` if the reach holds a member.
fn holds_one(reach: Reach, members: &[Pin]) -> bool
    ensures { result ≡ list_any (is_held_by reach) members.now }
{
    members.iter().any(|pin| is_held(reach, pin))
}

// Drops the members that the reach does not hold.
fn keep_held(members: &mut Vec<Pin>, reach: Reach)
    ensures { members.new.items ≡ kept reach members.old.items }
{
    members.retain(|pin| is_held(reach, pin));
}

impl PinSet {
    ghost use Rattle.txc_pinset.specs.Members.{begun_pin_set, narrowed, with_present, choice_of, AreBounds, IsPinSet};

    /// Makes a set of the issued pins and the present, with room for the present's pin. Fails only if memory
    /// cannot be allocated.
    pub fn begin(alloc: Global, pins: &Pins) -> Result<PinSet, AllocError>
        ensures { IfOk result (λ set. set ≡ begun_pin_set pins.now.pins.items) }
    {
        let mut members = Vec::with_capacity(alloc, pins.pins.len() + 1)?;
        members.extend_from_slice(&pins.pins)?;
        Ok(PinSet {
            members,
            has_present: true,
        })
    }

    /// In every pin set the members descend from the newest, and there is a member or the present. This is a
    /// lemma: it does nothing when it runs.
    pub fn is_pin_set(&self)
        ensures { IsPinSet self.now }
    {
        let _members = &self.members;
    }

    /// Returns `true` if the present is in the set.
    pub fn has_present(&self) -> bool
        ensures { result ≡ self.now.has_present }
    {
        self.has_present
    }

    /// Returns the members, the newest first.
    pub fn members(&self) -> &[Pin]
        ensures { result.now ≡ self.now.members }
    {
        &self.members
    }

    /// Returns the least and the greatest stamp of a member, or `None` if there is no member.
    pub fn bounds(&self) -> Option<(Stamp, Stamp)>
        ensures { MatchOption result (self.now.members ≡ []) (AreBounds self.now.members) }
    {
        let newest = self.members.first()?;
        let oldest = self.members.last()?;
        Some((oldest.stamp, newest.stamp))
    }

    /// Keeps the members that the reach holds, and drops the others and the present. Fails, and changes
    /// nothing, if no member would remain.
    pub fn narrow(&mut self, reach: Reach) -> Result<(), WouldEmpty>
        ensures after { OnOk result (self.new ≡ narrowed reach self.old) }
        ensures unchanged { OnErr result (self.new ≡ self.old) }
        ensures refused { IsErr result ↔ (kept reach self.old.members ≡ []) }
    {
        if holds_one(reach, &self.members) {
            keep_held(&mut self.members, reach);
            self.has_present = false;
            Ok(())
        } else {
            Err(WouldEmpty)
        }
    }

    /// Chooses where the next query runs: at the newest member. It chooses the present if there is no member,
    /// or if the set has the present and the newest member's time is more than `renew_after` before `now`. All
    /// are in milliseconds.
    pub fn choose(&self, now: u64, renew_after: u64) -> Choice
        ensures { result ≡ choice_of now renew_after self.now }
    {
        match self.members.first() {
            None => Choice::Present,
            Some(newest) => {
                if self.has_present && newest.is_older(renew_after, now) {
                    Choice::Present
                } else {
                    Choice::At(newest.stamp)
                }
            }
        }
    }

    /// Replaces the present by its pin, as the newest member.
    pub fn take_present(&mut self, pinned: &Pinned)
        requires present { self.old.has_present ≡ true }
        requires newest { All (λ m. m.stamp < pinned.now.stamp) self.old.members }
        ensures { self.new ≡ with_present (pin_of pinned.now) self.old }
    {
        self.members.insert(0, pin_of(pinned)).unwrap();
        self.has_present = false;
    }
}
