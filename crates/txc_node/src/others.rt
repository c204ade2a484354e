//! Places that are listed after another one.
ghost use Rattle.std.specs.Prelude.{◌≡◌, ◌<◌, ◌↔◌, ◌++◌, [], length, true, false, IsSome, OnOk, IfOk};
ghost use Rattle.std.specs.Option.{option_to_list};
ghost use Rattle.txc_node.specs.declared.place.Place.{Place};
ghost use Rattle.txc_node.specs.Places.{equal_places};
ghost use Rattle.txc_node.specs.IndexedEntries.{has_place, is_live};

use crate::keyed::KeyedEntries;
use crate::place::Place;
use indexmap::IndexSet;
use std::alloc::{AllocError, Global};
use std::marker::Model;

/// Places that are listed after another one. Mostly there are none, so their set has a block of its own.
#[derive(Debug, Drop)]
pub(crate) struct Others {
    set: Option<Box<IndexSet<Place>>>,
}

impl Model for Others {
    ghost use Rattle.std.specs.Prelude.{List, [], unwrap_or, option_map};
    ghost use Rattle.txc_node.specs.declared.place.Place.{Place};

    ghost Value = { List Place };

    ghost view = { λ o. unwrap_or (option_map (λ b. b.value.keys) o.set) [] };
}

// Returns `true` if the place has a still valid entry.
pub(crate) fn is_live(entries: &KeyedEntries, place: &Place) -> bool
    ensures { result ≡ is_live entries.now.entries place.now }
{
    match entries.get(place) {
        None => false,
        Some(stored) => stored.reach.is_still(),
    }
}

// Keeps the places of still valid entries.
fn clean(places: &mut IndexSet<Place>, entries: &KeyedEntries)
    ensures { (q : Place) → is_live entries.now.entries q ≡ true
        → has_place places.old.keys q ≡ true → has_place places.new.keys q ≡ true }
{
    for i in (0..places.len()).rev() {
        let stays = match places.get_index(i) {
            None => true,
            Some(place) => is_live(entries, place),
        };
        if !stays {
            places.swap_remove_index(i);
        }
    }
}

// Makes a set of one place.
fn one(alloc: Global, place: Place) -> Result<IndexSet<Place>, AllocError>
    ensures { IfOk result (λ set. has_place set.keys place ≡ true) }
{
    let mut set = IndexSet::new(alloc);
    set.insert(place)?;
    Ok(set)
}

// Adds a place to a set.
fn insert(set: &mut IndexSet<Place>, place: Place) -> Result<(), AllocError>
    ensures listed { OnOk result (has_place set.new.keys place ≡ true) }
    ensures kept { (q : Place) → has_place set.old.keys q ≡ true → has_place set.new.keys q ≡ true }
{
    set.insert(place)?;
    Ok(())
}

// Removes a place from a set.
fn remove(set: &mut IndexSet<Place>, place: &Place)
    ensures { (q : Place) → equal_places place.now q ≡ false
        → has_place set.old.keys q ≡ true → has_place set.new.keys q ≡ true }
{
    set.swap_remove(place);
}

impl Others {
    /// Makes an empty list.
    pub(crate) fn none() -> Others
        ensures { result ≡ [] }
    {
        Others { set: None }
    }

    /// Returns the places.
    pub(crate) fn as_slice(&self) -> &[Place]
        ensures { result.now ≡ self.now }
    {
        match &self.set {
            None => &[],
            Some(set) => set.as_slice(),
        }
    }

    /// Adds a place. Fails if there is no memory for it; the listed places stay.
    pub(crate) fn add(&mut self, alloc: Global, place: Place) -> Result<(), AllocError>
        ensures listed { OnOk result (has_place self.new place ≡ true) }
        ensures kept { (q : Place) → has_place self.old q ≡ true → has_place self.new q ≡ true }
    {
        if let Some(set) = &mut self.set {
            return insert(set, place);
        }
        self.set = Some(Box::new(alloc, one(alloc, place)?)?);
        Ok(())
    }

    /// Removes the last place, and returns it.
    pub(crate) fn pop(&mut self) -> Option<Place>
        ensures places { self.old ≡ self.new ++ option_to_list result }
        ensures found { IsSome result ↔ (0 < length self.old) }
    {
        match &mut self.set {
            None => None,
            Some(set) => set.pop(),
        }
    }

    /// Removes a place.
    pub(crate) fn remove(&mut self, place: &Place)
        ensures { (q : Place) → equal_places place.now q ≡ false
            → has_place self.old q ≡ true → has_place self.new q ≡ true }
    {
        if let Some(set) = &mut self.set {
            remove(set, place);
        }
    }

    /// Keeps the places of still valid entries.
    pub(crate) fn clean(&mut self, entries: &KeyedEntries)
        ensures { (q : Place) → is_live entries.now.entries q ≡ true
            → has_place self.old q ≡ true → has_place self.new q ≡ true }
    {
        if let Some(set) = &mut self.set {
            clean(set, entries);
        }
    }
}
