//! Places that are listed under the same rows.
ghost use Rattle.std.specs.Prelude.{List, ◌≡◌, ◌∷◌, [], true, false, OnOk, IsTrue, IsFalse};
ghost use Rattle.std.specs.List.{AllByRecursion};
ghost use Rattle.txc_node.specs.declared.place.Place.{Place};
ghost use Rattle.txc_node.specs.Places.{equal_places};
ghost use Rattle.txc_node.specs.IndexedEntries.{Closes, IsSpared, has_place, is_live};

use crate::closing::Closing;
use crate::keyed::KeyedEntries;
use crate::others::{Others, is_live};
use crate::place::Place;
use std::alloc::{AllocError, Global};
use std::marker::Model;

/// Places that are listed together, at least one. A single place allocates nothing of its own.
#[derive(Debug, Drop)]
pub(crate) struct Bucket {
    first: Place,
    others: Others,
}

impl Model for Bucket {
    ghost use Rattle.std.specs.Prelude.{List, ◌∷◌};
    ghost use Rattle.txc_node.specs.declared.place.Place.{Place};

    ghost Value = { List Place };

    ghost view = { λ b. b.first ∷ b.others };
}

impl Bucket {
    /// Makes a list of one place.
    pub(crate) fn one(place: Place) -> Bucket
        ensures { result ≡ place ∷ [] }
    {
        Bucket {
            first: place,
            others: Others::none(),
        }
    }

    /// Returns the first place, and the others.
    pub(crate) fn parts(&self) -> (&Place, &[Place])
        ensures { self.now ≡ result.0.now ∷ result.1.now }
    {
        (&self.first, self.others.as_slice())
    }

    /// Adds a place. Fails if there is no memory for it; the listed places stay.
    pub(crate) fn add(&mut self, alloc: Global, place: &Place) -> Result<(), AllocError>
        ensures listed { OnOk result (has_place self.new place.now ≡ true) }
        ensures kept { (q : Place) → has_place self.old q ≡ true → has_place self.new q ≡ true }
    {
        if self.first != *place {
            self.others.add(alloc, place.copy())?;
        }
        Ok(())
    }

    // Drops the first place if there are others, and returns `true` if there were.
    fn drop_first(&mut self) -> bool
        ensures kept { IsTrue result → (q : Place) → (p : Place) → (ps : List Place)
            → self.old ≡ p ∷ ps → has_place ps q ≡ true → has_place self.new q ≡ true }
        ensures alone { IsFalse result → (p : Place) → (ps : List Place) → self.old ≡ p ∷ ps → ps ≡ [] }
    {
        match self.others.pop() {
            None => false,
            Some(other) => {
                self.first = other;
                true
            }
        }
    }

    /// Removes a place if there are others. Returns `false`, and leaves it, if it is the only one.
    pub(crate) fn remove(&mut self, place: &Place) -> bool
        ensures kept { IsTrue result → (q : Place) → equal_places place.now q ≡ false
            → has_place self.old q ≡ true → has_place self.new q ≡ true }
        ensures alone { IsFalse result → (q : Place) → has_place self.old q ≡ true
            → equal_places place.now q ≡ true }
    {
        if self.first == *place {
            return self.drop_first();
        }
        self.others.remove(place);
        true
    }

    /// Closes the entries at these places that an event invalidates. It keeps the places of still valid
    /// entries. Returns how many it closed, and whether any place is left.
    pub(crate) fn close(
        &mut self,
        entries: &mut KeyedEntries,
        closing: &Closing<'_>,
    ) -> (usize, bool)
        ensures closes { Closes closing.now.stamp closing.now.tags.now entries.old entries.new result.0 }
        ensures spared { AllByRecursion (IsSpared closing.now.stamp closing.now.tags.now entries.new.entries)
            self.old }
        ensures kept { IsTrue result.1 → (q : Place) → is_live entries.new.entries q ≡ true
            → has_place self.old q ≡ true → has_place self.new q ≡ true }
        ensures none { IsFalse result.1 → (q : Place) → has_place self.old q ≡ true
            → is_live entries.new.entries q ≡ false }
    {
        let _len = entries.len();
        let count = closing.at_each(entries, self.others.as_slice());
        self.others.clean(entries);
        let (closed, is_live) = entries.close_at(&self.first, closing);
        if is_live {
            return (count + closed, true);
        }
        (count + closed, self.drop_first())
    }

    /// Keeps the places of still valid entries. Returns `true` if there are any.
    pub(crate) fn clean(&mut self, entries: &KeyedEntries) -> bool
        ensures kept { IsTrue result → (q : Place) → is_live entries.now.entries q ≡ true
            → has_place self.old q ≡ true → has_place self.new q ≡ true }
        ensures none { IsFalse result → (q : Place) → has_place self.old q ≡ true
            → is_live entries.now.entries q ≡ false }
    {
        self.others.clean(entries);
        if is_live(entries, &self.first) {
            return true;
        }
        self.drop_first()
    }
}
