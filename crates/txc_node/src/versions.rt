//! The reaches of the entries of one key.
ghost use Rattle.std.specs.Prelude.{List, take, not, ◌≡◌, ◌+◌, ◌-◌, ◌<◌, ◌==◌, ◌∷◌, [], length, map, IsTrue, IsFalse, IfSome, Some, OnOk, OnErr, slice_get, remove};
ghost use Rattle.std.specs.List.{position};
ghost use Rattle.txc_stamp.specs.Interval.{Interval};
ghost use Rattle.txc_tags.specs.Keys.{Call};
ghost use Rattle.txc_node.specs.declared.entry.Entry.{Entry};
ghost use Rattle.txc_node.specs.Best.{BestSoFar};
ghost use Rattle.txc_node.specs.IndexedEntries.{AreOf, meets, lasts_longer, in_stead};
ghost use Rattle.txc_node.specs.Sweep.{ends_by, lasting};

use crate::sweeping::Sweep;
use std::alloc::{AllocError, Global};
use std::marker::Model;
use txc_stamp::{Reach, Stamp};

/// Place of a reach among those of its key.
#[derive(Clone, Copy, Debug)]
pub struct Found {
    pub(crate) at: usize,
    pub(crate) reach: Reach,
}

/// The reaches of the entries of one key, at least one, the most recently used first. A single reach allocates
/// nothing of its own.
#[derive(Debug, Drop)]
pub(crate) struct Versions {
    first: Reach,
    others: Vec<Reach>,
}

impl Model for Versions {
    ghost use Rattle.std.specs.Prelude.{List, ◌∷◌};
    ghost use Rattle.txc_stamp.specs.Interval.{Interval};

    ghost Value = { List Interval };

    ghost view = { λ v. v.first ∷ v.others.items };
}

// Returns `true` if the span of a reach meets the stamps from `lo` to `hi`.
fn meets(reach: Reach, processed: Stamp, lo: Stamp, hi: Stamp) -> bool
    ensures { result ≡ meets processed lo hi reach }
{
    reach.lo() <= hi && lo.number() < reach.end(processed)
}

// Returns `true` if one span ends later than another, or ends equally and begins later.
fn lasts_longer(a: Reach, b: Reach, processed: Stamp) -> bool
    ensures { result ≡ lasts_longer processed a b }
{
    let (end, other) = (a.end(processed), b.end(processed));
    other < end || (other == end && b.lo() < a.lo())
}

// Returns this reach instead of one that begins at the same stamp.
fn in_stead(new: Reach, old: Reach) -> Reach
    ensures { result ≡ in_stead new old }
{
    if old.lo() == new.lo() { new } else { old }
}

// Returns which of these begins at a stamp.
fn begins_at(reaches: &[Reach], lo: Stamp) -> Option<usize>
    ensures { result ≡ position (λ i. i.lo == lo) reaches.now }
{
    reaches.iter().position(|reach| reach.lo() == lo)
}

// Replaces each of these that begins at the stamp of this one.
fn change_each(reaches: &mut [Reach], reach: Reach)
    ensures { reaches.new ≡ map (in_stead reach) reaches.old }
{
    for other in reaches.iter_mut() {
        *other = in_stead(reach, *other);
    }
}

// Replaces them in a list that may grow.
fn change_all(reaches: &mut Vec<Reach>, reach: Reach)
    ensures { reaches.new.items ≡ map (in_stead reach) reaches.old.items }
{
    change_each(reaches, reach);
}

// Keeps the reaches that a sweep leaves.
fn keep_lasting(reaches: &mut Vec<Reach>, sweep: &Sweep)
    ensures { reaches.new.items ≡ lasting sweep.now.processed sweep.now.horizon reaches.old.items }
{
    reaches.retain(
        |reach: &Reach| -> bool
            ensures { result ≡ not (ends_by sweep.entry.now.processed sweep.entry.now.horizon reach.now) }
        { !sweep.ends(*reach) },
    );
}

impl Versions {
    /// Makes the list of a single reach.
    pub(crate) fn one(alloc: Global, reach: Reach) -> Versions
        ensures { result ≡ reach ∷ [] }
    {
        Versions {
            first: reach,
            others: Vec::new(alloc),
        }
    }

    /// Returns how many reaches there are.
    pub(crate) fn len(&self) -> usize
        ensures { result ≡ length self.now }
    {
        self.others.len() + 1
    }

    /// Returns the reach at a place.
    pub(crate) fn get(&self, at: usize) -> Reach
        requires { at < length self.now }
        ensures { slice_get self.now at ≡ Some result }
    {
        if at == 0 {
            return self.first;
        }
        self.others[at - 1]
    }

    // Returns the better of the best so far and the reach at `i`.
    fn better_of(
        &self,
        best: Option<usize>,
        i: usize,
        processed: Stamp,
        lo: Stamp,
        hi: Stamp,
    ) -> Option<usize>
        requires within { i < length self.now }
        requires best_within { IfSome best (λ b. b < length self.now) }
        requires so_far { (key : Call) (es : List Entry) → AreOf key es self.now
            → BestSoFar processed key lo hi es i best }
        ensures within { IfSome result (λ b. b < length self.now) }
        ensures so_far { (key : Call) (es : List Entry) → AreOf key es self.now
            → BestSoFar processed key lo hi es (i + 1) result }
    {
        let reach = self.get(i);
        if !meets(reach, processed, lo, hi) {
            return best;
        }
        match best {
            None => Some(i),
            Some(b) => {
                if lasts_longer(reach, self.get(b), processed) {
                    return Some(i);
                }
                Some(b)
            }
        }
    }

    /// Returns the place of the reach whose span meets the stamps from `lo` to `hi` and that lasts longest.
    pub(crate) fn best(&self, processed: Stamp, lo: Stamp, hi: Stamp) -> Option<usize>
        ensures within { IfSome result (λ b. b < length self.now) }
        ensures best { (key : Call) (es : List Entry) → AreOf key es self.now
            → BestSoFar processed key lo hi es (length self.now) result }
    {
        let mut best: Option<usize> = None;
        for i in 0..self.len() {
            best = self.better_of(best, i, processed, lo, hi);
        }
        best
    }

    /// Returns the place of the reach that begins at `lo`.
    pub(crate) fn position(&self, lo: Stamp) -> Option<usize>
        ensures { result ≡ position (λ i. i.lo == lo) self.now }
    {
        if self.first.lo() == lo {
            return Some(0);
        }
        match begins_at(&self.others, lo) {
            None => None,
            Some(at) => Some(at + 1),
        }
    }

    /// Puts a reach first. Fails, and changes nothing, if there is no memory for it.
    pub(crate) fn add(&mut self, reach: Reach) -> Result<(), AllocError>
        ensures after { OnOk result (self.new ≡ reach ∷ self.old) }
        ensures unchanged { OnErr result (self.new ≡ self.old) }
    {
        self.others.insert(0, self.first)?;
        self.first = reach;
        Ok(())
    }

    /// Replaces the reach at a place by this one, which becomes the first.
    pub(crate) fn bring_first(&mut self, at: usize, reach: Reach)
        requires { at < length self.old }
        ensures { self.new ≡ reach ∷ remove self.old at }
    {
        if at > 0 {
            self.others.remove(at - 1);
            self.others.insert(0, self.first).unwrap();
        }
        self.first = reach;
    }

    /// Replaces the reach that begins at the same stamp.
    pub(crate) fn set(&mut self, reach: Reach)
        ensures { self.new ≡ map (in_stead reach) self.old }
    {
        self.first = in_stead(reach, self.first);
        change_all(&mut self.others, reach);
    }

    /// Drops the first reach if there are others. Returns `false` if there are none.
    pub(crate) fn drop_first(&mut self) -> bool
        ensures more { IsTrue result → (r : Interval) → (rs : List Interval) → self.old ≡ r ∷ rs
            → self.new ≡ rs }
        ensures alone { IsFalse result → (r : Interval) → (rs : List Interval) → self.old ≡ r ∷ rs
            → rs ≡ [] }
    {
        if self.others.is_empty() {
            return false;
        }
        self.first = self.others.remove(0);
        true
    }

    /// Drops the last reach if there are others. Returns `false` if there are none.
    pub(crate) fn drop_last(&mut self) -> bool
        ensures more { IsTrue result → self.new ≡ take (length self.old - 1) self.old }
        ensures alone { IsFalse result → take (length self.old - 1) self.old ≡ [] }
    {
        self.others.pop().is_some()
    }

    /// Keeps the reaches that a sweep leaves. Returns `true` if there are any.
    pub(crate) fn keep_lasting(&mut self, sweep: &Sweep) -> bool
        ensures more { IsTrue result → self.new ≡ lasting sweep.now.processed sweep.now.horizon self.old }
        ensures none { IsFalse result → lasting sweep.now.processed sweep.now.horizon self.old ≡ [] }
    {
        keep_lasting(&mut self.others, sweep);
        if !sweep.ends(self.first) {
            return true;
        }
        self.drop_first()
    }
}
