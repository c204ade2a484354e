//! The index of the entries by their keys.
ghost use Rattle.std.specs.Prelude.{List, take, drop, ◌+◌, ◌-◌, ◌≡◌, ◌<◌, ◌∷◌, [], length, map, remove, if◌then◌else◌, is_ok, MatchOption};
ghost use Rattle.txc_stamp.specs.Interval.{Interval};
ghost use Rattle.txc_tags.specs.Keys.{Call};
ghost use Rattle.txc_node.specs.IndexedEntries.{listed, Relists, in_stead};
ghost use Rattle.txc_node.specs.Sweep.{lasting, AreAllLasting};

use crate::call_key::CallKey;
use crate::sweeping::Sweep;
use crate::versions::Versions;
use indexmap::IndexMap;
use std::alloc::{AllocError, Global};
use txc_stamp::Reach;
use txc_tags::Key;

// Keeps the reaches that a sweep leaves at an index, and drops the key if none is left.
fn keep_at(versions: &mut IndexMap<CallKey, Versions>, i: usize, sweep: &Sweep)
    ensures lasting { (k : Call) → lasting sweep.now.processed sweep.now.horizon (listed versions.new.entries k)
        ≡ lasting sweep.now.processed sweep.now.horizon (listed versions.old.entries k) }
    ensures from { AreAllLasting sweep.now.processed sweep.now.horizon (drop (i + 1) versions.old.entries)
        → AreAllLasting sweep.now.processed sweep.now.horizon (drop i versions.new.entries) }
{
    let stays = match versions.get_index_mut(i) {
        None => true,
        Some(reaches) => reaches.keep_lasting(sweep),
    };
    if !stays {
        versions.swap_remove_index(i);
    }
}

/// The reaches of the entries of each key, the most recently used first.
#[derive(Debug, Drop)]
pub(crate) struct KeyIndex {
    alloc: Global,
    pub(crate) versions: IndexMap<CallKey, Versions>,
}

impl KeyIndex {
    /// Makes an empty index.
    pub(crate) fn new(alloc: Global) -> KeyIndex
        ensures { result.versions.entries ≡ [] }
    {
        KeyIndex {
            alloc,
            versions: IndexMap::new(alloc),
        }
    }

    /// Returns the reaches of a key's entries, if it has any.
    pub(crate) fn get(&self, key: &Key) -> Option<&Versions>
        ensures { MatchOption result (listed self.now.versions.entries key.now ≡ [])
            (λ v. listed self.now.versions.entries key.now ≡ v.now) }
    {
        let call = CallKey::of(key);
        self.versions.get(&call)
    }

    /// Puts a reach first among those of its key. Fails, and changes nothing, if there is no memory for it.
    pub(crate) fn add(&mut self, key: &Key, reach: Reach) -> Result<(), AllocError>
        ensures { let rs = listed self.old.versions.entries key.now in
            Relists key.now (if is_ok result then reach ∷ rs else rs)
            self.old.versions.entries self.new.versions.entries }
    {
        let call = CallKey::of(key);
        match self.versions.get_mut(&call) {
            Some(versions) => versions.add(reach),
            None => {
                let one = Versions::one(self.alloc, reach);
                self.versions.insert(call, one)?;
                Ok(())
            }
        }
    }

    /// Replaces the reach at a place of its key by this one, which becomes the first.
    pub(crate) fn bring_first(&mut self, key: &Key, at: usize, reach: Reach)
        requires { at < length (listed self.old.versions.entries key.now) }
        ensures { Relists key.now (reach ∷ remove (listed self.old.versions.entries key.now) at)
            self.old.versions.entries self.new.versions.entries }
    {
        let call = CallKey::of(key);
        if let Some(versions) = self.versions.get_mut(&call) {
            versions.bring_first(at, reach);
        }
    }

    /// Replaces the reach of a key that begins at the same stamp as this one.
    pub(crate) fn set(&mut self, key: &Key, reach: Reach)
        ensures { Relists key.now (map (in_stead reach) (listed self.old.versions.entries key.now))
            self.old.versions.entries self.new.versions.entries }
    {
        let call = CallKey::of(key);
        if let Some(versions) = self.versions.get_mut(&call) {
            versions.set(reach);
        }
    }

    /// Drops the first reach of a key.
    pub(crate) fn drop_first(&mut self, key: &Key)
        ensures { (r : Interval) (rs : List Interval)
            → listed self.old.versions.entries key.now ≡ r ∷ rs
            → Relists key.now rs self.old.versions.entries self.new.versions.entries }
    {
        let call = CallKey::of(key);
        let stays = match self.versions.get_mut(&call) {
            None => true,
            Some(versions) => versions.drop_first(),
        };
        if !stays {
            self.versions.swap_remove(&call);
        }
    }

    /// Drops the last reach of a key.
    pub(crate) fn drop_last(&mut self, key: &Key)
        ensures { let rs = listed self.old.versions.entries key.now in
            Relists key.now (take (length rs - 1) rs)
            self.old.versions.entries self.new.versions.entries }
    {
        let call = CallKey::of(key);
        let stays = match self.versions.get_mut(&call) {
            None => true,
            Some(versions) => versions.drop_last(),
        };
        if !stays {
            self.versions.swap_remove(&call);
        }
    }

    /// Keeps of each key the reaches that a sweep leaves.
    pub(crate) fn keep_lasting(&mut self, sweep: &Sweep)
        ensures { (k : Call) → listed self.new.versions.entries k
            ≡ lasting sweep.now.processed sweep.now.horizon (listed self.old.versions.entries k) }
    {
        // It begins with the last key, since the last one moves to the place of one that is dropped.
        let len = self.versions.len();
        for n in 0..len {
            keep_at(&mut self.versions, len - 1 - n, sweep);
        }
    }
}
