//! Places of entries.
ghost use Rattle.std.specs.Prelude.{◌≡◌};
ghost use Rattle.txc_node.specs.Places.{place_at, head_of};

use crate::mixing::{mix, same_call};
use std::hash::{Hash, Hasher};
use txc_stamp::Stamp;
use txc_tags::Key;

// More than the number of stamps.
const STAMPS: u64 = 4_294_967_296;

/// Place of an entry: its key, and its first stamp.
#[derive(Debug, Drop)]
pub(crate) struct Place {
    pub(crate) key: Key,
    pub(crate) lo: Stamp,
}

impl Place {
    /// Makes the place of that key and first stamp.
    pub(crate) fn new(key: &Key, lo: Stamp) -> Place
        ensures { result ≡ place_at key.now lo }
    {
        Place {
            key: key.copy(),
            lo,
        }
    }

    // Returns the function and the first stamp as one number.
    fn head(&self) -> u64
        ensures { result ≡ head_of self.now }
    {
        u64::from(self.key.function()) * STAMPS + u64::from(self.lo.number())
    }

    /// Returns an equal place.
    pub(crate) fn copy(&self) -> Place
        ensures { result ≡ self.now }
    {
        Place::new(&self.key, self.lo)
    }
}

impl PartialEq for Place {
    ghost use Rattle.std.specs.Cmp.{decided, partial_equiv_from_equiv};
    ghost use Rattle.txc_node.specs.Places.{equal_places, equal_places_decides};

    ghost eq = { equal_places };

    ghost laws = { partial_equiv_from_equiv (decided equal_places equal_places_decides) };

    fn eq(&self, other: &Place) -> bool {
        same_call(&self.key, &other.key) && self.lo == other.lo
    }
}

impl Eq for Place {
    ghost use Rattle.std.specs.Cmp.{decided};
    ghost use Rattle.txc_node.specs.Places.{equal_places, equal_places_decides};

    ghost laws = { decided equal_places equal_places_decides };
}

impl Hash for Place {
    ghost use Rattle.std.specs.List.{fold};
    ghost use Rattle.std.specs.Hash as fed;
    ghost use Rattle.txc_node.specs.Places.{equal_places_alike, head_of, mixed};

    ghost hash_input = { λ p. fed.u64 (fold mixed (head_of p) p.key.args) };

    ghost respects_eq = { equal_places_alike (λ p. fed.u64 (fold mixed (head_of p) p.key.args)) };

    fn hash<H: Hasher>(&self, state: &mut H) {
        mix(self.head(), self.key.args()).hash(state);
    }
}
