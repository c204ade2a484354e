//! A key in the form that the index of the keys uses.
ghost use Rattle.std.specs.Prelude.{◌≡◌};

use crate::mixing::{mix, same_call};
use std::hash::{Hash, Hasher};
use std::marker::Model;
use txc_tags::Key;

/// A key that is hashed as one number.
#[derive(Debug, Drop)]
pub(crate) struct CallKey {
    key: Key,
}

impl Model for CallKey {
    ghost use Rattle.txc_tags.specs.Keys.{Call};

    ghost Value = { Call };

    ghost view = { λ k. k.key };
}

impl CallKey {
    /// Makes a copy of the key.
    pub(crate) fn of(key: &Key) -> CallKey
        ensures { result ≡ key.now }
    {
        CallKey { key: key.copy() }
    }

    /// Returns the key.
    pub(crate) fn key(&self) -> &Key
        ensures { result.now ≡ self.now }
    {
        &self.key
    }
}

impl PartialEq for CallKey {
    ghost use Rattle.std.specs.Cmp.{decided, partial_equiv_from_equiv};
    ghost use Rattle.txc_tags.specs.Keys.{same_call};
    ghost use Rattle.txc_node.specs.Places.{same_call_decides};

    ghost eq = { same_call };

    ghost laws = { partial_equiv_from_equiv (decided same_call same_call_decides) };

    fn eq(&self, other: &CallKey) -> bool {
        same_call(&self.key, &other.key)
    }
}

impl Eq for CallKey {
    ghost use Rattle.std.specs.Cmp.{decided};
    ghost use Rattle.txc_tags.specs.Keys.{same_call};
    ghost use Rattle.txc_node.specs.Places.{same_call_decides};

    ghost laws = { decided same_call same_call_decides };
}

impl Hash for CallKey {
    ghost use Rattle.std.specs.List.{fold};
    ghost use Rattle.std.specs.Hash as fed;
    ghost use Rattle.txc_node.specs.Places.{mixed, same_call_alike};

    ghost hash_input = { λ k. fed.u64 (fold mixed k.function k.args) };

    ghost respects_eq = { same_call_alike (λ k. fed.u64 (fold mixed k.function k.args)) };

    fn hash<H: Hasher>(&self, state: &mut H) {
        let function = u64::from(self.key.function());
        mix(function, self.key.args()).hash(state);
    }
}
