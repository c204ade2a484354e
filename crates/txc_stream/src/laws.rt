//! Prefixes of lists. Each function is a lemma: it has no code.
//!
//! The observed prefix of a row only grows, and these lemmas carry over what a caller knows of it to each
//! longer one. They hold of all lists, and `proofs/Offered.antt` has their proofs.
ghost use Rattle.std.specs.Prelude.{◌≡◌, ℕ, ◌<◌, ◌≤◌, ◌++◌, ◌∷◌, ◌⊎◌, [], List, length, take, Some, slice_get};
ghost use mathlib.Core.List.{IsPrefix};

/// A list is a prefix of itself.
pub fn prefix_of_itself<T>()
    ensures { (xs : List T) → IsPrefix xs xs }
{}

/// A prefix of a prefix is a prefix.
pub fn prefix_of_prefix<T>()
    ensures { (xs ys zs : List T) → IsPrefix xs ys → IsPrefix ys zs → IsPrefix xs zs }
{}

/// A prefix is at most as long as the list, and one of equal length is the list.
pub fn prefix_length<T>()
    ensures at_most { (xs ys : List T) → IsPrefix xs ys → length xs ≤ length ys }
    ensures whole { (xs ys : List T) → IsPrefix xs ys → length ys ≤ length xs → xs ≡ ys }
{}

/// An element of a prefix is in the list at the same place, and both begin alike.
pub fn prefix_places<T>()
    ensures stands { (xs ys : List T) (at : ℕ) (x : T) → IsPrefix xs ys
        → slice_get xs at ≡ Some x → slice_get ys at ≡ Some x }
    ensures same { (xs ys : List T) (at : ℕ) → IsPrefix xs ys
        → at < length xs → slice_get ys at ≡ slice_get xs at }
    ensures begin { (xs ys : List T) (n : ℕ) → IsPrefix xs ys
        → n ≤ length xs → take n ys ≡ take n xs }
{}

/// A list is a prefix of itself with more appended. An appended record is at the place that the old length
/// names.
pub fn prefix_of_appended<T>()
    ensures more { (xs ys : List T) → IsPrefix xs (xs ++ ys) }
    ensures place { (xs : List T) (x : T) → slice_get (xs ++ x ∷ []) (length xs) ≡ Some x }
{}

/// Of two prefixes of one list, one is a prefix of the other. If one of two lists is a prefix of the other, the
/// shorter is that prefix; and of the two, the one that has the longer as a prefix is the longer.
pub fn longer_of_two<T>()
    ensures agree { (xs ys zs : List T) → IsPrefix xs zs → IsPrefix ys zs
        → IsPrefix xs ys ⊎ IsPrefix ys xs }
    ensures shorter { (xs ys : List T) → IsPrefix xs ys ⊎ IsPrefix ys xs
        → length xs ≤ length ys → IsPrefix xs ys }
    ensures longer { (xs ys now : List T) → IsPrefix xs ys
        → (now ≡ xs) ⊎ (now ≡ ys) → IsPrefix ys now → now ≡ ys }
{}
