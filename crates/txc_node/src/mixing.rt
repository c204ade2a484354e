//! Hashing and comparing calls by their numbers, in few machine steps.
ghost use Rattle.std.specs.Prelude.{◌≡◌};
ghost use Rattle.std.specs.List.{fold};
ghost use Rattle.std.specs.Str.{bytes_eq};
ghost use Rattle.txc_tags.specs.Keys.{same_call};
ghost use Rattle.txc_node.specs.Places.{mixed};

use txc_tags::Key;

// An odd number, whose products differ in all their bits.
const MIX: u64 = 0xd6e8_feb8_6659_fd93;

// Mixes one more number in.
fn mixed(word: u64, number: u32) -> u64
    ensures { result ≡ mixed word number }
{
    word.wrapping_mul(MIX).wrapping_add(u64::from(number))
}

/// Mixes the arguments into the word, so that a hasher takes them as one number.
pub(crate) fn mix(word: u64, args: &[u32]) -> u64
    ensures { result ≡ fold mixed word args.now }
{
    match args {
        [] => word,
        [first, others @ ..] => mix(mixed(word, *first), others),
    }
}

// Returns `true` if the arguments are the same. There are at most four, so each is compared by itself.
fn same_args(a: &[u32], b: &[u32]) -> bool
    ensures { result ≡ bytes_eq a.now b.now }
{
    match (a, b) {
        ([], []) => true,
        ([x, xs @ ..], [y, ys @ ..]) => *x == *y && same_args(xs, ys),
        _ => false,
    }
}

/// Returns `true` if the calls are the same.
pub(crate) fn same_call(a: &Key, b: &Key) -> bool
    ensures { result ≡ same_call a.now b.now }
{
    a.function() == b.function() && same_args(a.args(), b.args())
}
