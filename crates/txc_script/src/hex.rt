//! Bytes as hexadecimal digits.
ghost use Rattle.std.specs.Prelude.{◌≡◌, ℕ, ◌<◌, List, [], ◌∷◌, IfOk, IfErr, IfSome, IfNone, None};
ghost use Rattle.std.specs.List.{flat_map};
ghost use Rattle.txc_node.specs.Texts.{digit_of, digits_of};
ghost use Rattle.txc_script.specs.Hex.{IsBytes, IsHexWord};
ghost use Rattle.txc_script.specs.LineFaults.{IsUnsaid, SaysNone};
ghost use Rattle.txc_script.specs.declared.line_fault.WordKind.TheVariants as kinds;

use crate::unread::WordError;
use std::alloc::Global;

/// The entry in [`DIGITS`] of a byte that is not a digit.
const X: u8 = 16;

/// The value of each byte as a hexadecimal digit.
static DIGITS: [u8; 256] = [
    X, X, X, X, X, X, X, X, X, X, X, X, X, X, X, X, X, X, X, X, X, X, X, X, X, X, X, X, X, X, X, X,
    X, X, X, X, X, X, X, X, X, X, X, X, X, X, X, X, 0, 1, 2, 3, 4, 5, 6, 7, 8, 9, X, X, X, X, X, X,
    X, X, X, X, X, X, X, X, X, X, X, X, X, X, X, X, X, X, X, X, X, X, X, X, X, X, X, X, X, X, X, X,
    X, 10, 11, 12, 13, 14, 15, X, X, X, X, X, X, X, X, X, X, X, X, X, X, X, X, X, X, X, X, X, X, X,
    X, X, X, X, X, X, X, X, X, X, X, X, X, X, X, X, X, X, X, X, X, X, X, X, X, X, X, X, X, X, X, X,
    X, X, X, X, X, X, X, X, X, X, X, X, X, X, X, X, X, X, X, X, X, X, X, X, X, X, X, X, X, X, X, X,
    X, X, X, X, X, X, X, X, X, X, X, X, X, X, X, X, X, X, X, X, X, X, X, X, X, X, X, X, X, X, X, X,
    X, X, X, X, X, X, X, X, X, X, X, X, X, X, X, X, X, X, X, X, X, X, X, X, X, X, X, X, X, X, X, X,
    X, X,
];

/// Returns the value of a hexadecimal digit. It has no branch by the digit's kind, which the processor could
/// not predict.
#[inline(always)]
fn digit_value(digit: u8) -> Option<u8>
    ensures answer { IfSome result (λ n. (n < 16) × (digit_of n ≡ digit)) }
    ensures refused { IfNone result ((n : ℕ) → n < 16 → digit_of n ≡ digit → ⊥) }
{
    let value = DIGITS[usize::from(digit)];
    if value == X {
        return None;
    }
    Some(value)
}

/// Returns the byte of two digits.
#[inline(always)]
fn read_byte(high: u8, low: u8) -> Option<u8>
    ensures answer { IfSome result (λ b. (b < 256) × (digits_of b ≡ high ∷ low ∷ [])) }
    ensures refused { IfNone result ((b : ℕ) → b < 256 → digits_of b ≡ high ∷ low ∷ [] → ⊥) }
{
    let Some(high) = digit_value(high) else {
        return None;
    };
    let Some(low) = digit_value(low) else {
        return None;
    };
    Some(high * 16 + low)
}

/// Returns the bytes of a text of digits, two for each byte.
fn read_digits(alloc: Global, text: &[u8]) -> Result<Vec<u8>, WordError>
    ensures answer { IfOk result (λ v.
        IsBytes v.items × (flat_map digits_of v.items ≡ text.now)) }
    ensures refused { IfErr result (SaysNone (λ bytes.
        IsBytes bytes × (flat_map digits_of bytes ≡ text.now)) (λ at. at ≡ None)) }
{
    let mut bytes = match Vec::with_capacity(alloc, text.len() / 2) {
        Ok(bytes) => bytes,
        Err(_) => return Err(WordError::Memory),
    };
    let mut rest = text;
    'digits: loop {
        match rest {
            [] => return Ok(bytes),
            [_] => return Err(WordError::Bad(None)),
            [high, low, after @ ..] => {
                match read_byte(*high, *low) {
                    None => return Err(WordError::Bad(None)),
                    Some(byte) => match bytes.push(byte) {
                        Ok(()) => rest = after,
                        Err(_) => return Err(WordError::Memory),
                    },
                }
            }
        }
    }
}

/// Returns the bytes of a text: `-` for none, or two digits for each. Fails if the text is not of that form, or
/// if memory cannot be allocated.
pub fn read_hex(alloc: Global, text: &[u8]) -> Result<Vec<u8>, WordError>
    ensures answer { IfOk result (λ v. IsHexWord text.now v.items) }
    ensures refused { IfErr result (IsUnsaid kinds.Bytes text.now) }
{
    if text == b"-".as_slice() {
        return Ok(Vec::new(alloc));
    }
    if text.is_empty() {
        return Err(WordError::Bad(None));
    }
    read_digits(alloc, text)
}
