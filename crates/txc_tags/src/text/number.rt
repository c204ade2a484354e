//! Numbers: decimal digits, no leading zero except `0` itself.
ghost use Rattle.std.specs.Prelude.{◌≡◌, ℕ, ◌≤◌, [], ◌∷◌, ◌++◌, List, Some, None, IfOk, IfErr, IfSome, IfNone, true, false};
ghost use Rattle.std.specs.Fmt.{decimal};
ghost use Rattle.txc_tags.specs.TextGrammar.{IsTextOf, IsText};
ghost use Rattle.txc_tags.specs.TextNumber.{digits_read, IsDigit};
ghost use Rattle.txc_tags.specs.TextReader.{GoesWrong, IsNumber, IsNumbered, Reads};

use crate::text::read::read_word;

/// The greatest id, group and argument.
pub const LAST_NUMBER: u64 = 4_294_967_295;

fn is_digit(byte: u8) -> bool
    ensures digit { result ≡ true → IsDigit byte }
    ensures other { result ≡ false → IsDigit byte → ⊥ }
{
    byte >= b'0' && byte <= b'9'
}

/// Returns the number with one more digit, or `None` if no number of at most `most` begins so.
#[inline]
fn push_digit(number: Option<u64>, byte: u8, most: u64) -> Option<u64>
    requires { IfSome number (λ n. n ≤ most) }
    ensures within { IfSome result (λ n. n ≤ most) }
    ensures more { IfSome result (λ n. decimal n ≡ digits_read number ++ byte ∷ []) }
    ensures none { IfNone result ((n : ℕ) (more : List ℕ) → n ≤ most
        → digits_read number ++ byte ∷ more ≡ decimal n → ⊥) }
{
    if !is_digit(byte) {
        return None;
    }
    let digit = u64::from(byte - b'0');
    match number {
        None => {
            if digit > most {
                return None;
            }
            Some(digit)
        }
        Some(n) => {
            if n == 0 {
                return None;
            }
            if n > most / 10 {
                return None;
            }
            let tens = n * 10;
            if digit > most - tens {
                return None;
            }
            Some(tens + digit)
        }
    }
}

/// Reads the number of at most `most` with which the text begins.
pub(crate) fn read_digits<'a>(text: &'a [u8], most: u64) -> Result<(u64, &'a [u8]), &'a [u8]>
    ensures answer { IfOk result (λ r.
        (r.0 ≤ most) × Reads (IsNumber most) text.now (decimal r.0) r.1.now) }
    ensures refused { IfErr result (λ rest. GoesWrong (IsNumber most) text.now rest.now) }
{
    let mut number = None;
    let mut rest = text;
    while let Some((byte, others)) = rest.split_first() {
        match push_digit(number, *byte, most) {
            None => return end_digits(number, rest),
            Some(more) => {
                number = Some(more);
                rest = others;
            }
        }
    }
    end_digits(number, rest)
}

#[inline]
fn end_digits<'a>(number: Option<u64>, rest: &'a [u8]) -> Result<(u64, &'a [u8]), &'a [u8]>
    ensures some { IfOk result (λ r. (number ≡ Some r.0) × (r.1.now ≡ rest.now)) }
    ensures none { IfErr result (λ r. (number ≡ None) × (r.now ≡ rest.now)) }
{
    match number {
        Some(number) => Ok((number, rest)),
        None => Err(rest),
    }
}

/// Reads the number of at most `most` after the word.
pub(crate) fn read_numbered<'a>(
    text: &'a [u8],
    word: &[u8],
    most: u64,
) -> Result<(u64, &'a [u8]), &'a [u8]>
    ensures answer { IfOk result (λ r. (r.0 ≤ most)
        × Reads (IsNumbered word.now most) text.now (word.now ++ decimal r.0) r.1.now) }
    ensures refused { IfErr result (λ rest. GoesWrong (IsNumbered word.now most) text.now rest.now) }
{
    let rest = read_word(text, word)?;
    read_digits(rest, most)
}

/// Reads the number that the whole text is. Returns `None` if the text is not a number, or one greater than
/// `most`.
pub fn read_number(text: &[u8], most: u64) -> Option<u64>
    ensures answer { IfSome result (IsTextOf (λ n. n ≤ most) decimal text.now) }
    ensures refused { IfNone result (IsText (λ n. n ≤ most) decimal text.now → ⊥) }
{
    match read_digits(text, most) {
        Err(_) => None,
        Ok((number, rest)) => {
            if !rest.is_empty() {
                return None;
            }
            Some(number)
        }
    }
}
