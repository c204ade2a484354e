//! Texts of keys: `f3(1,2)`.
ghost use Rattle.std.specs.Prelude.{◌≡◌, ◌<◌, ◌↔◌, [], IsOk, IfOk, IfErr, length, string_bytes};
ghost use Rattle.txc_tags.specs.Keys.{Call};
ghost use Rattle.txc_tags.specs.TextGrammar.{IsText, IsTextOf, IsLongestPrefix};
ghost use Rattle.txc_tags.specs.TextKey.{key_text, IsKeyInRange};
ghost use Rattle.txc_tags.specs.TextKeyReader.{closed_text, AreArguments, AreSome};
ghost use Rattle.txc_tags.specs.TextReader.{IsRefused};

use crate::key::{Arguments, Key, LAST_FUNCTION, MAX_ARGS};
use crate::text::number::{LAST_NUMBER, read_digits, read_numbered};
use crate::text::range::key_is_in_range;
use crate::text::read::read_word;
use std::alloc::{AllocError, Global};
use std::fmt;

/// The text is not a key's.
#[derive(Debug, Clone, Copy, PartialEq, Eq, thiserror::Error)]
#[error("the text is not a key: it is wrong after {at} bytes")]
pub struct BadKey {
    /// The length in bytes of the longest prefix of the text that is also a prefix of some key's text.
    pub at: usize,
}

/// Returns the arguments if the rest of the text is empty.
fn close<'a>(args: Arguments, rest: &'a [u8]) -> Result<Arguments, &'a [u8]>
    ensures answer { IfOk result (λ a. (a ≡ args) × (rest.now ≡ [])) }
    ensures refused { IfErr result (λ r. (r.now ≡ rest.now) × (0 < length rest.now)) }
{
    if !rest.is_empty() {
        return Err(rest);
    }
    Ok(args)
}

/// Reads the arguments from the text after `(`, to its end.
fn read_arguments(text: &[u8]) -> Result<Arguments, &[u8]>
    ensures answer { IfOk result (IsTextOf AreArguments closed_text text.now) }
    ensures refused { IfErr result
        (λ rest. IsRefused (IsText AreArguments closed_text) text.now rest.now) }
{
    if let Ok(rest) = read_word(text, b")") {
        return close(Arguments::new(), rest);
    }
    read_some(text)
}

/// Reads the arguments, at least one, from the text after `(`, to its end.
fn read_some(text: &[u8]) -> Result<Arguments, &[u8]>
    ensures answer { IfOk result (IsTextOf AreArguments closed_text text.now) }
    ensures refused { IfErr result (λ rest. IsRefused AreSome text.now rest.now) }
{
    let mut args = Arguments::new();
    let mut rest = text;
    loop {
        let (number, after) = read_digits(rest, LAST_NUMBER)?;
        args = args.with(number as u32);
        if let Ok(more) = read_word(after, b")") {
            return close(args, more);
        }
        if args.len() == MAX_ARGS {
            return Err(after);
        }
        rest = read_word(after, b",")?;
    }
}

/// Reads the key that the whole text is.
fn read_whole(text: &[u8]) -> Result<Key, &[u8]>
    ensures answer { IfOk result (IsTextOf IsKeyInRange key_text text.now) }
    ensures refused { IfErr result (λ rest. IsRefused (IsText IsKeyInRange key_text) text.now rest.now) }
{
    let (function, rest) = read_numbered(text, b"f", LAST_FUNCTION as u64)?;
    let rest = read_word(rest, b"(")?;
    let args = read_arguments(rest)?;
    Ok(Key::from_parts(function as u8, args))
}

impl fmt::Display for Key {
    ghost use Rattle.std.specs.Prelude.{Some};
    ghost use Rattle.txc_tags.specs.TextKey.{key_text};

    ghost output = { λ key. Some (key_text key) };

    fn fmt<W: fmt::Write>(&self, f: &mut fmt::Formatter<W>) -> fmt::Result {
        let function = self.function();
        let Some((first, others)) = self.args().split_first() else {
            return write!(f, "f{function}()");
        };
        write!(f, "f{function}({first}")?;
        for arg in others {
            write!(f, ",{arg}")?;
        }
        write!(f, ")")
    }
}

impl Key {
    /// Reads the key that the whole text is: `f3(1,2)`. Fails if the text is not in the grammar. Does not
    /// allocate.
    pub fn read(text: &[u8]) -> Result<Key, BadKey>
        ensures answer { IfOk result (IsTextOf IsKeyInRange key_text text.now) }
        ensures only_if { IsOk result ↔ IsText IsKeyInRange key_text text.now }
        ensures refused { IfErr result (λ bad. IsLongestPrefix IsKeyInRange key_text text.now bad.at) }
        ensures read_back { (key : Call) → IsTextOf IsKeyInRange key_text text.now key → result ≡ Ok key }
    {
        match read_whole(text) {
            Ok(key) => Ok(key),
            Err(rest) => Err(BadKey {
                at: text.len() - rest.len(),
            }),
        }
    }

    /// Returns the key's text. [`Key::read`] reads this key from it, and from no other text. Fails only if
    /// memory cannot be allocated.
    pub fn write(&self, alloc: Global) -> Result<String, AllocError>
        ensures { IfOk result (λ text. IsTextOf IsKeyInRange key_text (string_bytes text) self.now) }
    {
        key_is_in_range(self);
        self.to_string(alloc)
    }
}
