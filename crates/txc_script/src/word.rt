//! Words, each of its kind.
ghost use Rattle.std.specs.Prelude.{◌≡◌, ℕ, Err, IfOk, IfErr, IfSome, IfNone, true};
ghost use Rattle.txc_tags.specs.declared.key.TheConstants.{LAST_FUNCTION};
ghost use Rattle.txc_tags.specs.declared.tag.TheConstants.{LAST_TABLE};
ghost use Rattle.txc_tags.specs.declared.text.number.TheConstants.{LAST_NUMBER};
ghost use Rattle.txc_script.specs.LineFaults.{takes_memory, IsUnsaid};
ghost use Rattle.txc_script.specs.Lines.{IsNumberWord};
ghost use Rattle.txc_script.specs.ParsedWords.{Means, SaidOf};
ghost use Rattle.txc_script.specs.declared.line_fault.WordKind.{WordKind};

use crate::function_number::FunctionNumber;
use crate::hex::read_hex;
use crate::line_fault::WordKind;
use crate::unread::WordError;
use std::alloc::Global;
use txc_stamp::{LAST_STAMP, Stamp};
use txc_tags::{Key, LAST_FUNCTION, LAST_NUMBER, LAST_TABLE, SetError, Table, TagSet, read_number};

/// The meaning of a word of one kind.
pub trait Word: Drop {
    // The kind.
    ghost kind: { WordKind };

    // The meaning.
    ghost said: { Self → SaidOf kind };

    /// Returns the kind.
    fn kind() -> WordKind
        ensures { result ≡ kind };

    /// Returns the meaning of the word. Fails if it is not of the kind, or if memory cannot be allocated.
    fn read(alloc: Global, word: &[u8]) -> Result<Self, WordError>
        ensures answer { IfOk result (λ value. Means kind word.now (said value)) }
        ensures refused { IfErr result (IsUnsaid kind word.now) }
        ensures memory { result ≡ Err WordError.Memory → takes_memory kind ≡ true };
}

impl Word for Key {
    ghost use Rattle.txc_script.specs.declared.line_fault.WordKind.TheVariants as kinds;

    ghost kind = { kinds.Key };

    ghost said = { λ key. key };

    fn kind() -> WordKind {
        WordKind::Key
    }

    #[inline(always)]
    fn read(alloc: Global, word: &[u8]) -> Result<Key, WordError> {
        match Key::read(word) {
            Ok(key) => Ok(key),
            Err(bad) => Err(WordError::Bad(Some(bad.at))),
        }
    }
}

impl Word for Stamp {
    ghost use Rattle.txc_script.specs.declared.line_fault.WordKind.TheVariants as kinds;

    ghost kind = { kinds.Stamp };

    ghost said = { λ stamp. stamp };

    fn kind() -> WordKind {
        WordKind::Stamp
    }

    #[inline(always)]
    fn read(alloc: Global, word: &[u8]) -> Result<Stamp, WordError> {
        match read_number(word, u64::from(LAST_STAMP)) {
            Some(number) => Ok(Stamp::after(number as usize)),
            None => Err(WordError::Bad(None)),
        }
    }
}

/// `still`, or `closed`.
impl Word for bool {
    ghost use Rattle.txc_script.specs.declared.line_fault.WordKind.TheVariants as kinds;

    ghost kind = { kinds.Reach };

    ghost said = { λ still. still };

    fn kind() -> WordKind {
        WordKind::Reach
    }

    #[inline(always)]
    fn read(alloc: Global, word: &[u8]) -> Result<bool, WordError> {
        match word {
            b"still" => Ok(true),
            b"closed" => Ok(false),
            _ => Err(WordError::Bad(None)),
        }
    }
}

/// Tags in any order and with repeats.
impl Word for TagSet {
    ghost use Rattle.txc_script.specs.declared.line_fault.WordKind.TheVariants as kinds;

    ghost kind = { kinds.Tags };

    ghost said = { λ tags. tags };

    fn kind() -> WordKind {
        WordKind::Tags
    }

    #[inline(always)]
    fn read(alloc: Global, word: &[u8]) -> Result<TagSet, WordError> {
        match TagSet::read(alloc, word) {
            Ok(tags) => Ok(tags),
            Err(SetError::BadTag(bad)) => Err(WordError::Bad(Some(bad.at))),
            Err(SetError::Memory(_)) => Err(WordError::Memory),
        }
    }
}

/// Bytes: `-` for none, or two digits for each.
impl Word for Vec<u8> {
    ghost use Rattle.txc_script.specs.declared.line_fault.WordKind.TheVariants as kinds;

    ghost kind = { kinds.Bytes };

    ghost said = { λ bytes. bytes.items };

    fn kind() -> WordKind {
        WordKind::Bytes
    }

    #[inline(always)]
    fn read(alloc: Global, word: &[u8]) -> Result<Vec<u8>, WordError> {
        read_hex(alloc, word)
    }
}

/// Reads an id or a group.
pub fn read_id(word: &[u8]) -> Option<u32>
    ensures answer { IfSome result (IsNumberWord LAST_NUMBER word.now) }
    ensures refused { IfNone result ((n : ℕ) → IsNumberWord LAST_NUMBER word.now n → ⊥) }
{
    match read_number(word, LAST_NUMBER) {
        Some(number) => Some(number as u32),
        None => None,
    }
}

/// Reads the number of a table.
pub fn read_table(word: &[u8]) -> Option<Table>
    ensures answer { IfSome result (IsNumberWord LAST_TABLE word.now) }
    ensures refused { IfNone result ((n : ℕ) → IsNumberWord LAST_TABLE word.now n → ⊥) }
{
    match read_number(word, u64::from(LAST_TABLE)) {
        Some(number) => Table::new(number as u8),
        None => None,
    }
}

/// Reads the number of a function.
pub fn read_function(word: &[u8]) -> Option<FunctionNumber>
    ensures answer { IfSome result (IsNumberWord LAST_FUNCTION word.now) }
    ensures refused { IfNone result ((n : ℕ) → IsNumberWord LAST_FUNCTION word.now n → ⊥) }
{
    match read_number(word, u64::from(LAST_FUNCTION)) {
        Some(number) => FunctionNumber::new(number as u8),
        None => None,
    }
}
