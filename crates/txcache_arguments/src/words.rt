//! The words of a command line, from the arguments of the process.
ghost use Rattle.std.specs.Prelude.{◌≡◌, IfOk, IfErr, map, string_bytes};
ghost use Rattle.txcache_arguments.specs.ArgumentWords.{BeginWithName, IsNoText, IsNotTextAt};

use std::alloc::{AllocError, AllocFailed, Global};
use std::env::{Env, FillError};
use std::fmt;
use thiserror::Error;

/// The number of bytes of an argument that are shown.
const MAX_SHOWN: usize = 40;

/// The size of the first buffer for an argument.
const FIRST_ROOM: usize = 256;

/// An argument that is no text. It is printed on one line, its bytes that are not printable ASCII escaped.
#[derive(Debug, Drop)]
pub struct NotText {
    /// Its number among the arguments after the program's name, counted from 1.
    pub number: usize,
    /// The number of valid bytes before the first wrong one.
    pub at: usize,
    pub bytes: Vec<u8>,
}

/// Errors of reading the arguments of a process as words.
#[derive(Debug, Drop, Error)]
pub enum WordsError {
    #[error("{0}")]
    NotText(NotText),
    /// Memory cannot be allocated.
    #[error("memory")]
    Memory,
}

impl From<AllocError> for WordsError {
    ghost use Rattle.std.specs.Prelude.{◌≡◌};
    ghost use Rattle.txcache_arguments.specs.declared.words.WordsError.TheVariants as reasons;

    ghost from_gives = { λ _ reason. reason ≡ reasons.Memory };

    fn from(_error: AllocError) -> WordsError {
        WordsError::Memory
    }
}

impl<T: Drop> From<AllocFailed<T>> for WordsError {
    ghost use Rattle.std.specs.Prelude.{◌≡◌};
    ghost use Rattle.txcache_arguments.specs.declared.words.WordsError.TheVariants as reasons;

    ghost from_gives = { λ _ reason. reason ≡ reasons.Memory };

    fn from(_error: AllocFailed<T>) -> WordsError {
        WordsError::Memory
    }
}

impl fmt::Display for NotText {
    fn fmt<W: fmt::Write>(&self, f: &mut fmt::Formatter<W>) -> fmt::Result {
        let bytes = self.bytes.as_slice();
        let start = bytes.get(..MAX_SHOWN).unwrap_or(bytes);
        let rest = if start.len() < bytes.len() { "..." } else { "" };
        let (number, byte) = (self.number, self.at.saturating_add(1));
        let start = start.escape_ascii();
        write!(
            f,
            "argument {number}: expected UTF-8, found `{start}{rest}`, wrong at byte {byte}"
        )
    }
}

/// Returns the bytes of the argument of that number, or `None` if there are fewer arguments.
fn argument<R: Env>(rt: &R, alloc: Global, number: usize) -> Result<Option<Vec<u8>>, AllocError> {
    let mut room = FIRST_ROOM;
    for _ in 0..usize::BITS {
        let mut bytes = vec![in alloc; 0; room]?;
        match rt.arg(number, bytes.as_mut_slice()) {
            Ok(len) => {
                bytes.truncate(len);
                return Ok(Some(bytes));
            }
            Err(FillError::NotPresent) => return Ok(None),
            Err(FillError::TooLong) => room = room.saturating_mul(2),
        }
    }
    Err(AllocError)
}

/// Returns the word of the argument's bytes. Fails if they are not UTF-8.
fn word(number: usize, bytes: Vec<u8>) -> Result<String, NotText>
    ensures answer { IfOk result (λ word. string_bytes word ≡ bytes.items) }
    ensures refused { IfErr result (IsNotTextAt number bytes.items) }
{
    match String::from_utf8(bytes) {
        Ok(word) => Ok(word),
        Err(error) => Err(NotText {
            number,
            at: error.utf8_error().valid_up_to(),
            bytes: error.into_bytes(),
        }),
    }
}

/// Returns the words of the process's command line. The first is `txcache`, whatever the name under which the
/// program was called. Fails with the first argument that is not a text, or if memory cannot be allocated.
pub fn read_words<R: Env>(rt: &R, alloc: Global) -> Result<Vec<String>, WordsError>
    ensures named { IfOk result (λ words. BeginWithName (map string_bytes words.items)) }
    ensures refused { IfErr result IsNoText }
{
    let mut words = Vec::new(alloc);
    words.push(String::from_str(alloc, "txcache")?)?;
    for number in 1..usize::MAX {
        let Some(bytes) = argument(rt, alloc, number)? else {
            break;
        };
        match word(number, bytes) {
            Ok(word) => words.push(word)?,
            Err(fault) => return Err(WordsError::NotText(fault)),
        }
    }
    Ok(words)
}
