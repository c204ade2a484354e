//! Reading the words of a line.
ghost use Rattle.std.specs.Prelude.{◌≡◌, IfOk, IfErr, length};
ghost use Rattle.txc_script.specs.LineFaults.{kinds_for, IsKindsFault, IsWrong};
ghost use Rattle.txc_script.specs.ParsedWords.{SayAll};
ghost use Rattle.txc_script.specs.Words.{words_left};

use crate::excerpt::Excerpt;
use crate::finding::{next_kind, read_word};
use crate::line_fault::{CommandFault, WordFault, WordKind};
use crate::parsed_word::ParsedWord;
use crate::unread::{LineError, WordError};
use crate::words::WordsLeft;
use std::alloc::Global;

/// Returns the meanings of the `count` words, each of its kind, or the fault of the first that is not of its
/// kind. The kinds are these, and then the other one for each further word.
pub fn read_each<'a, F>(
    alloc: Global,
    kinds: &[WordKind],
    other: WordKind,
    words: WordsLeft<'a>,
    count: usize,
) -> Result<Vec<ParsedWord<'a>>, LineError<F>>
    requires { length (words_left words) ≡ count }
    ensures answer { IfOk result (λ said. SayAll (kinds_for kinds.now other (words_left words.entry))
        (words_left words.entry) said.items) }
    ensures refused { IfErr result (IsWrong (IsKindsFault (kinds_for kinds.now other (words_left words.entry))
        (words_left words.entry))) }
{
    let mut said = Vec::with_capacity(alloc, count)?;
    let mut left = words;
    let mut rest = kinds;
    for before in 0..count {
        let (kind, after) = next_kind(rest, other);
        let word = left.next();
        match read_word(alloc, kind, word) {
            Ok(value) => said.push_reserved(value),
            Err(WordError::Memory) => return Err(LineError::Memory),
            Err(WordError::Bad(at)) => {
                return Err(LineError::Wrong(CommandFault::Word(WordFault {
                    number: before + 1,
                    kind,
                    at,
                    text: Excerpt::new(word),
                })));
            }
        }
        rest = after;
    }
    Ok(said)
}

/// Returns the meanings of the `count` words, each of its kind, or the fault of the words.
pub fn read_words<'a, F>(
    alloc: Global,
    kinds: &[WordKind],
    words: WordsLeft<'a>,
    count: usize,
) -> Result<Vec<ParsedWord<'a>>, LineError<F>>
    requires { length (words_left words) ≡ count }
    ensures answer { IfOk result (λ said. SayAll kinds.now (words_left words.entry) said.items) }
    ensures refused { IfErr result (IsWrong (IsKindsFault kinds.now (words_left words.entry))) }
{
    if count != kinds.len() {
        return Err(LineError::Wrong(CommandFault::Count {
            wanted: kinds.len(),
            given: count,
        }));
    }
    read_each(alloc, kinds, WordKind::Key, words, count)
}
