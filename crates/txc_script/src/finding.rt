//! Finding the fault of a malformed line.
ghost use Rattle.std.specs.Prelude.{◌≡◌, ◌∷◌, ◌↔◌, ℕ, List, position, IsTrue};
ghost use Rattle.std.specs.List.{list_any};
ghost use Rattle.txc_script.specs.Kinds.{IsFaultOf};
ghost use Rattle.txc_script.specs.Lines.{IsPlain, IsTextWord, change_named, query_named};
ghost use Rattle.txc_script.specs.Words.{words_of};
ghost use Rattle.txc_script.specs.LineFaults.{is_foreign, is_empty, kinds_for, IsWordRead};

use crate::kind::Script;
use crate::line::MAX_LINE_LEN;
use crate::line_fault::{CommandFault, LineFault, WordKind};
use crate::parsed_word::{ChangeName, ParsedWord, QueryName, TextWord};
use crate::unread::WordError;
use crate::word::{Word, read_function, read_id, read_table};
use crate::words::{all_words, count_words};
use std::alloc::Global;
use txc_stamp::Stamp;
use txc_tags::{Key, TagSet, read_number};

/// Returns `true` if the word has at most `most` bytes, all printable.
fn is_text(most: usize, word: &[u8]) -> bool
    ensures { IsTrue result ↔ IsTextWord most word.now }
{
    if word.is_empty() || word.len() > most {
        return false;
    }
    word.iter().all(|byte| *byte >= 0x21 && *byte <= 0x7e)
}

/// Returns the name of a query that the word is, if it is one.
pub fn query_name(word: &[u8]) -> Option<QueryName>
    ensures { result ≡ query_named word.now }
{
    if word == b"by-id".as_slice() {
        return Some(QueryName::ById);
    }
    if word == b"by-group".as_slice() {
        return Some(QueryName::ByGroup);
    }
    if word == b"all".as_slice() {
        return Some(QueryName::All);
    }
    if word == b"range".as_slice() {
        return Some(QueryName::Range);
    }
    None
}

/// Returns the name of a change that the word is, if it is one.
pub fn change_name(word: &[u8]) -> Option<ChangeName>
    ensures { result ≡ change_named word.now }
{
    if word == b"put".as_slice() {
        return Some(ChangeName::Put);
    }
    if word == b"remove".as_slice() {
        return Some(ChangeName::Remove);
    }
    None
}

/// Returns the meaning of the word. Fails if it is not of its kind, or if memory cannot be allocated.
pub fn read_word(alloc: Global, kind: WordKind, word: &[u8]) -> Result<ParsedWord<'_>, WordError>
    ensures { IsWordRead kind word.now result }
{
    match kind {
        WordKind::Key => Ok(ParsedWord::Key(<Key as Word>::read(alloc, word)?)),
        WordKind::Stamp => Ok(ParsedWord::Stamp(<Stamp as Word>::read(alloc, word)?)),
        WordKind::Reach => {
            let _still = <bool as Word>::read(alloc, word)?;
            Ok(ParsedWord::Other)
        }
        WordKind::Tags => {
            let _tags = <TagSet as Word>::read(alloc, word)?;
            Ok(ParsedWord::Other)
        }
        WordKind::Bytes => {
            let _bytes = <Vec<u8> as Word>::read(alloc, word)?;
            Ok(ParsedWord::Other)
        }
        WordKind::Table => Ok(ParsedWord::Table(read_table(word).ok_or(WordError::Bad(None))?)),
        WordKind::Id => Ok(ParsedWord::Id(read_id(word).ok_or(WordError::Bad(None))?)),
        WordKind::Function => Ok(ParsedWord::Function(read_function(word).ok_or(WordError::Bad(
            None,
        ))?)),
        WordKind::Number(most) => Ok(ParsedWord::Number(read_number(word, most).ok_or(
            WordError::Bad(None),
        )?)),
        WordKind::Text(most) if is_text(most, word) => Ok(ParsedWord::Text(TextWord::new(word))),
        WordKind::Text(_) => Err(WordError::Bad(None)),
        WordKind::QueryName => Ok(ParsedWord::Query(query_name(word).ok_or(WordError::Bad(None))?)),
        WordKind::ChangeName => Ok(ParsedWord::Change(change_name(word).ok_or(WordError::Bad(
            None,
        ))?)),
    }
}

/// Returns the first of these kinds, or the other one if there is none, and the kinds after it.
pub fn next_kind(kinds: &[WordKind], other: WordKind) -> (WordKind, &[WordKind])
    ensures { (word : List ℕ) (words : List (List ℕ)) → kinds_for kinds.now other (word ∷ words)
        ≡ result.0 ∷ kinds_for result.1.now other words }
{
    match kinds.split_first() {
        Some((kind, after)) => (*kind, after),
        None => (other, kinds),
    }
}

/// Returns the place of the first byte that no line may have.
fn foreign_at(line: &[u8]) -> Option<usize>
    ensures { result ≡ position is_foreign line.now }
{
    line.iter().position(|b| *b < 0x20 || *b > 0x7e)
}

/// Returns `true` if a word of the line is empty.
fn has_empty_word(line: &[u8]) -> bool
    ensures { result ≡ list_any is_empty (words_of line.now) }
{
    let mut words = all_words(line);
    for _ in 0..count_words(line) {
        if words.next().is_empty() {
            return true;
        }
    }
    false
}

/// Returns the fault of a line whose bytes are not allowed.
pub fn bad_bytes<K: Script>(kind: &K, state: &K::State, line: &[u8]) -> LineFault<K::Fault>
    requires { IsPlain line.now → ⊥ }
    ensures { IsFaultOf (K.kind kind.now) state.now line.now result }
{
    if line.len() > MAX_LINE_LEN {
        return LineFault::TooLong;
    }
    match foreign_at(line) {
        Some(at) => LineFault::Byte { at, byte: line[at] },
        None => unreachable!(),
    }
}

/// Returns the fault of a line whose words have this fault. An empty word is reported first.
pub fn bad_words<K: Script>(
    kind: &K,
    state: &K::State,
    line: &[u8],
    fault: CommandFault<K::Fault>,
) -> LineFault<K::Fault>
    requires plain { IsPlain line.now }
    requires wrong { (K.kind kind.now).is_wrong state.now (words_of line.now) fault }
    ensures { IsFaultOf (K.kind kind.now) state.now line.now result }
{
    if has_empty_word(line) {
        return LineFault::Blanks;
    }
    LineFault::Command(fault)
}
