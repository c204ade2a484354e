//! The meanings of the words after the names of lines, and the queries and changes made of them.
ghost use Rattle.std.specs.Prelude.{◌≡◌, None, IfOk, IfErr, length};
ghost use Rattle.txc_script.specs.LineFaults.{IsWrong};
ghost use Rattle.txc_script.specs.Words.{words_left};
ghost use Rattle.txc_script_lines.specs.Faults.{IsFaultAfter, IsUnkindFault, kinds_after_name, second_of};
ghost use Rattle.txc_script_lines.specs.LineWords.{AreBodies, SaysAfter, change_said, query_said, row_said};

use crate::fault::OwnFault;
use crate::kinds::{first_kinds, kinds_after_name, usage_of};
use crate::name::LineName;
use std::alloc::{AllocError, Global};
use txc_rows::{Change, Query, Row};
use txc_script::{
    ChangeName, CommandFault, LineError, ParsedWord, QueryName, WordsLeft, read_words,
};

/// The greatest wall-clock time and the longest duration, in milliseconds.
pub const LAST_MOMENT: u64 = u64::MAX;

/// Returns the second of the words, or no bytes if there is none.
fn second_of(words: WordsLeft<'_>, count: usize) -> &[u8]
    requires { length (words_left words) ≡ count }
    ensures { result.now ≡ second_of (words_left words.entry) }
{
    if count < 2 {
        return b"".as_slice();
    }
    let mut left = words;
    let _first = left.next();
    left.next()
}

/// Returns the fault of the words after the name of a line, if they do not determine their kinds.
fn find_without_kinds(
    alloc: Global,
    name: LineName,
    words: WordsLeft<'_>,
    count: usize,
) -> LineError<OwnFault>
    requires counted { length (words_left words) ≡ count }
    requires unknown { kinds_after_name name (second_of (words_left words)) ≡ None }
    ensures { IsWrong (IsUnkindFault name (words_left words.entry)) result }
{
    if count < 2 {
        return LineError::Wrong(CommandFault::Own(OwnFault::Usage(usage_of(name))));
    }
    match read_words(alloc, first_kinds(name), words.first(2), 2) {
        Ok(_) => unreachable!(),
        Err(reason) => reason,
    }
}

/// Returns the meanings of the words after the name of a line, or their fault.
pub fn read_after_name<'a>(
    alloc: Global,
    name: LineName,
    words: WordsLeft<'a>,
    count: usize,
) -> Result<Vec<ParsedWord<'a>>, LineError<OwnFault>>
    requires { length (words_left words) ≡ count }
    ensures answer { IfOk result (λ said. SaysAfter name (words_left words.entry) said.items) }
    ensures refused { IfErr result (IsWrong (IsFaultAfter name (words_left words.entry))) }
{
    match kinds_after_name(name, second_of(words, count)) {
        Some(kinds) => read_words(alloc, kinds, words, count),
        None => Err(find_without_kinds(alloc, name, words, count)),
    }
}

/// Returns the row that the words mean.
fn row_of(alloc: Global, said: &[ParsedWord<'_>]) -> Result<Option<Row>, AllocError>
    requires { AreBodies said.now }
    ensures { IfOk result (λ row. row ≡ row_said said.now) }
{
    match said {
        [table, id, group, body] => match (table, id, group, body) {
            (
                ParsedWord::Table(table),
                ParsedWord::Id(id),
                ParsedWord::Id(group),
                ParsedWord::Text(text),
            ) => {
                let body = Vec::from_slice(alloc, text.bytes())?;
                match Row::new(*table, *id, *group, body) {
                    Ok(row) => Ok(Some(row)),
                    Err(_) => unreachable!(),
                }
            }
            _ => Ok(None),
        },
        _ => Ok(None),
    }
}

/// Returns the removal that the words mean.
fn removal_of(said: &[ParsedWord<'_>]) -> Option<Change>
    ensures { result ≡ change_said ChangeName.Remove said.now }
{
    match said {
        [table, id] => match (table, id) {
            (ParsedWord::Table(table), ParsedWord::Id(id)) => Some(Change::Remove(*table, *id)),
            _ => None,
        },
        _ => None,
    }
}

/// Returns the change of this name that the words mean.
pub fn change_of(
    alloc: Global,
    name: ChangeName,
    said: &[ParsedWord<'_>],
) -> Result<Option<Change>, AllocError>
    requires { AreBodies said.now }
    ensures { IfOk result (λ change. change ≡ change_said name said.now) }
{
    match name {
        ChangeName::Put => match row_of(alloc, said)? {
            Some(row) => Ok(Some(Change::Put(row))),
            None => Ok(None),
        },
        ChangeName::Remove => Ok(removal_of(said)),
    }
}

/// Returns the query that the words mean.
pub fn query_of(said: &[ParsedWord<'_>]) -> Option<Query>
    ensures { result ≡ query_said said.now }
{
    match said {
        [name, table] => match (name, table) {
            (ParsedWord::Query(QueryName::All), ParsedWord::Table(table)) => Some(Query::All(
                *table,
            )),
            _ => None,
        },
        [name, table, id] => match (name, table, id) {
            (ParsedWord::Query(QueryName::ById), ParsedWord::Table(table), ParsedWord::Id(id)) => {
                Some(Query::ById(*table, *id))
            }
            (
                ParsedWord::Query(QueryName::ByGroup),
                ParsedWord::Table(table),
                ParsedWord::Id(group),
            ) => { Some(Query::ByGroup(*table, *group)) }
            _ => None,
        },
        [name, table, first, last] => match (name, table, first, last) {
            (
                ParsedWord::Query(QueryName::Range),
                ParsedWord::Table(table),
                ParsedWord::Id(first),
                ParsedWord::Id(last),
            ) => { Some(Query::Range(*table, *first, *last)) }
            _ => None,
        },
        _ => None,
    }
}
