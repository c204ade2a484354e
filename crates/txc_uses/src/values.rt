//! Calls of functions of stamps, tags, nodes, scripts and answers that no library above calls.
use anyhow::{Context, Result};
use std::alloc::Global;
use std::convert::Infallible;
use txc_node::{Counts, Hit, NodeCore, Reply};
use txc_rows::{Query, VersionRows};
use txc_script::{Excerpt, RunFault, exit_of, write_text};
use txc_stamp::{Reach, Span, Stamp};
use txc_stream::{AppendError, EventRow};
use txc_tags::{Key, Table, Tag, TagSet};
use txc_validity::answer_counted;

/// Makes two fronts of one history.
pub fn fronts(alloc: Global) -> Result<(usize, bool)> {
    let row = EventRow::new(alloc, 2)?;
    let (mut one, mut other) = (row.start(), row.start());
    row.append(&mut one, Box::new(alloc, 7u64)?)?;
    let refused = match row.append(&mut other, Box::new(alloc, 8u64)?) {
        Err(AppendError::Taken(refused)) => *refused.value,
        Err(AppendError::Full(value)) => *value,
        Ok(()) => 0,
    };
    let next = *row.next(&mut other).unwrap_or(&refused);
    row.agree(&one, &other);
    other.agree(&one);
    other.longer(&one);
    let again = other.again();
    if again.is_empty() || again.len() == 0 {
        return Ok((row.capacity(), false));
    }
    Ok((row.capacity(), *row.get(&again, 0) == next))
}

/// Makes a span of a reach, and a set that covers a tag.
pub fn spans(alloc: Global) -> Result<(String, bool)> {
    let span = Reach::new(0, 4, true)?.span(Stamp::after(7));
    let set = TagSet::read(alloc, b"t1:?")?;
    let covers = set.covers(Tag::read(b"t1:id=7")?);
    let shown = Excerpt::new(b"a line");
    let text = format!(in alloc; "{span}{set}{}", shown.text_len())?;
    let same = span == Span::new(2, 5)? && span.end() == 5 && shown.start().is_empty();
    Ok((text, covers && same))
}

/// Returns the counts of a reply, and whether it is a refusal.
fn counted(alloc: Global, reply: Reply<Hit<'_>>) -> Result<(u64, bool)> {
    let mut counts = Counts::new();
    counts.count(Some(1), &reply);
    Ok((counts.events(), reply.into_owned(alloc)?.is_refusal()))
}

/// Makes a lookup in an empty node.
pub fn misses(alloc: Global) -> Result<(u64, bool)> {
    let mut node = NodeCore::new(alloc, 8, 4)?;
    let key = Key::read(b"f1(7)")?;
    match node.lookup(&key, Stamp::ZERO, Stamp::after(1))? {
        Some(hit) => counted(alloc, Reply::Hit(hit)),
        None => Ok((0, node.is_empty())),
    }
}

/// Returns the answer of a version, and its text.
pub fn answers(alloc: Global) -> Result<(usize, u8)> {
    let table = Table::new(1).context("no table")?;
    let (query, stamp) = (Query::ById(table, 7), Stamp::after(1));
    let counted = answer_counted(alloc, &[], &query, stamp, Stamp::ZERO, stamp)?;
    let mut rows = VersionRows::open_in_memory(alloc)?;
    rows.set_step_limit(Some(1000));
    write_text(&mut std::io::sink(), b"written")?;
    let count = counted.tests.max(rows.matching(&query)?.len());
    Ok((count, exit_of::<Infallible>(&Err(RunFault::Write))))
}
