//! A node that threads share, and passes at it.
use anyhow::Result;
use std::alloc::Global;
use std::sync::Wait;
use txc_db::Naming;
use txc_node::{Entry, HitValue};
use txc_shared::{NodePass, SharedNode, audit, meet};
use txc_site::records_left;
use txc_stamp::Stamp;
use txc_tags::Key;
use txcache_functions::Program;

/// Lets a node take events, and drop entries.
fn take<J: Naming>(
    rt: &impl Wait,
    alloc: Global,
    node: &SharedNode<Program, J>,
    pass: &mut NodePass<J>,
) -> Result<usize> {
    pass.advance(rt, alloc, node)?;
    let (taken, _ended) = pass.advance_many(rt, alloc, node);
    Ok(pass.sweep(rt, alloc, node, Stamp::ZERO)?.max(taken))
}

/// Makes a lookup by one pass, and an insertion by the other.
fn find<J: Naming>(
    rt: &impl Wait,
    alloc: Global,
    node: &SharedNode<Program, J>,
    one: &mut NodePass<J>,
    other: &mut NodePass<J>,
) -> Result<()> {
    let key = Key::read(b"f0(7)")?;
    let Some(found) = one.lookup(rt, alloc, node, &key, Stamp::ZERO, Stamp::ZERO)? else {
        return Ok(());
    };
    let HitValue { reach, value, tags } = found.answer;
    let entry = Entry {
        key,
        value,
        reach,
        tags,
    };
    other.insert(rt, alloc, node, entry, &found.front)?;
    Ok(())
}

/// Returns how many records two passes show, after each has seen the other's.
fn records<J: Naming>(one: &mut NodePass<J>, other: &mut NodePass<J>) -> usize {
    one.is_legal();
    if one.settings() != other.settings() {
        return one.len().max(one.events().len());
    }
    meet(one, other);
    let events = match audit(other) {
        Some(counts) => counts.events() as usize,
        None => 0,
    };
    one.records().len().max(events)
}

/// Makes the steps of two passes.
pub fn step<J: Naming>(
    rt: &impl Wait,
    alloc: Global,
    node: &SharedNode<Program, J>,
) -> Result<usize> {
    let mut one = node.pass(rt)?;
    let mut other = node.pass(rt)?;
    let taken = take(rt, alloc, node, &mut one)?;
    find(rt, alloc, node, &mut one, &mut other)?;
    let counted = one.node_counts(rt, node)?.events() as usize;
    let room = match (node.row(), records_left(&one)) {
        (Some(row), Some(left)) => row.capacity().max(left),
        _ => 0,
    };
    let shown = records(&mut one, &mut other);
    Ok(room.max(taken).max(counted).max(shown))
}
