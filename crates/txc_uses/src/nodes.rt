//! A node of one thread, with its stored history.
ghost use Rattle.std.specs.Prelude.{◌≡◌, ◌<◌, IfOk};

use anyhow::Result;
use std::alloc::Global;
use txc_db::DbCore;
use txc_node::{Entry, HitValue};
use txc_shared::{NodeSettings, StoredNode};
use txc_stamp::Stamp;
use txc_stream::{AppendToken, EventRow};
use txc_tags::Key;
use txcache_functions::Program;

const SETTINGS: NodeSettings = NodeSettings {
    number: 0,
    capacity: 64,
    recent: 16,
};

/// Adds a pass, and returns its number.
fn drawn(node: &mut StoredNode<Program>) -> Result<usize>
    ensures number { IfOk result (λ pass. pass < node.new.passes) }
    ensures seen { IfOk result (λ pass. node.new.seen ≡ node.old.seen) }
{
    Ok(node.pass()?)
}

/// Makes a lookup, and inserts its result.
fn find(alloc: Global, node: &mut StoredNode<Program>) -> Result<bool> {
    let pass = drawn(node)?;
    let key = Key::read(b"f0(7)")?;
    let Some(found) = node.lookup(alloc, pass, &key, Stamp::ZERO, Stamp::ZERO)? else {
        return Ok(false);
    };
    let HitValue { reach, value, tags } = found.answer;
    let entry = Entry {
        key,
        value,
        reach,
        tags,
    };
    node.insert(alloc, pass, entry, &found.front)?;
    Ok(true)
}

/// Lets the node take an event of the database.
fn take(alloc: Global, node: &mut StoredNode<Program>, database: &DbCore) -> Result<usize>
    requires { node.old.seen.events ≡ database.now.events }
{
    let front = database.front()?;
    node.see(&front);
    let pass = drawn(node)?;
    let turn = node.turn(pass);
    node.advance(alloc, pass, &front)?;
    Ok(turn)
}

/// Makes a sweep.
fn sweep(alloc: Global, node: &mut StoredNode<Program>) -> Result<usize> {
    let pass = drawn(node)?;
    Ok(node.sweep(alloc, pass, Stamp::ZERO)?)
}

/// Returns `true` if the node shows the settings with which it was made.
fn is_whole(node: &StoredNode<Program>) -> bool {
    node.is_sound();
    let is_open = !node.is_broken() && node.counts().is_some() && !node.front().is_full();
    let is_new = node.seen().is_empty() && node.passes() == 0;
    is_open && is_new && node.settings() == SETTINGS
}

/// Makes the steps of passes at a new node.
fn steps(alloc: Global, database: &DbCore, mut node: StoredNode<Program>) -> Result<(usize, bool)>
    requires { node.seen.events ≡ database.now.events }
{
    let is_whole = is_whole(&node);
    let taken = take(alloc, &mut node, database)?;
    let swept = sweep(alloc, &mut node)?;
    let is_found = find(alloc, &mut node)?;
    Ok((taken.max(swept), is_whole && !is_found))
}

/// Makes them at a node whose history is stored.
pub fn stored(alloc: Global) -> Result<(usize, bool)> {
    let database = DbCore::new(alloc, 4)?;
    let (row, seen) = (EventRow::new(alloc, 16)?, database.reader()?);
    let node = StoredNode::<Program>::new(alloc, SETTINGS, row, seen)?;
    let is_stored = node.front().is_stored();
    let (taken, is_whole) = steps(alloc, &database, node)?;
    Ok((taken, is_stored && is_whole))
}

/// Makes them at a node whose history is ghost.
pub fn unstored(alloc: Global) -> Result<(usize, bool)> {
    let database = DbCore::new(alloc, 4)?;
    let seen = database.reader()?;
    let node = StoredNode::<Program>::unstored(alloc, SETTINGS, AppendToken::new(), seen)?;
    steps(alloc, &database, node)
}
