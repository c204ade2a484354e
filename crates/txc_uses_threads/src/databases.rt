//! A database under its lock, the feed of its events, and its pincushion.
use anyhow::Result;
use std::alloc::Global;
use std::sync::Wait;
use txc_cushion::{CushionCore, Pincushion};
use txc_db::{Database, Naming};
use txc_rows::Query;
use txc_site::events_left;
use txc_stamp::Stamp;
use txc_tags::{Table, TagSet};

/// Takes an event.
pub fn feed<J: Naming>(rt: &impl Wait, database: &Database<J>) -> Result<usize> {
    let mut feed = database.feed(rt)?;
    let front = database.reader()?;
    front.is_tagged();
    feed.longer(&front);
    let left = events_left(&front);
    if !feed.look(rt) {
        return Ok(feed.front().len().max(left));
    }
    let net = match feed.next_event() {
        Some(event) => event.net().len(),
        None => 0,
    };
    let is_tagged = feed.next_tags().is_some();
    feed.take();
    Ok(net.max(usize::from(is_tagged)))
}

/// Makes a query at a stamp that is held.
pub fn ask<J: Naming>(rt: &impl Wait, alloc: Global, database: &Database<J>) -> Result<usize> {
    let held = database.hold(rt, alloc)?;
    let shown = held.front().len();
    let query = Query::All(Table::new(1).unwrap());
    let found = database.query(rt, alloc, &query, held.stamp());
    database.release(rt, held)?;
    Ok(shown.max(found?.answer.rows.len()))
}

/// Makes a commit, a pin and a vacuum.
pub fn commit<J: Naming>(rt: &impl Wait, alloc: Global, database: &Database<J>) -> Result<usize> {
    let tags = TagSet::new(alloc);
    let committed = database.commit(rt, alloc, Stamp::ZERO, &tags, &[])?;
    let pinned = database.pin(rt, alloc, 2000, committed.answer)?;
    database.unpin(rt, pinned.stamp)?;
    let kept = database.vacuum(rt)?.number() as usize;
    let room = match database.events() {
        Some(row) => row.capacity(),
        None => database.reader()?.room(),
    };
    Ok(kept.max(room))
}

/// Adds a pin to a pincushion, gets it issued, and returns it.
pub fn stick<J: Naming>(
    rt: &impl Wait,
    alloc: Global,
    database: &Database<J>,
    cushion: &Pincushion<J>,
) -> Result<usize> {
    let pinned = database.pin(rt, alloc, 1000, Stamp::ZERO)?;
    cushion.add(rt, &pinned)?;
    let pins = cushion.fresh(rt, alloc, 1000, 500, pinned.stamp)?;
    cushion.give_back(rt, &[pinned.stamp])?;
    Ok(pins.pins.len())
}

/// Returns how many pins a new pincushion retires.
pub fn retire<J: Naming>(rt: &impl Wait, alloc: Global, database: &Database<J>) -> Result<usize> {
    let core = CushionCore::new(alloc, database.reader()?);
    let cushion = Pincushion::<J>::of_core(core);
    Ok(cushion.retire(rt, alloc, 2000, 1000)?.len())
}
