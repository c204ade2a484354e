//! The replay of recent events at an insertion.
ghost use Rattle.std.specs.Prelude.{◌≡◌, ◌<◌, ◌≤◌, length, drop};
ghost use Rattle.std.specs.List.{position, HoldsAt};
ghost use Rattle.txc_tags.specs.Tags.{sets_match};
ghost use Rattle.txc_node.specs.Cache.{reach_after_replay};

use crate::entry::Entry;
use circular_buffer::HeapCircularBuffer;
use txc_stamp::{Reach, Stamp};
use txc_tags::TagSet;

// Returns `true` if the recent event at a place matches.
fn matches_at(recent: &HeapCircularBuffer<TagSet>, i: usize, tags: &TagSet) -> bool
    requires { i < length recent.now.items }
    ensures { HoldsAt (λ t. result ≡ sets_match t tags.now) recent.now.items i }
{
    match recent.get(i) {
        None => false,
        Some(event) => event.matches(tags),
    }
}

// Returns the first recent event from a place on that matches, counted from there.
fn first_match(recent: &HeapCircularBuffer<TagSet>, from: usize, tags: &TagSet) -> Option<usize>
    requires { from ≤ length recent.now.items }
    ensures { result ≡ position (λ t. sets_match t tags.now) (drop from recent.now.items) }
{
    for i in from..recent.len() {
        if matches_at(recent, i, tags) {
            return Some(i - from);
        }
    }
    None
}

// Returns the reach after the events after `known`, up to `processed`, of which the last ones are stored.
fn replay(
    reach: Reach,
    tags: &TagSet,
    processed: Stamp,
    recent: &HeapCircularBuffer<TagSet>,
) -> Reach
    ensures value { result ≡ reach_after_replay reach tags.now processed recent.now.items }
    ensures lo { result.lo ≡ reach.lo }
{
    if !reach.is_still() {
        return reach;
    }
    let missed = processed.number().saturating_sub(reach.known().number()) as usize;
    if recent.len() < missed {
        return reach.closed();
    }
    match first_match(recent, recent.len() - missed, tags) {
        None => reach,
        Some(k) => {
            let known = reach.known().number() + k as u32;
            reach.with_known(known).closed()
        }
    }
}

/// Returns the reach of an entry after the events that it missed.
pub(crate) fn replay_for(e: &Entry, processed: Stamp, recent: &HeapCircularBuffer<TagSet>) -> Reach
    ensures value { result ≡ reach_after_replay e.now.reach e.now.tags processed recent.now.items }
    ensures lo { result.lo ≡ e.now.reach.lo }
{
    replay(e.reach, &e.tags, processed, recent)
}
