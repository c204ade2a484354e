//! Keys, tags, reaches and counts as structs of numbers for C.
ghost use Rattle.std.specs.Prelude.{◌≡◌, length, map, true, false, if◌then◌else◌, is_some, Some, None, IfOk, IfSome};
ghost use Rattle.std.specs.List.{list_all};
ghost use Rattle.txc_tags.specs.Tags.{set_of};
ghost use Rattle.txc_c_types.specs.CacheViews.{are_sizes, named_call, interval_of, is_call, tag_of, is_tag, is_stamp, is_insertion, crossing_reach, crossing_counts, written_in, TellsStored};
ghost use Rattle.txc_c_types.specs.Numbers.{bytes_number};

use crate::numbers::NO_ROOM;
use std::alloc::{AllocError, Global};
use txc_node::{Entry, FunctionCounts, MAX_RECENT, MOST_CAPACITY};
use txc_stamp::{MOST_STAMP, Reach, Stamp};
use txc_tags::{Key, LAST_FUNCTION, LAST_TABLE, MAX_ARGS, Table, Tag, TagSet};

/// A key: a function, and the first `count` of the arguments.
#[repr(C)]
#[derive(Clone, Copy)]
pub struct TxcKey {
    pub function: u8,
    pub count: u8,
    pub args: [u32; MAX_ARGS],
}

/// A tag. Kind 0 is all rows of the table, 1 the row with this id, 2 those of this group.
#[repr(C)]
#[derive(Clone, Copy)]
pub struct TxcTag {
    pub table: u8,
    pub kind: u8,
    pub number: u32,
}

/// A reach: the first and the last known stamp, and whether the result is still valid.
#[repr(C)]
#[derive(Clone, Copy)]
pub struct TxcReach {
    pub lo: u32,
    pub known: u32,
    pub is_still: bool,
}

/// Result of an insertion that stored its entry: the reach after the replay, and the key and the first stamp of
/// the entry that was dropped for it, if one was.
#[repr(C)]
#[derive(Clone, Copy)]
pub struct TxcStored {
    pub reach: TxcReach,
    pub has_evicted: bool,
    pub evicted: TxcKey,
    pub evicted_lo: u32,
}

/// Counts of the replies about the calls of one function.
#[repr(C)]
#[derive(Clone, Copy)]
pub struct TxcCounts {
    pub lookups: u64,
    pub hits: u64,
    pub stored: u64,
    pub kept: u64,
    pub evicted: u64,
}

impl TxcKey {
    const NONE: TxcKey = TxcKey {
        function: 0,
        count: 0,
        args: [0; MAX_ARGS],
    };

    /// Returns `true` if there is such a function, and it has no more arguments than a call may have.
    pub fn is_call(&self) -> bool
        ensures { result ≡ is_call self.now }
    {
        self.function <= LAST_FUNCTION && usize::from(self.count) <= MAX_ARGS
    }

    /// Returns the key, or `None` if there is no such function, or it has too many arguments.
    pub fn key(&self) -> Option<Key>
        ensures { result ≡ (if is_call self.now then Some (named_call self.now) else None) }
    {
        let count = usize::from(self.count);
        if count > MAX_ARGS {
            return None;
        }
        Key::new(self.function, &self.args[..count]).ok()
    }

    /// Returns the struct of a key.
    fn of(key: &Key) -> TxcKey
        ensures { named_call result ≡ key.now }
    {
        let given = key.args();
        let mut args = [0; MAX_ARGS];
        args[..given.len()].copy_from_slice(given);
        TxcKey {
            function: key.function(),
            count: given.len() as u8,
            args,
        }
    }
}

impl TxcTag {
    /// Returns `true` if there is such a table and such a kind.
    fn is_tag(&self) -> bool
        ensures { result ≡ is_tag self.now }
    {
        self.table <= LAST_TABLE && self.kind <= 2
    }

    /// Returns the tag.
    fn tag(&self) -> Tag
        requires { is_tag self.now ≡ true }
        ensures { result ≡ tag_of self.now }
    {
        let table = Table::new(self.table).unwrap();
        match self.kind {
            0 => Tag::wildcard(table),
            1 => Tag::id(table, self.number),
            _ => Tag::group(table, self.number),
        }
    }
}

/// Returns `true` if each of them is a tag.
pub fn are_tags(tags: &[TxcTag]) -> bool
    ensures { result ≡ list_all is_tag tags.now }
{
    tags.iter().all(|tag| tag.is_tag())
}

/// Returns `true` if a caller may name such a stamp.
fn is_stamp(number: u32) -> bool
    ensures { result ≡ is_stamp number }
{
    number <= MOST_STAMP
}

/// Returns the stamp of that number, or `None` if the number is above the greatest one.
pub fn stamp_of(number: u32) -> Option<Stamp>
    ensures there { is_some result ≡ is_stamp number }
    ensures stamp { IfSome result (λ stamp. stamp ≡ number) }
{
    if !is_stamp(number) {
        return None;
    }
    Some(Stamp::after(number as usize))
}

/// Returns `true` if each argument of an insertion is in its range.
pub fn is_insertion(key: &TxcKey, reach: &TxcReach, tags: &[TxcTag]) -> bool
    ensures { result ≡ is_insertion key.now reach.now tags.now }
{
    key.is_call() && (is_stamp(reach.lo) && (is_stamp(reach.known) && are_tags(tags)))
}

/// Returns the set of these tags. Fails only if memory cannot be allocated.
pub fn tags_of(alloc: Global, tags: &[TxcTag]) -> Result<TagSet, AllocError>
    requires { list_all is_tag tags.now ≡ true }
    ensures { IfOk result (λ set. set ≡ set_of (map tag_of tags.now)) }
{
    let mut set = TagSet::new(alloc);
    for tag in tags {
        set.add(tag.tag())?;
    }
    Ok(set)
}

impl TxcReach {
    /// Returns the struct of a reach.
    pub fn of(reach: Reach) -> TxcReach
        ensures { result ≡ crossing_reach reach }
    {
        TxcReach {
            lo: reach.lo().number(),
            known: reach.known().number(),
            is_still: reach.is_still(),
        }
    }
}

impl TxcStored {
    /// Returns the struct of an insertion that stored its entry.
    pub fn of(reach: Reach, evicted: &Option<Entry>) -> TxcStored
        ensures { TellsStored reach evicted.now result }
    {
        let reach = TxcReach::of(reach);
        match evicted {
            None => TxcStored {
                reach,
                has_evicted: false,
                evicted: TxcKey::NONE,
                evicted_lo: 0,
            },
            Some(entry) => TxcStored {
                reach,
                has_evicted: true,
                evicted: TxcKey::of(&entry.key),
                evicted_lo: entry.reach.lo().number(),
            },
        }
    }
}

impl TxcCounts {
    /// Returns the struct of the counts of a function.
    pub fn of(counts: FunctionCounts) -> TxcCounts
        ensures { result ≡ crossing_counts counts }
    {
        TxcCounts {
            lookups: counts.lookups,
            hits: counts.hits,
            stored: counts.stored,
            kept: counts.kept,
            evicted: counts.evicted,
        }
    }
}

/// Returns `true` if a node may have this capacity, and store the tags of that many events.
pub fn are_sizes(capacity: usize, recent: usize) -> bool
    ensures { result ≡ are_sizes capacity recent }
{
    1 <= capacity && capacity <= MOST_CAPACITY && 1 <= recent && recent <= MAX_RECENT
}

/// Writes the number of bytes to `len`, and the bytes to `value` if there is room. Returns `number`, or
/// [`NO_ROOM`](crate::NO_ROOM) if there is not.
pub fn write_value(number: u32, bytes: &[u8], value: &mut [u8], len: &mut usize) -> u32
    ensures number { result ≡ bytes_number number (length value.old) bytes.now }
    ensures len { len.new ≡ length bytes.now }
    ensures bytes { value.new ≡ written_in bytes.now value.old }
{
    *len = bytes.len();
    if bytes.len() > value.len() {
        return NO_ROOM;
    }
    value[..bytes.len()].copy_from_slice(bytes);
    number
}
