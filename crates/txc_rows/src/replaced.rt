//! The versions that later ones replaced, in memory next to the table of last versions.

ghost use Rattle.std.specs.Prelude.{◌≡◌, ◌≢◌, ◌++◌, ◌∷◌, [], ◌<◌, ◌≤◌, ◌+◌, ◌-◌, ◌^◌, true, false, max, nat_lt, None, Some, not, take, drop, length, filter, map, IfOk, OnOk, OnErr, MatchOption};
ghost use Rattle.std.specs.List.{AllByRecursion, slice_get};
ghost use Rattle.std.specs.List.Sorted.{IsPermutation};
ghost use Rattle.txc_rows.specs.declared.placed.Placed.{Placed};
ghost use Rattle.txc_rows.specs.Versions.{suits};
ghost use Rattle.txc_rows.specs.StorableVersions.{IsStorable};
ghost use Rattle.txc_rows.specs.Placed.{version_of, lasts_to, left_from, placed_left, has_front_died, without_front_dead};
ghost use Rattle.txc_rows.specs.ReplacedIndex.{version_id, version_group, spot_of, stamp_or_zero, FitsSpot, picked, is_from, dies_within, is_between, spot_suits, spots_asked, has_one_key, dead_between, DeathsAscend, IsEarliest, IsLatest, DiedFirst, DiedLast};
ghost use Rattle.txc_rows.specs.LatestTable.{IsFinding, AddsAround};

use crate::placed::Placed;
use crate::query::Query;
use crate::version::Versioned;
use std::alloc::{AllocError, Global};
use std::collections::btree_set::Range;
use std::collections::{BTreeSet, VecDeque};
use std::marker::Model;
use txc_stamp::Stamp;
use txc_tags::Table;

/// The most versions that a purge drops, in about a millisecond.
const MOST_DROPPED: usize = 500;

/// Number of purged versions dropped for each one added, so that the number of waiting ones falls.
const DROPPED_FOR_ONE: usize = 2;

/// An index entry: a version by its table, its id or group, and its death. All versions are numbered in the
/// order in which they were replaced.
#[derive(Clone, Copy, PartialEq, Eq, PartialOrd, Ord)]
pub(crate) struct Spot {
    table: u8,
    key: u32,
    death: usize,
    number: usize,
}

/// Selects the versions from a number on that died from one stamp to another.
#[derive(Clone, Copy)]
pub(crate) struct Deaths {
    number: usize,
    low: usize,
    high: usize,
}

impl Deaths {
    fn has(&self, spot: &Spot) -> bool
        ensures { result ≡ dies_within self.now spot.now }
    {
        self.number <= spot.number && self.low <= spot.death && spot.death <= self.high
    }
}

/// Versions that were replaced. Contracts see their list, the first replaced first.
#[derive(Drop)]
pub(crate) struct Replaced {
    versions: VecDeque<Placed>,
    /// The number of the first version.
    first: usize,
    /// The number of versions at the front that are purged: contracts do not see them, and they are dropped a
    /// few at a time.
    gone: usize,
    ids: BTreeSet<Spot>,
    groups: BTreeSet<Spot>,
}

impl Model for Replaced {
    ghost use Rattle.std.specs.Prelude.{List, length, drop, ◌≤◌};
    ghost use Rattle.txc_rows.specs.declared.placed.Placed.{Placed};
    ghost use Rattle.txc_rows.specs.ReplacedIndex.{AreIndexed};

    ghost Value = { List Placed };

    ghost view = { λ a. drop a.gone a.versions.items };

    ghost invariant = { λ a. AreIndexed a.first a.versions.items a.ids.keys a.groups.keys × (a.gone ≤ length a.versions.items) };
}

// ---- spots

fn stamp_or_zero(died: Option<Stamp>) -> usize
    ensures { result ≡ stamp_or_zero died }
{
    match died {
        Some(died) => died.number() as usize,
        None => 0,
    }
}

fn spot_by_id(placed: &Placed, number: usize) -> Spot
    ensures { result ≡ spot_of version_id number placed.now }
{
    let row = &placed.version.row;
    Spot {
        table: row.table().number(),
        key: row.id(),
        death: stamp_or_zero(placed.version.died),
        number,
    }
}

fn spot_by_group(placed: &Placed, number: usize) -> Spot
    ensures { result ≡ spot_of version_group number placed.now }
{
    let row = &placed.version.row;
    Spot {
        table: row.table().number(),
        key: row.group(),
        death: stamp_or_zero(placed.version.died),
        number,
    }
}

/// Adds a spot with a new number. Fails, and changes nothing, if there is no memory for it.
fn add_spot(spots: &mut BTreeSet<Spot>, spot: Spot) -> Result<(), AllocError>
    requires { AllByRecursion (λ s. s.number ≢ spot.number) spots.old.keys }
    ensures added { OnOk result (IsPermutation (spot ∷ spots.old.keys) spots.new.keys) }
    ensures unchanged { OnErr result (spots.new.keys ≡ spots.old.keys) }
{
    spots.insert(spot)?;
    Ok(())
}

/// Drops a spot, if no other has its number.
fn drop_spot(spots: &mut BTreeSet<Spot>, spot: Spot)
    ensures { (others : _) → AllByRecursion (λ s. s.number ≢ spot.number) others
        → IsPermutation (spot ∷ others) spots.old.keys → IsPermutation others spots.new.keys }
{
    spots.remove(&spot);
}

/// Returns the spots of a table with a key from the first to the last. It may or may not leave out those that
/// died at other stamps.
fn spots_between(
    spots: &BTreeSet<Spot>,
    deaths: Deaths,
    table: Table,
    first: u32,
    last: u32,
) -> Range<'_, Spot>
    requires { AllByRecursion FitsSpot (filter (is_from deaths.number) spots.now.keys) }
    ensures spots { filter (dies_within deaths) result
        ≡ filter (is_between table first last) (filter (dies_within deaths) spots.now.keys) }
    ensures rise { first ≡ last → DeathsAscend (filter (dies_within deaths) result) }
{
    let table = table.number();
    let low = Spot {
        table,
        key: first,
        death: deaths.low,
        number: 0,
    };
    if first > last || deaths.low > deaths.high {
        return spots.range(low..low);
    }
    let high = Spot {
        table,
        key: last,
        death: deaths.high,
        number: usize::MAX,
    };
    spots.range(low..=high)
}

/// Returns the spots of the versions that the query selects. It may or may not leave out those that died at
/// other stamps.
fn spots_for<'a>(
    ids: &'a BTreeSet<Spot>,
    groups: &'a BTreeSet<Spot>,
    deaths: Deaths,
    query: &Query,
) -> Range<'a, Spot>
    requires ids { AllByRecursion FitsSpot (filter (is_from deaths.number) ids.now.keys) }
    requires groups { AllByRecursion FitsSpot (filter (is_from deaths.number) groups.now.keys) }
    ensures spots { filter (dies_within deaths) result ≡ filter (spot_suits query.now)
        (spots_asked query.now (filter (dies_within deaths) ids.now.keys) (filter (dies_within deaths) groups.now.keys)) }
    ensures rise { has_one_key query.now ≡ true → DeathsAscend (filter (dies_within deaths) result) }
{
    match *query {
        Query::ById(table, id) => spots_between(ids, deaths, table, id, id),
        Query::ByGroup(table, group) => spots_between(groups, deaths, table, group, group),
        Query::All(table) => spots_between(ids, deaths, table, 0, u32::MAX),
        Query::Range(table, first, last) => spots_between(ids, deaths, table, first, last),
    }
}

fn has_one_key(query: &Query) -> bool
    ensures { result ≡ has_one_key query.now }
{
    match query {
        Query::ById(_, _) | Query::ByGroup(_, _) => true,
        Query::All(_) | Query::Range(_, _, _) => false,
    }
}

/// Returns `true` if more than `most` died within the range.
fn are_more(deaths: Deaths, spots: Range<'_, Spot>, most: usize) -> bool
    ensures more { result ≡ true → most < length (filter (dies_within deaths) spots.entry) }
    ensures few { result ≡ false → length (filter (dies_within deaths) spots.entry) ≤ most }
{
    let mut left = most;
    for spot in spots {
        if !deaths.has(spot) {
            continue;
        }
        if left == 0 {
            return true;
        }
        left -= 1;
    }
    false
}

/// Returns the first that died within the range; if deaths ascend, that is the earliest.
fn first_of(deaths: Deaths, spots: Range<'_, Spot>) -> Option<Spot>
    requires { DeathsAscend (filter (dies_within deaths) spots) }
    ensures { MatchOption result (filter (dies_within deaths) spots.entry ≡ [])
        (IsEarliest (filter (dies_within deaths) spots.entry)) }
{
    for spot in spots {
        if deaths.has(spot) {
            return Some(*spot);
        }
    }
    None
}

/// Returns the last that died within the range; if deaths ascend, that is the latest.
fn last_of(deaths: Deaths, mut spots: Range<'_, Spot>) -> Option<Spot>
    requires { DeathsAscend (filter (dies_within deaths) spots) }
    ensures { MatchOption result (filter (dies_within deaths) spots.entry ≡ [])
        (IsLatest (filter (dies_within deaths) spots.entry)) }
{
    while let Some(spot) = spots.next_back() {
        if deaths.has(spot) {
            return Some(*spot);
        }
    }
    None
}

/// Returns the later of the two, among those that died within the range.
fn later(deaths: Deaths, last: Option<Spot>, spot: &Spot) -> Option<Spot>
    ensures { (seen : _) → MatchOption last (seen ≡ []) (IsLatest seen)
        → MatchOption result (seen ++ filter (dies_within deaths) (spot.now ∷ []) ≡ [])
        (IsLatest (seen ++ filter (dies_within deaths) (spot.now ∷ []))) }
{
    if !deaths.has(spot) {
        return last;
    }
    if let Some(last) = last {
        if last.death > spot.death {
            return Some(last);
        }
    }
    Some(*spot)
}

/// Returns the latest that died within the range.
fn latest_of(deaths: Deaths, spots: Range<'_, Spot>) -> Option<Spot>
    ensures { MatchOption result (filter (dies_within deaths) spots.entry ≡ [])
        (IsLatest (filter (dies_within deaths) spots.entry)) }
{
    let mut last = None;
    for spot in spots {
        last = later(deaths, last, spot);
    }
    last
}

fn died_before(died: Option<Stamp>, from: u32) -> bool
    ensures { result ≡ not (lasts_to from died) }
{
    match died {
        Some(died) => died.number() < from,
        None => false,
    }
}

/// Returns the latest that died within the range: the last one if deaths ascend.
fn latest_spot(deaths: Deaths, spots: Range<'_, Spot>, rise: bool) -> Option<Spot>
    requires { rise ≡ true → DeathsAscend (filter (dies_within deaths) spots) }
    ensures { MatchOption result (filter (dies_within deaths) spots.entry ≡ [])
        (IsLatest (filter (dies_within deaths) spots.entry)) }
{
    if rise {
        last_of(deaths, spots)
    } else {
        latest_of(deaths, spots)
    }
}

/// Returns the version at a spot.
fn version_at(versions: &VecDeque<Placed>, first: usize, spot: Spot) -> Option<&Versioned>
    requires { first ≤ spot.number }
    ensures { MatchOption result (slice_get versions.now.items (spot.number - first) ≡ None)
        (λ v. (x : Placed) × (slice_get versions.now.items (spot.number - first) ≡ Some x) × (v.now ≡ x.version)) }
{
    match versions.get(spot.number - first) {
        Some(placed) => Some(&placed.version),
        None => None,
    }
}

/// Appends to the found versions those at the spots that died within the range. Fails only if memory cannot be
/// allocated.
fn take_found(
    versions: &VecDeque<Placed>,
    first: usize,
    deaths: Deaths,
    spots: Range<'_, Spot>,
    alloc: Global,
    found: &mut Vec<Versioned>,
) -> Result<(), AllocError>
    requires { first ≤ deaths.number }
    ensures { OnOk result (found.new.items ≡ found.old.items
        ++ map version_of (picked first versions.now.items (filter (dies_within deaths) spots.entry))) }
{
    for spot in spots {
        if !deaths.has(spot) {
            continue;
        }
        let Some(version) = version_at(versions, first, *spot) else {
            continue;
        };
        found.push(version.copy(alloc)?)?;
    }
    Ok(())
}

/// Appends the version to the found ones, if there is one. Fails only if memory cannot be allocated.
fn add_found(
    version: Option<&Versioned>,
    alloc: Global,
    found: &mut Vec<Versioned>,
) -> Result<(), AllocError>
    ensures { OnOk result (MatchOption version.entry (found.new.items ≡ found.old.items)
        (λ v. found.new.items ≡ found.old.items ++ v.now ∷ [])) }
{
    if let Some(version) = version {
        found.push(version.copy(alloc)?)?;
    }
    Ok(())
}

// ---- all of them

impl Replaced {
    pub(crate) fn new(alloc: Global) -> Replaced
        ensures { result ≡ [] }
    {
        Replaced {
            versions: VecDeque::new(alloc),
            first: 0,
            gone: 0,
            ids: BTreeSet::new(alloc),
            groups: BTreeSet::new(alloc),
        }
    }

    pub(crate) fn len(&self) -> usize
        ensures { result ≡ length self.now }
    {
        self.versions.len() - self.gone
    }

    fn push(&mut self, placed: Placed) -> Result<(), AllocError>
        ensures added { OnOk result (self.new ≡ self.old ++ placed ∷ []) }
        ensures unchanged { OnErr result (self.new ≡ self.old) }
    {
        if self.first >= usize::MAX - self.versions.len() {
            return Err(AllocError);
        }
        let number = self.first + self.versions.len();
        let (id, group) = (spot_by_id(&placed, number), spot_by_group(&placed, number));
        self.versions.reserve(1)?;
        add_spot(&mut self.ids, id)?;
        let Ok(()) = add_spot(&mut self.groups, group) else {
            drop_spot(&mut self.ids, id);
            return Err(AllocError);
        };
        self.versions.push_back_reserved(placed);
        Ok(())
    }

    /// Drops the first version, if it is purged.
    fn drop_first(&mut self)
        ensures { self.new ≡ self.old }
    {
        if self.gone == 0 {
            return;
        }
        if let Some(placed) = self.versions.pop_front() {
            drop_spot(&mut self.ids, spot_by_id(&placed, self.first));
            drop_spot(&mut self.groups, spot_by_group(&placed, self.first));
            self.first += 1;
            self.gone -= 1;
        }
    }

    /// Drops the first purged versions, at most `most` of them.
    fn drop_gone(&mut self, most: usize)
        ensures { self.new ≡ self.old }
    {
        for _ in 0..most {
            self.drop_first();
        }
    }

    /// Appends a version that was replaced. Fails, and changes nothing, if there is no memory for it.
    pub(crate) fn add(&mut self, placed: Placed) -> Result<(), AllocError>
        ensures added { OnOk result (self.new ≡ self.old ++ placed ∷ []) }
        ensures unchanged { OnErr result (self.new ≡ self.old) }
    {
        self.drop_gone(DROPPED_FOR_ONE);
        self.push(placed)
    }

    fn drop_last(&mut self)
        ensures { self.new ≡ take (length self.old - 1) self.old }
    {
        if self.len() == 0 {
            return;
        }
        if let Some(placed) = self.versions.pop_back() {
            let number = self.first + self.versions.len();
            drop_spot(&mut self.ids, spot_by_id(&placed, number));
            drop_spot(&mut self.groups, spot_by_group(&placed, number));
        }
    }

    /// Keeps the first `len` versions: undoes later additions.
    pub(crate) fn undo(&mut self, len: usize)
        ensures { self.new ≡ take len self.old }
    {
        while self.len() > len {
            self.drop_last();
        }
    }

    fn has_front_died(&self, from: u32) -> bool
        ensures { result ≡ has_front_died from self.now }
    {
        match self.versions.get(self.gone) {
            Some(placed) => died_before(placed.version.died, from),
            None => false,
        }
    }

    /// Purges the first version.
    fn let_go(&mut self)
        ensures { self.new ≡ drop 1 self.old }
    {
        if self.gone < self.versions.len() {
            self.gone += 1;
        }
    }

    /// Purges the versions at the front that died before the stamp. A version that died later keeps those
    /// behind it. They are not dropped all at once, so that no thread waits for it.
    pub(crate) fn purge(&mut self, from: u32)
        ensures { self.new ≡ without_front_dead from self.old }
    {
        while self.has_front_died(from) {
            self.let_go();
        }
        self.drop_gone(MOST_DROPPED);
    }

    /// Returns copies of the versions that did not die before the stamp. Fails only if memory cannot be
    /// allocated.
    pub(crate) fn left(&self, alloc: Global, from: u32) -> Result<Replaced, AllocError>
        ensures { IfOk result (λ left. left ≡ placed_left from self.now) }
    {
        let mut left = Replaced::new(alloc);
        for i in 0..self.len() {
            let placed = &self.versions[self.gone + i];
            if !died_before(placed.version.died, from) {
                left.add(placed.copy(alloc)?)?;
            }
        }
        Ok(left)
    }

    /// Returns `true` if more than `most` versions match, among those that did not die before the stamp.
    pub(crate) fn has_more(&self, query: &Query, from: usize, most: usize) -> bool
        requires each { AllByRecursion (λ x. IsStorable x.version) self.now }
        requires ended { AllByRecursion (λ x. x.version.died ≢ None) self.now }
        ensures more { result ≡ true → most < length (filter (suits query.now) (left_from from (map version_of self.now))) }
        ensures few { result ≡ false → length (filter (suits query.now) (left_from from (map version_of self.now))) ≤ most }
    {
        let deaths = Deaths {
            number: self.first + self.gone,
            low: from,
            high: usize::MAX,
        };
        let spots = spots_for(&self.ids, &self.groups, deaths, query);
        are_more(deaths, spots, most)
    }

    /// Appends to the found versions those that match and did not die before the stamp. Fails only if memory
    /// cannot be allocated.
    pub(crate) fn find(
        &self,
        alloc: Global,
        query: &Query,
        from: usize,
        found: &mut Vec<Versioned>,
    ) -> Result<(), AllocError>
        requires each { AllByRecursion (λ x. IsStorable x.version) self.now }
        requires ended { AllByRecursion (λ x. x.version.died ≢ None) self.now }
        ensures { OnOk result (IsFinding query.now from self.now found.old.items found.new.items) }
    {
        let deaths = Deaths {
            number: self.first + self.gone,
            low: from,
            high: usize::MAX,
        };
        let spots = spots_for(&self.ids, &self.groups, deaths, query);
        take_found(&self.versions, self.first, deaths, spots, alloc, found)
    }

    /// Returns the version of one id or one group that died first, among those that died from the one stamp to
    /// the other.
    fn first_dead(&self, query: &Query, low: usize, high: usize) -> Option<&Versioned>
        requires each { AllByRecursion (λ x. IsStorable x.version) self.now }
        requires key { has_one_key query.now ≡ true }
        ensures { MatchOption result (dead_between query.now low high self.now ≡ [])
            (λ v. DiedFirst (dead_between query.now low high self.now) v.now) }
    {
        let deaths = Deaths {
            number: self.first + self.gone,
            low,
            high,
        };
        let spots = spots_for(&self.ids, &self.groups, deaths, query);
        match first_of(deaths, spots) {
            Some(spot) => version_at(&self.versions, self.first, spot),
            None => None,
        }
    }

    /// Returns the matching version that died last, among those that died from the one stamp to the other.
    fn last_dead(&self, query: &Query, low: usize, high: usize) -> Option<&Versioned>
        requires each { AllByRecursion (λ x. IsStorable x.version) self.now }
        ensures { MatchOption result (dead_between query.now low high self.now ≡ [])
            (λ v. DiedLast (dead_between query.now low high self.now) v.now) }
    {
        let deaths = Deaths {
            number: self.first + self.gone,
            low,
            high,
        };
        let spots = spots_for(&self.ids, &self.groups, deaths, query);
        match latest_spot(deaths, spots, has_one_key(query)) {
            Some(spot) => version_at(&self.versions, self.first, spot),
            None => None,
        }
    }

    /// Appends, of the matching versions that died at the stamp `from` or later, those that died after the
    /// stamp `at`; of one id only the first of them.
    fn add_later(
        &self,
        alloc: Global,
        query: &Query,
        from: usize,
        at: usize,
        found: &mut Vec<Versioned>,
    ) -> Result<(), AllocError>
        requires each { AllByRecursion (λ x. IsStorable x.version) self.now }
        requires ended { AllByRecursion (λ x. x.version.died ≢ None) self.now }
        requires after { at < from }
        ensures { OnOk result (AddsAround at (filter (suits query.now) (left_from from (map version_of self.now)))
            found.old.items found.new.items) }
    {
        match query {
            Query::ById(_, _) => {
                let first = self.first_dead(query, from, usize::MAX);
                add_found(first, alloc, found)
            }
            _ => self.find(alloc, query, from, found),
        }
    }

    /// Appends the matching version that died last from the stamp `from` to the stamp `at`.
    fn add_last(
        &self,
        alloc: Global,
        query: &Query,
        from: usize,
        at: usize,
        found: &mut Vec<Versioned>,
    ) -> Result<(), AllocError>
        requires each { AllByRecursion (λ x. IsStorable x.version) self.now }
        requires ended { AllByRecursion (λ x. x.version.died ≢ None) self.now }
        ensures { OnOk result (AddsAround at (dead_between query.now from at self.now) found.old.items found.new.items) }
    {
        let last = self.last_dead(query, from, at);
        add_found(last, alloc, found)
    }

    /// Appends, of the matching versions that did not die before the stamp `from`, those that died after the
    /// stamp `at`, of one id only the first of them; and of the others the one that died last. Fails only if
    /// memory cannot be allocated.
    pub(crate) fn find_around(
        &self,
        alloc: Global,
        query: &Query,
        from: usize,
        at: usize,
        found: &mut Vec<Versioned>,
    ) -> Result<(), AllocError>
        requires each { AllByRecursion (λ x. IsStorable x.version) self.now }
        requires ended { AllByRecursion (λ x. x.version.died ≢ None) self.now }
        requires room { at < 2 ^ 64 - 1 }
        ensures { OnOk result (AddsAround at (filter (suits query.now) (left_from from (map version_of self.now)))
            found.old.items found.new.items) }
    {
        self.add_later(alloc, query, from.max(at + 1), at, found)?;
        self.add_last(alloc, query, from, at, found)
    }
}
