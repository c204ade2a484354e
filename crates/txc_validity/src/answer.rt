ghost use Rattle.std.specs.Prelude.{◌≡◌, ◌↔◌, ◌≤◌, ◌<◌, ◌⊎◌, ◌-◌, ◌+◌, ◌∷◌, [], ℕ, IfOk, IfErr, IsErrOf, length};
ghost use Rattle.txc_rows.specs.States.{State};
ghost use Rattle.txc_rows.specs.RowTags.{query_tag};
ghost use Rattle.txc_rows.specs.Versions.{shown_at, is_visible, IsVersion, AreVersions};
ghost use Rattle.txc_rows.specs.KeptStates.{ShowsAnswers};
ghost use Rattle.txc_validity.specs.Validity.{IsValidity};
ghost use Rattle.txc_validity.specs.Answers.{IsAnswer};
ghost use Rattle.txc_validity.specs.Changes.{Turns, IsSteady};

use crate::error::ValidityError;
use std::alloc::{AllocError, Global};
use txc_rows::{Query, Row, Versioned};
use txc_stamp::{Reach, Stamp};
use txc_tags::TagSet;

/// The answer of a query at a stamp, by id, with its validity interval and the query's tag.
#[derive(Drop)]
pub struct Found {
    pub rows: Vec<Row>,
    pub reach: Reach,
    pub tags: TagSet,
}

/// An answer, and the number of tests that it took.
#[derive(Drop)]
pub struct Counted {
    pub found: Found,
    /// The number of versions tested for visibility at a stamp.
    pub tests: usize,
}

/// Returns the rows that the query selects at a stamp, in the order of the versions. Fails only if memory
/// cannot be allocated.
pub fn rows_at(
    alloc: Global,
    versions: &[Versioned],
    query: &Query,
    stamp: Stamp,
) -> Result<Vec<Row>, AllocError>
    ensures { IfOk result (λ rows. rows.items ≡ shown_at query.now stamp versions.now) }
{
    let mut rows = Vec::new(alloc);
    for version in versions {
        if version.is_visible(stamp) && query.matches(&version.row) {
            rows.push(version.row.copy(alloc)?)?;
        }
    }
    Ok(rows)
}

/// Returns the stamp before another.
fn before(stamp: Stamp) -> Stamp
    requires { 1 ≤ stamp }
    ensures { result ≡ stamp - 1 }
{
    Stamp::after(stamp.number() as usize - 1)
}

/// A range of stamps around one, from a first to a last, both included.
#[derive(Clone, Copy, Debug, PartialEq, Eq)]
struct Stretch {
    first: Stamp,
    last: Stamp,
}

impl Stretch {
    /// Returns the part of the range around the stamp in which the version is visible exactly if it is at the
    /// stamp.
    ///
    /// A version that is visible there bounds the validity of the answer that has it. An invisible one bounds
    /// it too: it belongs to the invalidity mask, the stamps at which the answer would have more rows.
    fn cut(self, version: &Versioned, stamp: Stamp, visible: bool) -> Stretch
        requires version { IsVersion version.now }
        requires around { (self.first ≤ stamp) × (stamp ≤ self.last) }
        requires visible { visible ≡ is_visible stamp version.now }
        ensures low { (self.first ≤ result.first) × (result.first ≤ stamp) }
        ensures high { (stamp ≤ result.last) × (result.last ≤ self.last) }
        ensures steady { IsSteady stamp result.first result.last version.now }
        ensures first { (result.first ≡ self.first) ⊎ Turns version.now result.first }
        ensures last { (result.last ≡ self.last) ⊎ Turns version.now (result.last + 1) }
    {
        let (mut first, mut last) = (self.first, self.last);
        if visible {
            first = first.max(version.born);
            if let Some(died) = version.died {
                last = last.min(before(died));
            }
        } else if version.born > stamp {
            last = last.min(before(version.born));
        } else if let Some(died) = version.died {
            first = first.max(died);
        }
        Stretch { first, last }
    }
}

/// Returns the set of the query's single tag. Fails only if memory cannot be allocated.
fn tags_of(alloc: Global, query: &Query) -> Result<TagSet, AllocError>
    ensures { IfOk result (λ tags. tags ≡ query_tag query.now ∷ []) }
{
    let mut tags = TagSet::new(alloc);
    tags.add(query.tag())?;
    Ok(tags)
}

/// Returns the same answer as [`answer_at`], and the number of versions tested for visibility, each once.
pub fn answer_counted(
    alloc: Global,
    versions: &[Versioned],
    query: &Query,
    stamp: Stamp,
    horizon: Stamp,
    newest: Stamp,
) -> Result<Counted, ValidityError>
    requires { AreVersions versions.now }
    ensures outside { IsErrOf result (ValidityError.OutsideKept horizon newest)
        ↔ ((stamp < horizon) ⊎ (newest < stamp)) }
    ensures refused { IfErr result (λ e.
        (e ≡ ValidityError.OutsideKept horizon newest) ⊎ (e ≡ ValidityError.Memory)) }
    ensures rows { IfOk result (λ c. c.found.rows.items ≡ shown_at query.now stamp versions.now) }
    ensures validity { IfOk result (λ c.
        IsValidity (λ s. shown_at query.now s versions.now) stamp horizon newest c.found.reach) }
    ensures tag { IfOk result (λ c. c.found.tags ≡ query_tag query.now ∷ []) }
    ensures tests { IfOk result (λ c. c.tests ≡ length versions.now) }
{
    if stamp < horizon || newest < stamp {
        return Err(ValidityError::OutsideKept(horizon, newest));
    }
    let mut rows = Vec::new(alloc);
    let mut tests = 0;
    let mut stretch = Stretch {
        first: horizon,
        last: newest,
    };
    for version in versions {
        let visible = version.is_visible(stamp);
        tests += 1;
        if query.matches(&version.row) {
            if visible {
                rows.push(version.row.copy(alloc)?)?;
            }
            stretch = stretch.cut(version, stamp, visible);
        }
    }
    let Stretch { first, last } = stretch;
    let found = Found {
        rows,
        reach: Reach::from_stamps(first, last, last == newest).unwrap(),
        tags: tags_of(alloc, query)?,
    };
    Ok(Counted { found, tests })
}

/// Returns the answer of the query at a stamp from the horizon to the newest, from the row versions that match
/// it.
///
/// Its reach is the largest range around the stamp with the same answer; it is still valid if it ends at the
/// newest stamp. One pass over the versions finds it. Fails if the stamp is outside the kept stamps, or if
/// there is no memory.
pub fn answer_at(
    alloc: Global,
    versions: &[Versioned],
    query: &Query,
    stamp: Stamp,
    horizon: Stamp,
    newest: Stamp,
) -> Result<Found, ValidityError>
    requires { AreVersions versions.now }
    ensures outside { IsErrOf result (ValidityError.OutsideKept horizon newest)
        ↔ ((stamp < horizon) ⊎ (newest < stamp)) }
    ensures refused { IfErr result (λ e.
        (e ≡ ValidityError.OutsideKept horizon newest) ⊎ (e ≡ ValidityError.Memory)) }
    ensures rows { IfOk result (λ f. f.rows.items ≡ shown_at query.now stamp versions.now) }
    ensures validity { IfOk result (λ f.
        IsValidity (λ s. shown_at query.now s versions.now) stamp horizon newest f.reach) }
    ensures tag { IfOk result (λ f. f.tags ≡ query_tag query.now ∷ []) }

    // For any states whose answers the versions show, it is the answer and its validity.
    ensures answer { (states : ℕ → State)
        → ShowsAnswers query.now states horizon newest versions.now
        → IfOk result (λ f. IsAnswer states query.now stamp horizon newest f) }
{
    match answer_counted(alloc, versions, query, stamp, horizon, newest) {
        Ok(counted) => Ok(counted.found),
        Err(refusal) => Err(refusal),
    }
}
