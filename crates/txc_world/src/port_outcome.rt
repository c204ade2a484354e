//! Actions of the ports, as replies report them.
ghost use Rattle.std.specs.Prelude.{◌≡◌, ◌<◌, ◌⊎◌, map, Err, IfErr, IfOk, IsOk, Ok, OnErr, Some};
ghost use Rattle.txc_world.specs.PortRequests.{AnswersRows, DoesTell, DoesTellFound, IsTold, IsToldOf};

use std::alloc::{AllocError, Global};
use txc_cushion::AddError;
use txc_db::{Answered, DbError};
use txc_rows::Row;
use txc_stamp::{Reach, Stamp};
use txc_tags::TagSet;
use txc_txn_ports::{Kept, PortReply};
use txc_validity::Found;

/// Result of a query: the ids of the rows, with its validity and its tags.
#[derive(Debug, Drop)]
pub struct RowsFound {
    pub ids: Vec<u32>,
    pub reach: Reach,
    pub tags: TagSet,
}

/// Action of a port at a request of a transaction.
#[derive(Debug, Drop)]
pub enum PortOutcome {
    /// The database pinned the present, at that stamp.
    Pinned(Stamp),
    /// The pincushion added the pin.
    Added,
    /// The pincushion did not add the pin.
    NotAdded(AddError),
    /// The database removed the hold of a pin that was not added.
    Unpinned,
    /// The node has an entry of the call, over that reach.
    Hit(Reach),
    /// The node has no entry of the call, or failed.
    Miss,
    /// The database answered the query.
    Rows(RowsFound),
    /// The node stores the entry, over that reach.
    Stored(Reach),
    /// The node keeps the entry that it has of the same call and first stamp, which ends no earlier.
    Kept,
    /// The node failed, and stores nothing.
    Dropped,
    /// The database failed.
    Refused(DbError),
}

// Returns the ids of the rows.
fn ids_of(alloc: Global, rows: &[Row]) -> Result<Vec<u32>, AllocError>
    ensures { IfOk result (λ ids. ids.items ≡ map (λ r. r.id) rows.now) }
{
    let mut ids = Vec::new(alloc);
    for row in rows {
        ids.push(row.id())?;
    }
    Ok(ids)
}

// Returns the report of the found rows.
fn rows_found(alloc: Global, found: &Found) -> Result<RowsFound, AllocError>
    ensures { IfOk result (IsToldOf found.now) }
{
    let ids = ids_of(alloc, &found.rows)?;
    let tags = found.tags.copy(alloc)?;
    Ok(RowsFound {
        ids,
        reach: found.reach,
        tags,
    })
}

/// Returns the answer, with the report of its rows.
pub(crate) fn with_rows(
    alloc: Global,
    found: Result<Found, DbError>,
) -> Result<(Found, RowsFound), DbError>
    ensures rows { IfOk result (λ both. (found ≡ Ok both.0) × IsToldOf both.0 both.1) }
    ensures refused { IfErr result (λ e. (found ≡ Err e) ⊎ (IsOk found × (e ≡ DbError.Memory))) }
{
    let found = found?;
    let rows = rows_found(alloc, &found)?;
    Ok((found, rows))
}

// Returns an error, once for the report and once for the transaction.
fn told_refusal(refusal: &DbError) -> (PortOutcome, Result<Found, DbError>)
    ensures { result ≡ (PortOutcome.Refused refusal.now, Err refusal.now) }
{
    let did = PortOutcome::Refused(*refusal);
    (did, Err(*refusal))
}

/// Returns the report of the answer, and the answer. If memory for the report cannot be allocated, both are
/// that error.
pub(crate) fn answer_told(
    alloc: Global,
    found: Result<Found, DbError>,
) -> (PortOutcome, Result<Found, DbError>)
    ensures tells { DoesTellFound result.1 result.0 }
    ensures same { (result.1 ≡ found) ⊎ (IsOk found × (result.1 ≡ Err DbError.Memory)) }
{
    match with_rows(alloc, found) {
        Ok((found, rows)) => (PortOutcome::Rows(rows), Ok(found)),
        Err(refusal) => told_refusal(&refusal),
    }
}

// Returns the report of an answer, or of an error.
fn found_told(
    alloc: Global,
    found: &Result<Answered<Found>, DbError>,
) -> Result<PortOutcome, AllocError>
    ensures tells { IfOk result (DoesTell (PortReply.Query found.now)) }
    ensures rows { OnErr result (AnswersRows (PortReply.Query found.now)) }
{
    match found {
        Ok(found) => Ok(PortOutcome::Rows(rows_found(alloc, &found.answer)?)),
        Err(refusal) => Ok(PortOutcome::Refused(*refusal)),
    }
}

// Returns the report of a reply. It allocates only for the rows of a query.
fn did_of(alloc: Global, reply: &PortReply) -> Result<PortOutcome, AllocError>
    ensures tells { IfOk result (DoesTell reply.now) }
    ensures rows { OnErr result (AnswersRows reply.now) }
{
    let did = match reply {
        PortReply::Pin(Ok(pinned)) => PortOutcome::Pinned(pinned.stamp),
        PortReply::Pin(Err(refusal)) => PortOutcome::Refused(*refusal),
        PortReply::AddPin(_, Ok(())) => PortOutcome::Added,
        PortReply::AddPin(_, Err(refusal)) => PortOutcome::NotAdded(*refusal),
        PortReply::Unpin(Ok(())) => PortOutcome::Unpinned,
        PortReply::Unpin(Err(refusal)) => PortOutcome::Refused(*refusal),
        PortReply::Lookup(Some(hit)) => PortOutcome::Hit(hit.answer.reach),
        PortReply::Lookup(None) => PortOutcome::Miss,
        PortReply::Query(found) => found_told(alloc, found)?,
        PortReply::Insert(Some(Kept::Stored(reach))) => PortOutcome::Stored(*reach),
        PortReply::Insert(Some(Kept::Earlier)) => PortOutcome::Kept,
        PortReply::Insert(None) => PortOutcome::Dropped,
    };
    Ok(did)
}

/// Returns the report of a reply, and the reply. If memory for the report of a query cannot be allocated, both
/// are that error.
pub(crate) fn told(alloc: Global, reply: PortReply) -> (PortOutcome, PortReply)
    ensures tells { DoesTell result.1 result.0 }
    ensures same { IsTold reply result.1 }
{
    match did_of(alloc, &reply) {
        Ok(did) => (did, reply),
        Err(_) => (
            PortOutcome::Refused(DbError::Memory),
            PortReply::Query(Err(DbError::Memory)),
        ),
    }
}
