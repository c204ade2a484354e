//! Texts of the outputs of a world's script.
ghost use Rattle.std.specs.Prelude.{map};
ghost use Rattle.std.specs.Fmt.{WritesOnOk};
ghost use Rattle.txc_script_world.specs.TaskTexts.{asked_text, did_text, end_text, found_text, ids_text, stamps_text, world_reply_text};

use crate::printed::Printed;
use std::fmt;
use txc_cushion::Pin;
use txc_node::Value;
use txc_rows::Row;
use txc_shared::Advanced;
use txc_stamp::Stamp;
use txc_txn_ports::TxnError;
use txc_world::{PortOutcome, Reply, RowsFound};

// ---- rows

/// Writes ids joined by commas, or a dash for none.
fn write_ids<W: fmt::Write>(f: &mut fmt::Formatter<W>, ids: &[u32]) -> fmt::Result
    ensures { WritesOnOk W.write_str_gives f.old result (ids_text ids.now) f.new }
{
    let Some((first, others)) = ids.split_first() else {
        return write!(f, "-");
    };
    write!(f, "{first}")?;
    for id in others {
        write!(f, ",{id}")?;
    }
    Ok(())
}

/// Writes the ids of the rows, joined by commas, or a dash for none.
fn write_ids_of<W: fmt::Write>(f: &mut fmt::Formatter<W>, rows: &[Row]) -> fmt::Result
    ensures { WritesOnOk W.write_str_gives f.old result (ids_text (map (λ r. r.id) rows.now)) f.new }
{
    let Some((first, others)) = rows.split_first() else {
        return write!(f, "-");
    };
    let first = first.id();
    write!(f, "{first}")?;
    for row in others {
        let id = row.id();
        write!(f, ",{id}")?;
    }
    Ok(())
}

/// Writes rows that were found, with their reach and tags.
fn write_found<W: fmt::Write>(f: &mut fmt::Formatter<W>, found: &RowsFound) -> fmt::Result
    ensures { WritesOnOk W.write_str_gives f.old result (found_text found.now) f.new }
{
    let RowsFound { ids, reach, tags } = found;
    write!(f, "rows ")?;
    write_ids(f, ids.as_slice())?;
    write!(f, " {reach} {tags}")
}

// ---- replies

/// Writes the result of a call.
fn write_end<W: fmt::Write>(f: &mut fmt::Formatter<W>, end: &Result<Value, TxnError>) -> fmt::Result
    ensures { WritesOnOk W.write_str_gives f.old result (end_text end.now) f.new }
{
    match end {
        Ok(value) => write!(f, "value {value}"),
        Err(error) => {
            write!(f, "refused ")?;
            error.write_code(f)
        }
    }
}

/// Writes the action of a port.
fn write_did<W: fmt::Write>(f: &mut fmt::Formatter<W>, did: &PortOutcome) -> fmt::Result
    ensures { WritesOnOk W.write_str_gives f.old result (did_text did.now) f.new }
{
    match did {
        PortOutcome::Pinned(stamp) => write!(f, "pinned {stamp}"),
        PortOutcome::Added => write!(f, "added"),
        PortOutcome::NotAdded(error) => {
            write!(f, "refused ")?;
            error.write_code(f)
        }
        PortOutcome::Unpinned => write!(f, "unpinned"),
        PortOutcome::Hit(reach) => write!(f, "hit {reach}"),
        PortOutcome::Miss => write!(f, "miss"),
        PortOutcome::Rows(rows) => write_found(f, rows),
        PortOutcome::Stored(reach) => write!(f, "stored {reach}"),
        PortOutcome::Kept => write!(f, "kept"),
        PortOutcome::Dropped => write!(f, "dropped"),
        PortOutcome::Refused(error) => {
            write!(f, "refused ")?;
            error.write_code(f)
        }
    }
}

/// Writes the action of a port, and the call's result, if the call ended with it. If an error of the request
/// ended the call, only that error is written.
fn write_asked<W: fmt::Write>(
    f: &mut fmt::Formatter<W>,
    did: &PortOutcome,
    end: &Option<Result<Value, TxnError>>,
) -> fmt::Result
    ensures { WritesOnOk W.write_str_gives f.old result (asked_text did.now end.now) f.new }
{
    let Some(end) = end else {
        return write_did(f, did);
    };
    match did {
        PortOutcome::Refused(_) => write_end(f, end),
        _ => {
            write_did(f, did)?;
            write!(f, " ")?;
            write_end(f, end)
        }
    }
}

fn write_reply<W: fmt::Write>(f: &mut fmt::Formatter<W>, reply: &Reply) -> fmt::Result
    ensures { WritesOnOk W.write_str_gives f.old result (world_reply_text reply.now) f.new }
{
    match reply {
        Reply::Begun => write!(f, "open"),
        Reply::Based(base) => write!(f, "open {base}"),
        Reply::Started => write!(f, "started"),
        Reply::Asked(did, end) => write_asked(f, did, end),
        Reply::Ended(end) => write_end(f, end),
        Reply::Answered(rows) => {
            write!(f, "rows ")?;
            write_ids_of(f, rows.as_slice())
        }
        Reply::Kept => write!(f, "kept"),
        Reply::Receipt(None) => write!(f, "receipt none"),
        Reply::Receipt(Some(Pin { stamp, moment })) => write!(f, "receipt {stamp} {moment}"),
        Reply::Aborted(_) => write!(f, "aborted"),
        Reply::At(stamp) => write!(f, "at {stamp}"),
        Reply::Added => write!(f, "added"),
        Reply::GivenBack => write!(f, "given back"),
        Reply::Retired(stamps) => {
            let count = stamps.len();
            write!(f, "retired {count}")
        }
        Reply::Unpinned => write!(f, "unpinned"),
        Reply::Vacuumed(horizon) => write!(f, "horizon {horizon}"),
        Reply::Rows(rows) => write_found(f, rows),
        Reply::Advanced(Advanced::Taken { stamp, closed }) => {
            write!(f, "advanced {stamp} closed {closed}")
        }
        Reply::Advanced(Advanced::Idle) => write!(f, "idle"),
        Reply::Swept(count) => write!(f, "swept {count}"),
        Reply::Refused(refusal) => {
            write!(f, "refused ")?;
            refusal.write_code(f)
        }
    }
}

/// Writes stamps, each after a blank.
fn write_stamps<W: fmt::Write>(f: &mut fmt::Formatter<W>, stamps: &[Stamp]) -> fmt::Result
    ensures { WritesOnOk W.write_str_gives f.old result (stamps_text stamps.now) f.new }
{
    for stamp in stamps {
        write!(f, " {stamp}")?;
    }
    Ok(())
}

impl fmt::Display for Printed {
    ghost use Rattle.std.specs.Prelude.{Some};
    ghost use Rattle.txc_script_world.specs.TaskTexts.{printed_text};

    ghost output = { λ p. Some (printed_text p) };

    fn fmt<W: fmt::Write>(&self, f: &mut fmt::Formatter<W>) -> fmt::Result {
        match self {
            Printed::Replied(reply) => write_reply(f, reply),
            Printed::Ended(end) => write_end(f, end),
            Printed::Members(has_present, stamps) => {
                if *has_present {
                    write!(f, "pins *")?;
                    return write_stamps(f, stamps.as_slice());
                }
                write!(f, "pins")?;
                write_stamps(f, stamps.as_slice())
            }
            Printed::Tidied(count, horizon) => write!(f, "retired {count} horizon {horizon}"),
            Printed::Counted(line) => write!(f, "{line}"),
        }
    }
}
