//! The kinds of the words of lines.
ghost use Rattle.std.specs.Prelude.{◌≡◌, Some, None, IfSome, IfNone};
ghost use Rattle.txc_script_lines.specs.Faults.{change_line, first_kinds, kinds_after_name, place, query_line, usage_text};
ghost use Rattle.txc_script.specs.declared.line_fault.WordKind.{WordKind};

use crate::name::LineName;
use crate::said::LAST_MOMENT;
use txc_rows::MAX_BODY_LEN;
use txc_script::{ChangeName, QueryName, WordKind, change_name, query_name};
use txc_tags::LAST_NUMBER;

/// The number of an actor or a node.
const PLACE: WordKind = WordKind::Number(LAST_NUMBER);

/// A wall-clock time, or a duration.
const MOMENT: WordKind = WordKind::Number(LAST_MOMENT);

const BODY: WordKind = WordKind::Text(MAX_BODY_LEN);

static PUT: [WordKind; 4] = [WordKind::Table, WordKind::Id, WordKind::Id, BODY];

static REMOVE: [WordKind; 2] = [WordKind::Table, WordKind::Id];

static PIN: [WordKind; 1] = [MOMENT];

static QUERY: [WordKind; 2] = [WordKind::Stamp, WordKind::QueryName];

static QUERY_PAIR: [WordKind; 4] = [
    WordKind::Stamp,
    WordKind::QueryName,
    WordKind::Table,
    WordKind::Id,
];

static QUERY_TABLE: [WordKind; 3] = [WordKind::Stamp, WordKind::QueryName, WordKind::Table];

static QUERY_RANGE: [WordKind; 5] = [
    WordKind::Stamp,
    WordKind::QueryName,
    WordKind::Table,
    WordKind::Id,
    WordKind::Id,
];

static RO: [WordKind; 4] = [PLACE, MOMENT, MOMENT, WordKind::Stamp];

static SESSION: [WordKind; 3] = [PLACE, MOMENT, MOMENT];

static CALL: [WordKind; 2] = [PLACE, WordKind::Key];

static ASK: [WordKind; 2] = [PLACE, WordKind::QueryName];

static ASK_PAIR: [WordKind; 4] = [PLACE, WordKind::QueryName, WordKind::Table, WordKind::Id];

static ASK_TABLE: [WordKind; 3] = [PLACE, WordKind::QueryName, WordKind::Table];

static ASK_RANGE: [WordKind; 5] = [
    PLACE,
    WordKind::QueryName,
    WordKind::Table,
    WordKind::Id,
    WordKind::Id,
];

static WRITE: [WordKind; 2] = [PLACE, WordKind::ChangeName];

static WRITE_PUT: [WordKind; 6] = [
    PLACE,
    WordKind::ChangeName,
    WordKind::Table,
    WordKind::Id,
    WordKind::Id,
    BODY,
];

static WRITE_REMOVE: [WordKind; 4] = [PLACE, WordKind::ChangeName, WordKind::Table, WordKind::Id];

static ONLY_PLACE: [WordKind; 1] = [PLACE];

static SWEEP: [WordKind; 2] = [PLACE, WordKind::Stamp];

static TIDY: [WordKind; 2] = [MOMENT, MOMENT];

static COUNTS: [WordKind; 2] = [PLACE, WordKind::Function];

static NOTHING: [WordKind; 0] = [];

/// Returns the kinds of the words of `query`, whose second word has that name.
fn query_kinds(name: &[u8]) -> Option<&'static [WordKind]>
    ensures answer { IfSome result (λ kinds. query_line WordKind.Stamp name.now ≡ Some kinds.now) }
    ensures refused { IfNone result (query_line WordKind.Stamp name.now ≡ None) }
{
    match query_name(name) {
        Some(QueryName::ById | QueryName::ByGroup) => Some(QUERY_PAIR.as_slice()),
        Some(QueryName::All) => Some(QUERY_TABLE.as_slice()),
        Some(QueryName::Range) => Some(QUERY_RANGE.as_slice()),
        None => None,
    }
}

/// Returns the kinds of the words of `ask`, whose second word has that name.
fn ask_kinds(name: &[u8]) -> Option<&'static [WordKind]>
    ensures answer { IfSome result (λ kinds. query_line place name.now ≡ Some kinds.now) }
    ensures refused { IfNone result (query_line place name.now ≡ None) }
{
    match query_name(name) {
        Some(QueryName::ById | QueryName::ByGroup) => Some(ASK_PAIR.as_slice()),
        Some(QueryName::All) => Some(ASK_TABLE.as_slice()),
        Some(QueryName::Range) => Some(ASK_RANGE.as_slice()),
        None => None,
    }
}

/// Returns the kinds of the words of `write`, whose second word has that name.
fn write_kinds(name: &[u8]) -> Option<&'static [WordKind]>
    ensures answer { IfSome result (λ kinds. change_line name.now ≡ Some kinds.now) }
    ensures refused { IfNone result (change_line name.now ≡ None) }
{
    match change_name(name) {
        Some(ChangeName::Put) => Some(WRITE_PUT.as_slice()),
        Some(ChangeName::Remove) => Some(WRITE_REMOVE.as_slice()),
        None => None,
    }
}

/// Returns the kinds of the words after a line's name. The second of them may name a query or a change.
pub fn kinds_after_name(name: LineName, second: &[u8]) -> Option<&'static [WordKind]>
    ensures answer { IfSome result (λ kinds. kinds_after_name name second.now ≡ Some kinds.now) }
    ensures refused { IfNone result (kinds_after_name name second.now ≡ None) }
{
    match name {
        LineName::Put => Some(PUT.as_slice()),
        LineName::Remove => Some(REMOVE.as_slice()),
        LineName::Pin => Some(PIN.as_slice()),
        LineName::Query => query_kinds(second),
        LineName::Ro => Some(RO.as_slice()),
        LineName::Session => Some(SESSION.as_slice()),
        LineName::Call => Some(CALL.as_slice()),
        LineName::Ask => ask_kinds(second),
        LineName::Write => write_kinds(second),
        LineName::Sweep => Some(SWEEP.as_slice()),
        LineName::Tidy => Some(TIDY.as_slice()),
        LineName::Counts => Some(COUNTS.as_slice()),
        _ => Some(ONLY_PLACE.as_slice()),
    }
}

/// Returns the kinds of the first two words after a line's name, if the second names a query or a change.
pub fn first_kinds(name: LineName) -> &'static [WordKind]
    ensures { result.now ≡ first_kinds name }
{
    match name {
        LineName::Query => QUERY.as_slice(),
        LineName::Ask => ASK.as_slice(),
        LineName::Write => WRITE.as_slice(),
        _ => NOTHING.as_slice(),
    }
}

/// Returns the form of a line of the name, if the second word after it names a query or a change.
pub fn usage_of(name: LineName) -> &'static str
    ensures { result.now ≡ usage_text name }
{
    match name {
        LineName::Query => {
            "query STAMP by-id TABLE ID (or by-group TABLE GROUP, or all TABLE, or range TABLE FROM TO)"
        }
        LineName::Ask => {
            "ask ACTOR by-id TABLE ID (or by-group TABLE GROUP, or all TABLE, or range TABLE FROM TO)"
        }
        LineName::Write => "write ACTOR put TABLE ID GROUP BODY (or remove TABLE ID)",
        _ => "",
    }
}
