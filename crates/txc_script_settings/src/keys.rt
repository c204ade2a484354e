//! The keys of the settings.
ghost use Rattle.std.specs.Prelude.{◌≡◌, ◌≤◌, ℕ, Some, None, IfSome, option_map};
ghost use Rattle.toml.specs.View.{view, table_view};
ghost use Rattle.txc_script_settings.specs.Keys.{IsLeastFault, first_fault, is_allowed, natural_of, range_of, setting};

use crate::limits::{MAX_NODES, MAX_PERMITS, MAX_RENEW_AFTER, MAX_ROW_CAP, MAX_WORKERS};
use toml::{Table, Value};
use txc_node::{MAX_CAPACITY, MAX_RECENT};

/// Returns the least and the greatest value of a key, or `None` if it is not a setting's.
fn range_of(key: &str) -> Option<(u64, u64)>
    ensures { result ≡ range_of key.now }
{
    match key {
        "capacity" => Some((1, MAX_CAPACITY as u64)),
        "nodes" => Some((1, MAX_NODES as u64)),
        "permits" => Some((1, MAX_PERMITS as u64)),
        "recent" => Some((1, MAX_RECENT as u64)),
        "renew_after" => Some((0, MAX_RENEW_AFTER)),
        "row_cap" => Some((1, MAX_ROW_CAP as u64)),
        "workers" => Some((1, MAX_WORKERS as u64)),
        _ => None,
    }
}

/// Returns the number of a non-negative integer.
fn natural_of(value: &Value) -> Option<u64>
    ensures { result ≡ natural_of (view value.now) }
{
    match value.as_integer() {
        Some(number) => u64::try_from(number).ok(),
        None => None,
    }
}

/// Returns `true` if the key is a setting's, and its value an integer in its range.
fn is_allowed(key: &str, value: &Value) -> bool
    ensures { result ≡ is_allowed key.now (view value.now) }
{
    match (range_of(key), natural_of(value)) {
        (Some((least, most)), Some(number)) => least <= number && number <= most,
        _ => false,
    }
}

/// Returns the first key that is not allowed, in the order of the table.
fn first_in_order(table: &Table) -> Option<&str>
    ensures { option_map (λ key. key.now) result ≡ first_fault (table_view table.now) }
{
    for (key, value) in table {
        if !is_allowed(key.as_str(), value) {
            return Some(key.as_str());
        }
    }
    None // every key is allowed
}

/// Returns the first key that is not allowed, in byte order.
pub fn first_fault(table: &Table) -> Option<&str>
    ensures answer { option_map (λ key. key.now) result ≡ first_fault (table_view table.now) }
    ensures least { IfSome result (λ key. IsLeastFault (table_view table.now) key.now) }
{
    let _entries = table.iter();
    first_in_order(table)
}

/// Returns the number of a key in a table, or the default if the table does not have the key.
fn number_at(table: &Table, key: &str, default: u64) -> u64
    ensures { result ≡ setting (table_view table.now) key.now default }
{
    match table.get(key) {
        Some(value) => match natural_of(value) {
            Some(number) => number,
            None => default,
        },
        None => default,
    }
}

/// Returns the number of a key in a table whose keys are allowed, or the default if the table does not have the
/// key.
pub fn setting(table: &Table, key: &str, default: u64) -> u64
    requires { first_fault (table_view table.now) ≡ None }
    ensures answer { result ≡ setting (table_view table.now) key.now default }
    ensures bound { (least most : ℕ) → range_of key.now ≡ Some (least, most) → least ≤ default
        → default ≤ most → (least ≤ result) × (result ≤ most) }
{
    number_at(table, key, default)
}
