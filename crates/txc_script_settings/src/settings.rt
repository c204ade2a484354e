//! The settings of a run.
ghost use Rattle.std.specs.Prelude.{◌≤◌, IfOk, IfErr};
ghost use Rattle.txc_node.specs.declared.node.TheConstants.{MAX_CAPACITY, MAX_RECENT};
ghost use Rattle.txc_script_settings.specs.declared.limits.TheConstants.{MAX_NODES, MAX_PERMITS, MAX_RENEW_AFTER, MAX_ROW_CAP, MAX_WORKERS};

use crate::error::SettingsError;
use crate::keys::{first_fault, setting};
use std::alloc::Global;

/// Settings of a run. Each is in its range.
#[derive(Clone, Copy, Debug, PartialEq, Eq)]
pub struct Settings {
    /// The number of entries that a node stores.
    pub capacity: usize,
    pub nodes: usize,
    /// The number of functions that may be computed at one time.
    pub permits: usize,
    /// The number of last events whose tags a node stores.
    pub recent: usize,
    /// The age of a pin, in milliseconds, beyond which the present is pinned instead.
    pub renew_after: u64,
    /// The number of records that a history has room for.
    pub row_cap: usize,
    pub workers: usize,
    pub ghost capacity_in_range: { (1 ≤ capacity) × (capacity ≤ MAX_CAPACITY) },
    pub ghost nodes_in_range: { (1 ≤ nodes) × (nodes ≤ MAX_NODES) },
    pub ghost permits_in_range: { (1 ≤ permits) × (permits ≤ MAX_PERMITS) },
    pub ghost recent_in_range: { (1 ≤ recent) × (recent ≤ MAX_RECENT) },
    pub ghost renew_after_in_range: { renew_after ≤ MAX_RENEW_AFTER },
    pub ghost row_cap_in_range: { (1 ≤ row_cap) × (row_cap ≤ MAX_ROW_CAP) },
    pub ghost workers_in_range: { (1 ≤ workers) × (workers ≤ MAX_WORKERS) },
}

impl Settings {
    ghost use Rattle.txc_script_settings.specs.DocumentSettings.{AreSettingsIn, IsSettingsRefusal};

    /// Reads the settings of a TOML document: `capacity`, `nodes`, `permits`, `recent`, `renew_after`,
    /// `row_cap` and `workers`, each an integer in its range; one that the document omits has its default.
    /// Fails if the text is not TOML, if a key or its value is not allowed, or if memory cannot be allocated.
    pub fn read(alloc: Global, text: &str) -> Result<Settings, SettingsError>
        ensures answer { IfOk result (AreSettingsIn text.now) }
        ensures refused { IfErr result (IsSettingsRefusal text.now) }
    {
        let table = match toml::table_from_str(alloc, text) {
            Ok(table) => table,
            Err(error) if error.is_memory() => return Err(SettingsError::Memory),
            Err(_) => return Err(SettingsError::NotToml),
        };
        if let Some(key) = first_fault(&table) {
            return match String::from_str(alloc, key) {
                Ok(key) => Err(SettingsError::Key(key)),
                Err(_) => Err(SettingsError::Memory),
            };
        }
        Ok(Settings {
            capacity: setting(&table, "capacity", 1_024) as usize,
            nodes: setting(&table, "nodes", 1) as usize,
            permits: setting(&table, "permits", 64) as usize,
            recent: setting(&table, "recent", 64) as usize,
            renew_after: setting(&table, "renew_after", 5_000),
            row_cap: setting(&table, "row_cap", 4_096) as usize,
            workers: setting(&table, "workers", 2) as usize,
        })
    }
}
