//! The mode of a run, and its settings, which are read from a TOML document.
#![tactic(auto)]

mod error;
mod keys;
mod limits;
mod mode;
mod script;
mod settings;

pub use error::SettingsError;
pub use limits::{MAX_NODES, MAX_PERMITS, MAX_RENEW_AFTER, MAX_ROW_CAP, MAX_WORKERS};
pub use mode::Mode;
pub use script::Script;
pub use settings::Settings;
