//! Errors of reading settings.
use std::fmt;
use thiserror::Error;

/// Errors of reading settings.
#[derive(Debug, Drop, Error)]
pub enum SettingsError {
    /// The key is not a setting's, or its value is not an integer in its range. If there are several such keys,
    /// it is the first in byte order. It is printed on one line, with its control characters escaped.
    #[error("settings: {}", OneLine(.0.as_str()))]
    Key(String),
    /// The text is not a TOML document.
    #[error("settings: not TOML")]
    NotToml,
    /// Memory cannot be allocated.
    #[error("memory")]
    Memory,
}

/// A text with its control characters escaped.
#[derive(Drop)]
struct OneLine<'a>(&'a str);

impl fmt::Display for OneLine<'_> {
    fn fmt<W: fmt::Write>(&self, f: &mut fmt::Formatter<W>) -> fmt::Result {
        for c in self.0.chars() {
            if c.is_control() {
                write!(f, "{}", c.escape_default())?;
            } else {
                write!(f, "{c}")?;
            }
        }
        Ok(())
    }
}
