//! Pages: the reads of one read-only transaction.
//!
//! A [`Page`] makes calls in its [`PageTxn`], whose beginning contracts know. [`read_page`] runs it by a
//! client, and returns a receipt of the calls that it made.
#![tactic(auto)]

mod error;
pub mod laws;
mod page;
mod page_txn;
mod reading;

pub use error::ReadError;
pub use page::{OneCall, Page};
pub use page_txn::{Begun, PageTxn};
pub use reading::{PageResult, read_page, read_page_leased};
