//! Meanings of words.
ghost use Rattle.std.specs.Prelude.{◌≡◌};

use crate::function_number::FunctionNumber;
use std::marker::Model;
use txc_stamp::Stamp;
use txc_tags::{Key, Table};

/// A word without interpretation; a contract sees its bytes.
#[derive(Debug, Drop)]
pub struct TextWord<'a> {
    bytes: &'a [u8],
}

impl<'a> Model for TextWord<'a> {
    ghost use Rattle.std.specs.Prelude.{ℕ, List};

    ghost Value = { List ℕ };

    ghost view = { λ t. t.bytes.now };
}

impl<'a> TextWord<'a> {
    pub fn new(bytes: &'a [u8]) -> TextWord<'a>
        ensures { result ≡ bytes.now }
    {
        TextWord { bytes }
    }

    pub fn bytes(&self) -> &'a [u8]
        ensures { result.now ≡ self.now }
    {
        self.bytes
    }
}

/// The name of a query.
#[derive(Clone, Copy, Debug, PartialEq, Eq)]
pub enum QueryName {
    ById,
    ByGroup,
    All,
    Range,
}

/// The name of a change.
#[derive(Clone, Copy, Debug, PartialEq, Eq)]
pub enum ChangeName {
    Put,
    Remove,
}

/// The meaning of a word, by its kind.
#[derive(Debug, Drop)]
pub enum ParsedWord<'a> {
    Key(Key),
    Stamp(Stamp),
    Table(Table),
    /// An id or a group.
    Id(u32),
    Function(FunctionNumber),
    Number(u64),
    Text(TextWord<'a>),
    Query(QueryName),
    Change(ChangeName),
    /// The word is of a kind that is read elsewhere.
    Other,
}
