//! Texts of tags: `t1:?`, `t1:id=7`, `t1:grp=2`; or `1/?`, `1/id/7`, `1/grp/2`.
ghost use Rattle.std.specs.Prelude.{◌≡◌, ◌≤◌, ◌++◌, ◌↔◌, IsOk, IfOk, IfErr, string_bytes};
ghost use Rattle.txc_tags.specs.TextGrammar.{IsText, IsTextOf, IsLongestPrefix};
ghost use Rattle.txc_tags.specs.TextReader.{GoesWrong, IsRefused, Reads};
ghost use Rattle.txc_tags.specs.TextTag.{opening, all_word, id_word, group_word, rows_text, spelled, tag_text, spelt_text, AreRowsInRange, IsTagInRange, IsSpeltInRange, IsTextOfTag};
ghost use Rattle.txc_tags.specs.TextTagReader.{IsRows, IsSpelled};
ghost use Rattle.txc_tags.specs.declared.text.tag.Spelling.{Spelling};

use crate::tag::{LAST_TABLE, Rows, Table, Tag};
use crate::text::number::{LAST_NUMBER, read_numbered};
use crate::text::range::tag_is_in_range;
use crate::text::read::{further, read_word};
use std::alloc::{AllocError, Global};
use std::fmt;

/// The text is not a tag's, or not a set's.
#[derive(Debug, Clone, Copy, PartialEq, Eq, thiserror::Error)]
#[error("the text is not a tag: it is wrong after {at} bytes")]
pub struct BadTag {
    /// The length in bytes of the longest prefix of the text that is also a prefix of some text of the
    /// grammar read.
    pub at: usize,
}

/// A spelling of tags: the bytes before and after the table's number.
#[derive(Clone, Copy, Debug)]
pub(crate) enum Spelling {
    /// `t1:?`, `t1:id=7` and `t1:grp=2`.
    Usual,
    /// `1/?`, `1/id/7` and `1/grp/2`.
    Slashed,
}

impl Spelling {
    fn opening(self) -> &'static [u8]
        ensures { result.now ≡ opening self }
    {
        match self {
            Spelling::Usual => b"t",
            Spelling::Slashed => b"",
        }
    }

    fn all(self) -> &'static [u8]
        ensures { result.now ≡ all_word self }
    {
        match self {
            Spelling::Usual => b":?",
            Spelling::Slashed => b"/?",
        }
    }

    fn id(self) -> &'static [u8]
        ensures { result.now ≡ id_word self }
    {
        match self {
            Spelling::Usual => b":id=",
            Spelling::Slashed => b"/id/",
        }
    }

    fn group(self) -> &'static [u8]
        ensures { result.now ≡ group_word self }
    {
        match self {
            Spelling::Usual => b":grp=",
            Spelling::Slashed => b"/grp/",
        }
    }
}

/// Reads the rows after a table's number.
// It is inlined for each spelling, so that its words are constants there.
#[inline(always)]
fn read_rows<'a>(text: &'a [u8], spelling: Spelling) -> Result<(Rows, &'a [u8]), &'a [u8]>
    ensures answer { IfOk result (λ r. AreRowsInRange r.0
        × Reads (IsRows spelling) text.now (rows_text spelling r.0) r.1.now) }
    ensures refused { IfErr result (λ rest. GoesWrong (IsRows spelling) text.now rest.now) }
{
    let all = match read_word(text, spelling.all()) {
        Ok(rest) => return Ok((Rows::All, rest)),
        Err(rest) => rest,
    };
    let id = match read_numbered(text, spelling.id(), LAST_NUMBER) {
        Ok((id, rest)) => return Ok((Rows::Id(id as u32), rest)),
        Err(rest) => rest,
    };
    let group = match read_numbered(text, spelling.group(), LAST_NUMBER) {
        Ok((group, rest)) => return Ok((Rows::Group(group as u32), rest)),
        Err(rest) => rest,
    };
    Err(further(all, further(id, group)))
}

/// Reads the tag in that spelling with which the text begins.
#[inline(always)]
fn read_spelled<'a>(text: &'a [u8], spelling: Spelling) -> Result<(Tag, &'a [u8]), &'a [u8]>
    ensures answer { IfOk result (λ r. IsTagInRange r.0
        × Reads (IsSpelled spelling) text.now (spelled spelling r.0) r.1.now) }
    ensures refused { IfErr result (λ rest. GoesWrong (IsSpelled spelling) text.now rest.now) }
{
    let (number, rest) = read_numbered(text, spelling.opening(), LAST_TABLE as u64)?;
    let (rows, rest) = read_rows(rest, spelling)?;
    let table = Table::new(number as u8).unwrap();
    Ok((Tag { table, rows }, rest))
}

/// Reads the tag, in either spelling, with which the text begins.
pub(crate) fn read_tag<'a>(text: &'a [u8]) -> Result<(Tag, &'a [u8]), &'a [u8]>
    ensures answer { IfOk result (λ r. (s : Spelling) × IsTagInRange r.0
        × Reads (IsText IsSpeltInRange spelt_text) text.now (spelled s r.0) r.1.now) }
    ensures refused { IfErr result (λ rest. GoesWrong (IsText IsSpeltInRange spelt_text) text.now rest.now) }
{
    let usual = match read_spelled(text, Spelling::Usual) {
        Ok(read) => return Ok(read),
        Err(rest) => rest,
    };
    let slashed = match read_spelled(text, Spelling::Slashed) {
        Ok(read) => return Ok(read),
        Err(rest) => rest,
    };
    Err(further(usual, slashed))
}

/// Reads the tag that the whole text is.
fn read_whole(text: &[u8]) -> Result<Tag, &[u8]>
    ensures answer { IfOk result (IsTextOfTag text.now) }
    ensures refused { IfErr result (λ rest. IsRefused (IsText IsSpeltInRange spelt_text) text.now rest.now) }
{
    match read_tag(text) {
        Err(rest) => Err(rest),
        Ok((tag, rest)) => {
            if !rest.is_empty() {
                return Err(rest);
            }
            Ok(tag)
        }
    }
}

impl fmt::Display for Tag {
    ghost use Rattle.std.specs.Prelude.{Some};
    ghost use Rattle.txc_tags.specs.TextTag.{tag_text};

    ghost output = { λ tag. Some (tag_text tag) };

    fn fmt<W: fmt::Write>(&self, f: &mut fmt::Formatter<W>) -> fmt::Result {
        let table = self.table.number();
        match self.rows {
            Rows::All => write!(f, "t{table}:?"),
            Rows::Id(id) => write!(f, "t{table}:id={id}"),
            Rows::Group(group) => write!(f, "t{table}:grp={group}"),
        }
    }
}

impl Tag {
    ghost use Rattle.txc_tags.specs.declared.tag.Tag.{Tag};

    /// Reads the tag that the whole text is: `t1:?`, `t1:id=7` or `t1:grp=2`, or `1/?`, `1/id/7` or `1/grp/2`.
    /// Fails if the text is not in the grammar. Does not allocate.
    pub fn read(text: &[u8]) -> Result<Tag, BadTag>
        ensures answer { IfOk result (IsTextOfTag text.now) }
        ensures only_if { IsOk result ↔ IsText IsSpeltInRange spelt_text text.now }
        ensures refused { IfErr result (λ bad. IsLongestPrefix IsSpeltInRange spelt_text text.now bad.at) }
        ensures read_back { (tag : Tag) → IsTextOf IsTagInRange tag_text text.now tag → result ≡ Ok tag }
    {
        match read_whole(text) {
            Ok(tag) => Ok(tag),
            Err(rest) => Err(BadTag {
                at: text.len() - rest.len(),
            }),
        }
    }

    /// Returns the tag's text: `t1:id=7`, and never `1/id/7`. [`Tag::read`] reads this tag from it. Fails only
    /// if memory cannot be allocated.
    pub fn write(&self, alloc: Global) -> Result<String, AllocError>
        ensures { IfOk result (λ text. IsTextOf IsTagInRange tag_text (string_bytes text) self.now) }
    {
        tag_is_in_range(*self);
        self.to_string(alloc)
    }
}
