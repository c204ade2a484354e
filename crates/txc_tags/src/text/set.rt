//! Texts of sets of tags: `-`, `t1:id=7,t1:grp=2,t2:?`. Each tag may have either spelling.
ghost use Rattle.std.specs.Prelude.{◌≡◌, ℕ, ◌∷◌, List, None, codes, IsOk, IfOk, IfErr, IfNone, string_bytes};
ghost use Rattle.txc_tags.specs.declared.tag.Tag.{Tag};
ghost use Rattle.txc_tags.specs.Tags.{with_tag, IsCanonical};
ghost use Rattle.txc_tags.specs.TextGrammar.{IsText, IsTextOf};
ghost use Rattle.txc_tags.specs.TextReader.{IsRefused};
ghost use Rattle.txc_tags.specs.TextSet.{tags_text, spelt_tags_text, AreTagsInRange, AreSpeltInRange, IsSetOfText, IsSetRefusal};

use crate::set::TagSet;
use crate::tag::Tag;
use crate::text::range::set_is_in_range;
use crate::text::read::read_word;
use crate::text::tag::{BadTag, read_tag};
use std::alloc::{AllocError, Global};
use std::fmt;

/// Errors of reading a set of tags.
#[derive(Debug, Drop, thiserror::Error)]
pub enum SetError {
    /// The text is not a set of tags.
    #[error(transparent)]
    BadTag(BadTag),
    /// Memory cannot be allocated.
    #[error(transparent)]
    Memory(AllocError),
}

/// Makes the error of a text that goes wrong where the rest begins.
fn bad_tag(text: &[u8], rest: &[u8]) -> SetError
    requires { IsRefused (IsText AreSpeltInRange spelt_tags_text) text.now rest.now }
    ensures { IsSetRefusal text.now result }
{
    SetError::BadTag(BadTag {
        at: text.len() - rest.len(),
    })
}

/// Adds the tag, unless an allocation failed before. Returns the failed allocation, if there is one by now.
fn add_unless(refused: Option<AllocError>, set: &mut TagSet, tag: Tag) -> Option<AllocError>
    ensures { IfNone result ((refused ≡ None) × (set.new ≡ with_tag tag set.old)) }
{
    if refused.is_some() {
        return refused;
    }
    match set.add(tag) {
        Ok(()) => None,
        Err(error) => Some(error),
    }
}

/// Reads the set of the tags of a text that does not begin with a dash. If an allocation fails, the text is
/// still read to its end, so that a text outside the grammar is reported as such.
fn read_tags(alloc: Global, text: &[u8]) -> Result<TagSet, SetError>
    requires { (rest : List ℕ) → text.now ≡ 45 ∷ rest → ⊥ }
    ensures answer { IfOk result (IsSetOfText text.now) }
    ensures refused { IfErr result (IsSetRefusal text.now) }
{
    let mut set = TagSet::new(alloc);
    let mut refused = None;
    let mut rest = text;
    loop {
        let (tag, after) = match read_tag(rest) {
            Ok(read) => read,
            Err(wrong) => return Err(bad_tag(text, wrong)),
        };
        refused = add_unless(refused, &mut set, tag);
        if after.is_empty() {
            return match refused {
                None => Ok(set),
                Some(error) => Err(SetError::Memory(error)),
            };
        }
        match read_word(after, b",") {
            Ok(more) => rest = more,
            Err(wrong) => return Err(bad_tag(text, wrong)),
        }
    }
}

impl fmt::Display for TagSet {
    ghost use Rattle.std.specs.Prelude.{Some};
    ghost use Rattle.txc_tags.specs.TextSet.{tags_text};

    ghost output = { λ set. Some (tags_text set) };

    fn fmt<W: fmt::Write>(&self, f: &mut fmt::Formatter<W>) -> fmt::Result {
        let Some((first, others)) = self.tags().split_first() else {
            return write!(f, "-");
        };
        write!(f, "{first}")?;
        for tag in others {
            write!(f, ",{tag}")?;
        }
        Ok(())
    }
}

impl TagSet {
    /// Reads the set that the whole text is: `-` for the empty set, or the text's tags, added one after the
    /// other. A text outside the grammar fails as [`SetError::BadTag`], whatever memory is left; `-` allocates
    /// nothing.
    pub fn read(alloc: Global, text: &[u8]) -> Result<TagSet, SetError>
        ensures answer { IfOk result (IsSetOfText text.now) }
        ensures refused { IfErr result (IsSetRefusal text.now) }
        ensures read_back { (tags : List Tag) → IsCanonical tags
            → IsTextOf AreTagsInRange tags_text text.now tags → IfOk result (λ set. set ≡ tags) }
        ensures no_memory { text.now ≡ codes "-" → IsOk result }
    {
        match read_word(text, b"-") {
            Err(_) => read_tags(alloc, text),
            Ok(rest) => {
                if !rest.is_empty() {
                    return Err(bad_tag(text, rest));
                }
                Ok(TagSet::new(alloc))
            }
        }
    }

    /// Returns the set's one text: by table, in a table the wildcard only, or ids by number and then groups by
    /// number. [`TagSet::read`] reads this set from it. Fails only if memory cannot be allocated.
    pub fn write(&self, alloc: Global) -> Result<String, AllocError>
        ensures { IfOk result
            (λ text. IsTextOf AreTagsInRange tags_text (string_bytes text) self.now) }
    {
        set_is_in_range(self);
        self.to_string(alloc)
    }
}
