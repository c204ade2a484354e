//! Lemmas that numbers are in range, for the contracts of writers.
ghost use Rattle.std.specs.Prelude.{◌≤◌, All};
ghost use Rattle.txc_tags.specs.TextKey.{IsKeyInRange};
ghost use Rattle.txc_tags.specs.TextSet.{AreTagsInRange};
ghost use Rattle.txc_tags.specs.TextTag.{IsTagInRange};
ghost use Rattle.txc_tags.specs.declared.text.number.TheConstants.{LAST_NUMBER};

use crate::key::Key;
use crate::set::TagSet;
use crate::tag::{Rows, Tag};

/// Each tag is in the range of the grammar.
pub(crate) fn tag_is_in_range(tag: Tag)
    ensures { IsTagInRange tag }
{
    let _table = tag.table.number();
    match tag.rows {
        Rows::All => {}
        Rows::Id(_id) => {}
        Rows::Group(_group) => {}
    }
}

/// The tags of each set are in the range of the grammar.
pub(crate) fn set_is_in_range(set: &TagSet)
    ensures { AreTagsInRange set.now }
{
    for tag in set.tags() {
        tag_is_in_range(*tag);
    }
}

fn arguments_are_in_range(args: &[u32])
    ensures { All (λ arg. arg ≤ LAST_NUMBER) args.now }
{}

/// Each key is in the range of the grammar.
pub(crate) fn key_is_in_range(key: &Key)
    ensures { IsKeyInRange key.now }
{
    let _function = key.function();
    arguments_are_in_range(key.args());
}
