//! Lemmas about the definitions. They have no code.
ghost use Rattle.std.specs.Prelude.{◌≡◌, ◌⊎◌, ◌↔◌, ◌++◌, ℕ, true, List};
ghost use Rattle.txc_tags.specs.declared.tag.Tag.{Tag};
ghost use Rattle.txc_tags.specs.Tags.{tags_match, sets_match, has_tag, covers, tag_before, IsCanonical, KeepsSixteen, with_tag, with_tags};
ghost use Rattle.txc_tags.specs.Keys.{Call, same_call};
ghost use Rattle.txc_tags.specs.TextGrammar.{IsTextOf};
ghost use Rattle.txc_tags.specs.TextKey.{IsKeyInRange, key_text};
ghost use Rattle.txc_tags.specs.TextTag.{IsTextOfTag};
ghost use Rattle.txc_tags.specs.TextSet.{IsSetOfText};

/// Of two tags, one comes before the other or they are equal.
pub fn tags_stand_in_order()
    ensures { (a b : Tag) → (tag_before a b ≡ true) ⊎ ((a ≡ b) ⊎ (tag_before b a ≡ true)) }
{}

/// Two ordered sets of the same tags are equal.
pub fn sets_of_the_same_tags_are_equal()
    ensures { (xs ys : List Tag) → IsCanonical xs → IsCanonical ys
        → ((tag : Tag) → has_tag xs tag ≡ has_tag ys tag) → xs ≡ ys }
{}

/// A set covers each tag that was added to it.
pub fn added_tags_are_covered()
    ensures { (tag : Tag) (set : List Tag) → covers (with_tag tag set) tag ≡ true }
{}

/// A set covers after an addition what it covered before.
pub fn adding_keeps_cover()
    ensures { (tag other : Tag) (set : List Tag)
        → covers set other ≡ true → covers (with_tag tag set) other ≡ true }
{}

/// A joined set covers what either set covered.
pub fn joining_keeps_cover()
    ensures first { (tags set : List Tag) (other : Tag)
        → covers set other ≡ true → covers (with_tags tags set) other ≡ true }
    ensures second { (tags set : List Tag) (other : Tag)
        → covers tags other ≡ true → covers (with_tags tags set) other ≡ true }
{}

/// Two sets match if they cover two tags that match.
pub fn sets_match_where_covered_tags_do()
    ensures { (xs ys : List Tag) (a b : Tag)
        → covers xs a ≡ true → covers ys b ≡ true → tags_match a b ≡ true
        → sets_match xs ys ≡ true }
{}

/// The rule of sixteen, for tags added to a set. If a table's wildcard, or more than sixteen different tags of
/// the table, are among the old and the added tags, the set then has only the wildcard of that table. Otherwise
/// it has exactly these tags.
pub fn sets_keep_the_rule_of_sixteen()
    ensures { (set tags : List Tag) (table : ℕ) → IsCanonical set
        → KeepsSixteen table (set ++ tags) (with_tags tags set) }
{}

/// The same tags, added in any order and any number of times, make the same set.
pub fn the_same_tags_make_the_same_set()
    ensures { (xs ys set : List Tag) → IsCanonical set
        → ((tag : Tag) → has_tag xs tag ≡ has_tag ys tag) → with_tags xs set ≡ with_tags ys set }
{}

/// Two keys are the same call exactly if they are equal.
pub fn same_calls_are_equal()
    ensures { (a b : Call) → (same_call a b ≡ true) ↔ (a ≡ b) }
{}

/// A text stands for one tag, and for one set of tags, in either spelling.
pub fn a_text_names_one_tag()
    ensures tag { (text : List ℕ) (a b : Tag) → IsTextOfTag text a → IsTextOfTag text b → a ≡ b }
    ensures set { (text : List ℕ) (a b : List Tag)
        → IsSetOfText text a → IsSetOfText text b → a ≡ b }
{}

/// Each key has exactly one text, and no two keys share one.
pub fn keys_have_one_text()
    ensures only { (key : Call) (a b : List ℕ)
        → IsTextOf IsKeyInRange key_text a key → IsTextOf IsKeyInRange key_text b key → a ≡ b }
    ensures known { (text : List ℕ) (a b : Call)
        → IsTextOf IsKeyInRange key_text text a → IsTextOf IsKeyInRange key_text text b → a ≡ b }
{}
