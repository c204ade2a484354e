//! The words of a line.
ghost use Rattle.std.specs.Prelude.{◌≡◌, ◌<◌, ◌≤◌, [], ◌∷◌, ◌++◌, count_by, length, slice_index, take, IfSome, IfNone};
ghost use Rattle.txc_script.specs.Words.{HasNoBlank, words_of, words_left, is_blank};

use crate::scan::word_len;

/// Returns the word before the first blank, which is at `end`, and the text after that blank.
#[inline(always)]
fn cut_word(text: &[u8], end: usize) -> (&[u8], &[u8])
    requires within { end < length text.now }
    requires bare { HasNoBlank (take end text.now) }
    requires blank { slice_index text.now end ≡ 32 }
    ensures { (text.now ≡ result.0.now ++ 32 ∷ result.1.now) × HasNoBlank result.0.now }
{
    (&text[..end], &text[end + 1..])
}

fn count_blanks(text: &[u8]) -> usize
    ensures { result ≡ count_by is_blank text.now }
{
    text.iter().filter(|b| **b == b' ').count()
}

/// The words of a text that were not taken yet, and their number.
#[derive(Clone, Copy, Debug)]
pub struct WordsLeft<'a> {
    rest: &'a [u8],
    count: usize,
}

/// Returns how many words a text has: one more than its blanks. So the empty text has one, which is empty.
pub fn count_words(text: &[u8]) -> usize
    ensures count { result ≡ length (words_of text.now) }
    ensures some { 0 < result }
{
    count_blanks(text) + 1
}

/// Returns the words of a text.
pub fn all_words(text: &[u8]) -> WordsLeft<'_>
    ensures { words_left result ≡ words_of text.now }
{
    WordsLeft {
        rest: text,
        count: text.len() + 1,
    }
}

impl<'a> WordsLeft<'a> {
    /// Returns the first `count` of the words.
    pub fn first(self, count: usize) -> WordsLeft<'a>
        requires { count ≤ length (words_left self) }
        ensures { words_left result ≡ take count (words_left self.entry) }
    {
        WordsLeft {
            rest: self.rest,
            count,
        }
    }

    /// Returns how many words there are.
    pub fn len(self) -> usize
        ensures { result ≡ length (words_left self.entry) }
    {
        self.count.min(count_words(self.rest))
    }

    /// Takes the next word, if there is one.
    #[inline(always)]
    pub fn pop(&mut self) -> Option<&'a [u8]>
        ensures answer { IfSome result (λ word. words_left self.old ≡ word.now ∷ words_left self.new) }
        ensures refused { IfNone result (words_left self.old ≡ []) }
    {
        if self.count == 0 {
            return None;
        }
        Some(self.next())
    }

    /// Takes the next word.
    #[inline(always)]
    pub fn next(&mut self) -> &'a [u8]
        requires { 0 < length (words_left self.old) }
        ensures { words_left self.old ≡ result.now ∷ words_left self.new }
    {
        let text = self.rest;
        let end = word_len(text);
        if end == text.len() {
            self.count = 0;
            return text;
        }
        let (word, rest) = cut_word(text, end);
        self.rest = rest;
        self.count -= 1;
        word
    }
}
