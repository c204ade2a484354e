//! Reading a text piece by piece. A reader returns what it read from the text's beginning with the rest after
//! it. If the text goes wrong, it returns the rest from the first byte that no text of the grammar can have
//! there.
ghost use Rattle.std.specs.Prelude.{◌≡◌, ◌≤◌, ◌⊎◌, IfOk, IfErr, length};
ghost use Rattle.txc_tags.specs.TextReader.{GoesWrong, IsWord, Reads};

/// Returns the text after the word. If the text does not begin with the word, returns the rest from where it
/// goes wrong.
#[inline]
pub(crate) fn read_word<'a>(text: &'a [u8], word: &[u8]) -> Result<&'a [u8], &'a [u8]>
    ensures answer { IfOk result (λ rest. Reads (IsWord word.now) text.now word.now rest.now) }
    ensures refused { IfErr result (λ rest. GoesWrong (IsWord word.now) text.now rest.now) }
{
    let mut rest = text;
    for byte in word {
        match rest.split_first() {
            None => return Err(rest),
            Some((first, others)) => {
                if first != byte {
                    return Err(rest);
                }
                rest = others;
            }
        }
    }
    Ok(rest)
}

/// Returns the shorter of two rests of one text, so the one that begins later.
pub(crate) fn further<'a>(first: &'a [u8], second: &'a [u8]) -> &'a [u8]
    ensures { ((result.now ≡ first.now) × (length first.now ≤ length second.now))
        ⊎ ((result.now ≡ second.now) × (length second.now ≤ length first.now)) }
{
    if first.len() <= second.len() {
        first
    } else {
        second
    }
}
