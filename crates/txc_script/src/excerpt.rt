//! The first bytes of a text, stored in place.
ghost use Rattle.std.specs.Prelude.{◌≡◌, ◌≤◌, length};
ghost use Rattle.txc_script.specs.Excerpts.{excerpt_of};

use std::fmt;
use std::marker::Model;

/// The number of bytes of a text that are stored.
pub const MAX_SHOWN: usize = 40;

/// The first bytes of a text, up to [`MAX_SHOWN`], and its length. It is printed with `...` at its end if the
/// text is longer.
#[derive(Debug, Drop)]
pub struct Excerpt {
    len: usize,
    count: usize,
    bytes: [u8; MAX_SHOWN],
}

impl Model for Excerpt {
    ghost use Rattle.std.specs.Prelude.{◌≡◌, ◌≤◌, length, take};
    ghost use Rattle.txc_script.specs.Excerpts.{ExcerptValue};
    ghost use Rattle.txc_script.specs.declared.excerpt.TheConstants.{MAX_SHOWN};

    ghost Value = { ExcerptValue };

    ghost view = { λ e. record { start = take e.count e.bytes; len = e.len } };

    ghost invariant = { λ e. (e.count ≤ MAX_SHOWN) × (length e.bytes ≡ MAX_SHOWN) };
}

impl Excerpt {
    /// Makes the excerpt of a text.
    pub fn new(text: &[u8]) -> Excerpt
        ensures { result ≡ excerpt_of text.now }
    {
        if text.len() <= MAX_SHOWN {
            Excerpt::keep(text, text.len())
        } else {
            Excerpt::keep(&text[..MAX_SHOWN], text.len())
        }
    }

    /// Makes the excerpt of a text with these first bytes and this length.
    fn keep(start: &[u8], len: usize) -> Excerpt
        requires { length start.now ≤ MAX_SHOWN }
        ensures { result ≡ record { start = start.now; len = len } }
    {
        let mut bytes = [0; MAX_SHOWN];
        bytes[..start.len()].copy_from_slice(start);
        Excerpt {
            len,
            count: start.len(),
            bytes,
        }
    }

    /// Returns the first bytes of the text, up to [`MAX_SHOWN`]: all of them if it is not longer.
    pub fn start(&self) -> &[u8]
        ensures { result.now ≡ self.now.start }
    {
        &self.bytes[..self.count]
    }

    /// Returns the number of bytes of the text.
    pub fn text_len(&self) -> usize
        ensures { result ≡ self.now.len }
    {
        self.len
    }
}

impl fmt::Display for Excerpt {
    fn fmt<W: fmt::Write>(&self, f: &mut fmt::Formatter<W>) -> fmt::Result {
        for byte in self.start() {
            write!(f, "{}", char::from(*byte))?;
        }
        if self.count < self.len {
            return f.write_str("...");
        }
        Ok(())
    }
}
