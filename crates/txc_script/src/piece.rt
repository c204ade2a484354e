//! Lines of bytes that arrive in pieces.
ghost use Rattle.std.specs.Prelude.{◌≡◌, ◌≤◌, [], ◌++◌, ◌∷◌, ◌==◌, true, position, length, take, vec_len, OnOk, IfOk, IfSome, IfNone};
ghost use Rattle.txc_script.specs.Script.{HasNoEnd};
ghost use Rattle.txc_script.specs.Lines.{ArePlain};

use crate::line::MAX_LINE_LEN;
use crate::scan::plain_len;
use std::alloc::{AllocError, Global};
use std::marker::Model;

/// The number of bytes of a line that are stored: one more than a line may have.
pub const MAX_KEPT: usize = MAX_LINE_LEN + 1;

/// Returns the bytes before the first line feed, whether a line may have each of them, and the bytes after it.
/// Returns `None` if there is no line feed.
pub fn cut_line(bytes: &[u8]) -> Option<(&[u8], bool, &[u8])>
    ensures answer { IfSome result (λ r. (bytes.now ≡ r.0.now ++ 10 ∷ r.2.now) × HasNoEnd r.0.now) }
    ensures plain { IfSome result (λ r. r.1 ≡ true → ArePlain r.0.now) }
    ensures refused { IfNone result (HasNoEnd bytes.now) }
{
    let end = plain_len(bytes);
    if end == bytes.len() {
        return None;
    }
    if bytes[end] == b'\n' {
        return Some((&bytes[..end], true, &bytes[end + 1..]));
    }
    // A byte that no line may have comes before the end of the line.
    match line_end(bytes) {
        Some(i) => Some((&bytes[..i], false, &bytes[i + 1..])),
        None => None,
    }
}

fn line_end(bytes: &[u8]) -> Option<usize>
    ensures { result ≡ position (λ b. b == 10) bytes.now }
{
    bytes.iter().position(|b| *b == b'\n')
}

/// The beginning of a line that has not ended: as many bytes as show whether it is too long.
#[derive(Debug, Drop)]
pub struct LineStart {
    bytes: Vec<u8>,
}

impl Model for LineStart {
    ghost use Rattle.std.specs.Prelude.{List, ℕ, ◌≤◌, vec_len};
    ghost use Rattle.txc_script.specs.declared.piece.TheConstants.{MAX_KEPT};

    ghost Value = { List ℕ };

    ghost view = { λ l. l.bytes.items };

    ghost invariant = { λ l. vec_len l.bytes ≤ MAX_KEPT };
}

impl LineStart {
    /// Makes an empty line, and allocates room for the longest one. Fails only if memory cannot be allocated.
    pub fn new(alloc: Global) -> Result<LineStart, AllocError>
        ensures { IfOk result (λ l. l ≡ []) }
    {
        let bytes = Vec::with_capacity(alloc, MAX_KEPT)?;
        Ok(LineStart { bytes })
    }

    pub fn bytes(&self) -> &[u8]
        ensures { result.now ≡ self.now }
    {
        &self.bytes
    }

    pub fn is_empty(&self) -> bool
        ensures { result ≡ (length self.now == 0) }
    {
        self.bytes.is_empty()
    }

    /// Appends bytes to the line, up to the stored length.
    pub fn add(&mut self, bytes: &[u8]) -> Result<(), AllocError>
        ensures { OnOk result (self.new ≡ take MAX_KEPT (self.old ++ bytes.now)) }
    {
        add_to_line(&mut self.bytes, bytes)
    }

    /// Begins the next line.
    pub fn clear(&mut self)
        ensures { self.new ≡ [] }
    {
        self.bytes.clear();
    }
}

/// Appends bytes to the stored beginning of a line, up to the stored length.
fn add_to_line(line: &mut Vec<u8>, bytes: &[u8]) -> Result<(), AllocError>
    requires { vec_len line.old ≤ MAX_KEPT }
    ensures after { OnOk result (line.new.items ≡ take MAX_KEPT (line.old.items ++ bytes.now)) }
    ensures bound { vec_len line.new ≤ MAX_KEPT }
{
    let room = MAX_KEPT - line.len();
    if bytes.len() <= room {
        line.extend_from_slice(bytes)
    } else {
        line.extend_from_slice(&bytes[..room])
    }
}
