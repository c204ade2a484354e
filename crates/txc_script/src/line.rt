//! The lines of a script.
ghost use Rattle.std.specs.Prelude.{◌≡◌, ◌↔◌, true, IsTrue};
ghost use Rattle.txc_script.specs.Lines.{ArePlain, IsPlain, IsBlankOrComment};

use crate::scan::plain_len;

/// The most bytes of a line, its line feed not counted.
pub const MAX_LINE_LEN: usize = 4_096;

/// Returns `true` if a script may have each of the bytes.
fn are_plain(bytes: &[u8]) -> bool
    ensures { IsTrue result ↔ ArePlain bytes.now }
{
    plain_len(bytes) == bytes.len()
}

/// Returns `true` if a line may have these bytes: there are not too many, and a script may have each.
/// `known_plain` means that the latter is known.
pub fn is_plain(bytes: &[u8], known_plain: bool) -> bool
    requires { known_plain ≡ true → ArePlain bytes.now }
    ensures { IsTrue result ↔ IsPlain bytes.now }
{
    if bytes.len() > MAX_LINE_LEN {
        return false;
    }
    known_plain || are_plain(bytes)
}

/// Returns `true` if the line is empty or a comment.
pub fn is_quiet(bytes: &[u8]) -> bool
    ensures { IsTrue result ↔ IsBlankOrComment bytes.now }
{
    match bytes.split_first() {
        None => true,
        Some((first, _)) => *first == b'#',
    }
}
