//! The bytes of a cached result.
ghost use Rattle.std.specs.Prelude.{◌≡◌, ◌≤◌, ◌↔◌, length, IsSome, IfSome, IfOk, vec_len};
ghost use Rattle.txc_node.specs.Texts.{digits_of};
ghost use Rattle.txc_node.specs.Values.{bytes_held};

use std::alloc::{AllocError, Global};
use std::fmt;
use std::marker::Model;
use std::sync::Arc;

/// The most bytes of a value that [`Value::new`] makes. Copies of longer values share their bytes.
pub const MAX_VALUE_LEN: usize = 1024;

/// The most bytes of any value.
pub const MOST_VALUE_LEN: usize = 1_048_576;

/// The bytes of a value: its own, or shared with its copies.
#[derive(Debug, Drop)]
pub(crate) enum Held {
    Own(Vec<u8>),
    Shared(Arc<Vec<u8>>),
}

impl Held {
    // Stores the bytes: shared if there are more than `MAX_VALUE_LEN` and memory for that can be allocated.
    fn new(bytes: Vec<u8>) -> Held
        ensures { bytes_held result ≡ bytes.items }
    {
        if bytes.len() <= MAX_VALUE_LEN {
            return Held::Own(bytes);
        }
        let alloc = *bytes.allocator();
        match Arc::new(alloc, bytes) {
            Ok(bytes) => Held::Shared(bytes),
            Err(failed) => Held::Own(failed.value),
        }
    }
}

/// The bytes of a cached result, at most [`MOST_VALUE_LEN`]. Copies share more than [`MAX_VALUE_LEN`] bytes, so
/// that a copy costs the same however many there are.
#[derive(Debug, Drop)]
pub struct Value {
    held: Held,
}

impl Model for Value {
    ghost use Rattle.std.specs.Prelude.{List, ℕ, ◌≤◌, length};
    ghost use Rattle.txc_node.specs.declared.value.TheConstants.{MOST_VALUE_LEN};
    ghost use Rattle.txc_node.specs.Values.{bytes_held};

    ghost Value = { List ℕ };

    ghost view = { λ v. bytes_held v.held };

    ghost invariant = { λ v. length (bytes_held v.held) ≤ MOST_VALUE_LEN };
}

impl Value {
    /// Returns the bytes as a value, or `None` if there are more than [`MAX_VALUE_LEN`]. Does not allocate.
    pub fn new(bytes: Vec<u8>) -> Option<Value>
        ensures only_if { IsSome result ↔ (vec_len bytes ≤ MAX_VALUE_LEN) }
        ensures answer { IfSome result (λ v. v ≡ bytes.items) }
    {
        if bytes.len() > MAX_VALUE_LEN {
            return None;
        }
        Some(Value {
            held: Held::Own(bytes),
        })
    }

    /// Returns the bytes as a value, or `None` if there are more than `most`. If there are more than
    /// [`MAX_VALUE_LEN`], it allocates once, by the allocator of the bytes, so that copies share them. If that
    /// fails, each copy copies them.
    pub fn up_to(most: usize, bytes: Vec<u8>) -> Option<Value>
        requires { most ≤ MOST_VALUE_LEN }
        ensures only_if { IsSome result ↔ (vec_len bytes ≤ most) }
        ensures answer { IfSome result (λ v. v ≡ bytes.items) }
    {
        if bytes.len() > most {
            return None;
        }
        Some(Value {
            held: Held::new(bytes),
        })
    }

    /// Returns the bytes.
    pub fn bytes(&self) -> &[u8]
        ensures answer { result.now ≡ self.now }
        ensures bound { length self.now ≤ MOST_VALUE_LEN }
    {
        match &self.held {
            Held::Own(bytes) => bytes.as_slice(),
            Held::Shared(bytes) => bytes.as_slice(),
        }
    }

    /// Returns an equal value. It does not allocate if it shares the bytes, and fails only if memory cannot be
    /// allocated.
    pub fn copy(&self, alloc: Global) -> Result<Value, AllocError>
        ensures { IfOk result (λ v. v ≡ self.now) }
    {
        let held = match &self.held {
            Held::Own(bytes) => Held::Own(Vec::from_slice(alloc, bytes.as_slice())?),
            Held::Shared(bytes) => Held::Shared(Arc::try_clone(bytes)?),
        };
        Ok(Value { held })
    }
}

// The two digits of a byte, by the value of the second digit.
macro_rules! by_low {
    ($low:expr, $high:literal) => {
        match $low {
            0 => concat!($high, "0"),
            1 => concat!($high, "1"),
            2 => concat!($high, "2"),
            3 => concat!($high, "3"),
            4 => concat!($high, "4"),
            5 => concat!($high, "5"),
            6 => concat!($high, "6"),
            7 => concat!($high, "7"),
            8 => concat!($high, "8"),
            9 => concat!($high, "9"),
            10 => concat!($high, "a"),
            11 => concat!($high, "b"),
            12 => concat!($high, "c"),
            13 => concat!($high, "d"),
            14 => concat!($high, "e"),
            _ => concat!($high, "f"),
        }
    };
}

// Returns the two hexadecimal digits of a byte as one text, so that both are written at once.
fn digits(byte: u8) -> &'static str
    ensures { result.now ≡ digits_of byte }
{
    let low = byte % 16;
    match byte / 16 {
        0 => by_low!(low, "0"),
        1 => by_low!(low, "1"),
        2 => by_low!(low, "2"),
        3 => by_low!(low, "3"),
        4 => by_low!(low, "4"),
        5 => by_low!(low, "5"),
        6 => by_low!(low, "6"),
        7 => by_low!(low, "7"),
        8 => by_low!(low, "8"),
        9 => by_low!(low, "9"),
        10 => by_low!(low, "a"),
        11 => by_low!(low, "b"),
        12 => by_low!(low, "c"),
        13 => by_low!(low, "d"),
        14 => by_low!(low, "e"),
        _ => by_low!(low, "f"),
    }
}

/// Writes two hexadecimal digits for each byte, or a dash if there are none.
impl fmt::Display for Value {
    ghost use Rattle.std.specs.Prelude.{Some};
    ghost use Rattle.txc_node.specs.Texts.{hex_text};

    ghost output = { λ v. Some (hex_text v) };

    fn fmt<W: fmt::Write>(&self, f: &mut fmt::Formatter<W>) -> fmt::Result {
        let bytes = self.bytes();
        if bytes.is_empty() {
            return write!(f, "-");
        }
        for byte in bytes {
            f.write_str(digits(*byte))?;
        }
        Ok(())
    }
}
