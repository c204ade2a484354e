//! Searches of the bytes of a script, sixteen at a time.
ghost use Rattle.std.specs.Prelude.{◌≡◌, ◌+◌, ◌<◌, ◌≤◌, true, false, not, All, length, take, nat_lt, slice_index};
ghost use Rattle.std.specs.List.{prefix_len};
ghost use Rattle.std.specs.Simd.Lanes.{chunk};
ghost use Rattle.txc_script.specs.LineFaults.{is_foreign};
ghost use Rattle.txc_script.specs.Words.{HasNoBlank, is_blank};

use std::simd::prelude::*;

/// Returns how many of the sixteen bytes from this place on precede the first one below 0x20.
#[inline(always)]
fn before_low(bytes: &[u8], at: usize) -> usize
    requires { at + 16 ≤ length bytes.now }
    ensures { result ≡ prefix_len (λ b. not (nat_lt b 32)) (chunk at 16 bytes.now) }
{
    let marks = u8x16::from_slice(&bytes[at..])
        .simd_lt(u8x16::splat(0x20))
        .to_bitmask();
    if marks == 0 {
        16
    } else {
        marks.trailing_zeros() as usize
    }
}

/// Returns how many of the sixteen bytes from this place on precede the first one above 0x7E.
#[inline(always)]
fn before_high(bytes: &[u8], at: usize) -> usize
    requires { at + 16 ≤ length bytes.now }
    ensures { result ≡ prefix_len (λ b. not (nat_lt 126 b)) (chunk at 16 bytes.now) }
{
    let marks = u8x16::from_slice(&bytes[at..])
        .simd_gt(u8x16::splat(0x7e))
        .to_bitmask();
    if marks == 0 {
        16
    } else {
        marks.trailing_zeros() as usize
    }
}

/// Returns how many of the sixteen bytes from this place on precede the first blank.
#[inline(always)]
fn before_blank(bytes: &[u8], at: usize) -> usize
    requires { at + 16 ≤ length bytes.now }
    ensures { result ≡ prefix_len (λ b. not (is_blank b)) (chunk at 16 bytes.now) }
{
    let marks = u8x16::from_slice(&bytes[at..])
        .simd_eq(u8x16::splat(b' '))
        .to_bitmask();
    if marks == 0 {
        16
    } else {
        marks.trailing_zeros() as usize
    }
}

/// Returns how many of the eight bytes from this place on precede the first blank.
#[inline(always)]
fn before_blank_of_eight(bytes: &[u8], at: usize) -> usize
    requires { at + 8 ≤ length bytes.now }
    ensures { result ≡ prefix_len (λ b. not (is_blank b)) (chunk at 8 bytes.now) }
{
    let marks = u8x8::from_slice(&bytes[at..])
        .simd_eq(u8x8::splat(b' '))
        .to_bitmask();
    if marks == 0 {
        8
    } else {
        marks.trailing_zeros() as usize
    }
}

/// Returns `true` if no line may have the byte.
#[inline(always)]
fn is_foreign(byte: u8) -> bool
    ensures { result ≡ is_foreign byte }
{
    byte < 0x20 || byte > 0x7e
}

/// Returns how many bytes precede the first one that no line may have, such as a line feed.
pub fn plain_len(bytes: &[u8]) -> usize
    ensures bound { result ≤ length bytes.now }
    ensures plain { All (λ b. is_foreign b ≡ false) (take result bytes.now) }
    ensures stops { result < length bytes.now → is_foreign (slice_index bytes.now result) ≡ true }
{
    let mut at = 0;
    while bytes.len() - at >= 16 {
        let before = before_low(bytes, at).min(before_high(bytes, at));
        if before < 16 {
            return at + before;
        }
        at += 16;
    }
    while at < bytes.len() {
        if is_foreign(bytes[at]) {
            return at;
        }
        at += 1;
    }
    at
}

/// Returns how many bytes precede the first blank, counted one by one from this place on.
#[inline(always)]
fn word_len_from(bytes: &[u8], from: usize) -> usize
    requires within { from ≤ length bytes.now }
    requires before { HasNoBlank (take from bytes.now) }
    ensures bound { result ≤ length bytes.now }
    ensures bare { HasNoBlank (take result bytes.now) }
    ensures stops { result < length bytes.now → slice_index bytes.now result ≡ 32 }
{
    let mut at = from;
    while at < bytes.len() {
        if bytes[at] == b' ' {
            return at;
        }
        at += 1;
    }
    at
}

/// Returns how many bytes precede the first blank.
pub fn word_len(bytes: &[u8]) -> usize
    ensures bound { result ≤ length bytes.now }
    ensures bare { HasNoBlank (take result bytes.now) }
    ensures stops { result < length bytes.now → slice_index bytes.now result ≡ 32 }
{
    let mut at = 0;
    while bytes.len() - at >= 16 {
        let before = before_blank(bytes, at);
        if before < 16 {
            return at + before;
        }
        at += 16;
    }
    if bytes.len() - at < 8 {
        return word_len_from(bytes, at);
    }
    let before = before_blank_of_eight(bytes, at);
    if before < 8 {
        return at + before;
    }
    word_len_from(bytes, at + 8)
}
