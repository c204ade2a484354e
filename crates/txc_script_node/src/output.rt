//! Replies as text, appended to the text that is not written out yet.
ghost use Rattle.std.specs.Prelude.{◌≡◌, ℕ, ◌+◌, ◌*◌, ◌<◌, ◌≤◌, [], ◌∷◌, ◌++◌, length, map, OnOk, OnErr, codes, vec_len, vec_capacity};
ghost use Rattle.std.specs.Fmt.{decimal};
ghost use Rattle.std.specs.List.{flat_map, join_with_byte};
ghost use Rattle.txc_stamp.specs.Texts.{reach_text};
ghost use Rattle.txc_tags.specs.TextKey.{key_text};
ghost use Rattle.txc_node.specs.Hit.{seen};
ghost use Rattle.txc_node.specs.Steps.{seen_reply};
ghost use Rattle.txc_node.specs.Texts.{digit_of, digits_of, evicted_text, hex_text, inserted_text, reply_text};
ghost use Rattle.txc_node.specs.declared.node.Inserted.TheVariants.{Stored};
ghost use Rattle.txc_node.specs.declared.reply.Reply.TheVariants as replies;

use std::alloc::{AllocError, Global};
use txc_node::{Entry, Hit, Inserted, Reply, Value};
use txc_stamp::Reach;
use txc_tags::Key;

/// More bytes than a reply needs without the digits of a value.
const MAX_REPLY: usize = 256;

/// Appends bytes. There is room for them.
#[inline(always)]
fn put(text: &mut Vec<u8>, bytes: &[u8])
    requires { vec_len text.old + length bytes.now ≤ vec_capacity text.old }
    ensures after { text.new.items ≡ text.old.items ++ bytes.now }
    ensures len { vec_len text.new ≡ vec_len text.old + length bytes.now }
    ensures capacity { vec_capacity text.old ≤ vec_capacity text.new }
{
    match text.extend_from_slice(bytes) {
        Ok(()) => {}
        Err(_) => unreachable!(),
    }
}

/// Appends the digits of a number.
fn put_number(text: &mut Vec<u8>, number: u64)
    requires { vec_len text.old + length (decimal number) ≤ vec_capacity text.old }
    ensures after { text.new.items ≡ text.old.items ++ decimal number }
    ensures len { vec_len text.new ≡ vec_len text.old + length (decimal number) }
    ensures capacity { vec_capacity text.old ≤ vec_capacity text.new }
{
    if number < 10 {
        return text.push_reserved(b'0' + number as u8);
    }
    put_number(text, number / 10);
    text.push_reserved(b'0' + (number % 10) as u8)
}

/// Appends a number of at most 20 digits.
#[inline(always)]
#[tactic(auto, using(crate::proofs::Digits::few_digits))]
fn put_u64(text: &mut Vec<u8>, number: u64)
    requires { vec_len text.old + 20 ≤ vec_capacity text.old }
    ensures after { text.new.items ≡ text.old.items ++ decimal number }
    ensures len { vec_len text.new ≤ vec_len text.old + 20 }
    ensures capacity { vec_capacity text.old ≤ vec_capacity text.new }
{
    put_number(text, number)
}

/// Returns a hexadecimal digit.
#[inline(always)]
fn digit(n: u8) -> u8
    requires { n < 16 }
    ensures { result ≡ digit_of n }
{
    if n < 10 { b'0' + n } else { b'a' + (n - 10) }
}

/// Appends the two digits of a byte.
#[inline(always)]
fn put_byte(text: &mut Vec<u8>, byte: u8)
    requires { vec_len text.old + 2 ≤ vec_capacity text.old }
    ensures after { text.new.items ≡ text.old.items ++ digits_of byte }
    ensures len { vec_len text.new ≡ vec_len text.old + 2 }
    ensures capacity { vec_capacity text.old ≤ vec_capacity text.new }
{
    text.push_reserved(digit(byte / 16));
    text.push_reserved(digit(byte % 16));
}

/// Appends the two digits of each byte.
fn put_digits(text: &mut Vec<u8>, bytes: &[u8])
    requires { vec_len text.old + 2 * length bytes.now ≤ vec_capacity text.old }
    ensures after { text.new.items ≡ text.old.items ++ flat_map digits_of bytes.now }
    ensures len { vec_len text.new ≡ vec_len text.old + 2 * length bytes.now }
    ensures capacity { vec_capacity text.old ≤ vec_capacity text.new }
{
    for byte in bytes {
        put_byte(text, *byte);
    }
}

/// Appends a value: a dash for no bytes, or two digits for each.
fn put_value(text: &mut Vec<u8>, value: &Value)
    requires { vec_len text.old + 2 * length value.now + 1 ≤ vec_capacity text.old }
    ensures after { text.new.items ≡ text.old.items ++ hex_text value.now }
    ensures len { vec_len text.new ≤ vec_len text.old + 2 * length value.now + 1 }
    ensures capacity { vec_capacity text.old ≤ vec_capacity text.new }
{
    let bytes = value.bytes();
    if bytes.is_empty() {
        return text.push_reserved(b'-');
    }
    put_digits(text, bytes)
}

/// Appends a reach: `[0,3) still`, or `closed`.
fn put_reach(text: &mut Vec<u8>, reach: Reach)
    requires { vec_len text.old + 50 ≤ vec_capacity text.old }
    ensures after { text.new.items ≡ text.old.items ++ reach_text reach }
    ensures len { vec_len text.new ≤ vec_len text.old + 50 }
    ensures capacity { vec_capacity text.old ≤ vec_capacity text.new }
{
    text.push_reserved(b'[');
    put_u64(text, u64::from(reach.lo().number()));
    text.push_reserved(b',');
    put_u64(text, u64::from(reach.known().number()) + 1);
    if reach.is_still() {
        put(text, b") still")
    } else {
        put(text, b") closed")
    }
}

/// Appends a word and a number as a line.
fn put_count(text: &mut Vec<u8>, word: &[u8], count: u64)
    requires { vec_len text.old + length word.now + 21 ≤ vec_capacity text.old }
    ensures { text.new.items ≡ text.old.items ++ (word.now ++ (decimal count ++ 10 ∷ [])) }
{
    put(text, word);
    put_u64(text, count);
    text.push_reserved(b'\n');
}

/// Appends a number of at most 10 digits.
#[inline(always)]
fn put_u32(text: &mut Vec<u8>, number: u32)
    requires { vec_len text.old + 20 ≤ vec_capacity text.old }
    ensures after { text.new.items ≡ text.old.items ++ decimal number }
    ensures len { vec_len text.new ≤ vec_len text.old + 20 }
    ensures capacity { vec_capacity text.old ≤ vec_capacity text.new }
{
    put_u64(text, u64::from(number))
}

/// Appends a comma and a number.
#[inline(always)]
fn put_other(text: &mut Vec<u8>, number: u32)
    requires { vec_len text.old + 21 ≤ vec_capacity text.old }
    ensures after { text.new.items ≡ text.old.items ++ 44 ∷ decimal number }
    ensures len { vec_len text.new ≤ vec_len text.old + 21 }
    ensures capacity { vec_capacity text.old ≤ vec_capacity text.new }
{
    text.push_reserved(b',');
    put_u32(text, number);
}

/// Appends numbers, each with a comma before it.
fn put_others(text: &mut Vec<u8>, numbers: &[u32])
    requires { vec_len text.old + 21 * length numbers.now ≤ vec_capacity text.old }
    ensures after { text.new.items ≡ text.old.items ++ flat_map (λ n. 44 ∷ decimal n) numbers.now }
    ensures len { vec_len text.new ≤ vec_len text.old + 21 * length numbers.now }
    ensures capacity { vec_capacity text.old ≤ vec_capacity text.new }
{
    for number in numbers {
        put_other(text, *number);
    }
}

/// Appends numbers, with commas between them.
fn put_args(text: &mut Vec<u8>, args: &[u32])
    requires { vec_len text.old + 21 * length args.now ≤ vec_capacity text.old }
    ensures after { text.new.items ≡ text.old.items ++ join_with_byte 44 (map decimal args.now) }
    ensures len { vec_len text.new ≤ vec_len text.old + 21 * length args.now }
    ensures capacity { vec_capacity text.old ≤ vec_capacity text.new }
{
    match args.split_first() {
        None => {}
        Some((first, others)) => {
            put_u32(text, *first);
            put_others(text, others);
        }
    }
}

/// Appends a key: `f3(1,2)`.
fn put_key(text: &mut Vec<u8>, key: &Key)
    requires { vec_len text.old + 107 ≤ vec_capacity text.old }
    ensures after { text.new.items ≡ text.old.items ++ key_text key.now }
    ensures len { vec_len text.new ≤ vec_len text.old + 107 }
    ensures capacity { vec_capacity text.old ≤ vec_capacity text.new }
{
    text.push_reserved(b'f');
    put_u64(text, u64::from(key.function()));
    text.push_reserved(b'(');
    put_args(text, key.args());
    text.push_reserved(b')');
}

/// Appends the entry that was dropped, if one was.
fn put_evicted(text: &mut Vec<u8>, evicted: &Option<Entry>)
    requires { vec_len text.old + 137 ≤ vec_capacity text.old }
    ensures after { text.new.items ≡ text.old.items ++ evicted_text evicted.now }
    ensures len { vec_len text.new ≤ vec_len text.old + 137 }
    ensures capacity { vec_capacity text.old ≤ vec_capacity text.new }
{
    if let Some(entry) = evicted {
        put(text, b" evicted ");
        put_key(text, &entry.key);
        text.push_reserved(b'@');
        put_u32(text, entry.reach.lo().number());
    }
}

/// Appends the line of an insertion whose entry was stored.
fn push_stored(text: &mut Vec<u8>, reach: Reach, evicted: &Option<Entry>) -> Result<(), AllocError>
    ensures after { OnOk result (text.new.items
        ≡ text.old.items ++ (inserted_text (Stored reach evicted.now) ++ 10 ∷ [])) }
    ensures unchanged { OnErr result (text.new.items ≡ text.old.items) }
{
    text.reserve(MAX_REPLY)?;
    put(text, b"stored ");
    put_reach(text, reach);
    put_evicted(text, evicted);
    text.push_reserved(b'\n');
    Ok(())
}

/// Appends the line of a hit.
fn push_hit(text: &mut Vec<u8>, hit: &Hit<'_>) -> Result<(), AllocError>
    ensures after { OnOk result (text.new.items
        ≡ text.old.items ++ (reply_text (replies.Hit (seen hit.now)) ++ 10 ∷ [])) }
    ensures unchanged { OnErr result (text.new.items ≡ text.old.items) }
{
    text.reserve(MAX_REPLY + 2 * hit.value.bytes().len())?;
    put(text, b"hit ");
    put_reach(text, hit.reach());
    text.push_reserved(b' ');
    put_value(text, hit.value);
    text.push_reserved(b'\n');
    Ok(())
}

/// Appends the line of any reply, by way of a string of its own.
#[cold]
fn push_other(alloc: Global, text: &mut Vec<u8>, reply: &Reply<Hit<'_>>) -> Result<(), AllocError>
    ensures after { OnOk result (text.new.items
        ≡ text.old.items ++ (reply_text (seen_reply reply.now) ++ 10 ∷ [])) }
    ensures unchanged { OnErr result (text.new.items ≡ text.old.items) }
{
    let line = format!(in alloc; "{reply}\n")?;
    text.extend_from_slice(line.as_bytes())
}

/// Appends the line of a reply. Fails, and appends nothing, only if memory cannot be allocated.
pub fn push_reply(
    alloc: Global,
    text: &mut Vec<u8>,
    reply: &Reply<Hit<'_>>,
) -> Result<(), AllocError>
    ensures after { OnOk result (text.new.items
        ≡ text.old.items ++ (reply_text (seen_reply reply.now) ++ 10 ∷ [])) }
    ensures unchanged { OnErr result (text.new.items ≡ text.old.items) }
{
    match reply {
        Reply::Hit(hit) => push_hit(text, hit),
        Reply::Miss => text.extend_from_slice(b"miss\n"),
        Reply::Closed(count) => {
            text.reserve(MAX_REPLY)?;
            put_count(text, b"closed ", *count as u64);
            Ok(())
        }
        Reply::Inserted(Inserted::Stored { reach, evicted }) => push_stored(text, *reach, evicted),
        _ => push_other(alloc, text, reply),
    }
}
