//! Reads and writes texts of numbers, tags, sets of tags and keys.
//!
//! | Text | Grammar |
//! |---|---|
//! | number | decimal digits, no leading zero except `0` itself |
//! | tag | `t` TABLE `:` and then `?`, or `id=` and a number, or `grp=` and a number; TABLE is 0 to 15 |
//! | set of tags | `-` for the empty set, or tags joined by `,`, in any order and with repeats |
//! | key | `f` F `(` ARGS `)`; F is 0 to 63; ARGS is nothing, or 1 to 4 numbers joined by `,` |
//!
//! Ids, groups and arguments are numbers up to 4294967295. No text has blanks. `write` has one spelling: a
//! set's tags by table, in a table the wildcard only, or ids by number and then groups by number.
//!
//! Texts are read from bytes, since a script's line may not be UTF-8.

pub mod key;
pub mod number;
mod range;
mod read;
pub mod set;
pub mod tag;
