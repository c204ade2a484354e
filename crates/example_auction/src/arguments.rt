//! The arguments of the program.

/// The arguments: the words `THREADS PAGES SEED STALENESS GENERATIONS [--plain] [--unstored]`, each of which
/// may be left out.
#[derive(Clone, Copy)]
pub struct Arguments {
    pub threads: u8,
    pub pages: u32,
    pub seed: u32,
    pub staleness: u32,
    /// The number of generations after the first one.
    pub returns: u8,
    /// `true` if each call has a transaction of its own.
    pub is_plain: bool,
    /// `true` if the site's events are not stored.
    pub is_unstored: bool,
}

/// Returns the number at a place, or another one.
fn number(words: &[String], at: usize, other: u32) -> u32 {
    match words.get(at) {
        Some(word) => word.parse().unwrap_or(other),
        None => other,
    }
}

impl Arguments {
    pub fn read(words: &[String]) -> Arguments {
        Arguments {
            threads: number(words, 1, 4).clamp(1, 64) as u8,
            pages: number(words, 2, 40),
            seed: number(words, 3, 0),
            staleness: number(words, 4, 2),
            returns: number(words, 5, 1).clamp(1, 64) as u8 - 1,
            is_plain: words.iter().any(|word| word.as_str() == "--plain"),
            is_unstored: words.iter().any(|word| word.as_str() == "--unstored"),
        }
    }

    /// Returns for how many events the site's history has room, or `None` if it stores none.
    pub fn events(&self) -> Option<usize> {
        if self.is_unstored { None } else { Some(2048) }
    }
}
