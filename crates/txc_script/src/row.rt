//! Reading the words after a command, each with its meaning.
ghost use Rattle.std.specs.Prelude.{◌≡◌, ◌<◌, ◌+◌, ◌^◌, ℕ, List, ◌∷◌, length, IfSome, IfNone, true};
ghost use Rattle.std.specs.List.{list_any};
ghost use Rattle.txc_script.specs.LineFaults.{takes_memory, IsKindsFault, IsUnsaid, IsWrong};
ghost use Rattle.txc_script.specs.ParsedWords.{AllSaidOf, IsOfKind, Mean};
ghost use Rattle.txc_script.specs.Words.{words_left};
ghost use Rattle.txc_script.specs.declared.line_fault.WordKind.{WordKind};

use crate::excerpt::Excerpt;
use crate::line_fault::{CommandFault, WordFault};
use crate::unread::{LineError, WordError};
use crate::word::Word;
use crate::words::WordsLeft;
use std::alloc::Global;

/// The meanings of words: a pair of the first word's and of the others', or nothing.
pub trait Row: Drop {
    // Their kinds.
    ghost kinds: { List WordKind };

    // The meaning of each.
    ghost said: { Self → AllSaidOf kinds };

    /// Returns how many words that is.
    fn count() -> usize
        requires { length kinds < 2 ^ 64 }
        ensures { result ≡ length kinds };

    /// Returns the meanings if there are as many words as kinds and each is of its kind. Otherwise returns
    /// `None`, and sets `why` to the fault if there are as many words. The fault is large, so a result has no
    /// room for it.
    fn read<F: Drop>(alloc: Global, words: WordsLeft<'_>, why: &mut LineError<F>) -> Option<Self>
        ensures answer { IfSome result (λ row. Mean kinds (words_left words.entry) (said row)) }
        ensures refused { IfNone result (length (words_left words.entry) ≡ length kinds
            → IsWrong (IsKindsFault kinds (words_left words.entry)) why.new) }
        ensures memory { IfNone result (length (words_left words.entry) ≡ length kinds
            → why.new ≡ LineError.Memory → list_any takes_memory kinds ≡ true) };
}

impl Row for () {
    ghost use Rattle.std.specs.Prelude.{[]};

    ghost kinds = { [] };

    ghost said = { λ _. tt };

    fn count() -> usize {
        0
    }

    #[inline(always)]
    fn read<F: Drop>(alloc: Global, words: WordsLeft<'_>, why: &mut LineError<F>) -> Option<()> {
        let mut left = words;
        match left.pop() {
            None => Some(()),
            Some(_) => None,
        }
    }
}

impl<A: Word, B: Row> Row for (A, B) {
    ghost kinds = { A.kind ∷ B.kinds };

    ghost said = { λ row. (A.said row.0, B.said row.1) };

    fn count() -> usize {
        B::count() + 1
    }

    #[inline(always)]
    fn read<F: Drop>(
        alloc: Global,
        words: WordsLeft<'_>,
        why: &mut LineError<F>,
    ) -> Option<(A, B)> {
        let mut left = words;
        let Some(word) = left.pop() else {
            return None;
        };
        let first = match A::read(alloc, word) {
            Ok(first) => first,
            Err(unsaid) => {
                leave_first::<A, F>(word, unsaid, why);
                return None;
            }
        };
        match B::read(alloc, left, why) {
            Some(others) => Some((first, others)),
            None => {
                one_later(why);
                None
            }
        }
    }
}

/// Sets the fault: the first word is of another kind.
#[cold]
#[inline(never)]
fn leave_first<A: Word, F: Drop>(word: &[u8], unsaid: WordError, why: &mut LineError<F>)
    requires { IsUnsaid A.kind word.now unsaid }
    ensures memory { why.new ≡ LineError.Memory → unsaid ≡ WordError.Memory }
    ensures wrong { (kinds : List WordKind) (words : List (List ℕ)) → length (word.now ∷ words) ≡ length (A.kind ∷ kinds)
        → IsWrong (IsKindsFault (A.kind ∷ kinds) (word.now ∷ words)) why.new }
{
    match unsaid {
        WordError::Memory => *why = LineError::Memory,
        WordError::Bad(at) => {
            *why = LineError::Wrong(CommandFault::Word(WordFault {
                number: 1,
                kind: A::kind(),
                at,
                text: Excerpt::new(word),
            }));
        }
    }
}

/// Changes the fault of words to that of the same words after a valid one.
#[cold]
#[inline(never)]
fn one_later<F>(why: &mut LineError<F>)
    ensures memory { why.new ≡ LineError.Memory → why.old ≡ LineError.Memory }
    ensures wrong { (kind : WordKind) (kinds : List WordKind) (word : List ℕ) (words : List (List ℕ))
        → length words + 1 < 2 ^ 64 → IsOfKind kind word → length words ≡ length kinds
        → IsWrong (IsKindsFault kinds words) why.old
        → IsWrong (IsKindsFault (kind ∷ kinds) (word ∷ words)) why.new }
{
    match why {
        LineError::Wrong(CommandFault::Word(fault)) => {
            fault.number = fault.number.saturating_add(1);
        }
        _ => {}
    }
}

/// Sets the fault if there are more words than wanted, or fewer.
#[cold]
#[inline(never)]
fn test_count<F: Drop>(wanted: usize, words: WordsLeft<'_>, why: &mut LineError<F>)
    ensures memory { why.new ≡ LineError.Memory
        → (length (words_left words.entry) ≡ wanted) × (why.old ≡ LineError.Memory) }
    ensures wrong { (kinds : List WordKind) → wanted ≡ length kinds
        → (length (words_left words.entry) ≡ length kinds → IsWrong (IsKindsFault kinds (words_left words.entry)) why.old)
        → IsWrong (IsKindsFault kinds (words_left words.entry)) why.new }
{
    let given = words.len();
    if given != wanted {
        *why = LineError::Wrong(CommandFault::Count { wanted, given });
    }
}

/// Returns the meanings of the words after a command, or sets `why` to their fault. It reports a failed
/// allocation only if there are as many words as kinds, and a word's kind needs memory.
#[inline(always)]
pub fn read_row<R: Row, F: Drop>(
    alloc: Global,
    words: WordsLeft<'_>,
    why: &mut LineError<F>,
) -> Option<R>
    requires { length R.kinds < 2 ^ 64 }
    ensures answer { IfSome result (λ row. Mean R.kinds (words_left words.entry) (R.said row)) }
    ensures refused { IfNone result (IsWrong (IsKindsFault R.kinds (words_left words.entry)) why.new) }
    ensures memory { IfNone result (why.new ≡ LineError.Memory
        → (length (words_left words.entry) ≡ length R.kinds) × (list_any takes_memory R.kinds ≡ true)) }
{
    let row = R::read(alloc, words, why);
    if row.is_none() {
        test_count(R::count(), words, why);
    }
    row
}
