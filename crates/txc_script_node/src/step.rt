//! Steps of the node, whose replies a sink takes.
ghost use Rattle.std.specs.Prelude.{◌≡◌, ◌≤◌, false, IfNone, IfSome};
ghost use Rattle.txc_node.specs.Hit.{seen};
ghost use Rattle.txc_node.specs.declared.op.Op.{Op};
ghost use Rattle.txc_node.specs.declared.reply.Reply.TheVariants as replies;
ghost use Rattle.txc_tags.specs.declared.key.TheConstants.{LAST_FUNCTION};
ghost use Rattle.txc_script.specs.Excerpts.{excerpt_of};
ghost use Rattle.txc_script.specs.Words.{words_left};
ghost use Rattle.txc_script.specs.declared.line_fault.CommandFault.TheVariants.{Unknown};
ghost use Rattle.txc_script_node.specs.Lines.{event_form, insert_form, lookup_form, sweep_form};
ghost use Rattle.txc_script_node.specs.Steps.{IsFor, MakesForm, MakesLine};

use crate::reply_sink::ReplySink;
use std::alloc::Global;
use txc_node::{Entry, Hit, NodeCore, Refusal, Reply};
use txc_script::{CommandFault, Excerpt, LineError, WordsLeft, all_words, read_row};
use txc_stamp::Stamp;
use txc_tags::{Key, TagSet};

/// Makes the insertion of the words after its name, and gives its reply to the sink. Otherwise returns `None`,
/// and sets `why`.
#[inline(never)]
fn make_insertion<T: ReplySink, F: Drop>(
    alloc: Global,
    node: &mut NodeCore,
    words: WordsLeft<'_>,
    taker: &mut T,
    why: &mut LineError<F>,
) -> Option<bool>
    ensures made { MakesForm T.takes insert_form (words_left words.entry)
        node.old node.new taker.old taker.new result why.new }
    ensures unchanged { IfNone result (T.text taker.new ≡ T.text taker.old) }
{
    let (key, (lo, (known, (still, (tags, (value, ())))))) = match read_row::<
        (Key, (Stamp, (Stamp, (bool, (TagSet, (Vec<u8>, ())))))),
        F,
    >(alloc, words, why)
    {
        Some(row) => row,
        None => return None,
    };
    let function = Some(key.function());
    match Entry::new(key, value, lo, known, still, tags) {
        Ok(entry) => match node.insert(entry) {
            Ok(inserted) => taker.take(alloc, function, &Reply::Inserted(inserted), why),
            Err(_) => taker.take(alloc, function, &Reply::Refused(Refusal::Memory), why),
        },
        Err(error) => taker.take(alloc, None, &Reply::Refused(Refusal::of_entry(error)), why),
    }
}

/// Gives the reply to a lookup that is a hit to the sink. It is a function of its own, so that a miss makes no
/// room for it.
#[inline(never)]
fn take_hit<T: ReplySink, F: Drop>(
    alloc: Global,
    function: Option<u8>,
    hit: Hit<'_>,
    taker: &mut T,
    why: &mut LineError<F>,
) -> Option<bool>
    requires { IfSome function (λ f. f ≤ LAST_FUNCTION) }
    ensures after { IfSome result (λ refused. (op : Op) → IsFor function op (replies.Hit (seen hit.entry))
        → T.takes taker.old op (replies.Hit (seen hit.entry)) taker.new) }
    ensures refusal { IfSome result (λ refused. refused ≡ false) }
    ensures memory { IfNone result (why.new ≡ LineError.Memory) }
    ensures unchanged { IfNone result (T.text taker.new ≡ T.text taker.old) }
{
    taker.take(alloc, function, &Reply::Hit(hit), why)
}

/// Makes the lookup of the words after its name, and gives its reply to the sink.
#[inline(never)]
fn make_lookup<T: ReplySink, F: Drop>(
    alloc: Global,
    node: &mut NodeCore,
    words: WordsLeft<'_>,
    taker: &mut T,
    why: &mut LineError<F>,
) -> Option<bool>
    ensures made { MakesForm T.takes lookup_form (words_left words.entry)
        node.old node.new taker.old taker.new result why.new }
    ensures unchanged { IfNone result (T.text taker.new ≡ T.text taker.old) }
{
    let (key, (lo, (hi, ()))) = match read_row::<(Key, (Stamp, (Stamp, ()))), F>(
        alloc, words, why,
    ) {
        Some(row) => row,
        None => return None,
    };
    let function = Some(key.function());
    match node.lookup(&key, lo, hi) {
        Ok(Some(hit)) => take_hit(alloc, function, hit, taker, why),
        Ok(None) => taker.take(alloc, function, &Reply::Miss, why),
        Err(_) => taker.take(alloc, function, &Reply::Refused(Refusal::EmptyRange), why),
    }
}

/// Makes the event of the words after its name, and gives its reply to the sink.
#[inline(never)]
fn make_event<T: ReplySink, F: Drop>(
    alloc: Global,
    node: &mut NodeCore,
    words: WordsLeft<'_>,
    taker: &mut T,
    why: &mut LineError<F>,
) -> Option<bool>
    ensures made { MakesForm T.takes event_form (words_left words.entry)
        node.old node.new taker.old taker.new result why.new }
    ensures unchanged { IfNone result (T.text taker.new ≡ T.text taker.old) }
{
    let (stamp, (tags, ())) = match read_row::<(Stamp, (TagSet, ())), F>(alloc, words, why) {
        Some(row) => row,
        None => return None,
    };
    match node.event(stamp, tags) {
        Ok(count) => taker.take(alloc, None, &Reply::Closed(count), why),
        Err(error) => taker.take(
            alloc,
            None,
            &Reply::Refused(Refusal::OutOfOrder(error.processed)),
            why,
        ),
    }
}

/// Makes the sweep of the words after its name, and gives its reply to the sink.
#[inline(never)]
fn make_sweep<T: ReplySink, F: Drop>(
    alloc: Global,
    node: &mut NodeCore,
    words: WordsLeft<'_>,
    taker: &mut T,
    why: &mut LineError<F>,
) -> Option<bool>
    ensures made { MakesForm T.takes sweep_form (words_left words.entry)
        node.old node.new taker.old taker.new result why.new }
    ensures unchanged { IfNone result (T.text taker.new ≡ T.text taker.old) }
{
    let (horizon, ()) = match read_row::<(Stamp, ()), F>(alloc, words, why) {
        Some(row) => row,
        None => return None,
    };
    taker.take(alloc, None, &Reply::Swept(node.sweep(horizon)), why)
}

/// Sets the fault: no line has this name.
#[cold]
#[inline(never)]
fn leave_unknown<F: Drop>(name: &[u8], why: &mut LineError<F>)
    ensures { why.new ≡ LineError.Wrong (Unknown (excerpt_of name.now)) }
{
    *why = LineError::Wrong(CommandFault::Unknown(Excerpt::new(name)));
}

/// Makes the step that a line names, and gives its reply to the sink. Otherwise returns `None`, and sets `why`.
/// Each kind of step is a function of its own, so that a line makes room only for its own words.
pub fn make_step<T: ReplySink, F: Drop>(
    alloc: Global,
    node: &mut NodeCore,
    line: &[u8],
    taker: &mut T,
    why: &mut LineError<F>,
) -> Option<bool>
    ensures made { MakesLine T.takes line.now
        node.old node.new taker.old taker.new result why.new }
    ensures unchanged { IfNone result (T.text taker.new ≡ T.text taker.old) }
{
    let mut words = all_words(line);
    let name = words.next();
    if name == b"lookup".as_slice() {
        return make_lookup(alloc, node, words, taker, why);
    }
    if name == b"insert".as_slice() {
        return make_insertion(alloc, node, words, taker, why);
    }
    if name == b"event".as_slice() {
        return make_event(alloc, node, words, taker, why);
    }
    if name == b"sweep".as_slice() {
        return make_sweep(alloc, node, words, taker, why);
    }
    leave_unknown(name, why);
    None
}
