//! Counts of replies.
ghost use Rattle.std.specs.Prelude.{◌≡◌, ℕ, ◌+◌, ◌^◌, ◌<◌, ◌≤◌, List, [], ◌∷◌, ◌++◌, length, IfSome};
ghost use Rattle.txc_node.specs.Steps.{function_of};
ghost use Rattle.txc_node.specs.Counts.{none_counted, counts_of, sum_of, counts_if, own_counts, dropped_function, counts_for, events_by, closed_by, swept_by, trimmed_by, AreCountsOf};
ghost use Rattle.txc_node.specs.declared.record.Record.{Record};
ghost use Rattle.txc_node.specs.CountBounds.{HasRoom};

use crate::node::Inserted;
use crate::record::Record;
use crate::reply::Reply;
use std::marker::Model;
use txc_tags::LAST_FUNCTION;

/// Counts of the replies about the calls of one function.
#[derive(Clone, Copy, Debug, PartialEq, Eq)]
pub struct FunctionCounts {
    /// Lookups, including the hits.
    pub lookups: u64,
    pub hits: u64,
    /// Insertions that stored their entry.
    pub stored: u64,
    /// Insertions that kept the old entry.
    pub kept: u64,
    /// Entries that were dropped to make room.
    pub evicted: u64,
}

// Number of functions.
const FUNCTIONS: usize = LAST_FUNCTION as usize + 1;

const NONE: FunctionCounts = FunctionCounts {
    lookups: 0,
    hits: 0,
    stored: 0,
    kept: 0,
    evicted: 0,
};

const ONE_EVICTED: FunctionCounts = FunctionCounts {
    lookups: 0,
    hits: 0,
    stored: 0,
    kept: 0,
    evicted: 1,
};

/// Counts of replies: for each function, and in all.
#[derive(Debug, Drop)]
pub struct Counts {
    functions: [FunctionCounts; FUNCTIONS],
    replies: u64,
    events: u64,
    closed: u128,
    swept: u128,
    trimmed: u128,
}

impl Model for Counts {
    ghost use Rattle.txc_node.specs.Counts.{Totals};
    ghost use Rattle.txc_node.specs.CountBounds.{AreWithin};

    ghost Value = { Totals };

    ghost view = { λ c. record {
      functions = c.functions;
      replies = c.replies;
      events = c.events;
      closed = c.closed;
      swept = c.swept;
      trimmed = c.trimmed;
    } };

    ghost invariant = { λ c. AreWithin (record {
      functions = c.functions;
      replies = c.replies;
      events = c.events;
      closed = c.closed;
      swept = c.swept;
      trimmed = c.trimmed;
    }) };
}

// Adds to the counts of a function, if one is named.
fn add_to(functions: &mut [FunctionCounts; FUNCTIONS], function: Option<u8>, more: FunctionCounts)
    requires function { IfSome function (λ f. f ≤ LAST_FUNCTION) }
    requires len { length functions.old ≡ LAST_FUNCTION + 1 }
    requires room { (f : ℕ) → HasRoom (counts_of functions.old f) more }
    ensures len { length functions.new ≡ length functions.old }
    ensures counts { (f : ℕ) → counts_of functions.new f
        ≡ sum_of (counts_of functions.old f) (counts_if function f more) }
{
    match function {
        None => {}
        Some(f) => {
            let counts = &mut functions[f as usize];
            counts.lookups += more.lookups;
            counts.hits += more.hits;
            counts.stored += more.stored;
            counts.kept += more.kept;
            counts.evicted += more.evicted;
        }
    }
}

// Counts of one reply for the function whose call was looked up or inserted.
fn own_counts<H>(reply: &Reply<H>) -> FunctionCounts
    ensures { result ≡ own_counts reply.now }
{
    match reply {
        Reply::Inserted(Inserted::Stored { .. }) => FunctionCounts { stored: 1, ..NONE },
        Reply::Inserted(Inserted::Kept(_)) => FunctionCounts { kept: 1, ..NONE },
        Reply::Hit(_) => FunctionCounts {
            lookups: 1,
            hits: 1,
            ..NONE
        },
        Reply::Miss => FunctionCounts { lookups: 1, ..NONE },
        _ => NONE,
    }
}

// Returns the function of the entry that was dropped to make room, if one was.
fn dropped_function<H>(reply: &Reply<H>) -> Option<u8>
    ensures value { result ≡ dropped_function reply.now }
    ensures bound { IfSome result (λ f. f ≤ LAST_FUNCTION) }
{
    match reply {
        Reply::Inserted(Inserted::Stored { evicted, .. }) => match evicted {
            Some(entry) => Some(entry.key.function()),
            None => None,
        },
        _ => None,
    }
}

// Returns how many events the reply answers, and how many entries were closed, swept and trimmed.
fn totals<H>(reply: &Reply<H>) -> (u64, usize, usize, usize)
    ensures events { result.0 ≡ events_by reply.now }
    ensures closed { result.1 ≡ closed_by reply.now }
    ensures swept { result.2 ≡ swept_by reply.now }
    ensures trimmed { result.3 ≡ trimmed_by reply.now }
    ensures one { result.0 ≤ 1 }
{
    match reply {
        Reply::Closed(count) => (1, *count, 0, 0),
        Reply::Swept(count) => (0, 0, *count, 0),
        Reply::Trimmed(count) => (0, 0, 0, *count),
        _ => (0, 0, 0, 0),
    }
}

impl Counts {
    /// Makes counts of no replies.
    pub fn new() -> Counts
        ensures functions { (f : ℕ) → counts_of result.functions f ≡ none_counted }
        ensures replies { result.replies ≡ 0 }
        ensures events { result.events ≡ 0 }
        ensures closed { result.closed ≡ 0 }
        ensures swept { result.swept ≡ 0 }
        ensures trimmed { result.trimmed ≡ 0 }
        ensures history { AreCountsOf [] result }
    {
        Counts {
            functions: [NONE; FUNCTIONS],
            replies: 0,
            events: 0,
            closed: 0,
            swept: 0,
            trimmed: 0,
        }
    }

    /// Returns a copy. Does not allocate.
    pub fn again(&self) -> Counts
        ensures { result ≡ self.now }
    {
        Counts {
            functions: self.functions,
            replies: self.replies,
            events: self.events,
            closed: self.closed,
            swept: self.swept,
            trimmed: self.trimmed,
        }
    }

    /// Counts the reply to a step of that function, or of none. Does not allocate.
    pub fn count<H>(&mut self, function: Option<u8>, reply: &Reply<H>)
        requires function { IfSome function (λ f. f ≤ LAST_FUNCTION) }
        requires room { self.old.replies + 1 < 2 ^ 64 }
        ensures functions { (f : ℕ) → counts_of self.new.functions f
            ≡ sum_of (counts_of self.old.functions f) (counts_for f function reply.now) }
        ensures replies { self.new.replies ≡ self.old.replies + 1 }
        ensures events { self.new.events ≡ self.old.events + events_by reply.now }
        ensures closed { self.new.closed ≡ self.old.closed + closed_by reply.now }
        ensures swept { self.new.swept ≡ self.old.swept + swept_by reply.now }
        ensures trimmed { self.new.trimmed ≡ self.old.trimmed + trimmed_by reply.now }
    {
        add_to(&mut self.functions, function, own_counts(reply));
        add_to(&mut self.functions, dropped_function(reply), ONE_EVICTED);
        let (events, closed, swept, trimmed) = totals(reply);
        self.replies += 1;
        self.events += events;
        self.closed += closed as u128;
        self.swept += swept as u128;
        self.trimmed += trimmed as u128;
    }

    /// Counts the reply of a step of a history. Does not allocate.
    pub fn add(&mut self, step: &Record)
        requires room { self.old.replies + 1 < 2 ^ 64 }
        ensures functions { (f : ℕ) → counts_of self.new.functions f
            ≡ sum_of (counts_of self.old.functions f)
            (counts_for f (function_of step.now.op) step.now.reply) }
        ensures replies { self.new.replies ≡ self.old.replies + 1 }
        ensures events { self.new.events ≡ self.old.events + events_by step.now.reply }
        ensures closed { self.new.closed ≡ self.old.closed + closed_by step.now.reply }
        ensures swept { self.new.swept ≡ self.old.swept + swept_by step.now.reply }
        ensures trimmed { self.new.trimmed ≡ self.old.trimmed + trimmed_by step.now.reply }
        ensures history { (steps : List Record) → AreCountsOf steps self.old
            → AreCountsOf (steps ++ step.now ∷ []) self.new }
    {
        self.count(step.op.function(), &step.reply);
    }

    /// Returns the counts of a function.
    pub fn of(&self, function: u8) -> FunctionCounts
        requires { function ≤ LAST_FUNCTION }
        ensures { result ≡ counts_of self.now.functions function }
    {
        self.functions[function as usize]
    }

    /// Returns how many replies to events were counted.
    pub fn events(&self) -> u64
        ensures { result ≡ self.now.events }
    {
        self.events
    }

    /// Returns how many entries the events closed.
    pub fn closed(&self) -> u128
        ensures { result ≡ self.now.closed }
    {
        self.closed
    }

    /// Returns how many entries sweeps dropped.
    pub fn swept(&self) -> u128
        ensures { result ≡ self.now.swept }
    {
        self.swept
    }

    /// Returns how many entries trims dropped.
    pub fn trimmed(&self) -> u128
        ensures { result ≡ self.now.trimmed }
    {
        self.trimmed
    }
}
