use txc_app::Answer;
use txc_node::{Entry, Value};
use txc_rows::Query;
use txc_stamp::Reach;
use txc_tags::{Key, TagSet};

/// The value of a call, with its validity interval and its tags.
#[derive(Debug, Drop)]
pub struct Outcome {
    /// The call.
    pub key: Key,
    /// Its value.
    pub value: Value,
    /// The stamps at which it holds. `None` is everywhere.
    pub reach: Option<Reach>,
    /// The tags that it depends on.
    pub tags: TagSet,
}

/// An answer that the innermost function has not got yet, with its validity interval and its tags.
#[derive(Debug, Drop)]
pub struct HeldAnswer {
    /// The answer.
    pub answer: Answer,
    /// The stamps at which it holds. `None` is everywhere.
    pub reach: Option<Reach>,
    /// The tags that it depends on.
    pub tags: TagSet,
}

/// The need of a call before it can continue.
#[derive(Debug, Drop)]
pub enum Need {
    /// A lookup of the call at a node.
    Lookup(Key),
    /// The database's answer to the query.
    Query(Query),
    /// An insertion of the entry at a node.
    Insert(Entry),
    /// Nothing: the call is done.
    Value(Outcome),
    /// The first step of the call's function.
    Begin(Key),
    /// The next step of the innermost function, which is to continue with this answer.
    Resume(HeldAnswer),
}
