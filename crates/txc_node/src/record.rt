//! Records of a node's history.
use crate::hit::HitValue;
use crate::op::Op;
use crate::reply::Reply;

/// A step of a node's history. `turn` counts the earlier steps of the same pass.
#[derive(Debug, Drop)]
pub struct Record {
    pub pass: usize,
    pub turn: usize,
    pub op: Op,
    /// The reply to the step, with a copy of the hit if it was one.
    pub reply: Reply<HitValue>,
}
