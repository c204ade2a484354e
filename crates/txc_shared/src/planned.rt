//! Ghost records of steps that are still to be made. The cache and the step determine the reply.
ghost use Rattle.txc_shared.specs.Planned.{planned_record};

use txc_node::{Entry, NodeCore, Op, Record};
use txc_stamp::Stamp;
use txc_stream::GhostRecords;
use txc_tags::{Key, TagSet};

/// A step of a pass, with the cache that will make it.
#[derive(Drop)]
pub(crate) struct Planned<'a> {
    pub(crate) pass: usize,
    pub(crate) turn: usize,
    pub(crate) op: &'a Op,
    pub(crate) core: &'a NodeCore,
}

/// The record of a planned step.
pub(crate) struct AsPlanned;

impl<'a> GhostRecords<Planned<'a>, Record> for AsPlanned {
    ghost record_of = { λ p. planned_record p.pass p.turn p.op.now p.core.now };
}

/// A lookup of a pass, of a call that is not copied.
#[derive(Drop)]
pub(crate) struct Askable<'a> {
    pub(crate) pass: usize,
    pub(crate) turn: usize,
    pub(crate) key: &'a Key,
    pub(crate) lo: Stamp,
    pub(crate) hi: Stamp,
    pub(crate) core: &'a NodeCore,
}

/// The record of a lookup.
pub(crate) struct AsLookup;

impl<'a> GhostRecords<Askable<'a>, Record> for AsLookup {
    ghost use Rattle.txc_node.specs.declared.op.Op.TheVariants.{Lookup};

    ghost record_of = { λ p. planned_record p.pass p.turn (Lookup p.key.now p.lo p.hi) p.core.now };
}

/// An insertion of a pass, of an entry that is not copied.
#[derive(Drop)]
pub(crate) struct Insertable<'a> {
    pub(crate) pass: usize,
    pub(crate) turn: usize,
    pub(crate) entry: &'a Entry,
    pub(crate) core: &'a NodeCore,
}

/// The record of an insertion.
pub(crate) struct AsInsertion;

impl<'a> GhostRecords<Insertable<'a>, Record> for AsInsertion {
    ghost use Rattle.txc_node.specs.declared.op.Op.TheVariants.{Insert};

    ghost record_of = { λ p. planned_record p.pass p.turn (Insert p.entry.now) p.core.now };
}

/// An event that a pass takes, with tags that are not copied.
#[derive(Drop)]
pub(crate) struct Takeable<'a> {
    pub(crate) pass: usize,
    pub(crate) turn: usize,
    pub(crate) stamp: Stamp,
    pub(crate) tags: &'a TagSet,
    pub(crate) core: &'a NodeCore,
}

/// The record of an event.
pub(crate) struct AsEvent;

impl<'a> GhostRecords<Takeable<'a>, Record> for AsEvent {
    ghost use Rattle.txc_node.specs.declared.op.Op.TheVariants.{Event};

    ghost record_of = { λ p. planned_record p.pass p.turn (Event p.stamp p.tags.now) p.core.now };
}
