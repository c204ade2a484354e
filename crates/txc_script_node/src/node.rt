//! Scripts of a node, whose replies are written, or counted for a report.
ghost use Rattle.txc_script_settings.specs.declared.mode.Mode.TheVariants as modes;
ghost use Rattle.txc_script_node.specs.NodeScripts.{node_script};

use crate::report::Report;
use crate::step::make_step;
use std::alloc::{AllocError, Global};
use std::marker::PhantomData;
use txc_node::{HitValue, NodeCore, Op, Reply};
use txc_script::{LineError, Script};

/// A script of a node whose replies are written. Its lines have no faults of their own; `F` is the type that a
/// run reports for these.
pub struct Replying<F>(pub PhantomData<F>);

/// A script of a node whose replies are counted, and a report is written after all lines.
pub struct Counting<F>(pub PhantomData<F>);

/// A node, with the report of its replies.
#[derive(Drop)]
pub struct Counted {
    pub node: NodeCore,
    pub report: Report,
}

impl<F: Drop> Script for Replying<F> {
    type State = NodeCore;

    type Asked = Op;

    type Reply = Reply<HitValue>;

    type Fault = F;

    ghost kind = { λ _. node_script modes.Node };

    fn answer(
        &self,
        alloc: Global,
        state: &mut NodeCore,
        line: &[u8],
        text: &mut Vec<u8>,
        why: &mut LineError<F>,
    ) -> Option<bool> {
        make_step(alloc, state, line, text, why)
    }

    fn close(
        &self,
        alloc: Global,
        state: &mut NodeCore,
        text: &mut Vec<u8>,
    ) -> Result<bool, AllocError> {
        Ok(false)
    }
}

impl<F: Drop> Script for Counting<F> {
    type State = Counted;

    type Asked = Op;

    type Reply = Reply<HitValue>;

    type Fault = F;

    ghost use Rattle.txc_script_node.specs.ReportProgress.{counted_script};

    ghost kind = { λ _. counted_script };

    fn answer(
        &self,
        alloc: Global,
        state: &mut Counted,
        line: &[u8],
        text: &mut Vec<u8>,
        why: &mut LineError<F>,
    ) -> Option<bool> {
        make_step(alloc, &mut state.node, line, &mut state.report, why)
    }

    fn close(
        &self,
        alloc: Global,
        state: &mut Counted,
        text: &mut Vec<u8>,
    ) -> Result<bool, AllocError> {
        let report = state.report.text(alloc)?;
        text.extend_from_slice(report.as_bytes())?;
        Ok(false)
    }
}
