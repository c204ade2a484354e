//! Requests in an open transaction.
ghost use Rattle.std.specs.Prelude.{◌≡◌, None};
ghost use Rattle.txc_app.specs.declared.ask.Ask.TheVariants as asks;
ghost use Rattle.txc_c.specs.SiteReply.{buffer};
ghost use Rattle.txc_caller.specs.Ports.{HasGrownDatabase};
ghost use Rattle.txc_caller.specs.CallerTxn.{KeepsCaller};
ghost use Rattle.txc_caller.specs.ComputedFunctions.{top_call};
ghost use Rattle.txc_caller.specs.CallerWrite.{IsWriteOf};
ghost use Rattle.txc_c.specs.Opaque.{opaque_next};
ghost use Rattle.txc_c.specs.Opened.{IsOpenOf, OpenAsksNext};
ghost use Rattle.txc_c.specs.Calls.{HasReadRowsItself, QueryAct, StepAct};

use crate::numbers::txn_number;
use crate::opaque::Opaque;
use crate::opened::Open;
use crate::site_reply::write_step;
use std::alloc::Global;
use txc_app::Ask;
use txc_c_types::ANSWERED;
use txc_caller::{Caller, CallerWrite};
use txc_rows::Query;

// Reads the rows of a query of a read-write transaction itself, and writes how many they are.
fn read_rows(
    alloc: Global,
    caller: &mut Caller<Opaque>,
    write: &mut CallerWrite<Opaque>,
    query: Query,
    count: &mut usize,
) -> u32
    requires of_caller { IsWriteOf opaque_next caller.old write.old }
    requires idle { top_call write.old.core.call ≡ None }
    ensures read { HasReadRowsItself query count.old count.new caller.old write.old result write.new }
    ensures of_caller { IsWriteOf opaque_next caller.new write.new }
    ensures caller { caller.new ≡ caller.old }
{
    match write.read(alloc, caller, query) {
        Ok(rows) => {
            *count = rows.len();
            ANSWERED
        }
        Err(error) => txn_number(error),
    }
}

impl Open {
    /// Makes a step, and writes its result.
    pub(crate) fn ask(
        &mut self,
        alloc: Global,
        caller: &mut Caller<Opaque>,
        ask: Ask,
        value: &mut [u8],
        len: &mut usize,
    ) -> u32
        requires of_caller { IsOpenOf caller.old self.old }
        requires asks { OpenAsksNext ask self.old }
        ensures act { StepAct ask (buffer value.old len.old) (buffer value.new len.new) caller.old self.old result
            caller.new self.new }
        ensures of_caller { IsOpenOf caller.new self.new }
        ensures caller { KeepsCaller caller.old caller.new }
        ensures grown { HasGrownDatabase caller.old.ports.database caller.new.ports.database }
    {
        let step = self.step(alloc, caller, ask);
        write_step(self, step, value, len)
    }

    /// Requests the rows of a query: for the function being computed, or for a read-write transaction itself if
    /// there is none.
    pub(crate) fn query(
        &mut self,
        alloc: Global,
        caller: &mut Caller<Opaque>,
        query: Query,
        count: &mut usize,
    ) -> u32
        requires of_caller { IsOpenOf caller.old self.old }
        requires asks { OpenAsksNext (asks.Query query) self.old }
        ensures act { QueryAct query count.old count.new caller.old self.old result caller.new self.new }
        ensures of_caller { IsOpenOf caller.new self.new }
        ensures caller { KeepsCaller caller.old caller.new }
        ensures grown { HasGrownDatabase caller.old.ports.database caller.new.ports.database }
    {
        match self {
            Open::Writing(write) if !write.is_computing() => {
                read_rows(alloc, caller, write, query, count)
            }
            _ => self.ask(alloc, caller, Ask::Query(query), &mut [], count),
        }
    }
}
