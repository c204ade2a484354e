//! Scripts of a world, whose lines stand for steps.
ghost use Rattle.std.specs.Prelude.{◌≡◌, ◌∷◌, [], ◌++◌, IfOk, OnOk, OnErr};
ghost use Rattle.txc_script_world.specs.TaskParts.{IsCutShort, IsTaskDone};
ghost use Rattle.txc_script_world.specs.TaskTexts.{printed_text, is_refused_line};
ghost use Rattle.txc_script_world.specs.WorldScripts.{world_script};

use crate::playing::play;
use crate::printed::Printed;
use crate::reading::read_task;
use crate::refusing::is_refused_line;
use crate::task::Task;
use std::alloc::{AllocError, Global};
use std::marker::PhantomData;
use txc_app::App;
use txc_call_registry::Cacheable;
use txc_script::{LineError, Script};
use txc_script_lines::OwnFault;
use txc_world::World;

/// Most lines need no more bytes, so their text is not moved while it is written.
const USUAL_LINE: usize = 128;

/// A script of a world's lines.
pub struct WorldScript<A, C>(pub PhantomData<(A, C)>);

/// Appends the output of a line. Returns whether it has a refusal.
fn push_printed(alloc: Global, text: &mut Vec<u8>, printed: &Printed) -> Result<bool, AllocError>
    ensures text { OnOk result (text.new.items ≡ text.old.items ++ (printed_text printed.now ++ 10 ∷ [])) }
    ensures refusal { IfOk result (λ refused. refused ≡ is_refused_line printed.now) }
    ensures unchanged { OnErr result (text.new.items ≡ text.old.items) }
{
    let mut line = String::with_capacity(alloc, USUAL_LINE)?;
    writeln!(line, "{printed}")?;
    text.extend_from_slice(line.as_bytes())?;
    Ok(is_refused_line(printed))
}

/// Executes a task, and appends its output. Returns whether it has a refusal.
fn do_task<A: App, C: Cacheable>(
    alloc: Global,
    world: &mut World<A, C>,
    task: Task,
    text: &mut Vec<u8>,
) -> Result<bool, AllocError>
    ensures after { IfOk result (IsTaskDone A.next world.old task world.new text.old.items text.new.items) }
    ensures broke { OnErr result (IsCutShort A.next world.old task world.new) }
    ensures unchanged { OnErr result (text.new.items ≡ text.old.items) }
{
    let printed = play(alloc, world, task)?;
    push_printed(alloc, text, &printed)
}

impl<A: App, C: Cacheable> Script for WorldScript<A, C> {
    type State = World<A, C>;

    type Asked = Task;

    type Reply = Printed;

    type Fault = OwnFault;

    ghost kind = { λ _. world_script A.next };

    fn answer(
        &self,
        alloc: Global,
        state: &mut World<A, C>,
        line: &[u8],
        text: &mut Vec<u8>,
        why: &mut LineError<OwnFault>,
    ) -> Option<bool> {
        match read_task(alloc, line) {
            Ok(task) => match do_task(alloc, state, task, text) {
                Ok(is_refused) => Some(is_refused),
                Err(_) => {
                    *why = LineError::Memory;
                    None
                }
            },
            Err(reason) => {
                *why = reason;
                None
            }
        }
    }

    fn close(
        &self,
        alloc: Global,
        state: &mut World<A, C>,
        text: &mut Vec<u8>,
    ) -> Result<bool, AllocError> {
        Ok(false)
    }
}
