//! Reading the tasks of a world's script.
ghost use Rattle.std.specs.Prelude.{◌≡◌, IfOk, IfErr, option_and_then};
ghost use Rattle.txc_script.specs.LineFaults.{IsWrong};
ghost use Rattle.txc_script.specs.Words.{words_of};
ghost use Rattle.txc_script_lines.specs.LineWords.{AreBodies};
ghost use Rattle.txc_script_world.specs.WorldFaults.{IsWorldFault};
ghost use Rattle.txc_script_world.specs.Tasks.{SpellsTask, task_at, keeper_change, place_said, task_said};

use crate::task::Task;
use std::alloc::{AllocError, Global};
use txc_script::{
    ChangeName, CommandFault, Excerpt, LineError, ParsedWord, all_words, count_words,
};
use txc_script_lines::{LineName, OwnFault, change_of, name_of, query_of, read_after_name};
use txc_txn_ports::Bounds;
use txc_world::{ActorStep, KeeperStep, Step};

// ---- what the words after a line's name ask for, by what they say

/// Returns the single actor or node.
fn place_of(said: &[ParsedWord<'_>]) -> Option<usize>
    ensures { result ≡ place_said said.now }
{
    match said {
        [place] => match place {
            ParsedWord::Number(place) => Some(*place as usize),
            _ => None,
        },
        _ => None,
    }
}

/// Returns the task of a line of this name with one actor or node.
fn task_at(name: LineName, place: usize) -> Option<Task>
    ensures { result ≡ task_at name place }
{
    match name {
        LineName::Rw => Some(Task::One(Step::Actor(place, ActorStep::BeginRw))),
        LineName::Step => Some(Task::One(Step::Actor(place, ActorStep::Request))),
        LineName::Finish => Some(Task::Finish(place)),
        LineName::Pins => Some(Task::Pins(place)),
        LineName::Commit => Some(Task::Commit(place)),
        LineName::Abort => Some(Task::Abort(place)),
        LineName::Advance => Some(Task::One(Step::Keeper(KeeperStep::Advance(place)))),
        _ => None,
    }
}

/// Returns the task of a line of this name, which needs one actor or node.
fn placed(name: LineName, said: &[ParsedWord<'_>]) -> Option<Task>
    ensures { result ≡ option_and_then (task_at name) (place_said said.now) }
{
    match place_of(said) {
        Some(place) => task_at(name, place),
        None => None,
    }
}

/// Returns the task of `pin`.
fn pin_of(said: &[ParsedWord<'_>]) -> Option<Task>
    ensures { result ≡ task_said LineName.Pin said.now }
{
    match said {
        [now] => match now {
            ParsedWord::Number(now) => Some(Task::Pin(*now)),
            _ => None,
        },
        _ => None,
    }
}

/// Returns the task of `ro`.
fn ro_of(said: &[ParsedWord<'_>]) -> Option<Task>
    ensures { result ≡ task_said LineName.Ro said.now }
{
    match said {
        [actor, now, staleness, at_least] => match (actor, now, staleness, at_least) {
            (
                ParsedWord::Number(actor),
                ParsedWord::Number(now),
                ParsedWord::Number(staleness),
                ParsedWord::Stamp(at_least),
            ) => {
                let bounds = Bounds {
                    now: *now,
                    staleness: *staleness,
                    at_least: *at_least,
                };
                Some(Task::One(Step::Actor(*actor as usize, ActorStep::BeginRo(bounds))))
            }
            _ => None,
        },
        _ => None,
    }
}

/// Returns the task of `session`.
fn session_of(said: &[ParsedWord<'_>]) -> Option<Task>
    ensures { result ≡ task_said LineName.Session said.now }
{
    match said {
        [actor, now, staleness] => match (actor, now, staleness) {
            (ParsedWord::Number(actor), ParsedWord::Number(now), ParsedWord::Number(staleness)) => {
                Some(Task::One(Step::BeginIn {
                    actor: *actor as usize,
                    now: *now,
                    staleness: *staleness,
                }))
            }
            _ => None,
        },
        _ => None,
    }
}

/// Returns the task of `call`.
fn call_of(said: &[ParsedWord<'_>]) -> Option<Task>
    ensures { result ≡ task_said LineName.Call said.now }
{
    match said {
        [actor, key] => match (actor, key) {
            (ParsedWord::Number(actor), ParsedWord::Key(key)) => {
                Some(Task::One(Step::Actor(*actor as usize, ActorStep::Start(key.copy()))))
            }
            _ => None,
        },
        _ => None,
    }
}

/// Returns the task of `sweep`.
fn sweep_of(said: &[ParsedWord<'_>]) -> Option<Task>
    ensures { result ≡ task_said LineName.Sweep said.now }
{
    match said {
        [node, horizon] => match (node, horizon) {
            (ParsedWord::Number(node), ParsedWord::Stamp(horizon)) => {
                Some(Task::One(Step::Keeper(KeeperStep::Sweep(*node as usize, *horizon))))
            }
            _ => None,
        },
        _ => None,
    }
}

/// Returns the task of `tidy`.
fn tidy_of(said: &[ParsedWord<'_>]) -> Option<Task>
    ensures { result ≡ task_said LineName.Tidy said.now }
{
    match said {
        [now, age] => match (now, age) {
            (ParsedWord::Number(now), ParsedWord::Number(age)) => Some(Task::Tidy {
                now: *now,
                age: *age,
            }),
            _ => None,
        },
        _ => None,
    }
}

/// Returns the task of `counts`.
fn counts_of(said: &[ParsedWord<'_>]) -> Option<Task>
    ensures { result ≡ task_said LineName.Counts said.now }
{
    match said {
        [node, function] => match (node, function) {
            (ParsedWord::Number(node), ParsedWord::Function(function)) => Some(Task::Counts {
                node: *node as usize,
                function: *function,
            }),
            _ => None,
        },
        _ => None,
    }
}

/// Returns the task of `query`.
fn keeper_query(said: &[ParsedWord<'_>]) -> Option<Task>
    ensures { result ≡ task_said LineName.Query said.now }
{
    match said {
        [stamp, rest @ ..] => match (stamp, query_of(rest)) {
            (ParsedWord::Stamp(stamp), Some(query)) => {
                Some(Task::One(Step::Keeper(KeeperStep::Query(*stamp, query))))
            }
            _ => None,
        },
        _ => None,
    }
}

/// Returns the task of `ask`.
fn actor_query(said: &[ParsedWord<'_>]) -> Option<Task>
    ensures { result ≡ task_said LineName.Ask said.now }
{
    match said {
        [actor, rest @ ..] => match (actor, query_of(rest)) {
            (ParsedWord::Number(actor), Some(query)) => {
                Some(Task::One(Step::Actor(*actor as usize, ActorStep::Ask(query))))
            }
            _ => None,
        },
        _ => None,
    }
}

/// Returns the task of `put` or `remove`.
fn keeper_change(
    alloc: Global,
    name: ChangeName,
    said: &[ParsedWord<'_>],
) -> Result<Option<Task>, AllocError>
    requires { AreBodies said.now }
    ensures { IfOk result (λ task. task ≡ keeper_change name said.now) }
{
    match change_of(alloc, name, said)? {
        Some(change) => Ok(Some(Task::One(Step::Keeper(KeeperStep::Write(change))))),
        None => Ok(None),
    }
}

/// Returns the task of `write`.
fn actor_change(alloc: Global, said: &[ParsedWord<'_>]) -> Result<Option<Task>, AllocError>
    requires { AreBodies said.now }
    ensures { IfOk result (λ task. task ≡ task_said LineName.Write said.now) }
{
    match said {
        [actor, name, rest @ ..] => match (actor, name) {
            (ParsedWord::Number(actor), ParsedWord::Change(name)) => match change_of(
                alloc, *name, rest,
            )? {
                Some(change) => Ok(Some(Task::One(Step::Actor(
                    *actor as usize,
                    ActorStep::Write(change),
                )))),
                None => Ok(None),
            },
            _ => Ok(None),
        },
        _ => Ok(None),
    }
}

/// Returns the task of a line of this name.
fn task_of(
    alloc: Global,
    name: LineName,
    said: &[ParsedWord<'_>],
) -> Result<Option<Task>, AllocError>
    requires { AreBodies said.now }
    ensures { IfOk result (λ task. task ≡ task_said name said.now) }
{
    match name {
        LineName::Put => keeper_change(alloc, ChangeName::Put, said),
        LineName::Remove => keeper_change(alloc, ChangeName::Remove, said),
        LineName::Write => actor_change(alloc, said),
        LineName::Pin => Ok(pin_of(said)),
        LineName::Query => Ok(keeper_query(said)),
        LineName::Ask => Ok(actor_query(said)),
        LineName::Ro => Ok(ro_of(said)),
        LineName::Session => Ok(session_of(said)),
        LineName::Call => Ok(call_of(said)),
        LineName::Sweep => Ok(sweep_of(said)),
        LineName::Tidy => Ok(tidy_of(said)),
        LineName::Counts => Ok(counts_of(said)),
        LineName::Rw => Ok(placed(LineName::Rw, said)),
        LineName::Step => Ok(placed(LineName::Step, said)),
        LineName::Finish => Ok(placed(LineName::Finish, said)),
        LineName::Pins => Ok(placed(LineName::Pins, said)),
        LineName::Commit => Ok(placed(LineName::Commit, said)),
        LineName::Abort => Ok(placed(LineName::Abort, said)),
        LineName::Advance => Ok(placed(LineName::Advance, said)),
    }
}

// ---- lines

/// Reads the task of the line, or returns the fault of its words.
pub fn read_task(alloc: Global, line: &[u8]) -> Result<Task, LineError<OwnFault>>
    ensures answer { IfOk result (SpellsTask line.now) }
    ensures refused { IfErr result (IsWrong (IsWorldFault (words_of line.now))) }
{
    let count = count_words(line) - 1;
    let mut words = all_words(line);
    let word = words.next();
    let Some(name) = name_of(word) else {
        return Err(LineError::Wrong(CommandFault::Unknown(Excerpt::new(word))));
    };
    let said = read_after_name(alloc, name, words, count)?;
    match task_of(alloc, name, said.as_slice())? {
        Some(task) => Ok(task),
        None => unreachable!(),
    }
}
