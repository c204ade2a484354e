//! The next need after a reply or a step.
ghost use Rattle.std.specs.Prelude.{◌≡◌, ◌≢◌, ◌≤◌, List, [], ◌∷◌, OnErr};
ghost use Rattle.std.specs.Result.{result_err};
ghost use Rattle.txc_node.specs.declared.value.TheConstants.{MOST_VALUE_LEN};
ghost use Rattle.txc_call_registry.specs.Objects.{Objects};
ghost use Rattle.txc_call.specs.declared.frame.Frame.{Frame};
ghost use Rattle.txc_call.specs.Needs.{ReplyFits};
ghost use Rattle.txc_call.specs.CallSteps.{value_need, is_done, need_after, order_refusal, with_ask, AfterOneAsk};
ghost use Rattle.txc_call.specs.MachineTurn.{turn_of};

use crate::error::CallError;
use crate::frame::Frame;
use crate::frames::Frames;
use crate::need::{HeldAnswer, Need, Outcome};
use crate::reply::Reply;
use txc_app::{Answer, Ask, Limits, Rows};
use txc_node::{Entry, HitValue, Value};
use txc_tags::Key;
use txc_validity::Found;

// Fails if the innermost frame may not make the call, whether or not its function exists.
fn check_order(frames: &Frames, key: &Key) -> Result<(), CallError>
    requires { frames.now.stack ≢ [] }
    ensures { (frame : Frame) (rest : List Frame) → frames.now.stack ≡ frame ∷ rest
        → result_err result ≡ order_refusal frame.key.function key.now }
{
    let Some(frame) = frames.stack.top() else {
        unreachable!()
    };
    let caller = frame.key.function();
    let function = key.function();
    if function >= caller {
        return Err(CallError::CallOrder(caller, function));
    }
    Ok(())
}

/// Returns `true` if it is the function's last step.
pub(crate) fn is_done(ask: &Ask) -> bool
    ensures { result ≡ is_done ask.now }
{
    match ask {
        Ask::Query(_) => false,
        Ask::Call(_) => false,
        Ask::Done(_) => true,
    }
}

// Returns the need for which a value is kept: as the next answer of the innermost frame, or, without a frame,
// as the call's value.
fn value_need(frames: &Frames, outcome: Outcome) -> Need
    ensures { result ≡ value_need frames.now.stack outcome }
{
    match frames.stack.top() {
        None => Need::Value(outcome),
        Some(_) => {
            let Outcome {
                key: _,
                value,
                reach,
                tags,
            } = outcome;
            Need::Resume(HeldAnswer {
                answer: Answer::Value(value),
                reach,
                tags,
            })
        }
    }
}

/// Returns the need after a reply, before any function continues.
pub(crate) fn need_after(frames: &Frames, need: Need, reply: Reply) -> Need
    requires { ReplyFits need reply }
    ensures { result ≡ need_after frames.now.stack need reply }
{
    match (need, reply) {
        (Need::Lookup(key), Reply::Miss) => Need::Begin(key),
        (Need::Lookup(key), Reply::Hit(HitValue { reach, value, tags })) => {
            let outcome = Outcome {
                key,
                value,
                reach: Some(reach),
                tags,
            };
            value_need(frames, outcome)
        }
        (Need::Query(_), Reply::Found(Found { rows, reach, tags })) => Need::Resume(HeldAnswer {
            answer: Answer::Rows(Rows::new(rows)),
            reach: Some(reach),
            tags,
        }),
        (Need::Insert(entry), Reply::Inserted) => {
            let Entry {
                key,
                value,
                reach,
                tags,
            } = entry;
            let outcome = Outcome {
                key,
                value,
                reach: Some(reach),
                tags,
            };
            value_need(frames, outcome)
        }
        _ => unreachable!(),
    }
}

/// Returns the need after the innermost frame made this step, before any other function continues. A frame that
/// is done is closed; if it has a reach, its value is inserted first.
pub(crate) fn settle(frames: &mut Frames, limits: Limits, ask: Ask) -> Result<Need, CallError>
    requires value { limits.value ≤ MOST_VALUE_LEN }
    requires some { frames.old.stack ≢ [] }
    ensures answer { (frame : Frame) (rest : List Frame) (objects : Objects) → frames.old.stack ≡ frame ∷ rest
        → AfterOneAsk limits rest frames.old.asked frame ask objects
        (turn_of result frames.new.stack frames.new.asked (with_ask objects frame.key.function ask)) }
    ensures same_stack { OnErr result (frames.new.stack ≡ frames.old.stack) }
    ensures same_top { frames.new.top ≡ frames.old.top }
{
    frames.count(limits.asks)?;
    match ask {
        Ask::Query(query) => Ok(Need::Query(query)),
        Ask::Call(key) => {
            check_order(frames, &key)?;
            Ok(Need::Lookup(key))
        }
        Ask::Done(bytes) => {
            let Some(value) = Value::up_to(limits.value, bytes.into_vec()) else {
                return Err(CallError::ValueTooLong);
            };
            let Some(frame) = frames.stack.pop() else {
                unreachable!()
            };
            let Frame {
                key,
                answers: _,
                reach,
                tags,
            } = frame;
            match reach {
                Some(reach) => Ok(Need::Insert(Entry {
                    key,
                    value,
                    reach,
                    tags,
                })),
                None => Ok(value_need(
                    frames,
                    Outcome {
                        key,
                        value,
                        reach: None,
                        tags,
                    },
                )),
            }
        }
    }
}
