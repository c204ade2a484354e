//! Runs the functions of a call by the objects of a registry, until the call needs something else.
ghost use Rattle.std.specs.Prelude.{◌≡◌, ◌≢◌, ℕ, List, [], ◌∷◌, drop, if◌then◌else◌, IfOk, OnErr, Some};
ghost use Rattle.txc_call_registry.specs.Activity.{idle};
ghost use Rattle.txc_call_registry.specs.Objects.{numbers_of, with_activity, AllIdle};
ghost use Rattle.txc_call.specs.declared.frame.Frame.{Frame};
ghost use Rattle.txc_call.specs.Frames.{released, AreFew, IsOpen};
ghost use Rattle.txc_call.specs.Needs.{InNeed, NeedFits};
ghost use Rattle.txc_call.specs.CallSteps.{AfterNeed, NeedsFunction};
ghost use Rattle.txc_call.specs.MachineTurn.{turn_of, AfterAsk};

use crate::error::CallError;
use crate::frames::Frames;
use crate::need::{HeldAnswer, Need};
use crate::settling::{is_done, settle};
use std::alloc::Global;
use txc_app::{App, Ask};
use txc_call_registry::{Cacheable, Registry};

// Releases the function's object if it is done.
#[tactic(auto, using(txc_call_registry::proofs::Offered::numbers_stay))]
fn release_done<A: App, C: Cacheable>(registry: &mut Registry<A, C>, function: u8, is_done: bool)
    ensures after { registry.new ≡ (if is_done then with_activity registry.old function idle else registry.old) }
    ensures functions { numbers_of registry.new ≡ numbers_of registry.old }
{
    if is_done {
        registry.release(function);
    }
}

// Takes the step of the innermost frame's object, and runs the objects until the call needs something else.
#[tactic(auto, using(txc_call_registry::proofs::Offered::numbers_stay))]
fn go_on<A: App, C: Cacheable>(
    frames: &mut Frames,
    registry: &mut Registry<A, C>,
    ask: Ask,
) -> Result<Need, CallError>
    requires open { IsOpen A.next registry.old frames.old.top ask frames.old.stack }
    requires some { frames.old.stack ≢ [] }
    requires few { AreFew A.next.limits.asks (drop 1 frames.old.stack) }
    ensures answer { (frame : Frame) (rest : List Frame) → frames.old.stack ≡ frame ∷ rest
        → AfterAsk A.next rest frames.old.asked frame ask registry.old
        (turn_of result frames.new.stack frames.new.asked registry.new) }
    ensures settled { IfOk result (λ need. ¬ (NeedsFunction (Some need))) }
    ensures released { OnErr result (AllIdle (released frames.new.stack registry.new)) }
    ensures same_top { frames.new.top ≡ frames.old.top }
    ensures functions { numbers_of registry.new ≡ numbers_of registry.old }
{
    let Some(frame) = frames.stack.top() else {
        unreachable!()
    };
    let function = frame.key.function();
    let done = is_done(&ask);
    let limits = A::limits();
    let need = settle(frames, limits, ask)?;
    release_done(registry, function, done);
    match need {
        Need::Lookup(key) => {
            let called = key.function();
            if !registry.has(called) {
                return Err(CallError::NoFunction(called));
            }
            Ok(Need::Lookup(key))
        }
        Need::Resume(held) => {
            let HeldAnswer {
                answer,
                reach,
                tags,
            } = held;
            let next = frames.resume(registry, answer, reach, &tags)?;
            go_on(frames, registry, next)
        }
        need => Ok(need),
    }
}

/// Runs every function that is needed, until the call needs something else.
pub(crate) fn run<A: App, C: Cacheable>(
    frames: &mut Frames,
    registry: &mut Registry<A, C>,
    alloc: Global,
    need: Need,
) -> Result<Need, CallError>
    requires fits { NeedFits A.next registry.old frames.old.top (Some need) frames.old.stack }
    requires common { (t : ℕ) × InNeed t (Some need) frames.old.stack }
    ensures answer { AfterNeed A.next frames.old.stack frames.old.asked registry.old need
        (turn_of result frames.new.stack frames.new.asked registry.new) }
    ensures settled { IfOk result (λ need. ¬ (NeedsFunction (Some need))) }
    ensures released { OnErr result (AllIdle (released frames.new.stack registry.new)) }
    ensures same_top { frames.new.top ≡ frames.old.top }
    ensures functions { numbers_of registry.new ≡ numbers_of registry.old }
{
    match need {
        Need::Begin(key) => {
            let ask = frames.begin(registry, alloc, key)?;
            go_on(frames, registry, ask)
        }
        Need::Resume(held) => {
            let HeldAnswer {
                answer,
                reach,
                tags,
            } = held;
            let ask = frames.resume(registry, answer, reach, &tags)?;
            go_on(frames, registry, ask)
        }
        need => Ok(need),
    }
}
