ghost use Rattle.std.specs.Prelude.{◌≡◌, ◌≢◌, ◌+◌, ◌<◌, ◌≤◌, List, [], ◌∷◌};
ghost use Rattle.std.specs.Prelude.{IfErr, IfOk, IsSome, MatchOption, OnErr, OnOk, Some};
ghost use Rattle.std.specs.Result.{result_err};
ghost use Rattle.txc_app.specs.declared.ask.Ask.{Ask};
ghost use Rattle.txc_call_registry.specs.Activity.{idle, WantsAnswer};
ghost use Rattle.txc_call_registry.specs.Objects.{activity_of, numbers_of, with_activity, AllIdle};
ghost use Rattle.txc_call.specs.declared.frame.Frame.{Frame};
ghost use Rattle.txc_call.specs.declared.frames.TheConstants.{MAX_CALL_ASKS};
ghost use Rattle.txc_call.specs.Reaches.{ReachesMeet};
ghost use Rattle.txc_call.specs.Frames.{begun_frame, given, released, IsOpen, FramesAscendFrom};
ghost use Rattle.txc_call.specs.MachineTurn.{count_refusal, error_of, next_ask, with_answer, with_begun};
ghost use Rattle.txc_call.specs.MachineTurn.{IsBeginRefusal, IsOutOfMemory};

use crate::error::CallError;
use crate::frame::Frame;
use crate::stack::Stack;
use std::alloc::Global;
use txc_app::{Answer, App, Ask};
use txc_call_registry::{Cacheable, CallFault, Registry};
use txc_stamp::Reach;
use txc_tags::{Key, TagSet};

/// The most steps of all activations of a call together. Steps that a hit saves are not counted.
pub const MAX_CALL_ASKS: usize = 4096;

/// The open frames of the call `top`, and the number of steps of all its activations.
#[derive(Drop)]
pub(crate) struct Frames {
    pub(crate) top: Key,
    pub(crate) stack: Stack,
    pub(crate) asked: usize,
    ghost limit: { asked ≤ MAX_CALL_ASKS },
}

fn error_of(function: u8, fault: CallFault) -> CallError
    ensures { result ≡ error_of function fault }
{
    match fault {
        CallFault::Memory => CallError::ObjectMemory,
        CallFault::Busy => CallError::Busy,
        CallFault::Args => CallError::BadArguments(function),
    }
}

impl Frames {
    /// Counts a step of the innermost frame, which may make `most`.
    pub(crate) fn count(&mut self, most: usize) -> Result<(), CallError>
        requires { self.old.stack ≢ [] }
        ensures after { OnOk result (self.new.asked ≡ self.old.asked + 1) }
        ensures refused { (frame : Frame) (rest : List Frame) → self.old.stack ≡ frame ∷ rest
            → result_err result ≡ count_refusal most frame.answers self.old.asked }
        ensures same_top { self.new.top ≡ self.old.top }
        ensures same_stack { self.new.stack ≡ self.old.stack }
    {
        let Some(frame) = self.stack.top() else {
            unreachable!()
        };
        if frame.answers >= most {
            return Err(CallError::AskLimit);
        }
        if self.asked >= MAX_CALL_ASKS {
            return Err(CallError::Budget);
        }
        self.asked += 1;
        Ok(())
    }

    /// Returns the call of the innermost frame.
    pub(crate) fn computing(&self) -> Option<&Key>
        ensures { MatchOption result (self.now.stack ≡ [])
            (λ key. (frame : Frame) × (outer : List Frame) × (self.now.stack ≡ frame ∷ outer) × (key.now ≡ frame.key)) }
    {
        let frame = self.stack.top()?;
        Some(&frame.key)
    }

    /// Opens a frame for the function of a call, without answers. Fails, and changes nothing, only if memory
    /// cannot be allocated.
    pub(crate) fn enter(&mut self, alloc: Global, key: Key) -> Result<(), CallError>
        ensures after { OnOk result (self.new.stack ≡ begun_frame key ∷ self.old.stack) }
        ensures refused { IfErr result (λ error. error ≡ CallError.Memory) }
        ensures same_stack { OnErr result (self.new.stack ≡ self.old.stack) }
        ensures same_top { self.new.top ≡ self.old.top }
        ensures same_count { self.new.asked ≡ self.old.asked }
    {
        let frame = Frame {
            key,
            answers: 0,
            reach: None,
            tags: TagSet::new(alloc),
        };
        let Ok(()) = self.stack.push(frame) else {
            return Err(CallError::Memory);
        };
        Ok(())
    }

    /// Begins the function of a call that no node has, and opens a frame for it.
    #[tactic(auto, using(txc_call_registry::proofs::Offered::numbers_stay))]
    pub(crate) fn begin<A: App, C: Cacheable>(
        &mut self,
        registry: &mut Registry<A, C>,
        alloc: Global,
        key: Key,
    ) -> Result<Ask, CallError>
        requires open { IsOpen A.next registry.old self.old.top (Ask.Call key) self.old.stack }
        requires rising { FramesAscendFrom key.function self.old.stack }
        requires there { IsSome (activity_of registry.old key.function) }
        ensures frame { OnOk result (self.new.stack ≡ begun_frame key ∷ self.old.stack) }
        ensures objects { OnOk result (registry.new ≡ with_begun registry.old key) }
        ensures answer { IfOk result (λ ask. A.next.says key.function key.args [] ≡ Some ask) }
        ensures open { IfOk result (λ ask. IsOpen A.next registry.new self.new.top ask self.new.stack) }
        ensures refused { IfErr result (IsBeginRefusal key.function (A.next.says key.function key.args [])) }
        ensures unchanged { OnErr result (registry.new ≡ registry.old) }
        ensures same_stack { OnErr result (self.new.stack ≡ self.old.stack) }
        ensures same_top { self.new.top ≡ self.old.top }
        ensures same_count { self.new.asked ≡ self.old.asked }
        ensures functions { numbers_of registry.new ≡ numbers_of registry.old }
    {
        let function = key.function();
        let ask = match registry.begin(function, key.args()) {
            Ok(ask) => ask,
            Err(fault) => return Err(error_of(function, fault)),
        };
        let Ok(()) = self.enter(alloc, key) else {
            registry.release(function);
            return Err(CallError::Memory);
        };
        Ok(ask)
    }

    /// Gives the innermost frame an answer, and continues its object.
    #[tactic(auto, using(txc_call_registry::proofs::Offered::numbers_stay))]
    pub(crate) fn resume<A: App, C: Cacheable>(
        &mut self,
        registry: &mut Registry<A, C>,
        answer: Answer,
        reach: Option<Reach>,
        tags: &TagSet,
    ) -> Result<Ask, CallError>
        requires open { (ask : Ask)
            × IsOpen A.next registry.old self.old.top ask self.old.stack × WantsAnswer (Some ask) }
        requires some { (frame : Frame) × (rest : List Frame)
            × (self.old.stack ≡ frame ∷ rest) × (frame.answers < A.next.limits.asks) × ReachesMeet frame.reach reach }
        ensures frame { OnOk result ((frame : Frame) (rest : List Frame) → self.old.stack ≡ frame ∷ rest
            → self.new.stack ≡ given frame reach tags.now ∷ rest) }
        ensures objects { OnOk result ((frame : Frame) (rest : List Frame) → self.old.stack ≡ frame ∷ rest
            → registry.new ≡ with_answer registry.old frame.key.function answer) }
        ensures answer { IfOk result (λ ask. (frame : Frame) (rest : List Frame)
            → self.old.stack ≡ frame ∷ rest
            → next_ask A.next registry.old frame answer ≡ Some ask) }
        ensures open { IfOk result (λ ask. IsOpen A.next registry.new self.new.top ask self.new.stack) }
        ensures refused { IfErr result IsOutOfMemory }
        ensures released { OnErr result (AllIdle (released self.new.stack registry.new)) }
        ensures same_top { self.new.top ≡ self.old.top }
        ensures same_count { self.new.asked ≡ self.old.asked }
        ensures functions { numbers_of registry.new ≡ numbers_of registry.old }
    {
        let Some(frame) = self.stack.top() else {
            unreachable!()
        };
        let function = frame.key.function();
        // The clauses of the limits bound the number of a frame's answers.
        let _limits = A::limits();
        let Ok(()) = self.stack.give(reach, tags) else {
            return Err(CallError::Memory);
        };
        match registry.resume(function, answer) {
            Ok(ask) => Ok(ask),
            Err(fault) => Err(error_of(function, fault)),
        }
    }

    /// Closes every frame. For a call whose functions no registry runs.
    pub(crate) fn clear(&mut self)
        ensures after { self.new.stack ≡ [] }
        ensures same_top { self.new.top ≡ self.old.top }
        ensures same_count { self.new.asked ≡ self.old.asked }
    {
        self.stack.clear();
    }

    /// Releases the object of every open frame, the innermost first.
    #[tactic(auto, using(txc_call_registry::proofs::Offered::numbers_stay))]
    pub(crate) fn cancel<A: App, C: Cacheable>(&mut self, registry: &mut Registry<A, C>)
        requires { AllIdle (released self.old.stack registry.old) }
        ensures idle { AllIdle registry.new }
        ensures after { self.new.stack ≡ [] }
        ensures same_top { self.new.top ≡ self.old.top }
        ensures functions { numbers_of registry.new ≡ numbers_of registry.old }
    {
        while let Some(frame) = self.stack.pop() {
            registry.release(frame.key.function());
        }
    }
}
