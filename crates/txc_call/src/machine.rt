ghost use Rattle.std.specs.Prelude.{◌≡◌, ◌≢◌, ◌≤◌, ℕ, [], MatchOption, IfErr, IfOk, OnErr, OnOk};
ghost use Rattle.std.specs.Prelude.{IsNone, IsSome, None, Some};
ghost use Rattle.txc_call.specs.declared.need.Need.{Need};
ghost use Rattle.txc_db.specs.History.{History};
ghost use Rattle.txc_node.specs.declared.value.TheConstants.{MOST_VALUE_LEN};
ghost use Rattle.txc_app.specs.declared.app.TheConstants.{MOST_ASKS};
ghost use Rattle.txc_app.specs.Eval.{Next};
ghost use Rattle.txc_call_registry.specs.Objects.{activity_of, numbers_of, AllIdle, Objects};
ghost use Rattle.txc_call.specs.declared.frames.TheConstants.{MAX_CALL_ASKS};
ghost use Rattle.txc_call.specs.Reaches.{InReach};
ghost use Rattle.txc_call.specs.Frames.{released};
ghost use Rattle.txc_call.specs.Needs.{reply_reach, InNeed, NeedFits, ReplyFits, ReplyHolds};
ghost use Rattle.txc_call.specs.CallMachine.{started, turn_after, CallHolds, CallIsUnreached};
ghost use Rattle.txc_call.specs.CallMachine.{GoesOn, InCall, IsAtRest, IsCalling};
ghost use Rattle.txc_call.specs.declared.need.Outcome.{Outcome};
ghost use Rattle.txc_app.specs.declared.ask.Ask.{Ask};
ghost use Rattle.txc_call.specs.CallSteps.{computing, need_after, due_ask, objects_after, with_resumed, AfterRan, NeedsFunction, FunctionExists, StepKeeps};
ghost use Rattle.txc_call.specs.MachineTurn.{turn_of, AfterReply};

use crate::error::CallError;
use crate::frames::Frames;
use crate::need::{HeldAnswer, Need, Outcome};
use crate::pump::run;
use crate::reply::Reply;
use crate::settling::{need_after, settle};
use crate::stack::Stack;
use std::alloc::Global;
use std::marker::Model;
use std::mem;
use txc_app::laws::right_answers_give_the_value;
use txc_app::{App, Ask, Limits};
use txc_call_registry::{Cacheable, Registry};
use txc_tags::Key;

/// Runs calls, one after another. Its caller replies to each need of the call, until the call has its value.
///
/// A need can be a function that must begin, or continue after an answer. If each step is lent a registry
/// ([`CallMachine::start`], [`CallMachine::reply`], [`CallMachine::cancel`]), that runs the functions at once.
/// A caller that runs functions itself takes each reply by [`CallMachine::take`], and passes the function's
/// next ask to [`CallMachine::ran`].
#[derive(Drop)]
pub struct CallMachine {
    frames: Frames,
    need: Option<Need>,
}

impl Model for CallMachine {
    ghost use Rattle.txc_call.specs.CallMachine.{Calling};

    ghost Value = { Calling };

    ghost view = { λ m. record {
      top = m.frames.top;
      asked = m.frames.asked;
      frames = m.frames.stack;
      need = m.need;
    } };
}

// Returns the next need after a reply to this one. The registry runs every function that is needed on the way.
fn advance<A: App, C: Cacheable>(
    frames: &mut Frames,
    registry: &mut Registry<A, C>,
    alloc: Global,
    need: Need,
    reply: Reply,
) -> Result<Need, CallError>
    requires fits { NeedFits A.next registry.old frames.old.top (Some need) frames.old.stack }
    requires reply { ReplyFits need reply }
    requires common { (t : ℕ) × InReach t (reply_reach reply) × InNeed t (Some need) frames.old.stack }
    ensures answer { AfterReply A.next frames.old.stack frames.old.asked registry.old need reply
        (turn_of result frames.new.stack frames.new.asked registry.new) }
    ensures settled { IfOk result (λ next. ¬ (NeedsFunction (Some next))) }
    ensures released { OnErr result (AllIdle (released frames.new.stack registry.new)) }
    ensures same_top { frames.new.top ≡ frames.old.top }
    ensures functions { numbers_of registry.new ≡ numbers_of registry.old }
{
    right_answers_give_the_value();
    let next = need_after(frames, need, reply);
    run(frames, registry, alloc, next)
}

// Returns the next need after the needed function asked this.
fn after_ask(
    frames: &mut Frames,
    limits: Limits,
    alloc: Global,
    need: Need,
    ask: Ask,
) -> Result<Need, CallError>
    requires value { limits.value ≤ MOST_VALUE_LEN }
    requires asks { limits.asks ≤ MOST_ASKS }
    requires runs { NeedsFunction (Some need) }
    requires fits { (next : Next) × (objects : Objects) × (next.limits ≡ limits)
        × NeedFits next objects frames.old.top (Some need) frames.old.stack }
    requires common { (t : ℕ) × InNeed t (Some need) frames.old.stack }
    ensures answer { (objects : Objects) → AfterRan limits frames.old.stack frames.old.asked objects need ask
        (turn_of result frames.new.stack frames.new.asked (objects_after objects frames.old.stack need ask)) }
    ensures same_top { frames.new.top ≡ frames.old.top }
{
    match need {
        Need::Begin(key) => {
            frames.enter(alloc, key)?;
            settle(frames, limits, ask)
        }
        Need::Resume(held) => {
            let HeldAnswer {
                answer: _,
                reach,
                tags,
            } = held;
            let Ok(()) = frames.stack.give(reach, &tags) else {
                return Err(CallError::Memory);
            };
            settle(frames, limits, ask)
        }
        _ => unreachable!(),
    }
}

impl CallMachine {
    /// Makes a machine without a call.
    pub fn new(alloc: Global) -> CallMachine
        ensures frames { result.frames ≡ [] }
        ensures need { result.need ≡ None }
        ensures asked { result.asked ≡ 0 }
    {
        let Ok(top) = Key::new(0, &[]) else {
            unreachable!()
        };
        CallMachine {
            frames: Frames {
                top,
                stack: Stack::new(alloc),
                asked: 0,
            },
            need: None,
        }
    }

    /// In every machine the call has made no more steps than it may. This is a lemma: it does nothing when it
    /// runs.
    pub fn is_within_budget(&self)
        ensures { self.now.asked ≤ MAX_CALL_ASKS }
    {
        let _frames = &self.frames;
    }

    /// Starts a call, which needs a lookup first. Fails if there is no such function. If the value of the last
    /// call was not taken, it is dropped.
    pub fn start<A: App, C: Cacheable>(
        &mut self,
        registry: &Registry<A, C>,
        key: Key,
    ) -> Result<(), CallError>
        requires { IsAtRest registry.now self.old }
        ensures after { OnOk result (self.new ≡ started key) }
        ensures fits { OnOk result (IsCalling A.next registry.now self.new) }
        ensures only_if { OnOk result (IsSome (activity_of registry.now key.function)) }
        ensures refused { IfErr result (λ error.
            (error ≡ CallError.NoFunction key.function) × IsNone (activity_of registry.now key.function)) }
        ensures unchanged { OnErr result (self.new ≡ self.old) }
    {
        let function = key.function();
        if !registry.has(function) {
            return Err(CallError::NoFunction(function));
        }
        self.start_by_hand(key);
        Ok(())
    }

    /// Starts a call as [`CallMachine::start`] does, for a caller that runs all functions itself.
    pub fn start_by_hand(&mut self, key: Key)
        requires { self.old.frames ≡ [] }
        ensures after { self.new ≡ started key }
        ensures fits { (next : Next) (objects : Objects) → IsAtRest objects self.old
            → FunctionExists objects (Ask.Call key) → IsCalling next objects self.new }
    {
        self.frames.asked = 0;
        self.frames.top = key.copy();
        self.need = Some(Need::Lookup(key));
    }

    /// Returns what the call needs, or `None` if no call is open.
    pub fn need(&self) -> Option<&Need>
        ensures { MatchOption result (self.now.need ≡ None) (λ need. self.now.need ≡ Some need.now) }
    {
        self.need.as_ref()
    }

    /// Returns the call whose function must begin or continue, or `None` if the call needs no function.
    pub fn computing(&self) -> Option<&Key>
        ensures { MatchOption result (computing self.now.frames self.now.need ≡ None)
            (λ key. computing self.now.frames self.now.need ≡ Some key.now) }
    {
        match &self.need {
            Some(Need::Begin(key)) => Some(key),
            Some(Need::Resume(_)) => self.frames.computing(),
            _ => None,
        }
    }

    /// Continues with the reply to the call's need. The reply must hold together with the answers of the open
    /// frames at one stamp at least. If the call fails, every frame is closed and its object released, the
    /// innermost first.
    pub fn reply<A: App, C: Cacheable>(
        &mut self,
        registry: &mut Registry<A, C>,
        alloc: Global,
        reply: Reply,
    ) -> Result<(), CallError>
        requires fits { IsCalling A.next registry.old self.old }
        requires reply { (need : Need) × (self.old.need ≡ Some need) × ReplyFits need reply }
        requires common { (t : ℕ) × InReach t (reply_reach reply) × InCall t self.old }
        ensures answer { (need : Need) → self.old.need ≡ Some need
            → AfterReply A.next self.old.frames self.old.asked registry.old need reply
            (turn_after result self.new registry.new) }
        ensures fits { IsCalling A.next registry.new self.new }
        ensures open { OnOk result (IsSome self.new.need) }
        ensures rest { OnErr result ((self.new.need ≡ None) × IsAtRest registry.new self.new) }
        ensures holds { OnOk result ((L : History) (need : Need) → self.old.need ≡ Some need
            → ReplyHolds A.next L need reply → CallHolds A.next L registry.old self.old
            → CallHolds A.next L registry.new self.new) }
        ensures within { OnOk result ((t : ℕ) → InReach t (reply_reach reply) → InCall t self.old
            → InCall t self.new) }
        ensures unreached { OnOk result (reply_reach reply ≡ None → CallIsUnreached self.old
            → CallIsUnreached self.new) }
        ensures settled { OnOk result (¬ (NeedsFunction self.new.need)) }
        ensures counted { OnOk result (GoesOn self.old.asked self.new) }
        ensures same_top { self.new.top ≡ self.old.top }
        ensures functions { numbers_of registry.new ≡ numbers_of registry.old }
    {
        right_answers_give_the_value();
        let Some(need) = mem::replace(&mut self.need, None) else {
            unreachable!()
        };
        match advance(&mut self.frames, registry, alloc, need, reply) {
            Ok(next) => {
                self.need = Some(next);
                Ok(())
            }
            Err(error) => {
                self.frames.cancel(registry);
                Err(error)
            }
        }
    }

    /// Takes the reply to the call's need, and runs no function. If a function must begin or continue, that is
    /// the call's next need, and [`CallMachine::ran`] takes its ask.
    pub fn take(&mut self, reply: Reply)
        requires reply { (need : Need) × (self.old.need ≡ Some need) × ReplyFits need reply }
        ensures after { (need : Need) → self.old.need ≡ Some need
            → self.new ≡ record self.old { need = Some (need_after self.old.frames need reply) } }
        ensures fits { (next : Next) (objects : Objects) → IsCalling next objects self.old
            → IsCalling next objects self.new }
        ensures holds { (next : Next) (objects : Objects) (L : History) (need : Need) → self.old.need ≡ Some need
            → IsCalling next objects self.old → ReplyHolds next L need reply → CallHolds next L objects self.old
            → CallHolds next L objects self.new }
        ensures within { (t : ℕ) → InReach t (reply_reach reply) → InCall t self.old → InCall t self.new }
        ensures unreached { reply_reach reply ≡ None → CallIsUnreached self.old → CallIsUnreached self.new }
    {
        right_answers_give_the_value();
        let Some(need) = mem::replace(&mut self.need, None) else {
            unreachable!()
        };
        self.need = Some(need_after(&self.frames, need, reply));
    }

    /// Takes the step of the function that the call needs, before any other function continues. The call must
    /// need one. If the limits of the application do not allow the step, or an allocation fails, every frame is
    /// closed.
    pub fn ran(&mut self, limits: Limits, alloc: Global, ask: Ask) -> Result<(), CallError>
        requires value { limits.value ≤ MOST_VALUE_LEN }
        requires asks { limits.asks ≤ MOST_ASKS }
        requires runs { NeedsFunction self.old.need }
        requires fits { (next : Next) × (objects : Objects) × (next.limits ≡ limits)
            × IsCalling next objects self.old }
        requires common { (t : ℕ) × InCall t self.old }
        ensures answer { (objects : Objects) (need : Need) → self.old.need ≡ Some need
            → AfterRan limits self.old.frames self.old.asked objects need ask
            (turn_after result self.new (objects_after objects self.old.frames need ask)) }
        ensures keeps { OnOk result ((next : Next) (objects : Objects) (need : Need) → self.old.need ≡ Some need
            → next.limits ≡ limits → IsCalling next objects self.old
            → due_ask next objects self.old.frames need ≡ Some ask
            → FunctionExists (with_resumed objects self.old.frames need) ask
            → StepKeeps next objects self.old (objects_after objects self.old.frames need ask) self.new) }
        ensures open { OnOk result (IsSome self.new.need) }
        ensures rest { OnErr result ((self.new.need ≡ None) × (self.new.frames ≡ [])) }
        ensures same_top { self.new.top ≡ self.old.top }
    {
        right_answers_give_the_value();
        let Some(need) = mem::replace(&mut self.need, None) else {
            unreachable!()
        };
        match after_ask(&mut self.frames, limits, alloc, need, ask) {
            Ok(next) => {
                self.need = Some(next);
                Ok(())
            }
            Err(error) => {
                self.frames.clear();
                Err(error)
            }
        }
    }

    /// Cancels the call: every frame is closed. For a call whose functions no registry runs.
    pub fn give_up(&mut self)
        ensures after { self.new ≡ record self.old { frames = []; need = None } }
    {
        self.need = None;
        self.frames.clear();
    }

    /// Takes the result of a call that is done. The machine is then without a call. Returns `None`, and changes
    /// nothing, if the call is not done.
    pub fn finish(&mut self) -> Option<Outcome>
        ensures { MatchOption result
            (((outcome : Outcome) → self.old.need ≢ Some (Need.Value outcome)) × (self.new ≡ self.old))
            (λ outcome. (self.old.need ≡ Some (Need.Value outcome))
            × (self.new ≡ record self.old { need = None })) }
    {
        match mem::replace(&mut self.need, None) {
            Some(Need::Value(outcome)) => Some(outcome),
            other => {
                self.need = other;
                None
            }
        }
    }

    /// Cancels the call: every frame is closed and its object released, the innermost first.
    pub fn cancel<A: App, C: Cacheable>(&mut self, registry: &mut Registry<A, C>)
        requires { IsCalling A.next registry.old self.old }
        ensures rest { IsAtRest registry.new self.new }
        ensures need { self.new.need ≡ None }
        ensures functions { numbers_of registry.new ≡ numbers_of registry.old }
    {
        self.need = None;
        self.frames.cancel(registry);
    }
}
