ghost use Rattle.std.specs.Prelude.{◌≡◌, ◌↔◌, ◌==◌, [], ◌∷◌, ◌++◌, eqb, map, All, IfErr, IfOk, IfSome, IsNone, IsSome, IsTrue, OnErr, OnOk, Some};
ghost use Rattle.std.specs.List.{IsDistinct, position};
ghost use Rattle.txc_call_registry.specs.Activity.{answered, begun, idle, next_of, running};
ghost use Rattle.txc_call_registry.specs.Objects.{activation_of, activity_of, numbers_of, with_activity, AllIdle, HasTwice, IsAskingAt};

use crate::cacheable::{Cacheable, CallFault};
use std::alloc::AllocError;
use std::marker::{Model, PhantomData};
use thiserror::Error;
use txc_app::{Answer, App, Ask};

/// Error: two objects have the function of this number.
#[derive(Clone, Copy, Debug, PartialEq, Eq, Error)]
#[error("two functions have the number {0}")]
pub struct Twice(pub u8);

/// The objects that a client runs, at most one for each function of the application `A`. A contract sees them
/// in order, each as its number and its state.
#[derive(Drop)]
pub struct Registry<A: App, C: Cacheable> {
    objects: Vec<C>,
    of: PhantomData<A>,
}

impl<A: App, C: Cacheable> Model for Registry<A, C> {
    ghost use Rattle.std.specs.Prelude.{◌≡◌, eqb, map, All};
    ghost use Rattle.std.specs.List.{IsDistinct};
    ghost use Rattle.txc_call_registry.specs.Objects.{Objects};

    ghost Value = { Objects };

    ghost view = { λ r. map (λ c. (C.number c, C.activity c)) r.objects.items };

    // Each object computes the application's function of its number, and no two have the same number.
    ghost invariant = { λ r.
        All (λ c. C.says c ≡ A.next.says (C.number c)) r.objects.items
        × IsDistinct eqb (map C.number r.objects.items) };
}

// Returns the place of the object of this number.
fn place<C: Cacheable>(objects: &Vec<C>, f: u8) -> Option<usize>
    ensures { result ≡ position (λ c. C.number c == f) objects.now.items }
{
    objects.iter().position(|c| c.number() == f)
}

// Returns a number that two objects have, if there is one.
fn repeated<C: Cacheable>(objects: &Vec<C>) -> Option<u8>
    ensures some { IfSome result (λ f. HasTwice f (map C.number objects.now.items)) }
    ensures none { IsNone result → IsDistinct eqb (map C.number objects.now.items) }
{
    for i in 0..objects.len() {
        let number = objects[i].number();
        if place(objects, number) != Some(i) {
            return Some(number);
        }
    }
    None
}

/// Appends an object to the list for a new registry. Fails, and changes nothing but dropping the object, if
/// memory cannot be allocated.
pub fn enlist<A: App, C: Cacheable>(objects: &mut Vec<C>, object: C) -> Result<(), AllocError>
    requires idle { C.activity object ≡ idle }
    requires means { C.says object ≡ A.next.says (C.number object) }
    requires all_idle { All (λ c. C.activity c ≡ idle) objects.old.items }
    requires all_mean { All (λ c. C.says c ≡ A.next.says (C.number c)) objects.old.items }
    ensures after { OnOk result (objects.new.items ≡ objects.old.items ++ object ∷ []) }
    ensures unchanged { OnErr result (objects.new.items ≡ objects.old.items) }
    ensures all_idle { All (λ c. C.activity c ≡ idle) objects.new.items }
    ensures all_mean { All (λ c. C.says c ≡ A.next.says (C.number c)) objects.new.items }
{
    objects.push(object)?;
    Ok(())
}

impl<A: App, C: Cacheable> Registry<A, C> {
    /// Makes the registry of these objects, which are the application's functions. Fails if two of them have
    /// the same number.
    pub fn new(objects: Vec<C>) -> Result<Registry<A, C>, Twice>
        requires idle { All (λ c. C.activity c ≡ idle) objects.items }
        requires means { All (λ c. C.says c ≡ A.next.says (C.number c)) objects.items }
        ensures answer { IfOk result (λ registry. numbers_of registry ≡ map C.number objects.items) }
        ensures idle { IfOk result (λ registry. AllIdle registry) }
        ensures only_if { OnOk result (IsDistinct eqb (map C.number objects.items)) }
        ensures refused { IfErr result (λ twice. HasTwice twice.0 (map C.number objects.items)) }
    {
        if let Some(number) = repeated(&objects) {
            return Err(Twice(number));
        }
        Ok(Registry {
            objects,
            of: PhantomData,
        })
    }

    /// Returns `true` if it has an object of the function.
    pub fn has(&self, f: u8) -> bool
        ensures { IsTrue result ↔ IsSome (activity_of self.now f) }
    {
        place(&self.objects, f).is_some()
    }

    /// Begins an activation of the function, and returns its first step. Fails as [`Cacheable::begin`] does.
    pub fn begin(&mut self, f: u8, args: &[u32]) -> Result<Ask, CallFault>
        requires idle { activity_of self.old f ≡ Some idle }
        ensures answer { IfOk result (λ ask. next_of (A.next.says f) (begun args.now) ≡ Some ask) }
        ensures after { OnOk result (self.new ≡ with_activity self.old f (running (begun args.now))) }
        ensures refused { (result ≡ Err CallFault.Args) ↔ (next_of (A.next.says f) (begun args.now) ≡ None) }
        ensures unchanged { OnErr result (self.new ≡ self.old) }
    {
        let Some(at) = place(&self.objects, f) else {
            unreachable!()
        };
        let object = &mut self.objects[at];
        object.begin(args)
    }

    /// Continues the function's activation, and returns its next step. Fails only if memory cannot be
    /// allocated.
    pub fn resume(&mut self, f: u8, answer: Answer) -> Result<Ask, CallFault>
        requires asking { IsAskingAt A.next self.old f }
        ensures answer { IfOk result (λ ask.
            next_of (A.next.says f) (answered (activation_of self.old f) answer) ≡ Some ask) }
        ensures after { OnOk result
            (self.new ≡ with_activity self.old f (running (answered (activation_of self.old f) answer))) }
        ensures refused { IfErr result (λ fault. fault ≡ CallFault.Memory) }
        ensures unchanged { OnErr result (self.new ≡ self.old) }
    {
        let Some(at) = place(&self.objects, f) else {
            unreachable!()
        };
        let object = &mut self.objects[at];
        object.resume(answer)
    }

    /// Ends the function's run, if it has begun one: the function is idle then. A function that is not in the
    /// registry has none.
    pub fn release(&mut self, f: u8)
        ensures { self.new ≡ with_activity self.old f idle }
    {
        if let Some(at) = place(&self.objects, f) {
            let object = &mut self.objects[at];
            object.release();
        }
    }
}
