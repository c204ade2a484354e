//! Functions: their definitions, their objects, registries of them; and a call with replies made by hand.
ghost use Rattle.std.specs.Prelude.{◌≡◌, IfOk};
ghost use Rattle.txcache_functions.specs.AnyFunction.{ALL_NUMBERS};
ghost use Rattle.txc_call_registry.specs.Objects.{numbers_of, AllIdle};

use anyhow::Result;
use std::alloc::Global;
use txc_app::{Answer, Ask, Rows};
use txc_call::{CallMachine, Reply};
use txc_call_definition::{Definition, Function, OneOf};
use txc_call_permits::PermitPool;
use txc_call_registry::{Cacheable, Registry, enlist};
use txc_tags::Key;
use txcache_functions::{
    Again, AnyFunction, BodiesAndBody, BodiesIn, BodyAt, IdsIn, Itself, Object, Program, RowCount,
    object_of_each, registry,
};

/// Returns an answer of no rows.
fn none(alloc: Global) -> Answer {
    Answer::Rows(Rows::new(Vec::new(alloc)))
}

/// Returns `true` if a function returns a value after one answer.
fn is_done<D: Definition>(alloc: Global, function: &D) -> Result<bool> {
    if !function.accepts(&[7]) {
        return Ok(function.number() > 7);
    }
    let Ask::Query(_) = function.first(alloc, &[7])? else {
        return Ok(false);
    };
    let next = function.next(alloc, &[7], &[], &none(alloc))?;
    Ok(matches!(next, Ask::Done(_)))
}

/// Returns `true` if each definition returns a value after one answer.
pub fn definitions(alloc: Global) -> Result<bool> {
    let one = is_done(alloc, &BodyAt)? || is_done(alloc, &BodiesIn)?;
    let other = is_done(alloc, &BodiesAndBody)? || is_done(alloc, &RowCount)?;
    let more = is_done(alloc, &Itself)? || is_done(alloc, &Again)?;
    let last = is_done(alloc, &IdsIn)? || is_done(alloc, &AnyFunction::RowCount(RowCount))?;
    Ok(one || other || more || last || is_done(alloc, &OneOf::<BodyAt, Itself>::One(BodyAt))?)
}

/// Makes an object of a function, and one in a box.
pub fn boxes(alloc: Global) -> Result<bool> {
    let mut pool = PermitPool::new(alloc, 1)?;
    let mut object = Function::new(alloc, pool.share()?, BodyAt);
    if let Ok(Ask::Query(_)) = object.begin(&[7]) {
        let done = object.resume(none(alloc)).is_ok();
        object.release();
        return Ok(done);
    }
    let mut objects: Vec<Box<dyn Cacheable + Send>> = Vec::new(alloc);
    let body_at = Box::new(alloc, Function::new(alloc, pool, BodyAt))?;
    enlist::<Program, Box<dyn Cacheable + Send>>(&mut objects, body_at)?;
    Ok(usize::from(object.number()) < objects.len())
}

/// Runs an activation in a registry.
pub fn activation(alloc: Global) -> Result<bool> {
    let mut pool = PermitPool::new(alloc, 4)?;
    let objects = object_of_each(alloc, &mut pool)?;
    let mut registry = Registry::<Program, Object>::new(objects)?;
    if !registry.has(0) {
        return Ok(false);
    }
    let Ok(Ask::Query(_)) = registry.begin(0, &[7]) else {
        registry.release(0);
        return Ok(false);
    };
    Ok(registry.resume(0, none(alloc)).is_ok())
}

/// Runs a call that no node has.
pub fn call(alloc: Global) -> Result<bool> {
    let mut pool = PermitPool::new(alloc, 4)?;
    let mut registry = registry(alloc, &mut pool)?;
    let mut machine = CallMachine::new(alloc);
    machine.start(&registry, Key::read(b"f0(7)")?)?;
    machine.reply(&mut registry, alloc, Reply::Miss)?;
    let is_open = machine.need().is_some();
    machine.cancel(&mut registry);
    Ok(is_open)
}

/// Returns the program's functions.
pub fn functions(alloc: Global) -> Result<Registry<Program, Object>>
    ensures idle { IfOk result AllIdle }
    ensures numbers { IfOk result (λ registry. numbers_of registry ≡ ALL_NUMBERS) }
{
    let mut pool = PermitPool::new(alloc, 4)?;
    Ok(registry(alloc, &mut pool)?)
}
