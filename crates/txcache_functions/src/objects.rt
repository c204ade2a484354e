//! Registries of the program's functions.
ghost use Rattle.std.specs.Prelude.{◌≡◌, [], ◌∷◌, ◌++◌, map, vec_len, All, IfOk, OnOk};
ghost use Rattle.txc_call_registry.specs.Activity.{idle};
ghost use Rattle.txc_call_registry.specs.Objects.{numbers_of, AllIdle};
ghost use Rattle.txcache_functions.specs.AnyFunction.{ALL_NUMBERS, number_of};
ghost use Rattle.txc_call_definition.specs.Pools.{pool_of};
ghost use Rattle.txcache_functions.specs.Program.{program};

use crate::any_function::AnyFunction;
use crate::bodies_and_body::BodiesAndBody;
use crate::bodies_in::BodiesIn;
use crate::body_at::BodyAt;
use crate::endless::{Again, Itself};
use crate::ids_in::IdsIn;
use crate::program::Program;
use crate::row_count::RowCount;
use std::alloc::{AllocError, Global};
use txc_call_definition::Function;
use txc_call_permits::PermitPool;
use txc_call_registry::{Cacheable, Registry, enlist};

/// An object of one of the functions.
pub type Object = Function<AnyFunction>;

// Makes one more object, which takes its permits from the pool.
fn add(
    alloc: Global,
    pool: &mut PermitPool,
    objects: &mut Vec<Object>,
    function: AnyFunction,
) -> Result<(), AllocError>
    requires idle { All (λ o. ⟦<Object as Cacheable>⟧.activity o ≡ idle) objects.old.items }
    requires means { All (λ o. ⟦<Object as Cacheable>⟧.says o
        ≡ program.says (⟦<Object as Cacheable>⟧.number o)) objects.old.items }
    requires pools { All (λ o. pool_of o ≡ pool.old) objects.old.items }
    ensures idle { All (λ o. ⟦<Object as Cacheable>⟧.activity o ≡ idle) objects.new.items }
    ensures means { All (λ o. ⟦<Object as Cacheable>⟧.says o
        ≡ program.says (⟦<Object as Cacheable>⟧.number o)) objects.new.items }
    ensures pools { All (λ o. pool_of o ≡ pool.old) objects.new.items }
    ensures numbers { OnOk result (map ⟦<Object as Cacheable>⟧.number objects.new.items
        ≡ map ⟦<Object as Cacheable>⟧.number objects.old.items ++ number_of function ∷ []) }
    ensures same_pool { pool.new ≡ pool.old }
{
    let object = Function::new(alloc, pool.share()?, function);
    enlist::<Program, Object>(objects, object)
}

/// Makes an idle object of each function, which takes its permits from the pool. Fails only if memory cannot be
/// allocated.
pub fn object_of_each(alloc: Global, pool: &mut PermitPool) -> Result<Vec<Object>, AllocError>
    ensures all { IfOk result (λ objects.
        map ⟦<Object as Cacheable>⟧.number objects.items ≡ ALL_NUMBERS) }
    ensures idle { IfOk result (λ objects.
        All (λ o. ⟦<Object as Cacheable>⟧.activity o ≡ idle) objects.items) }
    ensures means { IfOk result (λ objects. All (λ o. ⟦<Object as Cacheable>⟧.says o
        ≡ program.says (⟦<Object as Cacheable>⟧.number o)) objects.items) }
    ensures pools { IfOk result (λ objects. All (λ o. pool_of o ≡ pool.old) objects.items) }
    ensures same_pool { pool.new ≡ pool.old }
{
    let mut objects = Vec::new(alloc);
    add(alloc, pool, &mut objects, AnyFunction::BodyAt(BodyAt))?;
    add(alloc, pool, &mut objects, AnyFunction::BodiesIn(BodiesIn))?;
    add(
        alloc,
        pool,
        &mut objects,
        AnyFunction::BodiesAndBody(BodiesAndBody),
    )?;
    add(alloc, pool, &mut objects, AnyFunction::RowCount(RowCount))?;
    add(alloc, pool, &mut objects, AnyFunction::Itself(Itself))?;
    add(alloc, pool, &mut objects, AnyFunction::Again(Again))?;
    add(alloc, pool, &mut objects, AnyFunction::IdsIn(IdsIn))?;
    Ok(objects)
}

/// Makes a registry with an object of each function, which takes its permits from the pool. Fails only if
/// memory cannot be allocated.
pub fn registry(
    alloc: Global,
    pool: &mut PermitPool,
) -> Result<Registry<Program, Object>, AllocError>
    ensures all { IfOk result (λ registry. numbers_of registry ≡ ALL_NUMBERS) }
    ensures idle { IfOk result AllIdle }
    ensures same_pool { pool.new ≡ pool.old }
{
    let objects = object_of_each(alloc, pool)?;
    match Registry::<Program, Object>::new(objects) {
        Ok(registry) => Ok(registry),
        Err(_) => Err(AllocError),
    }
}

/// Makes `count` registries, whose functions share the permits of the pool. Fails only if memory cannot be
/// allocated.
pub fn registries(
    alloc: Global,
    pool: &mut PermitPool,
    count: usize,
) -> Result<Vec<Registry<Program, Object>>, AllocError>
    ensures all { IfOk result (λ registries. All (λ r. numbers_of r ≡ ALL_NUMBERS) registries.items) }
    ensures idle { IfOk result (λ registries. All AllIdle registries.items) }
    ensures each { IfOk result (λ registries. vec_len registries ≡ count) }
{
    let mut registries = Vec::with_capacity(alloc, count)?;
    for _ in 0..count {
        registries.push(registry(alloc, pool)?)?;
    }
    Ok(registries)
}
