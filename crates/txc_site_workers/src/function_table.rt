//! The functions of a site.
ghost use Rattle.std.specs.Prelude.{◌≡◌, All, IfErr, IfOk, List, map, ℕ};
ghost use Rattle.txc_call_registry.specs.Objects.{numbers_of, AllIdle};
ghost use Rattle.txc_site_workers.specs.Sites.{IsRegistryRefused};

use std::alloc::{AllocError, Global};
use txc_app::App;
use txc_call_definition::{Definition, Function};
use txc_call_permits::PermitPool;
use txc_call_registry::{Registry, enlist};
use txc_site_keeper::SiteError;

/// An application whose functions are definitions of one type.
pub trait FunctionTable<D: Definition>: App {
    // The numbers of its functions, in order.
    ghost numbers: { List ℕ };

    /// Returns the functions. It is called for each client.
    fn definitions(alloc: Global) -> Result<Vec<D>, AllocError>
        ensures meaning { IfOk result (λ all. All (λ d. D.says d ≡ Self.next.says (D.number d)) all.items) }
        ensures numbers { IfOk result (λ all. map D.number all.items ≡ numbers) };
}

/// Makes a registry of the application's functions, which take their permits from the pool. Fails if two
/// functions have one number, or memory cannot be allocated.
pub fn registry<A: FunctionTable<D>, D: Definition>(
    alloc: Global,
    pool: &mut PermitPool,
) -> Result<Registry<A, Function<D>>, SiteError>
    ensures functions { IfOk result (λ registry. numbers_of registry ≡ A.numbers) }
    ensures idle { IfOk result AllIdle }
    ensures refused { IfErr result (IsRegistryRefused A.numbers) }
{
    let definitions = <A as FunctionTable<D>>::definitions(alloc)?;
    let mut objects = Vec::with_capacity(alloc, definitions.len())?;
    for definition in definitions {
        let object = Function::new(alloc, pool.share()?, definition);
        enlist::<A, Function<D>>(&mut objects, object)?;
    }
    match Registry::<A, Function<D>>::new(objects) {
        Ok(registry) => Ok(registry),
        Err(twice) => Err(SiteError::Twice(twice.0)),
    }
}
