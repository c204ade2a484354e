//! One function registry for each actor or worker.
ghost use Rattle.std.specs.Prelude.{◌≡◌, ◌≤◌, IfOk};
ghost use Rattle.txc_call_permits.specs.declared.pool.TheConstants.{MAX_PERMITS};

use std::alloc::{AllocError, Global};
use std::marker::Model;
use txc_call_permits::PermitPool;
use txc_call_registry::Registry;
use txcache_functions::{Object, Program, registries};

/// A registry of the program's functions for each actor or worker. All of them share the permits of one pool.
#[derive(Drop)]
pub struct Registries {
    pool: PermitPool,
    registries: Vec<Registry<Program, Object>>,
}

impl Model for Registries {
    ghost use Rattle.txcache_run.specs.Registries.{StaffValue};

    ghost Value = { StaffValue };

    ghost view = { λ s. record { permits = s.pool.most; registries = s.registries.items } };
}

impl Registries {
    ghost use Rattle.txcache_run.specs.Registries.{IsStaff};

    /// Makes `count` idle registries, which share `permits` permits. Fails only if memory cannot be allocated.
    pub fn new(alloc: Global, permits: usize, count: usize) -> Result<Registries, AllocError>
        requires { (1 ≤ permits) × (permits ≤ MAX_PERMITS) }
        ensures { IfOk result (IsStaff permits count) }
    {
        let mut pool = PermitPool::new(alloc, permits as u64)?;
        let mut shared = pool.share()?;
        let registries = registries(alloc, &mut shared, count)?;
        Ok(Registries { pool, registries })
    }

    /// Returns the registries, whose functions still share the permits.
    pub fn into_registries(self) -> Vec<Registry<Program, Object>>
        ensures { result.items ≡ self.registries }
    {
        let Registries {
            pool: _,
            registries,
        } = self;
        registries
    }
}
