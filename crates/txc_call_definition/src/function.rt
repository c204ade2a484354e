ghost use Rattle.std.specs.Prelude.{◌≡◌, ◌≢◌, [], None, Some, IfOk};
ghost use Rattle.std.specs.Option.{ForSome};

use crate::definition::Definition;
use crate::held::Held;
use std::alloc::{AllocError, Global};
use txc_app::{Answer, Ask};
use txc_call_permits::PermitPool;
use txc_call_registry::{Cacheable, CallFault};

/// The object of a function. A permit of its pool is out exactly while it runs an activation.
pub struct Function<D: Definition> {
    definition: D,
    alloc: Global,
    pool: PermitPool,
    held: Option<Held>,
    ghost of_its_pool: { ForSome held (λ h. h.grant ≡ pool.name) },
}

impl<D: Definition> Function<D> {
    ghost use Rattle.txc_call_registry.specs.Activity.{idle};
    ghost use Rattle.txc_call_definition.specs.Pools.{pool_of};

    /// Makes the idle object of the function with this definition. While it runs, it allocates with the
    /// allocator, and has a permit of the pool.
    pub fn new(alloc: Global, pool: PermitPool, definition: D) -> Function<D>
        ensures idle { ⟦<Function<D> as Cacheable>⟧.activity result ≡ idle }
        ensures number { ⟦<Function<D> as Cacheable>⟧.number result ≡ D.number definition }
        ensures says { ⟦<Function<D> as Cacheable>⟧.says result ≡ D.says definition }
        ensures pool { pool_of result ≡ pool }
    {
        Function {
            definition,
            alloc,
            pool,
            held: None,
        }
    }

    // Returns the first step, and the arguments to keep.
    fn first(&self, args: &[u32]) -> Result<(Ask, Vec<u32>), AllocError>
        requires { D.says self.now.definition args.now [] ≢ None }
        ensures asks { IfOk result (λ made. D.says self.now.definition args.now [] ≡ Some made.0) }
        ensures args { IfOk result (λ made. made.1.items ≡ args.now) }
    {
        let ask = self.definition.first(self.alloc, args)?;
        Ok((ask, args.to_vec(self.alloc)?))
    }
}

impl<D: Definition> Cacheable for Function<D> {
    ghost use Rattle.txc_call_definition.specs.HeldActivity.{activity_with};

    ghost number = { λ o. D.number o.definition };

    ghost activity = { λ o. activity_with o.held };

    ghost says = { λ o. D.says o.definition };

    fn number(&self) -> u8 {
        self.definition.number()
    }

    fn begin(&mut self, args: &[u32]) -> Result<Ask, CallFault> {
        if !self.definition.accepts(args) {
            return Err(CallFault::Args);
        }
        let Some(grant) = self.pool.grant() else {
            return Err(CallFault::Busy);
        };
        let Ok((ask, args)) = self.first(args) else {
            grant.give_back();
            return Err(CallFault::Memory);
        };
        let held = Held::new(self.alloc, grant, args);
        if let Some(before) = self.held.replace(held) {
            before.give_back();
        }
        Ok(ask)
    }

    fn resume(&mut self, answer: Answer) -> Result<Ask, CallFault> {
        let Some(held) = &mut self.held else {
            unreachable!()
        };
        match held.go_on(&self.definition, self.alloc, answer) {
            Ok(ask) => Ok(ask),
            Err(_) => Err(CallFault::Memory),
        }
    }

    fn release(&mut self) {
        if let Some(held) = self.held.take() {
            held.give_back();
        }
    }
}

impl<D: Definition> Drop for Function<D> {
    fn drop(self) {
        let Function {
            definition: _,
            alloc: _,
            pool: _,
            held,
        } = self;
        if let Some(held) = held {
            held.give_back();
        }
    }
}
