ghost use Rattle.std.specs.Prelude.{◌≡◌};
ghost use Rattle.txc_call_registry.specs.Objects.{Objects};
ghost use base.Fml.{ftrue};

mod steps;

use std::marker::{Model, PhantomData};
pub use steps::{AsIdle, AsNew, AsRan, Ran};

/// The function that reads objects off a value.
pub trait Reads<X> {
    ghost objects: { X → Objects };
}

/// The objects of functions that their caller runs. It is zero-sized and owns nothing: only contracts state
/// which objects it is.
pub struct GhostObjects {
    marker: PhantomData<()>,
    pub ghost objects: { Objects },
}

impl Model for GhostObjects {
    ghost also_owns = { λ _. ftrue };
}

impl GhostObjects {
    /// Returns the objects that `M` reads off the value.
    pub fn of<X, M: Reads<X>>(x: &X) -> GhostObjects
        ensures { result.objects ≡ M.objects x.now }
    {
        let _ = x;
        GhostObjects {
            marker: PhantomData,
        }
    }
}

impl Drop for GhostObjects {
    fn drop(self) {
        let Self { marker: _ } = self;
    }
}

unsafe impl Send for GhostObjects {}

unsafe impl Sync for GhostObjects {}
