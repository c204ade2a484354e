//! The objects after a step that no registry made.
ghost use Rattle.std.specs.Prelude.{◌≡◌, ◌≤◌, ◌+◌, ℕ, IsSome};
ghost use Rattle.txc_tags.specs.declared.key.TheConstants.{LAST_FUNCTION};
ghost use Rattle.txc_call_registry.specs.Objects.{activity_of, numbers_of, AllIdle, Objects};
ghost use Rattle.txc_call_ghosts.specs.Steps.{idle_below, idled, objects_after_ask};

use crate::ghost_objects::{GhostObjects, Reads};
use txc_app::Ask;
use txc_call::CallMachine;

/// A step of a function, with the machine that will take it, and the objects before it.
#[derive(Drop)]
pub struct Ran<'a> {
    pub told: &'a GhostObjects,
    pub machine: &'a CallMachine,
    pub ask: &'a Ask,
}

/// Reads off a step the objects after it.
pub struct AsRan;

impl<'a> Reads<Ran<'a>> for AsRan {
    ghost objects = { λ x. objects_after_ask x.told.now.objects x.machine.now x.ask.now };
}

/// Reads off objects the same ones, all idle.
pub struct AsIdle;

impl Reads<GhostObjects> for AsIdle {
    ghost objects = { λ t. idled t.objects };
}

/// Reads off nothing an idle object for each function.
pub struct AsNew;

impl Reads<()> for AsNew {
    ghost objects = { λ _. idle_below (LAST_FUNCTION + 1) };
}

impl GhostObjects {
    /// Returns an idle object for each function.
    pub fn new() -> GhostObjects
        ensures idle { AllIdle result.objects }
        ensures functions { (f : ℕ) → f ≤ LAST_FUNCTION → IsSome (activity_of result.objects f) }
    {
        GhostObjects::of::<(), AsNew>(&())
    }

    /// Returns the same objects, all idle.
    pub fn idled(&self) -> GhostObjects
        ensures after { result.objects ≡ idled self.now.objects }
        ensures idle { AllIdle result.objects }
        ensures functions { numbers_of result.objects ≡ numbers_of self.now.objects }
    {
        GhostObjects::of::<GhostObjects, AsIdle>(self)
    }

    /// Returns the objects after the function that the machine needs made this step.
    pub fn ran(&self, machine: &CallMachine, ask: &Ask) -> GhostObjects
        ensures after { result.objects ≡ objects_after_ask self.now.objects machine.now ask.now }
        ensures functions { numbers_of result.objects ≡ numbers_of self.now.objects }
    {
        let ran = Ran {
            told: self,
            machine,
            ask,
        };
        GhostObjects::of::<Ran, AsRan>(&ran)
    }
}
