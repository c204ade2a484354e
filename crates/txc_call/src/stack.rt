ghost use Rattle.std.specs.Prelude.{◌≡◌, ◌<◌, List, [], ◌∷◌, MatchOption, OnOk, OnErr};
ghost use Rattle.txc_app.specs.declared.app.TheConstants.{MOST_ASKS};
ghost use Rattle.txc_call.specs.declared.frame.Frame.{Frame};
ghost use Rattle.txc_call.specs.Reaches.{meet, ReachesMeet};
ghost use Rattle.txc_call.specs.Frames.{given};

use crate::frame::Frame;
use std::alloc::{AllocError, Global};
use std::marker::Model;
use txc_stamp::Reach;
use txc_tags::TagSet;

/// The open frames; a contract sees them innermost first.
#[derive(Drop)]
pub(crate) struct Stack {
    frames: Vec<Frame>,
}

impl Model for Stack {
    ghost use Rattle.std.specs.Prelude.{List, reverse};
    ghost use Rattle.txc_call.specs.declared.frame.Frame.{Frame};

    ghost Value = { List Frame };

    ghost view = { λ s. reverse s.frames.items };
}

/// Returns the stamps at which both hold, if they share one. `None` is everywhere.
fn meet(one: Option<Reach>, other: Option<Reach>) -> Option<Reach>
    requires { ReachesMeet one other }
    ensures { result ≡ meet one other }
{
    match (one, other) {
        (None, other) => other,
        (one, None) => one,
        (Some(one), Some(other)) => one.meet(other),
    }
}

impl Stack {
    pub(crate) fn new(alloc: Global) -> Stack
        ensures { result ≡ [] }
    {
        Stack {
            frames: Vec::new(alloc),
        }
    }

    /// Opens a frame inside the others.
    pub(crate) fn push(&mut self, frame: Frame) -> Result<(), AllocError>
        ensures after { OnOk result (self.new ≡ frame ∷ self.old) }
        ensures unchanged { OnErr result (self.new ≡ self.old) }
    {
        self.frames.push(frame)?;
        Ok(())
    }

    /// Closes the innermost frame, and returns it.
    pub(crate) fn pop(&mut self) -> Option<Frame>
        ensures { MatchOption result
            ((self.old ≡ []) × (self.new ≡ []))
            (λ frame. self.old ≡ frame ∷ self.new) }
    {
        self.frames.pop()
    }

    /// Closes every frame.
    pub(crate) fn clear(&mut self)
        ensures { self.new ≡ [] }
    {
        self.frames.clear();
    }

    /// Returns the innermost frame.
    pub(crate) fn top(&self) -> Option<&Frame>
        ensures { MatchOption result
            (self.now ≡ [])
            (λ frame. (rest : List Frame) × (self.now ≡ frame.now ∷ rest)) }
    {
        self.frames.last()
    }

    /// Gives the innermost frame one more answer.
    pub(crate) fn give(&mut self, reach: Option<Reach>, tags: &TagSet) -> Result<(), AllocError>
        requires { (frame : Frame) × (rest : List Frame)
            × (self.old ≡ frame ∷ rest) × (frame.answers < MOST_ASKS) × ReachesMeet frame.reach reach }
        ensures after { OnOk result ((frame : Frame) (rest : List Frame) → self.old ≡ frame ∷ rest
            → self.new ≡ given frame reach tags.now ∷ rest) }
        ensures unchanged { OnErr result (self.new ≡ self.old) }
    {
        let last = self.frames.len() - 1;
        let frame = &mut self.frames[last];
        frame.tags.join(tags)?;
        frame.reach = meet(frame.reach, reach);
        frame.answers += 1;
        Ok(())
    }
}
