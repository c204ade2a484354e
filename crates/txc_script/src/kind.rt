//! Kinds of script.
ghost use Rattle.std.specs.Prelude.{◌≡◌, false, List, ◌++◌, IfOk, OnErr, IfSome, IfNone};
ghost use Rattle.std.specs.List.{list_any};
ghost use Rattle.txc_script.specs.Kinds.{ScriptKind, Given, is_malformed};
ghost use Rattle.txc_script.specs.Answers.{LineIsAnswered, IsUnanswered, IsClosed};
ghost use Rattle.txc_script.specs.Lines.{IsPlain};

use crate::unread::LineError;
use std::alloc::{AllocError, Global};

/// A kind of script: how a run executes its lines. The value is shared by all lines of a run.
pub trait Script {
    /// The state that the lines read and change.
    type State;
    /// The meaning of a line.
    type Asked;
    /// The reply to a line.
    type Reply;
    /// Faults that only lines of this kind can have.
    type Fault: Drop;

    // The lines, their replies, and the end of a script.
    ghost kind: { Self → ScriptKind Self.State Self.Asked Self.Reply Self.Fault };

    /// Executes a line that is neither empty nor a comment, and appends its reply to the text. Returns whether
    /// the reply is a refusal. Otherwise returns `None` and sets `why`: the fault of the line's words, or that
    /// memory cannot be allocated. In the last case the line may be executed in part.
    fn answer(
        &self,
        alloc: Global,
        state: &mut Self::State,
        line: &[u8],
        text: &mut Vec<u8>,
        why: &mut LineError<Self::Fault>,
    ) -> Option<bool>
        requires { IsPlain line.now }
        ensures answered { IfSome result (LineIsAnswered (kind self.now) state.old line.now state.new
            text.old.items text.new.items) }
        ensures refused { IfNone result (IsUnanswered (kind self.now) state.old line.now state.new why.new) }
        ensures unchanged { IfNone result (text.new.items ≡ text.old.items) };

    /// Does the work after the last line, if no line was malformed, and appends its output to the text. Returns
    /// whether that has a refusal.
    fn close(
        &self,
        alloc: Global,
        state: &mut Self::State,
        text: &mut Vec<u8>,
    ) -> Result<bool, AllocError>
        ensures closed { IfOk result (IsClosed (kind self.now) state.old state.new
            text.old.items text.new.items) }
        ensures broke { OnErr result ((kind self.now).breaks_at_end state.old state.new) }
        ensures unchanged { OnErr result (text.new.items ≡ text.old.items) };
}
