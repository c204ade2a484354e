//! A run in progress: lines are executed one after another.
ghost use Rattle.std.specs.Prelude.{◌≡◌, true, false, ℕ, ◌+◌, ◌^◌, ◌<◌, ◌≤◌, List, [], ◌∷◌, ◌++◌, length, take, Err, IfOk, OnOk, OnErr};
ghost use Rattle.std.specs.Io.KnownBytes.{Appends};
ghost use Rattle.txc_script.specs.Script.{HasNoEnd};
ghost use Rattle.txc_script.specs.Kinds.{IsFaultOf, malformed_text};
ghost use Rattle.txc_script.specs.LineFaults.{IsWrong};
ghost use Rattle.txc_script.specs.Lines.{ArePlain, IsPlain};
ghost use Rattle.txc_script.specs.Words.{words_of};
ghost use Rattle.txc_script.specs.WriterPrefix.{AppendsPrefix};
ghost use Rattle.txc_script.specs.Flows.{IsStoppedAt, status_after};
ghost use Rattle.txc_script.specs.declared.line_fault.CommandFault.{CommandFault};
ghost use Rattle.txc_script.specs.Progress.{progress_of, AnswersAs, AnswersLast, AnswersLine, HasAnsweredLines, HasLast, IsAtLast, IsKeptBeside, MayBreakOff};

use crate::fault::{RunFault, Status};
use crate::finding::{bad_bytes, bad_words};
use crate::kind::Script;
use crate::line::{is_plain, is_quiet};
use crate::line_fault::{LineFault, MalformedLine};
use crate::piece::{LineStart, MAX_KEPT, cut_line};
use crate::unread::LineError;
use crate::writer::write_text;
use std::alloc::{AllocError, Global};
use std::io::Write;
use std::mem;

/// Continuation of a run after a line.
#[derive(Debug, Drop)]
pub enum Flow<F> {
    /// The next line is read.
    GoesOn,
    /// A malformed line was read.
    Stopped(MalformedLine<F>),
}

/// The replies so far.
#[derive(Drop)]
pub struct Replies<F> {
    /// The text that is not written yet.
    text: Vec<u8>,
    /// `true` if a reply is a refusal, or a line was malformed.
    is_refused: bool,
    /// The fault of a line without a reply. It is stored here since it is large: a line with a reply makes no
    /// room for it.
    why: LineError<F>,
}

/// A run in progress, without its state.
#[derive(Drop)]
pub struct Running<F> {
    /// The number of lines that were read.
    lines: u64,
    /// The line that has not ended.
    line: LineStart,
    replies: Replies<F>,
}

/// Appends the reply to the malformed line of this number.
fn reply_malformed<F>(
    alloc: Global,
    replies: &mut Replies<F>,
    number: u64,
) -> Result<(), AllocError>
    ensures text { OnOk result (replies.new.text.items ≡ replies.old.text.items ++ malformed_text number) }
    ensures refused { OnOk result (replies.new.is_refused ≡ true) }
    ensures unchanged { OnErr result (replies.new.text.items ≡ replies.old.text.items) }
{
    let text = format!(in alloc; "line {number}: malformed\n")?;
    replies.text.extend_from_slice(text.as_bytes())?;
    replies.is_refused = true;
    Ok(())
}

/// Replies to the line of this number, which has this fault in this state.
fn answer_malformed<K: Script>(
    alloc: Global,
    kind: &K,
    state: &K::State,
    replies: &mut Replies<K::Fault>,
    number: u64,
    line: &[u8],
    fault: LineFault<K::Fault>,
) -> Result<Flow<K::Fault>, AllocError>
    requires { IsFaultOf (K.kind kind.now) state.now line.now fault }
    ensures stopped { IfOk result (IsStoppedAt (K.kind kind.now) state.now number line.now) }
    ensures text { OnOk result (replies.new.text.items ≡ replies.old.text.items ++ malformed_text number) }
    ensures refused { OnOk result (replies.new.is_refused ≡ true) }
    ensures unchanged { OnErr result (replies.new.text.items ≡ replies.old.text.items) }
{
    reply_malformed(alloc, replies, number)?;
    Ok(Flow::Stopped(MalformedLine { number, fault }))
}

/// Replies to a line whose bytes are not allowed.
#[cold]
#[inline(never)]
fn answer_bad_bytes<K: Script>(
    alloc: Global,
    kind: &K,
    state: &K::State,
    replies: &mut Replies<K::Fault>,
    number: u64,
    line: &[u8],
) -> Result<Flow<K::Fault>, AllocError>
    requires { IsPlain line.now → ⊥ }
    ensures stopped { IfOk result (IsStoppedAt (K.kind kind.now) state.now number line.now) }
    ensures text { OnOk result (replies.new.text.items ≡ replies.old.text.items ++ malformed_text number) }
    ensures refused { OnOk result (replies.new.is_refused ≡ true) }
    ensures unchanged { OnErr result (replies.new.text.items ≡ replies.old.text.items) }
{
    let fault = bad_bytes(kind, state, line);
    answer_malformed(alloc, kind, state, replies, number, line, fault)
}

/// Replies to a line without a reply, whose fault is stored. Fails if that is a failed allocation.
#[cold]
#[inline(never)]
fn answer_unanswered<K: Script>(
    alloc: Global,
    kind: &K,
    state: &K::State,
    replies: &mut Replies<K::Fault>,
    number: u64,
    line: &[u8],
) -> Result<Flow<K::Fault>, AllocError>
    requires plain { IsPlain line.now }
    requires wrong { IsWrong ((K.kind kind.now).is_wrong state.now (words_of line.now)) replies.old.why }
    ensures wrong { OnOk result ((fault : CommandFault K.Fault) × (replies.old.why ≡ LineError.Wrong fault)) }
    ensures stopped { IfOk result (IsStoppedAt (K.kind kind.now) state.now number line.now) }
    ensures text { OnOk result (replies.new.text.items ≡ replies.old.text.items ++ malformed_text number) }
    ensures refused { OnOk result (replies.new.is_refused ≡ true) }
    ensures unchanged { OnErr result (replies.new.text.items ≡ replies.old.text.items) }
{
    match mem::replace(&mut replies.why, LineError::Memory) {
        LineError::Wrong(fault) => {
            let fault = bad_words(kind, state, line, fault);
            answer_malformed(alloc, kind, state, replies, number, line, fault)
        }
        LineError::Memory => Err(AllocError),
    }
}

/// Executes the line of this number. `known_plain` means that a line may have each of its bytes.
fn answer<K: Script>(
    alloc: Global,
    kind: &K,
    state: &mut K::State,
    replies: &mut Replies<K::Fault>,
    number: u64,
    line: &[u8],
    known_plain: bool,
) -> Result<Flow<K::Fault>, AllocError>
    requires { known_plain ≡ true → ArePlain line.now }
    ensures answered { IfOk result (AnswersLine (K.kind kind.now) state.old state.new replies.old replies.new
        number line.now) }
    ensures broke { OnErr result (MayBreakOff (K.kind kind.now) state.old line.now state.new) }
    ensures unchanged { OnErr result (replies.new.text.items ≡ replies.old.text.items) }
{
    if !is_plain(line, known_plain) {
        return answer_bad_bytes(alloc, kind, state, replies, number, line);
    }
    if is_quiet(line) {
        return Ok(Flow::GoesOn);
    }
    match kind.answer(alloc, state, line, &mut replies.text, &mut replies.why) {
        Some(is_refused) => {
            replies.is_refused |= is_refused;
            Ok(Flow::GoesOn)
        }
        None => answer_unanswered(alloc, kind, state, replies, number, line),
    }
}

impl<F: Drop> Running<F> {
    /// Makes a run that has read no line. Fails only if memory cannot be allocated.
    pub fn new(alloc: Global) -> Result<Running<F>, AllocError>
        ensures no_line { IfOk result (λ r. r.lines ≡ 0) }
        ensures nothing_kept { IfOk result (λ r. r.line ≡ []) }
        ensures no_output { IfOk result (λ r. r.replies.text.items ≡ []) }
        ensures none_refused { IfOk result (λ r. r.replies.is_refused ≡ false) }
    {
        let line = LineStart::new(alloc)?;
        let replies = Replies {
            text: Vec::new(alloc),
            is_refused: false,
            why: LineError::Memory,
        };
        Ok(Running {
            lines: 0,
            line,
            replies,
        })
    }

    /// Returns the status of a run with this end.
    pub fn status(&self, end: Flow<F>) -> Status<F>
        ensures { result ≡ status_after self.now.replies.is_refused end }
    {
        if let Flow::Stopped(line) = end {
            return Status::Malformed(line);
        }
        if self.replies.is_refused {
            Status::Refused
        } else {
            Status::Done
        }
    }

    /// Executes a line.
    fn answer_line<K: Script<Fault = F>>(
        &mut self,
        alloc: Global,
        kind: &K,
        state: &mut K::State,
        line: &[u8],
        known_plain: bool,
    ) -> Result<Flow<F>, AllocError>
        requires count { self.old.lines + 1 < 2 ^ 64 }
        requires plain { known_plain ≡ true → ArePlain line.now }
        ensures answered { IfOk result (AnswersLine (K.kind kind.now) state.old state.new self.old.replies
            self.new.replies (self.old.lines + 1) line.now) }
        ensures broke { OnErr result (MayBreakOff (K.kind kind.now) state.old line.now state.new) }
        ensures unchanged { OnErr result (self.new.replies.text.items ≡ self.old.replies.text.items) }
        ensures counted { self.new.lines ≡ self.old.lines + 1 }
        ensures same_line { self.new.line ≡ self.old.line }
    {
        self.lines += 1;
        answer(
            alloc,
            kind,
            state,
            &mut self.replies,
            self.lines,
            line,
            known_plain,
        )
    }

    /// Executes the stored line.
    fn answer_kept<K: Script<Fault = F>>(
        &mut self,
        alloc: Global,
        kind: &K,
        state: &mut K::State,
    ) -> Result<Flow<F>, AllocError>
        requires { self.old.lines + 1 < 2 ^ 64 }
        ensures answered { IfOk result (AnswersLine (K.kind kind.now) state.old state.new self.old.replies
            self.new.replies (self.old.lines + 1) self.old.line) }
        ensures broke { OnErr result (MayBreakOff (K.kind kind.now) state.old self.old.line state.new) }
        ensures unchanged { OnErr result (self.new.replies.text.items ≡ self.old.replies.text.items) }
        ensures counted { self.new.lines ≡ self.old.lines + 1 }
        ensures emptied { self.new.line ≡ [] }
    {
        self.lines += 1;
        let line = self.line.bytes();
        let answered = answer(
            alloc,
            kind,
            state,
            &mut self.replies,
            self.lines,
            line,
            false,
        );
        self.line.clear();
        answered
    }

    /// Executes the line that ends after these bytes. A line that is in them as a whole is not copied.
    fn end_line<K: Script<Fault = F>>(
        &mut self,
        alloc: Global,
        kind: &K,
        state: &mut K::State,
        bytes: &[u8],
        known_plain: bool,
    ) -> Result<Flow<F>, AllocError>
        requires count { self.old.lines + 1 < 2 ^ 64 }
        requires no_end { HasNoEnd bytes.now }
        requires plain { known_plain ≡ true → ArePlain bytes.now }
        ensures counted { self.new.lines ≤ self.old.lines + 1 }
        ensures answered { (start : K.State) (read written : List ℕ)
            → HasAnsweredLines (K.kind kind.now) start read written (progress_of state.old self.old)
            → AnswersAs (K.kind kind.now) start (read ++ (bytes.now ++ 10 ∷ [])) written
            (progress_of state.new self.new) result }
    {
        if self.line.is_empty() {
            return self.answer_line(alloc, kind, state, bytes, known_plain);
        }
        match self.line.add(bytes) {
            Ok(()) => self.answer_kept(alloc, kind, state),
            Err(e) => Err(e),
        }
    }

    /// Appends these bytes to the line that has not ended.
    fn extend_line(&mut self, rest: &[u8]) -> Result<Flow<F>, AllocError>
        ensures goes_on { IfOk result (λ flow. flow ≡ Flow.GoesOn) }
        ensures line { OnOk result (self.new.line ≡ take MAX_KEPT (self.old.line ++ rest.now)) }
        ensures counted { self.new.lines ≡ self.old.lines }
        ensures replies { self.new.replies ≡ self.old.replies }
    {
        match self.line.add(rest) {
            Ok(()) => Ok(Flow::GoesOn),
            Err(e) => Err(e),
        }
    }

    /// Executes the lines that end in these bytes.
    pub fn answer_lines<K: Script<Fault = F>>(
        &mut self,
        alloc: Global,
        kind: &K,
        state: &mut K::State,
        bytes: &[u8],
    ) -> Result<Flow<F>, AllocError>
        requires { self.old.lines + length bytes.now < 2 ^ 64 }
        ensures counted { self.new.lines ≤ self.old.lines + length bytes.now }
        ensures answered { (start : K.State) (read written : List ℕ)
            → HasAnsweredLines (K.kind kind.now) start read written (progress_of state.old self.old)
            → AnswersAs (K.kind kind.now) start (read ++ bytes.now) written
            (progress_of state.new self.new) result }
    {
        let mut rest = bytes;
        'lines: loop {
            match cut_line(rest) {
                Some((before, is_plain, after)) => {
                    match self.end_line(alloc, kind, state, before, is_plain) {
                        Ok(Flow::GoesOn) => rest = after,
                        Ok(Flow::Stopped(line)) => return Ok(Flow::Stopped(line)),
                        Err(e) => return Err(e),
                    }
                }
                None => return self.extend_line(rest),
            }
        }
    }

    /// Executes the last line, if its line feed is missing.
    fn answer_last<K: Script<Fault = F>>(
        &mut self,
        alloc: Global,
        kind: &K,
        state: &mut K::State,
    ) -> Result<Flow<F>, AllocError>
        requires { self.old.lines + 1 < 2 ^ 64 }
        ensures { (start : K.State) (read written : List ℕ)
            → HasAnsweredLines (K.kind kind.now) start read written (progress_of state.old self.old)
            → AnswersLast (K.kind kind.now) start read written (progress_of state.new self.new) result }
    {
        if self.line.is_empty() {
            return Ok(Flow::GoesOn);
        }
        self.answer_kept(alloc, kind, state)
    }

    /// Does the work after all lines.
    fn close<K: Script<Fault = F>>(
        &mut self,
        alloc: Global,
        kind: &K,
        state: &mut K::State,
    ) -> Result<Flow<F>, AllocError>
        ensures { (start : K.State) (read written : List ℕ)
            → HasLast (K.kind kind.now) start read written (progress_of state.old self.old)
            → IsAtLast (K.kind kind.now) start read (Unit {0}) written (progress_of state.new self.new) result }
    {
        match kind.close(alloc, state, &mut self.replies.text) {
            Ok(is_refused) => {
                self.replies.is_refused |= is_refused;
                Ok(Flow::GoesOn)
            }
            Err(e) => Err(e),
        }
    }

    /// Executes the last line, if its line feed is missing, and does the work after all lines.
    pub fn finish<K: Script<Fault = F>>(
        &mut self,
        alloc: Global,
        kind: &K,
        state: &mut K::State,
    ) -> Result<Flow<F>, AllocError>
        requires { self.old.lines + 1 < 2 ^ 64 }
        ensures { (start : K.State) (read written : List ℕ)
            → HasAnsweredLines (K.kind kind.now) start read written (progress_of state.old self.old)
            → IsAtLast (K.kind kind.now) start read (Unit {0}) written (progress_of state.new self.new) result }
    {
        match self.answer_last(alloc, kind, state) {
            Ok(Flow::GoesOn) => self.close(alloc, kind, state),
            Ok(Flow::Stopped(line)) => Ok(Flow::Stopped(line)),
            Err(e) => Err(e),
        }
    }

    /// Writes the replies that are not written yet. Fails with `Write` if the writer fails, after a prefix of
    /// them.
    pub fn write_out<W: Write>(&mut self, writer: &mut W) -> Result<(), RunFault>
        ensures after { OnOk result (Appends (W.contents writer.old) (W.contents writer.new)
            self.old.replies.text.items) }
        ensures emptied { OnOk result (self.new.replies.text.items ≡ []) }
        ensures prefix { OnErr result (AppendsPrefix (W.contents writer.old) (W.contents writer.new)
            self.old.replies.text.items) }
        ensures refused { OnErr result (result ≡ Err RunFault.Write) }
        ensures same { IsKeptBeside self.old self.new }
    {
        write_text(writer, self.replies.text.as_slice())?;
        self.replies.text.clear();
        Ok(())
    }
}
