//! The names of lines.
ghost use Rattle.std.specs.Prelude.{◌≡◌, IfSome, IfNone};
ghost use Rattle.txc_script_lines.specs.Names.{name_text};
ghost use Rattle.txc_script_lines.specs.declared.name.LineName.{LineName};

/// The first word of a line.
#[derive(Clone, Copy, Debug, PartialEq, Eq)]
pub enum LineName {
    Put,
    Remove,
    Pin,
    Query,
    Ro,
    Rw,
    Session,
    Call,
    Step,
    Finish,
    Ask,
    Write,
    Pins,
    Commit,
    Abort,
    Advance,
    Sweep,
    Tidy,
    Counts,
}

/// Returns the line name that the word is, if it is one.
pub fn name_of(word: &[u8]) -> Option<LineName>
    ensures answer { IfSome result (λ name. word.now ≡ name_text name) }
    ensures refused { IfNone result ((name : LineName) → word.now ≡ name_text name → ⊥) }
{
    match word {
        b"put" => Some(LineName::Put),
        b"remove" => Some(LineName::Remove),
        b"pin" => Some(LineName::Pin),
        b"query" => Some(LineName::Query),
        b"ro" => Some(LineName::Ro),
        b"rw" => Some(LineName::Rw),
        b"session" => Some(LineName::Session),
        b"call" => Some(LineName::Call),
        b"step" => Some(LineName::Step),
        b"finish" => Some(LineName::Finish),
        b"ask" => Some(LineName::Ask),
        b"write" => Some(LineName::Write),
        b"pins" => Some(LineName::Pins),
        b"commit" => Some(LineName::Commit),
        b"abort" => Some(LineName::Abort),
        b"advance" => Some(LineName::Advance),
        b"sweep" => Some(LineName::Sweep),
        b"tidy" => Some(LineName::Tidy),
        b"counts" => Some(LineName::Counts),
        _ => None,
    }
}
