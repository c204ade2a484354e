//! Laws of the lines of a script and of their replies. Each is a lemma without code.
ghost use Rattle.txc_script_node.specs.Laws.{NoQuietLineNamesAStep, NamesOneStep, IsOneThing, AreAnsweredOneWay};

/// A law, which runs nothing: a line is at most one of three things. It has no reply, or it names one step, or it
/// is malformed, and reading it shows which. `F` is the type of the faults that only lines of this kind have.
pub fn a_line_is_one_thing<F>()
    ensures no_quiet_step { NoQuietLineNamesAStep }
    ensures one_step { NamesOneStep }
    ensures one_thing { IsOneThing F }
{}

/// If no insertion fails for want of memory, the replies are unique: the cache before a line, and the bytes of
/// the line, determine the reply and the cache after it.
pub fn lines_are_answered_one_way<F>()
    ensures { AreAnsweredOneWay F }
{}
