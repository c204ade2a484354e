//! Lemmas about the definitions. They have no code: each contract is a law.
ghost use Rattle.txc_app.specs.Laws.{CallsAreOfFunctionsBelow, CarriedIsTrue, EqualAnswersDecide, EventLeaves, RightAnswersGiveTheValue, TrueInLonger, FoundRowsHold, DoneAfterIsTrue};

use txc_db::{states_stay, tags_are_sound};

/// A call inside another answers it with the uncached value of the inner call, of a function with a lower
/// number, and with no other value.
pub fn calls_are_of_functions_below()
    ensures { CallsAreOfFunctionsBelow }
{}

/// Equal answers lead to equal values and to equal queries.
pub fn equal_answers_decide()
    ensures { EqualAnswersDecide }
{}

/// An event that matches no tag covering the queries of a call leaves its value and its queries as they were.
pub fn event_leaves_what_it_does_not_match()
    ensures { EventLeaves }
{
    tags_are_sound();
}

/// Correct answers up to the end of an activation lead to the call's value.
pub fn right_answers_give_the_value()
    ensures { RightAnswersGiveTheValue }
{}

/// The result that the database finds for a query holds over its reach, and so does the value of a call that is
/// done after this one query.
pub fn found_rows_give_true_entries()
    ensures rows { FoundRowsHold }
    ensures entry { DoneAfterIsTrue }
{}

/// A true entry stays true in every history that begins with the one in which it is true.
pub fn true_entries_stay()
    ensures { TrueInLonger }
{
    states_stay();
}

/// A true entry that is still valid can be carried over to another history: it is true there from a stamp with
/// the same state on, since the value of a call depends on the state only.
pub fn carried_entries_are_true()
    ensures { CarriedIsTrue }
{}
