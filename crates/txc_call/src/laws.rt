//! The law of calls: their values, over all their replies. It has no code: its contract is the law.
ghost use Rattle.txc_call.specs.Laws.{CallsComeToTheirValues, InsertionsAreTrue};

use txc_app::laws::right_answers_give_the_value;

/// A call that correct replies led to its end has its uncached value, and the entries that it inserts on the
/// way are true.
pub fn calls_come_to_their_values()
    ensures values { CallsComeToTheirValues }
    ensures insertions { InsertionsAreTrue }
{
    right_answers_give_the_value();
}
