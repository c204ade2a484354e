//! Laws of the lines of a world's script, and of their output. Each is a lemma without code.
ghost use Rattle.txc_script_world.specs.FaultLaws.{NothingIsWrongWithTasks};
ghost use Rattle.txc_script_world.specs.TaskLaws.{AreCountsWrittenByRecords, ArePinsWrittenByPinSet, AreWrittenByReplies};

/// The replies determine the output of a line that makes steps; the pin set of the actor's transaction
/// determines that of `pins`; and the records of the node determine that of `counts`.
pub fn a_line_of_a_world_is_written_one_way()
    ensures by_replies { AreWrittenByReplies }
    ensures by_pin_set { ArePinsWrittenByPinSet }
    ensures by_records { AreCountsWrittenByRecords }
{}

/// A line that is a task has no fault.
pub fn nothing_is_wrong_with_a_good_line()
    ensures { NothingIsWrongWithTasks }
{}
