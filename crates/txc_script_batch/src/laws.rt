//! A law of the lines of a batch's script. It is a lemma without code.
ghost use Rattle.txc_script_batch.specs.BatchLaws.{NothingIsWrongWithOrders};

/// A line that is an order has no fault.
pub fn nothing_is_wrong_with_an_order()
    ensures { NothingIsWrongWithOrders }
{}
