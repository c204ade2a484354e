//! Lemmas about the definitions. They have no code.
ghost use Rattle.txc_db_carry.specs.WorkedRows.{WorkedOrder};

/// The rows before a place, for four rows in two tables.
pub fn worked_order()
    ensures { WorkedOrder }
{}
