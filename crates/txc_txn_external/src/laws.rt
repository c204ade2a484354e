//! Laws of receipts over versions. Each is a theorem without code.
ghost use Rattle.txc_txn_external.specs.Laws.{ReceiptsShowSnapshots, ReceiptsNeedThePremise};

use txc_app_external::laws::{cached_is_uncached, pins_show_version_tables, the_premise_is_needed};

/// A receipt that is explained over a history that follows the snapshots has one snapshot, no older than its
/// bounds allow, in which each of its values is the uncached value.
pub fn receipts_show_snapshots()
    ensures { ReceiptsShowSnapshots }
{
    cached_is_uncached();
    pins_show_version_tables();
}

/// Without the premise, a receipt may have a value that is the uncached value in no snapshot.
pub fn receipts_need_the_premise()
    ensures { ReceiptsNeedThePremise }
{
    the_premise_is_needed();
}
