ghost use Rattle.std.specs.Prelude.{◌≡◌};

use txc_cushion::Pin;
use txc_stamp::Stamp;
use txc_tags::Key;
use txc_txn_ports::TxnError;

/// Steps of pinning the present.
#[derive(Clone, Copy, Debug)]
pub enum PinStep {
    /// The pin was requested from the database.
    Asked,
    /// The pincushion was requested to add it.
    Adding(Pin),
    /// The pincushion did not add it, for this reason, and the database was requested to remove its hold.
    Dropping(Stamp, TxnError),
}

/// The present is being pinned.
#[derive(Debug, Drop)]
pub struct Pinning {
    pub step: PinStep,
    /// The call that begins afterwards, or `None` if the open call continues with a query.
    pub first: Option<Key>,
}

impl Pinning {
    ghost use Rattle.txc_txn.specs.TxnCore.{left_stamp};

    // Returns the stamp that was pinned and not added, if there is one.
    pub(crate) fn left(&self) -> Option<Stamp>
        ensures { result ≡ left_stamp self.now.step }
    {
        match self.step {
            PinStep::Asked => None,
            PinStep::Adding(pin) => Some(pin.stamp),
            PinStep::Dropping(stamp, _) => Some(stamp),
        }
    }
}
