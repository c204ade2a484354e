//! Notes of a history that a publisher posts for the cursors through it.

ghost use Rattle.std.specs.Prelude.{◌≡◌};

use crate::row::Front;
use std::marker::{Model, PhantomData};

/// The history whose records are posted, and the relation between a prefix of it and its note.
pub trait Publishes<T, N> {
    ghost use Rattle.std.specs.Prelude.{List};
    ghost use Rattle.txc_stream.specs.Names.{Name};

    ghost history: { Name };

    ghost notes: { List T → N → Type 0 };
}

/// A front of the history up to a record, and the note of this record. Contracts see the front's list.
#[derive(Drop)]
pub struct Published<T, N, P: Publishes<T, N>> {
    pub(crate) note: N,
    pub(crate) front: Front<T>,
    of: PhantomData<P>,
}

impl<T, N, P: Publishes<T, N>> Model for Published<T, N, P> {
    ghost use Rattle.std.specs.Prelude.{◌≡◌, List};
    ghost use Rattle.std.specs.Coded.{coded_list};

    ghost Value = { List T };

    ghost coded = { coded_list T.code };

    ghost view = { λ p. p.front.list };

    ghost invariant = { λ p. (p.front.name ≡ P.history) × P.notes p.front.list p.note };
}

impl<T, N, P: Publishes<T, N>> Published<T, N, P> {
    pub(crate) fn new(note: N, front: Front<T>) -> Published<T, N, P>
        requires history { front.name ≡ P.history }
        requires noted { P.notes front.list note }
        ensures { result ≡ front.list }
    {
        Published {
            note,
            front,
            of: PhantomData,
        }
    }
}
