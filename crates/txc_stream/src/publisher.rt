//! The publisher of a history, for the cursors through it.

ghost use Rattle.std.specs.Prelude.{◌≡◌, ◌+◌, ◌<◌, ◌++◌, ◌∷◌, [], true, false, length, Some, IfOk, OnOk, OnErr};
ghost use Rattle.std.specs.Arc.{arc_value};
ghost use Rattle.txc_stream.specs.Published.{HasRoomMade};
ghost use Rattle.txc_stream.specs.declared.segment.TheConstants.{SEGMENT_LEN};

use crate::cursor::Cursor;
use crate::published::{Published, Publishes};
use crate::row::Front;
use crate::segment::{LiveSegments, SEGMENT_LEN, Segment};
use std::alloc::{AllocError, Global};
use std::marker::Model;
use std::sync::{Arc, Mutex, Wait};

/// Memory for the posting of one record, allocated in advance.
#[derive(Drop)]
pub struct NextCell<T, N, P: Publishes<T, N>> {
    cell: Box<Option<Published<T, N, P>>>,
}

/// Publishes the records of a history as they are appended. It holds the last segment.
///
/// Contracts see the number of records before this segment, and the lists posted in it.
#[derive(Drop)]
pub struct Publisher<T, N, P: Publishes<T, N>> {
    shelf: Arc<Mutex<LiveSegments<T, N, P>>>,
    tail: Arc<Segment<T, N, P>>,
    shown: Front<Option<Published<T, N, P>>>,
}

impl<T, N, P: Publishes<T, N>> Model for Publisher<T, N, P> {
    ghost use Rattle.std.specs.Arc.{arc_value};
    ghost use Rattle.txc_stream.specs.Published.{PosterValue, poster_code, IsPoster};

    ghost Value = { PosterValue T };

    ghost coded = { poster_code T.code };

    ghost view = { λ p. record { from = (arc_value p.tail).from; posted = p.shown.list } };

    ghost invariant = { λ p. IsPoster (arc_value p.tail).cells p.shown };
}

impl<T: Drop, N: Drop, P: Publishes<T, N>> Publisher<T, N, P> {
    /// Makes a publisher of the named history, which has posted nothing. The records after the first `from` are
    /// posted from now on. Fails only if memory cannot be allocated.
    pub fn new(alloc: Global, from: usize) -> Result<Publisher<T, N, P>, AllocError>
        ensures { IfOk result (λ poster. poster ≡ record { from = from; posted = [] }) }
    {
        let tail = Arc::new(alloc, Segment::new(alloc, from)?)?;
        let mut shelf = LiveSegments::new(alloc);
        shelf.add(Arc::try_clone(&tail)?)?;
        let shelf = Arc::new(alloc, Mutex::new(shelf))?;
        let shown = tail.cells.start();
        Ok(Publisher { shelf, tail, shown })
    }

    /// Allocates memory for the posting of one more record. If that fails, what was posted is unchanged.
    pub fn prepare(
        &mut self,
        rt: &impl Wait,
        alloc: Global,
    ) -> Result<NextCell<T, N, P>, AllocError>
        ensures made { OnOk result (HasRoomMade self.old self.new) }
        ensures unchanged { OnErr result (self.new ≡ self.old) }
    {
        let cell = Box::new(alloc, None)?;
        if self.shown.len() >= SEGMENT_LEN {
            self.begin_segment(rt, alloc)?;
        }
        Ok(NextCell { cell })
    }

    // Continues in a new segment, which it appends to the live segments.
    fn begin_segment(&mut self, rt: &impl Wait, alloc: Global) -> Result<(), AllocError>
        ensures begun { OnOk result (self.new ≡ record { from = self.old.from + SEGMENT_LEN; posted = [] }) }
        ensures unchanged { OnErr result (self.new ≡ self.old) }
    {
        let Some(from) = self.tail.from.checked_add(SEGMENT_LEN) else {
            return Err(AllocError);
        };
        let next = Arc::new(alloc, Segment::new(alloc, from)?)?;
        self.shelf.lock(rt).add(Arc::try_clone(&next)?)?;
        self.shown = next.cells.start();
        self.tail = next;
        Ok(())
    }

    /// Posts the front with its note, for the cursors that have not taken its last record. Returns `false`, and
    /// posts nothing, if its cell was already set: then no cursor finds this record or a later one.
    pub fn post(&mut self, slip: NextCell<T, N, P>, note: N, front: Front<T>) -> bool
        requires history { front.name ≡ P.history }
        requires noted { P.notes front.list note }
        requires room { length self.old.posted < SEGMENT_LEN }
        ensures posted { result ≡ true
            → self.new ≡ record self.old { posted = self.old.posted ++ Some front.list ∷ [] } }
        ensures unchanged { result ≡ false → self.new ≡ self.old }
    {
        let NextCell { mut cell } = slip;
        *cell = Some(Published::new(note, front));
        match self.tail.cells.append(&mut self.shown, cell) {
            Ok(()) => true,
            Err(_) => false,
        }
    }

    /// Makes a cursor that has taken the records of the front, and finds those that are posted from now on.
    /// Fails only if memory cannot be allocated.
    pub fn walker(&self, front: &Front<T>) -> Result<Cursor<T, N, P>, AllocError>
        requires { front.now.name ≡ P.history }
        ensures { IfOk result (λ walker.
            walker ≡ record { list = front.now.list; found = false }) }
    {
        let _shown = self.shown.len();
        let shelf = Arc::try_clone(&self.shelf)?;
        let segment = Arc::try_clone(&self.tail)?;
        Ok(Cursor::new(shelf, segment, self.shown.again(), front.again()))
    }
}
