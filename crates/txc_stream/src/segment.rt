//! Segments of cells, and the list of live segments.

ghost use Rattle.std.specs.Prelude.{◌≡◌, ◌<◌, ◌++◌, ◌∷◌, [], true, length, IfOk, IfSome, OnOk, OnErr};
ghost use Rattle.std.specs.Arc.{arc_value};
ghost use Rattle.txc_stream.specs.Published.{AreLeft};
ghost use Rattle.txc_stream.specs.declared.segment.TheConstants.{SEGMENT_LEN};

use crate::published::{Published, Publishes};
use crate::row::EventRow;
use std::alloc::{AllocError, Global};
use std::sync::Arc;

/// The number of records that a segment has cells for.
pub const SEGMENT_LEN: usize = 1_024;

/// Cells for a run of records, in order: those after the first `from`. A cell set to nothing was cancelled.
#[derive(Drop)]
pub struct Segment<T, N, P: Publishes<T, N>> {
    pub(crate) cells: EventRow<Option<Published<T, N, P>>>,
    pub(crate) from: usize,
}

impl<T, N, P: Publishes<T, N>> Segment<T, N, P> {
    pub(crate) fn new(alloc: Global, from: usize) -> Result<Segment<T, N, P>, AllocError>
        ensures { IfOk result (λ segment. (segment.from ≡ from) × (length segment.cells ≡ SEGMENT_LEN)) }
    {
        let cells = EventRow::new(alloc, SEGMENT_LEN)?;
        Ok(Segment { cells, from })
    }
}

/// The live segments, the earliest first: those in which a cursor or the publisher may still be.
#[derive(Drop)]
pub(crate) struct LiveSegments<T, N, P: Publishes<T, N>> {
    segments: Vec<Arc<Segment<T, N, P>>>,
}

impl<T: Drop, N: Drop, P: Publishes<T, N>> LiveSegments<T, N, P> {
    /// Makes an empty list.
    pub(crate) fn new(alloc: Global) -> LiveSegments<T, N, P>
        ensures { result.segments.items ≡ [] }
    {
        LiveSegments {
            segments: Vec::new(alloc),
        }
    }

    /// Returns a handle of the segment that begins at record `from`, if that is in the list.
    pub(crate) fn beginning_at(&self, from: usize) -> Option<Arc<Segment<T, N, P>>>
        ensures { IfSome result (λ segment. (arc_value segment).from ≡ from) }
    {
        for segment in &self.segments {
            if segment.from == from {
                return Arc::try_clone(segment).ok();
            }
        }
        None
    }

    // Returns `true` if no cursor and no publisher holds the first segment.
    fn is_first_left(&self) -> bool
        ensures { result ≡ true → 0 < length self.now.segments.items }
    {
        match self.segments.first() {
            Some(segment) => Arc::strong_count(segment) == 1,
            None => false,
        }
    }

    // Drops the first segments that no cursor and no publisher holds.
    #[tactic(auto, using(crate::proofs::Shelves::left_all, crate::proofs::Shelves::left_rest))]
    fn drop_left(&mut self)
        ensures { AreLeft self.old.segments.items self.new.segments.items }
    {
        while self.is_first_left() {
            drop(self.segments.remove(0));
        }
    }

    /// Appends a segment to the list, and drops the first segments that no cursor and no publisher holds.
    #[tactic(auto, using(crate::proofs::Shelves::left_more))]
    pub(crate) fn add(&mut self, segment: Arc<Segment<T, N, P>>) -> Result<(), AllocError>
        ensures added { OnOk result
            (AreLeft (self.old.segments.items ++ segment ∷ []) self.new.segments.items) }
        ensures left { OnErr result (AreLeft self.old.segments.items self.new.segments.items) }
    {
        self.drop_left();
        self.segments.push(segment)?;
        Ok(())
    }
}
