//! Counts of the dead rows in the table of last versions.

use crate::writes::WriteCounts;

/// The least number of dead versions in the table after which it is rebuilt.
const LEAST_ENDED: usize = 1024;

/// Number of rows of the table, and how many of them have died.
#[derive(Clone, Copy)]
pub(crate) struct Counts {
    rows: usize,
    ended: usize,
    /// Number of rows that had died when a write at stamp `noted_at` began.
    ended_before: usize,
    noted_at: u32,
    /// The last stamp of a write.
    newest: u32,
}

impl Counts {
    pub(crate) const NONE: Counts = Counts {
        rows: 0,
        ended: 0,
        ended_before: 0,
        noted_at: 0,
        newest: 0,
    };

    /// Returns `true` if at least half of the table's versions, and at least [`LEAST_ENDED`], are known to have
    /// died before the stamp.
    pub(crate) fn is_mostly_ended(&self, from: u32) -> bool {
        let gone = self.ended.min(self.ended_before);
        self.noted_at < from && gone >= LEAST_ENDED.max(self.rows / 2)
    }

    /// Counts a commit that was written.
    pub(crate) fn note(&mut self, written: WriteCounts, stamp: u32) {
        self.newest = self.newest.max(stamp);
        self.rows = self.rows.wrapping_add(written.added);
        let ended = self.ended.wrapping_add(written.ended);
        self.ended = ended.saturating_sub(written.revived);
    }

    /// Hides the versions that died before the stamp.
    pub(crate) fn hide(&mut self, from: u32) {
        if self.noted_at < from {
            self.ended_before = self.ended;
            self.noted_at = self.newest;
        }
    }

    /// Sets the counts of a rebuilt table with that many rows.
    pub(crate) fn rebuilt(&mut self, rows: usize) {
        self.rows = rows;
        self.ended = 0;
        self.ended_before = 0;
        self.noted_at = self.newest;
    }
}
