//! The accesses of a cell, to find data races: the joined views of its reads and of its writes. They are a plain value; no call here takes memory.
//!
//! A public call speaks of every graph and all accesses that the vectors show. No call moves a thread's views. Where a call
//! fails, the records are as before.

ghost use Rattle.std.specs.Prelude.{◌≡◌, ℕ, IfSome, OnErr};
ghost use Rattle.loom_views.specs.InOrder.{PairsRecords, Ranked};
ghost use Rattle.loom_views.specs.Graph.{Graph, IsChained, Shows};
ghost use Rattle.loom_views.specs.CellAccesses.{Accesses, new_accesses, read_step, write_step, ShowsAccesses, RecordsAs};

use crate::rt::failure::FailureKind;
use crate::rt::ranks::{Ranks, Standing};
use crate::rt::synchronize::ThreadViews;
use crate::rt::vv::{VersionVec, mixed};
use crate::same::Same;

/// The joined views of a cell's reads, and those of its writes (loom's `rt/cell.rs`).
#[derive(Clone, Copy)]
pub struct AccessRecords {
    reads: VersionVec,
    writes: VersionVec,
}

impl AccessRecords {
    /// A cell that a thread makes, which counts as a read and a write of it (loom's `rt/cell.rs`).
    pub fn new(views: &ThreadViews) -> AccessRecords
        ensures { (g : Graph) (present : ℕ) → Shows g present views.now.present → ShowsAccesses g (new_accesses present) result }
    {
        AccessRecords {
            reads: views.present,
            writes: views.present,
        }
    }

    /// Tests a read of a thread, and records it. It is `Race` with a write that the thread doesn't know of (loom's
    /// `rt/cell.rs`).
    pub fn read(&mut self, views: &ThreadViews) -> Result<(), FailureKind>
        ensures shown { (g : Graph) (present : ℕ) (cell : Accesses) → IsChained g → Shows g present views.now.present → ShowsAccesses g cell self.old →
            RecordsAs g (read_step g present cell) result self.new }
        ensures err { OnErr result (self.new ≡ self.old) }
    {
        if !self.writes.is_within(&views.present) {
            return Err(FailureKind::Race);
        }
        self.reads.join(&views.present);
        Ok(())
    }

    /// Tests a write of a thread, and records it. It is `Race` with a write or a read that the thread doesn't know of (loom's
    /// `rt/cell.rs`).
    pub fn write(&mut self, views: &ThreadViews) -> Result<(), FailureKind>
        ensures shown { (g : Graph) (present : ℕ) (cell : Accesses) → IsChained g → Shows g present views.now.present → ShowsAccesses g cell self.old →
            RecordsAs g (write_step g present cell) result self.new }
        ensures err { OnErr result (self.new ≡ self.old) }
    {
        if !self.writes.is_within(&views.present) || !self.reads.is_within(&views.present) {
            return Err(FailureKind::Race);
        }
        self.writes.join(&views.present);
        Ok(())
    }
}

impl Same for AccessRecords {
    fn is_same(&self, other: &AccessRecords) -> bool {
        self.reads.is_same(&other.reads) && self.writes.is_same(&other.writes)
    }
}

impl AccessRecords {
    /// Adds their counts (own).
    pub fn stand(&self, standing: &mut Standing) {
        standing.add_all(&self.reads);
        standing.add_all(&self.writes);
    }

    /// The records by ranks, if each count has one (own).
    pub fn ranked(&self, ranks: &Ranks) -> Option<AccessRecords>
        ensures { IfSome result (λ ranked. PairsRecords (Ranked ranks.now) self.now ranked) }
    {
        Some(AccessRecords {
            reads: self.reads.ranked(ranks)?,
            writes: self.writes.ranked(ranks)?,
        })
    }

    /// A number that depends on the records alone (own).
    pub fn digest(&self) -> u64 {
        mixed(self.reads.digest(), self.writes.digest())
    }
}
