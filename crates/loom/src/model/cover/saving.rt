//! A covering check begins with the path in its store, and saves its path there, before a run and where it stops.
ghost use Rattle.std.specs.Prelude.{◌≤◌, ◌<◌, ◌-◌, ◌^◌, IfOk, IfErr, OnErr, OnOk};
ghost use Rattle.loom.specs.Model.CoverStores.{IsCoverBegun, IsCoverKept, IsCoverSaved, IsNoBeginning};
ghost use Rattle.loom.specs.Model.Refusals.{CountsFaults};
ghost use Rattle.loom.specs.Model.Stores.{Counts, Keeps};

use crate::checkpoint::store::{CheckpointStore, StoreError};
use crate::model::builder::Builder;
use crate::model::cover::text::{from_text, to_text};
use crate::model::error::CheckError;
use crate::model::limits::log_runs;
use crate::model::paths::path_search;
use crate::model::progress::log_share;
use log::Log;
use loom_engine::rt::path::Path;
use std::alloc::Global;

impl Builder {
    /// The path with which a covering check begins: that of the text in the store, or one without nodes.
    pub(crate) fn begin_cover<S: CheckpointStore>(
        &self,
        alloc: Global,
        store: &mut S,
    ) -> Result<Path, CheckError>
        requires branches { self.now.max_branches ≤ 1000000 }
        ensures begun { IfOk result (IsCoverBegun self.now (S.gives store.old) (S.holds store.new)) }
        ensures errors { IfErr result (IsNoBeginning self.now (S.gives store.old)) }
        ensures left { OnErr result (Keeps (S.holds store.old) (S.holds store.new)) }
        ensures faults { CountsFaults result (S.fault_count store.old) (S.fault_count store.new) }
    {
        let search = path_search(false, None, self.max_branches, self.expect_explicit_explore);
        match store.load(alloc)? {
            Some(text) => Ok(from_text(alloc, text.as_slice(), search)?),
            None => Ok(Path::new(alloc, search)),
        }
    }
}

/// Saves the path where it is time for that: before each run whose number is a multiple of the interval. So many runs were begun.
/// Answers how many are begun until the next time.
pub(crate) fn keep<S: CheckpointStore, L: Log>(
    alloc: Global,
    path: &Path,
    store: &mut S,
    log: &L,
    begun: u64,
    interval: usize,
    until_save: usize,
) -> Result<usize, StoreError>
    requires fits { begun < 2 ^ 64 - 1 }
    requires interval { 0 < interval }
    ensures kept { IfOk result (IsCoverKept interval until_save path.now (S.holds store.old) (S.holds store.new)) }
    ensures left { OnErr result (Keeps (S.holds store.old) (S.holds store.new)) }
    ensures faults { Counts result (S.fault_count store.old) (S.fault_count store.new) }
{
    if until_save > 0 {
        return Ok(until_save - 1);
    }
    save(alloc, path, store)?;
    log_runs(log, "iteration ", begun + 1, "");
    log_share(log, path);
    Ok(interval - 1)
}

/// Saves the path.
pub(crate) fn save<S: CheckpointStore>(
    alloc: Global,
    path: &Path,
    store: &mut S,
) -> Result<(), StoreError>
    ensures saved { OnOk result ((text : _) × IsCoverSaved path.now (S.holds store.new) text) }
    ensures left { OnErr result (Keeps (S.holds store.old) (S.holds store.new)) }
    ensures faults { Counts result (S.fault_count store.old) (S.fault_count store.new) }
{
    path.well_formed_rests();
    let Ok(text) = to_text(alloc, path) else {
        return Err(StoreError::Memory);
    };
    store.save(text.as_str())?;
    Ok(())
}
