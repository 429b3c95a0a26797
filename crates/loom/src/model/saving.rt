//! A check saves its path, before a run and where it stops.
ghost use Rattle.std.specs.Prelude.{◌≡◌, ◌<◌, ◌-◌, ◌^◌, IfOk, OnErr, string_bytes};
ghost use Rattle.loom.specs.Model.Rounds.{ComesTo};
ghost use Rattle.loom_engine.specs.Path.Route.{IsAtStart, stored};
ghost use Rattle.loom.specs.Model.Saving.{IsKept, IsLeft, IsSavedAs, IsStoppedWith};
ghost use Rattle.loom.specs.Model.Stores.{Counts, Keeps};
ghost use Rattle.loom_engine.specs.Trees.Resuming.{AreAtRest, HasDefaults};

use crate::checkpoint::store::{CheckpointStore, StoreError};
use crate::model::Limit;
use crate::model::limits::log_runs;
use crate::model::progress::log_share;
use crate::model::receiver::Receiver;
use crate::model::report::Report;
use crate::model::rounds::{Round, run_and_step};
use crate::model::runs::RunMaker;
use log::Log;
use loom_engine::rt::path::Path;
use loom_engine::rt::path::checkpoint::text::to_text;
use std::alloc::Global;

/// How far a check has come, and when it saves its path.
#[derive(Drop)]
pub struct Pace {
    /// It saves its path before each run whose number is a multiple of this.
    pub interval: usize,
    /// How many runs are made.
    pub runs: u64,
    /// How many runs are made until the next time.
    pub until_save: usize,
}

impl Pace {
    /// Before the first run.
    pub fn new(interval: usize) -> Pace
        requires { 0 < interval }
        ensures interval { result.interval ≡ interval }
        ensures runs { result.runs ≡ 0 }
        ensures until { result.until_save ≡ interval - 1 }
    {
        Pace {
            interval,
            runs: 0,
            until_save: interval - 1,
        }
    }
}

/// Saves the path where it is time for that, and then makes one run along it, which the receiver is given, and the step to the
/// next one. So what is saved is never the path of a run that failed. After an error the store holds what it held, or that.
pub fn save_and_run<D: Drop, Choices, M, R, S, L>(
    alloc: Global,
    runs: &M,
    room: &mut M::Room,
    receiver: &mut R,
    path: &mut Path,
    store: &mut S,
    log: &L,
    pace: &mut Pace,
) -> Result<Round, StoreError>
where
    M: RunMaker<D>,
    R: Receiver<D, Choices>,
    S: CheckpointStore,
    L: Log,
    requires may { M.may_run runs.now }
    requires starts { IsAtStart (M.begins_exploring runs.now) path.old }
    requires rests { AreAtRest (stored path.old.nodes) }
    requires defaults { HasDefaults (stored path.old.nodes) }
    requires fits { pace.old.runs < 2 ^ 64 - 1 }
    requires interval { 0 < pace.old.interval }
    ensures kept { IfOk result (λ _. IsKept pace.old.interval pace.old.until_save path.old (S.holds store.old) (S.holds store.new) pace.new.until_save) }
    ensures left { OnErr result (IsLeft path.old (S.holds store.old) (S.holds store.new)) }
    ensures interval { pace.new.interval ≡ pace.old.interval }
    ensures runs { pace.new.runs ≡ pace.old.runs }
    ensures comes { IfOk result (λ round. ComesTo (M.comes runs.now) R.receives path.old receiver.old round path.new receiver.new) }
    ensures faults { Counts result (S.fault_count store.old) (S.fault_count store.new) }
{
    pace.until_save = keep(alloc, path, store, log, pace)?;
    match run_and_step(alloc, runs, room, receiver, path) {
        Ok(round) => Ok(round),
        Err(_) => Err(StoreError::Memory),
    }
}

/// Saves the path where it is time for that. Answers how many runs are made until the next time.
pub fn keep<S: CheckpointStore, L: Log>(
    alloc: Global,
    path: &Path,
    store: &mut S,
    log: &L,
    pace: &Pace,
) -> Result<usize, StoreError>
    requires fits { pace.now.runs < 2 ^ 64 - 1 }
    requires interval { 0 < pace.now.interval }
    requires rests { AreAtRest (stored path.now.nodes) }
    requires defaults { HasDefaults (stored path.now.nodes) }
    ensures kept { IfOk result (λ left. IsKept pace.now.interval pace.now.until_save path.now (S.holds store.old) (S.holds store.new) left) }
    ensures left { OnErr result (Keeps (S.holds store.old) (S.holds store.new)) }
    ensures faults { Counts result (S.fault_count store.old) (S.fault_count store.new) }
{
    if pace.until_save > 0 {
        return Ok(pace.until_save - 1);
    }
    save(alloc, path, store)?;
    log_runs(log, "iteration ", pace.runs + 1, "");
    log_share(log, path);
    Ok(pace.interval - 1)
}

/// A limit was reached after so many runs: the path is saved once more, and the check goes on with its text.
pub fn stop<S: CheckpointStore>(
    alloc: Global,
    path: &Path,
    store: &mut S,
    runs: u64,
    limit: Limit,
) -> Result<Report, StoreError>
    requires rests { AreAtRest (stored path.now.nodes) }
    requires defaults { HasDefaults (stored path.now.nodes) }
    ensures stopped { IfOk result (IsStoppedWith path.now (S.holds store.new) runs limit) }
    ensures left { OnErr result (Keeps (S.holds store.old) (S.holds store.new)) }
    ensures faults { Counts result (S.fault_count store.old) (S.fault_count store.new) }
{
    Ok(Report::Stopped {
        runs,
        limit,
        checkpoint: save(alloc, path, store)?,
    })
}

/// Saves the path, and answers its text.
pub fn save<S: CheckpointStore>(
    alloc: Global,
    path: &Path,
    store: &mut S,
) -> Result<String, StoreError>
    requires rests { AreAtRest (stored path.now.nodes) }
    requires defaults { HasDefaults (stored path.now.nodes) }
    ensures saved { IfOk result (λ text. IsSavedAs path.now (S.holds store.new) (string_bytes text)) }
    ensures left { OnErr result (Keeps (S.holds store.old) (S.holds store.new)) }
    ensures faults { Counts result (S.fault_count store.old) (S.fault_count store.new) }
{
    path.well_formed_rests();
    let _words = path.words();
    let Ok(text) = to_text(alloc, path) else {
        return Err(StoreError::Memory);
    };
    store.save(text.as_str())?;
    Ok(text)
}
