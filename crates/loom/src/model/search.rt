//! The loop of a check: one round after another, until no run is left, one fails or a limit is reached.
ghost use Rattle.std.specs.Prelude.{◌≡◌, ◌≤◌, ◌<◌, ◌^◌, ◌-◌, None, Err, IfOk, IfErr, OnErr, IfSome};
ghost use Rattle.loom_engine.specs.Path.Route.{IsAtStart, IsSameSearch};
ghost use Rattle.loom.specs.Model.Run.{IsLocated, RunsAlong};
ghost use Rattle.loom_engine.specs.Runs.Body.{runs as runs_of};
ghost use Rattle.loom.specs.Model.Check.{Reports};
ghost use Rattle.loom.specs.Model.Loop.{Comes, HasReached};
ghost use Rattle.loom.specs.Model.Refusals.{CountsFaults, IsNoReport, StillHolds};
ghost use Rattle.loom.specs.Model.Settings.{explores, tested};
ghost use Rattle.loom.specs.declared.model.report.Report.TheVariants.{Complete};

use crate::checkpoint::store::CheckpointStore;
use crate::model::Limit;
use crate::model::builder::Builder;
use crate::model::clock::Clock;
use crate::model::error::CheckError;
use crate::model::limits::{log_runs, most_runs};
use crate::model::listener::{LastLocations, NoListener};
use crate::model::progress::log_switches;
use crate::model::receiver::Receiver;
use crate::model::report::Report;
use crate::model::rounds::Round;
use crate::model::run::{Ending, Room, run};
use crate::model::runs::RunMaker;
use crate::model::saving::{Pace, save_and_run, stop};
use log::Log;
use loom_engine::rt::execution::Limits;
use loom_engine::rt::path::Path;
use loom_engine::rt::snapshots::MOST_SNAPSHOTS;
use loom_objects::body::Body;
use loom_objects::failure::Failure;
use std::alloc::{AllocError, Global};

impl Builder {
    /// The runs of a check, which a receiver is given.
    pub(crate) fn search<B, Choices, R, C, S, L>(
        &self,
        alloc: Global,
        body: &B,
        receiver: &mut R,
        clock: &mut C,
        store: &mut S,
        log: &L,
    ) -> Result<Report, CheckError>
    where
        B: Body,
        R: Receiver<B::Data, Choices>,
        C: Clock,
        S: CheckpointStore,
        L: Log,
        ensures reports { IfOk result (Reports R.receives receiver.old receiver.new self.now (runs_of B.next (explores self.now) self.now.max_threads self.now.max_steps body.now) (S.gives store.old) (S.holds store.new) (C.answered clock.new)) }
        ensures refused { IfErr (tested self.now) (λ e. (result ≡ Err e) × (receiver.new ≡ receiver.old)) }
        ensures errors { IfErr result (IsNoReport self.now (S.gives store.old) (receiver.new ≡ receiver.old)) }
        ensures left { OnErr result (StillHolds self.now (runs_of B.next (explores self.now) self.now.max_threads self.now.max_steps body.now) (S.gives store.old) (S.holds store.old) (S.holds store.new)) }
        ensures faults { CountsFaults result (S.fault_count store.old) (S.fault_count store.new) }
    {
        self.test()?;
        let mut room = Room::new(alloc, self.limits())?;
        let runs = BodyRuns {
            builder: self,
            body,
            log,
        };
        let report = runs.make_rounds(alloc, &mut room, receiver, clock, store);
        room.leave();
        report
    }

    /// The limit that a check has reached after so many runs, if any. The clock is asked where a duration is set.
    pub(crate) fn reached<C: Clock>(&self, runs: u64, clock: &mut C) -> Option<Limit>
        ensures reached { HasReached (C.answered clock.new) self.now runs result }
        ensures fits { result ≡ None → runs < 2 ^ 64 - 1 }
    {
        if runs >= most_runs(self.max_permutations) {
            return Some(Limit::Permutations);
        }
        match self.max_duration {
            Some(longest) if clock.elapsed() >= longest => Some(Limit::Duration),
            _ => None,
        }
    }

    /// One run along the path, from its start.
    fn run<B: Body>(
        &self,
        room: &mut Room<B>,
        body: &B,
        path: &mut Path,
    ) -> Result<Ending<B::Data>, AllocError>
        requires some { 1 ≤ self.now.max_threads }
        requires few { self.now.max_threads ≤ 5 }
        requires starts { IsAtStart (explores self.now) path.old }
        ensures along { IfOk result (λ ending. RunsAlong (runs_of B.next (explores self.now) self.now.max_threads self.now.max_steps body.now) path.old ending path.new) }
        ensures located { IfOk result (IsLocated self.now.location) }
        ensures same { IsSameSearch path.old path.new }
    {
        let limits = self.limits();
        if self.location {
            run(room, limits, body, path, &mut LastLocations::new())
        } else {
            run(room, limits, body, path, &mut NoListener)
        }
    }

    /// One run along the path, from its start, in a room of its own.
    pub(crate) fn run_once<B: Body>(
        &self,
        alloc: Global,
        body: &B,
        path: &mut Path,
    ) -> Result<Ending<B::Data>, AllocError>
        requires some { 1 ≤ self.now.max_threads }
        requires few { self.now.max_threads ≤ 5 }
        requires starts { IsAtStart (explores self.now) path.old }
        ensures along { IfOk result (λ ending. RunsAlong (runs_of B.next (explores self.now) self.now.max_threads self.now.max_steps body.now) path.old ending path.new) }
        ensures located { IfOk result (IsLocated self.now.location) }
        ensures same { IsSameSearch path.old path.new }
    {
        let mut room = Room::new(alloc, self.limits())?;
        let ending = self.run(&mut room, body, path);
        room.leave();
        ending
    }

    /// How many runs are kept at most, at their branch points.
    pub(crate) fn most_snapshots(&self) -> usize {
        if self.snapshots { MOST_SNAPSHOTS } else { 0 }
    }

    /// How much a run may use.
    pub(crate) fn limits(&self) -> Limits
        ensures threads { result.max_threads ≡ self.now.max_threads }
        ensures steps { result.max_steps ≡ self.now.max_steps }
    {
        Limits {
            max_threads: self.max_threads,
            max_steps: self.max_steps,
        }
    }
}

/// Makes the runs of a body, as a builder asks for them, and logs which thread goes on.
#[derive(Drop)]
pub(crate) struct BodyRuns<'a, B, L> {
    pub(crate) builder: &'a Builder,
    pub(crate) body: &'a B,
    pub(crate) log: &'a L,
}

impl<'a, B: Body, L: Log> BodyRuns<'a, B, L> {
    /// Makes one round after another in this room, until the check ends. The settings were tested.
    fn make_rounds<Choices, R: Receiver<B::Data, Choices>, C: Clock, S: CheckpointStore>(
        &self,
        alloc: Global,
        room: &mut Room<B>,
        receiver: &mut R,
        clock: &mut C,
        store: &mut S,
    ) -> Result<Report, CheckError>
        requires some { 1 ≤ self.now.builder.now.max_threads }
        requires few { self.now.builder.now.max_threads ≤ 5 }
        requires branches { self.now.builder.now.max_branches ≤ 1000000 }
        requires bound { IfSome self.now.builder.now.preemption_bound (λ bound. bound ≤ 255) }
        requires interval { 0 < self.now.builder.now.checkpoint_interval }
        ensures reports { IfOk result (Reports R.receives receiver.old receiver.new self.now.builder.now (runs_of B.next (explores self.now.builder.now) self.now.builder.now.max_threads self.now.builder.now.max_steps self.now.body.now) (S.gives store.old) (S.holds store.new) (C.answered clock.new)) }
        ensures errors { IfErr result (IsNoReport self.now.builder.now (S.gives store.old) (receiver.new ≡ receiver.old)) }
        ensures left { OnErr result (StillHolds self.now.builder.now (runs_of B.next (explores self.now.builder.now) self.now.builder.now.max_threads self.now.builder.now.max_steps self.now.body.now) (S.gives store.old) (S.holds store.old) (S.holds store.new)) }
        ensures faults { CountsFaults result (S.fault_count store.old) (S.fault_count store.new) }
    {
        let mut path = self.builder.begin(alloc, store)?;
        let mut pace = Pace::new(self.builder.checkpoint_interval);
        loop {
            if let Some(limit) = self.builder.reached(pace.runs, clock) {
                return Ok(stop(alloc, &path, store, pace.runs, limit)?);
            }
            match save_and_run(
                alloc, self, room, receiver, &mut path, store, self.log, &mut pace,
            )? {
                Round::Next => pace.runs += 1,
                Round::Last => return Ok(complete(self.log, pace.runs + 1)),
                Round::Failed(failure, choices) => {
                    return Ok(Report::Failed {
                        runs: pace.runs,
                        failure,
                        choices,
                    });
                }
            }
        }
    }
}

/// The check is complete with so many runs, and logs that.
pub(crate) fn complete<L: Log>(log: &L, runs: u64) -> Report
    ensures { result ≡ Complete runs }
{
    log_runs(log, "completed in ", runs, " iterations");
    Report::Complete { runs }
}

impl<'a, B: Body, L: Log> RunMaker<B::Data> for BodyRuns<'a, B, L> {
    ghost may_run = { λ runs. (1 ≤ runs.builder.now.max_threads) × (runs.builder.now.max_threads ≤ 5) };

    ghost begins_exploring = { λ runs. explores runs.builder.now };

    ghost comes = { λ runs. Comes (runs_of B.next (explores runs.builder.now) runs.builder.now.max_threads runs.builder.now.max_steps runs.body.now) runs.builder.now.location };

    type Room = Room<B>;

    fn run(
        &self,
        room: &mut Room<B>,
        path: &mut Path,
    ) -> Result<Result<B::Data, Failure>, AllocError> {
        let answer = self.builder.run(room, self.body, path);
        if self.builder.log {
            log_switches(self.log, path);
        }
        match answer? {
            Ending::Ended(value) => Ok(Ok(value)),
            Ending::Failed(failure) => Ok(Err(failure)),
        }
    }
}
