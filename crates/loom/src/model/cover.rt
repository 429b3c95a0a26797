//! Checks that remember states, and so cover every run of a body. At each first branch point of an operation past the nodes of its
//! path a run's state is looked up: if it was noted the run is given up there, since what comes then is tried from where it was
//! noted; otherwise it is noted. From the ways that runs went between such states it is known whether each of them leads to an end.
pub(crate) mod keys;
pub mod part;
pub mod part_texts;
pub mod run;
pub(crate) mod saving;
pub mod text;

ghost use Rattle.std.specs.Prelude.{◌≡◌, ◌≤◌, ◌<◌, [], Err, IfOk, IfErr, OnErr, false};
ghost use Rattle.loom_engine.specs.Covering.Sight.{IsKnown};
ghost use Rattle.loom.specs.Model.CoverStores.{IsNoReport, StillHolds};
ghost use Rattle.loom.specs.Model.Covered.{Covering, CoveringAlone, FailsAlong, IsToldBy};
ghost use Rattle.loom.specs.Model.Refusals.{CountsFaults};
ghost use Rattle.loom.specs.Model.Settings.{tested};

use crate::checkpoint::memory::MemoryStore;
use crate::checkpoint::store::CheckpointStore;
use crate::model::Limit;
use crate::model::builder::Builder;
use crate::model::clock::{Clock, NoClock};
use crate::model::cover::run::{Ending, run};
use crate::model::cover::saving::{keep, save};
use crate::model::error::CheckError;
use crate::model::limits::log_runs;
use crate::model::receiver::{Listed, NoReceiver, Receiver, Unlisted};
use crate::model::run::Room;
use crate::model::visitor::Visitor;
use log::Log;
use loom_engine::rt::path::Path;
use loom_engine::rt::path::choices::ChoiceList;
use loom_engine::rt::states::States;
use loom_engine::rt::states::trails::Trails;
use loom_engine::rt::states::ways::Ways;
use loom_objects::body::Body;
use loom_objects::choice::Choice;
use loom_objects::failure::Failure;
use loom_views::rt::failure::FailureKind;
use loom_views::same::Same;
use std::alloc::{AllocError, Global};

/// So many states are noted at most, where nothing else is said: with some kilobytes each they take a gigabyte at most.
pub const MOST_STATES: usize = 100_000;

/// What a check found that remembers states. `runs` counts the runs that ended without a failure, `met` those that were given up
/// where a state was noted, and `states` the states that were noted.
#[derive(Debug, Drop)]
pub enum Covered {
    /// Nothing is left to be tried, and no run failed: each run of the body is covered, and each can end.
    Complete {
        runs: u64,
        met: u64,
        states: usize,
    },
    /// Nothing is left to be tried, and no run failed; but from a state that was noted no way leads to a run's end, as where a thread
    /// tries for a mutex again and again that another never lets go. These choices lead there, to the first such state.
    Livelock {
        runs: u64,
        met: u64,
        states: usize,
        choices: Vec<Choice>,
    },
    /// A limit was reached.
    Stopped {
        runs: u64,
        met: u64,
        states: usize,
        limit: Limit,
    },
    /// A run failed, under these choices.
    Failed {
        runs: u64,
        met: u64,
        states: usize,
        failure: Failure,
        choices: Vec<Choice>,
    },
}

impl Builder {
    /// `cover_with`, without a visitor, a clock, a store and a log, and with at most `MOST_STATES` states (own).
    pub fn cover<B: Body + Same>(&self, alloc: Global, body: &B) -> Result<Covered, CheckError>
    where
        B::Data: Same,
        ensures covers { IfOk result (CoveringAlone self.now B.next body.now) }
        ensures refused { IfErr (tested self.now) (λ e. result ≡ Err e) }
    {
        let log = None::<HostRuntime>;
        self.cover_runs::<
            B,
            Unlisted,
            NoReceiver,
            NoClock,
            Option<MemoryStore>,
            Option<HostRuntime>,
        >(
            alloc,
            body,
            &mut NoReceiver,
            &mut NoClock,
            &mut None,
            MOST_STATES,
            &log,
        )
    }

    /// Makes runs of the body until each of its runs is covered, one fails or a limit is reached, and gives each that ended without a
    /// failure to the visitor. Its search is whole and without a bound, whatever `reduce` and `preemption_bound` say. So many states are
    /// noted at most; where there are as many none is noted any more, and the report claims the same. `max_permutations` counts the runs
    /// that were begun. Where a run that never ends reaches a state again it is given up there; if no way leads from there to an end, that
    /// is a livelock.
    ///
    /// It begins with the path that the store holds, if there is one, and saves its path before each run whose number is a multiple of the
    /// interval, and where it stops. What it had noted is forgotten then: so runs are made again, and livelocks are reported of the
    /// states alone that were noted since. The text of its path says that it is of a covering check: `check_with` refuses it, and this
    /// one that of another check. Errors are those of `check_with` (own).
    pub fn cover_with<B: Body + Same, V: Visitor<B::Data>, C: Clock, S: CheckpointStore, L: Log>(
        &self,
        alloc: Global,
        body: &B,
        visitor: &mut V,
        clock: &mut C,
        store: &mut S,
        most_states: usize,
        log: &L,
    ) -> Result<Covered, CheckError>
    where
        B::Data: Same,
        ensures covers { IfOk result (Covering V.takes visitor.old visitor.new self.now B.next body.now (S.gives store.old) (S.holds store.new) (C.answered clock.new)) }
        ensures refused { IfErr (tested self.now) (λ e. (result ≡ Err e) × (visitor.new ≡ visitor.old)) }
        ensures errors { IfErr result (IsNoReport self.now (S.gives store.old) (visitor.new ≡ visitor.old)) }
        ensures left { OnErr result (StillHolds self.now B.next body.now (S.gives store.old) (S.holds store.old) (S.holds store.new)) }
        ensures faults { CountsFaults result (S.fault_count store.old) (S.fault_count store.new) }
    {
        self.cover_runs::<B, Listed, V, C, S, L>(
            alloc,
            body,
            visitor,
            clock,
            store,
            most_states,
            log,
        )
    }

    /// The runs of such a check, which a receiver is given.
    fn cover_runs<
        B: Body + Same,
        Choices,
        R: Receiver<B::Data, Choices>,
        C: Clock,
        S: CheckpointStore,
        L: Log,
    >(
        &self,
        alloc: Global,
        body: &B,
        receiver: &mut R,
        clock: &mut C,
        store: &mut S,
        most_states: usize,
        log: &L,
    ) -> Result<Covered, CheckError>
    where
        B::Data: Same,
        ensures covers { IfOk result (Covering R.receives receiver.old receiver.new self.now B.next body.now (S.gives store.old) (S.holds store.new) (C.answered clock.new)) }
        ensures refused { IfErr (tested self.now) (λ e. (result ≡ Err e) × (receiver.new ≡ receiver.old)) }
        ensures errors { IfErr result (IsNoReport self.now (S.gives store.old) (receiver.new ≡ receiver.old)) }
        ensures left { OnErr result (StillHolds self.now B.next body.now (S.gives store.old) (S.holds store.old) (S.holds store.new)) }
        ensures faults { CountsFaults result (S.fault_count store.old) (S.fault_count store.new) }
    {
        self.test()?;
        let mut room = Room::new(alloc, self.limits())?;
        room.snapshots.allow(self.most_snapshots());
        let known = States::none(alloc, false);
        let mut states = States::new(alloc, most_states, body.never_switches())?;
        let covered = self.cover_rounds::<B, Choices, R, C, S, L>(
            alloc,
            body,
            &mut room,
            &known,
            &mut states,
            receiver,
            clock,
            store,
            log,
        );
        room.leave();
        covered
    }

    /// Makes one run after another with these states, of which none is noted yet, and no others are known. The settings were tested.
    fn cover_rounds<
        B: Body + Same,
        Choices,
        R: Receiver<B::Data, Choices>,
        C: Clock,
        S: CheckpointStore,
        L: Log,
    >(
        &self,
        alloc: Global,
        body: &B,
        room: &mut Room<B>,
        known: &States<B::Data, B>,
        states: &mut States<B::Data, B>,
        receiver: &mut R,
        clock: &mut C,
        store: &mut S,
        log: &L,
    ) -> Result<Covered, CheckError>
    where
        B::Data: Same,
        requires some { 1 ≤ self.now.max_threads }
        requires few { self.now.max_threads ≤ 5 }
        requires branches { self.now.max_branches ≤ 1000000 }
        requires interval { 0 < self.now.checkpoint_interval }
        requires unknown { known.now ≡ record { states = []; led_by = []; never = false } }
        requires none { states.old ≡ record { states = []; led_by = []; never = states.old.never } }
        requires known { IsKnown states.old.never B.next body.now }
        requires anew { room.old.snapshots ≡ [] }
        ensures covers { IfOk result (Covering R.receives receiver.old receiver.new self.now B.next body.now (S.gives store.old) (S.holds store.new) (C.answered clock.new)) }
        ensures errors { IfErr result (IsNoReport self.now (S.gives store.old) (receiver.new ≡ receiver.old)) }
        ensures left { OnErr result (StillHolds self.now B.next body.now (S.gives store.old) (S.holds store.old) (S.holds store.new)) }
        ensures faults { CountsFaults result (S.fault_count store.old) (S.fault_count store.new) }
    {
        let interval = self.checkpoint_interval;
        let mut path = self.begin_cover(alloc, store)?;
        let mut until_save = interval - 1;
        let mut ways = Ways::new(alloc);
        let mut choices = ChoiceList::new(alloc);
        let (mut runs, mut met) = (0u64, 0u64);
        loop {
            if let Some(limit) = self.reached(runs + met, clock) {
                save(alloc, &path, store)?;
                return Ok(stopped(runs, met, states.len(), limit));
            }
            until_save = keep(alloc, &path, store, log, runs + met, interval, until_save)?;
            let noted = states.len();
            let to = match run(room, self.limits(), body, &mut path, known, states)? {
                Ending::Ended(value) => {
                    receiver.receive(alloc, &path, value)?;
                    runs += 1;
                    None
                }
                Ending::Met(number) => {
                    met += 1;
                    Some(number)
                }
                Ending::Failed(failure) => {
                    let failing = self.failing(alloc, body, &path, failure.kind)?;
                    return Ok(failed(runs, met, states.len(), failing));
                }
            };
            choices = path.choices_after(choices)?;
            ways.add_run(states.led_by(), noted, choices.as_slice(), to)?;
            if !path.step() {
                log_runs(log, "completed in ", runs + met, " iterations");
                return Ok(told(alloc, runs, met, states.led_by(), &ways)?);
            }
        }
    }

    /// The failure of this kind of the run along the path, with its place, if places are asked for, and the run's choices.
    fn failing<B: Body>(
        &self,
        alloc: Global,
        body: &B,
        path: &Path,
        kind: FailureKind,
    ) -> Result<Failing, AllocError>
        requires some { 1 ≤ self.now.max_threads }
        requires few { self.now.max_threads ≤ 5 }
        requires branches { self.now.max_branches ≤ 1000000 }
        ensures { IfOk result (λ failing. FailsAlong self.now path.now kind failing.failure failing.choices) }
    {
        let choices = path.choices(alloc)?;
        let failure = self.placed(alloc, body, kind, choices.as_slice())?;
        Ok(Failing { failure, choices })
    }
}

/// How a run failed, and its choices.
#[derive(Drop)]
pub(crate) struct Failing {
    pub(crate) failure: Failure,
    pub(crate) choices: Vec<Choice>,
}

/// The report where a run failed after these.
pub(crate) fn failed(runs: u64, met: u64, states: usize, failing: Failing) -> Covered
    ensures { result ≡ Covered.Failed runs met states failing.failure failing.choices }
{
    Covered::Failed {
        runs,
        met,
        states,
        failure: failing.failure,
        choices: failing.choices,
    }
}

/// The report where a limit was reached after these.
pub(crate) fn stopped(runs: u64, met: u64, states: usize, limit: Limit) -> Covered
    ensures { result ≡ Covered.Stopped runs met states limit }
{
    Covered::Stopped {
        runs,
        met,
        states,
        limit,
    }
}

/// The report where nothing is left to be tried, after so many runs that ended and so many that were given up.
pub(crate) fn told(
    alloc: Global,
    runs: u64,
    met: u64,
    led_by: &Trails,
    ways: &Ways,
) -> Result<Covered, AllocError>
    ensures { IfOk result (IsToldBy ways.now.ways led_by.now runs) }
{
    let states = led_by.len();
    match ways.first_lost(alloc, states)? {
        None => Ok(Covered::Complete { runs, met, states }),
        Some(lost) => Ok(Covered::Livelock {
            runs,
            met,
            states,
            choices: led_by.choices(alloc, lost)?,
        }),
    }
}
