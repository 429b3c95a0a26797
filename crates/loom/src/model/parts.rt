//! Checks of a part of a search, some runs at a time (own).
ghost use Rattle.std.specs.Prelude.{◌≡◌, ◌≤◌, ◌<◌, ◌+◌, ◌^◌, ◌⊎◌, Err, IfOk, IfErr, IfSome, OnErr, false};
ghost use Rattle.loom_engine.specs.Path.Route.{IsAtStart, at_rest};
ghost use Rattle.loom_engine.specs.Runs.Body.{runs as runs_of};
ghost use Rattle.loom.specs.Model.Parts.{ComesToAbove, CountsRuns, IsWithin, Works};
ghost use Rattle.loom.specs.Model.Refusals.{IsOtherPart, of_parts};
ghost use Rattle.loom.specs.Model.Settings.{explores, search_of, tested};

use crate::model::builder::Builder;
use crate::model::clock::Clock;
use crate::model::error::CheckError;
use crate::model::receiver::{Listed, Receiver};
use crate::model::rounds::Round;
use crate::model::run::Room;
use crate::model::runs::RunMaker;
use crate::model::search::BodyRuns;
use crate::model::visitor::Visitor;
use log::Log;
use loom_engine::rt::parts::Part;
use loom_engine::rt::parts::error::PartsError;
use loom_engine::rt::path::Path;
use loom_objects::body::Body;
use loom_objects::choice::Choice;
use loom_objects::failure::Failure;
use std::alloc::{AllocError, Global};
use std::time::Duration;

/// How long a part is worked on at a time (own).
#[derive(Clone, Copy, Debug)]
pub struct Slice {
    /// So many runs are made at most, and one at least.
    pub runs: u64,
    /// No further run is made once the clock is seen to have come so far, if that is limited. It is asked after each of the first
    /// 16 runs, and then once in 16.
    pub until: Option<Duration>,
}

/// How the work on a part went. `runs` counts the runs that ended without a failure (own).
#[derive(Debug, Drop)]
pub enum Worked {
    /// None of its runs failed. The part says whether more are left.
    Made {
        runs: u64,
    },
    /// A run failed, under these choices.
    Failed {
        runs: u64,
        failure: Failure,
        choices: Vec<Choice>,
    },
}

// The clock is asked after each of the first so many runs, and then once in so many, for it takes part of the time of a small run.
const RUNS_TO_A_LOOK: u64 = 16;

impl Slice {
    /// Whether after so many runs no further one is made. The clock is asked now and then, where a time is set.
    pub(crate) fn is_used_up<C: Clock>(&self, runs: u64, clock: &mut C) -> bool
        ensures { result ≡ false → runs < self.now.runs }
    {
        if runs >= self.runs {
            return true;
        }
        match self.until {
            Some(latest) => is_looked_at(runs) && clock.elapsed() >= latest,
            None => false,
        }
    }
}

/// Whether the clock is asked after so many runs.
fn is_looked_at(runs: u64) -> bool {
    runs < RUNS_TO_A_LOOK || runs % RUNS_TO_A_LOOK == 0
}

impl Builder {
    /// Makes runs of a part of a search, until none of it is left, one fails or the slice is used up, and gives each that ended
    /// without a failure to the visitor. The part then says what is left of it, and counts them among its runs; where a run failed
    /// it stays as it was.
    ///
    /// A setting out of range is refused, and then a part of a search with other settings. Besides, an error comes only where a
    /// growth was refused. After an error the part is as it was (own).
    pub fn check_part<B: Body, V: Visitor<B::Data>, C: Clock>(
        &self,
        alloc: Global,
        body: &B,
        part: &mut Part,
        slice: Slice,
        visitor: &mut V,
        clock: &mut C,
    ) -> Result<Worked, CheckError>
        ensures works { IfOk result (Works V.takes visitor.old visitor.new self.now (runs_of B.next (explores self.now) self.now.max_threads self.now.max_steps body.now) part.old part.new) }
        ensures within { IfOk result (IsWithin slice) }
        ensures counts { IfOk result (CountsRuns part.old part.new) }
        ensures same { OnErr result (part.new ≡ part.old) }
        ensures refused { IfErr (tested self.now) (λ e. (result ≡ Err e) × (visitor.new ≡ visitor.old)) }
        ensures errors { IfErr result (λ e. (e ≡ CheckError.Memory) ⊎ (((tested self.now ≡ Err e) ⊎ IsOtherPart self.now part.old.path e) × (visitor.new ≡ visitor.old))) }
    {
        self.test()?;
        let path = self.path_of(alloc, part)?;
        if part.is_done {
            return Ok(Worked::Made { runs: 0 });
        }
        let mut room = Room::new(alloc, self.limits())?;
        let log = None::<HostRuntime>;
        let runs = BodyRuns {
            builder: self,
            body,
            log: &log,
        };
        let worked = runs.work_on(alloc, &mut room, visitor, part, path, slice, clock);
        room.leave();
        worked
    }

    /// The path at which the part begins again. `OtherSettings` and the like where it is of a search with other settings.
    pub(crate) fn path_of(&self, alloc: Global, part: &Part) -> Result<Path, CheckError>
        requires branches { self.now.max_branches ≤ 1000000 }
        requires bound { IfSome self.now.preemption_bound (λ bound. bound ≤ 255) }
        ensures rests { IfOk result (λ path. path ≡ at_rest (search_of self.now) (explores self.now) part.now.path.nodes) }
        ensures errors { IfErr result (λ e. (e ≡ CheckError.Memory) ⊎ IsOtherPart self.now part.now.path e) }
    {
        Ok(part.path.taken_up(alloc, self.search_settings())?)
    }
}

impl<'a, B: Body, L: Log> BodyRuns<'a, B, L> {
    /// Makes one run of the part after another in this room, along this path. The settings were tested.
    fn work_on<V: Visitor<B::Data>, C: Clock>(
        &self,
        alloc: Global,
        room: &mut Room<B>,
        visitor: &mut V,
        part: &mut Part,
        mut path: Path,
        slice: Slice,
        clock: &mut C,
    ) -> Result<Worked, CheckError>
        requires some { 1 ≤ self.now.builder.now.max_threads }
        requires few { self.now.builder.now.max_threads ≤ 5 }
        requires starts { path ≡ at_rest (search_of self.now.builder.now) (explores self.now.builder.now) part.old.path.nodes }
        requires left { part.old.is_done ≡ false }
        ensures works { IfOk result (Works V.takes visitor.old visitor.new self.now.builder.now (runs_of B.next (explores self.now.builder.now) self.now.builder.now.max_threads self.now.builder.now.max_steps self.now.body.now) part.old part.new) }
        ensures within { IfOk result (IsWithin slice) }
        ensures counts { IfOk result (CountsRuns part.old part.new) }
        ensures same { OnErr result (part.new ≡ part.old) }
        ensures errors { IfErr result (λ e. e ≡ CheckError.Memory) }
    {
        let floor = part.base.len();
        let mut runs = 0;
        'slice: loop {
            match run_and_step_above::<B::Data, Listed, Self, V>(
                alloc, self, room, visitor, &mut path, floor,
            )? {
                Round::Next => {
                    runs += 1;
                    if slice.is_used_up(runs, clock) {
                        leave(part, path, runs, false);
                        return Ok(Worked::Made { runs });
                    }
                }
                Round::Last => {
                    runs += 1;
                    leave(part, path, runs, true);
                    return Ok(Worked::Made { runs });
                }
                Round::Failed(failure, choices) => {
                    return Ok(Worked::Failed {
                        runs,
                        failure,
                        choices,
                    });
                }
            }
        }
    }
}

/// So many more runs of the part were made, which is left with this path, and more of its runs are left or not.
pub(crate) fn leave(part: &mut Part, path: Path, runs: u64, is_done: bool)
    ensures base { part.new.base ≡ part.old.base }
    ensures path { part.new.path ≡ path }
    ensures runs { part.old.runs + runs < 2 ^ 64 → part.new.runs ≡ part.old.runs + runs }
    ensures is_done { part.new.is_done ≡ is_done }
{
    part.path = path;
    part.runs = part.runs.saturating_add(runs);
    part.is_done = is_done;
}

/// One run along the path, which the receiver is given, and the step to the next one above this floor.
fn run_and_step_above<D: Drop, Choices, M, R>(
    alloc: Global,
    runs: &M,
    room: &mut M::Room,
    receiver: &mut R,
    path: &mut Path,
    floor: usize,
) -> Result<Round, AllocError>
where
    M: RunMaker<D>,
    R: Receiver<D, Choices>,
    requires may { M.may_run runs.now }
    requires starts { IsAtStart (M.begins_exploring runs.now) path.old }
    ensures { IfOk result (λ round. ComesToAbove (M.comes runs.now) R.receives floor path.old receiver.old round path.new receiver.new) }
{
    match runs.run(room, path)? {
        Err(failure) => Ok(Round::Failed(failure, path.choices(alloc)?)),
        Ok(value) => {
            receiver.receive(alloc, path, value)?;
            if path.step_above(floor) {
                Ok(Round::Next)
            } else {
                Ok(Round::Last)
            }
        }
    }
}

/// What it means for a check that a text has no parts.
pub(crate) fn refusal_of(why: PartsError) -> CheckError
    ensures { result ≡ of_parts why }
{
    match why {
        PartsError::NotJson => CheckError::NotJson,
        PartsError::WrongFormat | PartsError::WrongShape => CheckError::WrongShape,
        PartsError::WrongVersion(version) => CheckError::WrongVersion(version),
        PartsError::Path(why) => CheckError::from(why),
        PartsError::WrongFloor(_) | PartsError::BadOption => CheckError::BadNode,
        PartsError::Memory(_) => CheckError::Memory,
    }
}
