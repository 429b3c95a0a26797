//! A part of a search that a worker makes runs of for a while, by what is recorded.
ghost use Rattle.std.specs.Prelude.{◌≡◌, ◌≤◌, ◌<◌, ◌⊎◌, IfOk, List, false, max};
ghost use Rattle.loom_engine.specs.Path.Route.{IsAtStart, at_rest};
ghost use Rattle.loom.specs.Model.Parts.{IsWithin, Works};
ghost use Rattle.loom.specs.Model.Settings.{explores, search_of};
ghost use Rattle.loom.specs.Runner.Check.{limits_of};
ghost use Rattle.loom.specs.Runner.Recorded.{Function, Word, runs_by};
ghost use Rattle.loom.specs.Runner.RecordedWorkers.{IsKnownOrLacks, IsPlayed};
ghost use Rattle.loom.specs.Runner.Recording.{IsTrueOf};
ghost use Rattle.loom.specs.Runner.Workers.{IsAtMost};

use crate::model::builder::Builder;
use crate::model::clock::{Clock, HostClock};
use crate::model::error::CheckError;
use crate::model::parts::{Slice, Worked, leave};
use crate::model::rounds::Round;
use crate::model::visitor::Visitor;
use crate::runner::exact::Exact;
use crate::runner::parallel::round::{Done, Job};
use crate::runner::recorded::parts::end_above;
use crate::runner::recorded::playing::{Room, play};
use crate::runner::recorded::recording::Recording;
use loom_engine::rt::execution::Limits;
use loom_engine::rt::parts::Part;
use loom_engine::rt::path::Path;
use std::alloc::{AllocError, Global};
use std::rt::Clock as HostTime;
use std::sync::atomic::{AtomicBool, Ordering};

/// The part is worked on for a while, by what is recorded. Where an answer isn't, or where another worker has lacked one, the worker ends
/// its turn.
pub(super) fn work<R: HostTime, D: Exact, V: Visitor<D>>(
    rt: &R,
    alloc: Global,
    builder: &Builder,
    recording: &Recording<D>,
    lacks: &AtomicBool,
    slice: Slice,
    job: Job<V>,
) -> Done<V>
    ensures played { IsPlayed V.takes builder.now recording.now job result }
    ensures within { IsAtMost (max 1 slice.runs) result.worked }
{
    let Job {
        mut part,
        mut visitor,
    } = job;
    let mut clock = HostClock::start(rt);
    let worked = work_on(
        alloc,
        builder,
        recording,
        lacks,
        &mut part,
        slice,
        &mut visitor,
        &mut clock,
    );
    Done {
        part,
        visitor,
        worked,
    }
}

/// Makes runs of the part by what is recorded, until none of it is left, one fails, the slice is used up or an answer isn't recorded. A
/// setting out of range is refused, and then a part of a search with other settings.
fn work_on<D: Exact, V: Visitor<D>, C: Clock>(
    alloc: Global,
    builder: &Builder,
    recording: &Recording<D>,
    lacks: &AtomicBool,
    part: &mut Part,
    slice: Slice,
    visitor: &mut V,
    clock: &mut C,
) -> Result<Worked, CheckError>
    ensures works { IfOk result (λ worked. (does : Function D) → (words : List (Word D)) → IsTrueOf does words recording.now
        → (worked ≡ Worked.Made 0) ⊎ Works V.takes visitor.old visitor.new builder.now (runs_by does (explores builder.now) builder.now.max_threads builder.now.max_steps) part.old part.new worked) }
    ensures within { IfOk result (IsWithin slice) }
    ensures base { part.new.base ≡ part.old.base }
{
    builder.test()?;
    let path = builder.path_of(alloc, part)?;
    if part.is_done {
        return Ok(Worked::Made { runs: 0 });
    }
    let limits = Limits {
        max_threads: builder.max_threads,
        max_steps: builder.max_steps,
    };
    let mut room = Room::new(alloc, limits)?;
    let worked = make_runs(
        alloc, builder, limits, recording, lacks, &mut room, part, path, slice, visitor, clock,
    )?;
    Ok(worked)
}

/// Makes one run of the part after another in this room, along this path. The settings were tested.
fn make_runs<D: Exact, V: Visitor<D>, C: Clock>(
    alloc: Global,
    builder: &Builder,
    limits: Limits,
    recording: &Recording<D>,
    lacks: &AtomicBool,
    room: &mut Room<D>,
    part: &mut Part,
    mut path: Path,
    slice: Slice,
    visitor: &mut V,
    clock: &mut C,
) -> Result<Worked, AllocError>
    requires some { 1 ≤ builder.now.max_threads }
    requires few { builder.now.max_threads ≤ 5 }
    requires limits { limits ≡ limits_of builder.now }
    requires starts { path ≡ at_rest (search_of builder.now) (explores builder.now) part.old.path.nodes }
    requires left { part.old.is_done ≡ false }
    ensures works { IfOk result (λ worked. (does : Function D) → (words : List (Word D)) → IsTrueOf does words recording.now
        → (worked ≡ Worked.Made 0) ⊎ Works V.takes visitor.old visitor.new builder.now (runs_by does (explores builder.now) builder.now.max_threads builder.now.max_steps) part.old part.new worked) }
    ensures within { IfOk result (IsWithin slice) }
    ensures base { part.new.base ≡ part.old.base }
{
    let floor = part.base.len();
    let located = builder.location;
    let mut runs = 0;
    'slice: loop {
        let made = make_round(
            alloc, limits, located, recording, room, floor, visitor, &mut path,
        )?;
        let Some(round) = made else {
            lacks.store(true, Ordering::SeqCst);
            leave(part, path, runs, false);
            return Ok(Worked::Made { runs });
        };
        match round {
            Round::Next => {
                runs += 1;
                if ends_turn(slice, runs, clock, lacks) {
                    leave(part, path, runs, false);
                    return Ok(Worked::Made { runs });
                }
            }
            Round::Last => {
                runs += 1;
                leave(part, path, runs, true);
                return Ok(Worked::Made { runs });
            }
            Round::Failed(failure, choices) => {
                return Ok(Worked::Failed {
                    runs,
                    failure,
                    choices,
                });
            }
        }
    }
}

/// One run along the path by what is recorded, and its step to the next one above this floor. None where an answer isn't recorded: then
/// the path stays as it was.
fn make_round<D: Exact, V: Visitor<D>>(
    alloc: Global,
    limits: Limits,
    keeps_locations: bool,
    recording: &Recording<D>,
    room: &mut Room<D>,
    floor: usize,
    visitor: &mut V,
    path: &mut Path,
) -> Result<Option<Round>, AllocError>
    requires some { 1 ≤ limits.max_threads }
    requires few { limits.max_threads ≤ 5 }
    requires starts { IsAtStart path.old.explores path.old }
    ensures { IfOk result (IsKnownOrLacks V.takes limits keeps_locations recording.now floor path.old visitor.old path.new visitor.new) }
{
    let began = path.try_clone(alloc)?;
    let Some(ending) = play(room, limits, keeps_locations, recording, path)? else {
        *path = began;
        return Ok(None);
    };
    let round = end_above(alloc, ending, floor, visitor, path)?;
    Ok(Some(round))
}

/// Whether a worker's turn ends behind so many runs: where the slice is used up, and where one of the workers lacks an answer.
fn ends_turn<C: Clock>(slice: Slice, runs: u64, clock: &mut C, lacks: &AtomicBool) -> bool
    ensures { result ≡ false → runs < slice.runs }
{
    if slice.is_used_up(runs, clock) {
        return true;
    }
    lacks.load(Ordering::SeqCst)
}
