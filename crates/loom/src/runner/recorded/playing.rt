//! A run that is made of what is recorded: no thread is started for it.
ghost use Rattle.std.specs.Prelude.{◌≡◌, ◌≤◌, [], IfOk, IfSome, List, None};
ghost use Rattle.loom_engine.specs.Path.Route.{IsAtStart, IsSameSearch};
ghost use Rattle.loom.specs.Explain.Story.{Story};
ghost use Rattle.loom.specs.Model.Run.{IsEndBy, IsLocated, RunsAlong};
ghost use Rattle.loom.specs.Model.Turns.{IsUnderWay};
ghost use Rattle.loom.specs.Runner.Histories.{moment};
ghost use Rattle.loom.specs.Runner.Recorded.{Function, Word, by_function, runs_by};
ghost use Rattle.loom.specs.Runner.Recording.{AreAt, EndsThere, HandsOver, HasRun, IsTrueOf, LeadsTo};

use crate::model::run::Ending;
use crate::runner::exact::Exact;
use crate::runner::recorded::adding::go_on;
use crate::runner::recorded::recording::Recording;
use loom_engine::rt::execution::{Execution, Limits};
use loom_engine::rt::path::Path;
use loom_objects::failure::Stop;
use loom_objects::location::Location;
use loom_objects::operation::{Reply, Request, Turn, copy_request};
use std::alloc::{AllocError, Global};

/// What a run needs room for. The next one uses it again.
#[derive(Drop)]
pub(crate) struct Room<D> {
    // where the threads are
    places: Vec<usize>,
    execution: Execution<D>,
}

impl<D: Exact> Room<D> {
    /// Room for a run.
    pub(crate) fn new(alloc: Global, limits: Limits) -> Result<Room<D>, AllocError>
        requires some { 1 ≤ limits.max_threads }
        requires few { limits.max_threads ≤ 5 }
    {
        let places = Vec::new(alloc);
        Ok(Room {
            execution: Execution::new(alloc, limits)?,
            places,
        })
    }
}

/// One run along the path, from its start, by what is recorded. None where a thread needs an answer that isn't recorded: then the
/// path is left on the way. A failure has the place of its operation, if places are kept.
pub(crate) fn play<D: Exact>(
    room: &mut Room<D>,
    limits: Limits,
    keeps_locations: bool,
    recording: &Recording<D>,
    path: &mut Path,
) -> Result<Option<Ending<D>>, AllocError>
    requires some { 1 ≤ limits.max_threads }
    requires few { limits.max_threads ≤ 5 }
    requires starts { IsAtStart path.old.explores path.old }
    ensures along { (does : Function D) → (words : List (Word D)) → IsTrueOf does words recording.now
        → IfOk result (λ known. IfSome known (λ ending. RunsAlong (runs_by does path.old.explores limits.max_threads limits.max_steps) path.old ending path.new)) }
    ensures history { IfOk result (λ known. IfSome known (λ ending. HasRun limits path.old ending path.new)) }
    ensures located { IfOk result (λ known. IfSome known (IsLocated keeps_locations)) }
    ensures same { IsSameSearch path.old path.new }
{
    room.places.clear();
    room.places.push(0)?;
    room.execution.restart(limits)?;
    take_turns(
        &mut room.execution,
        &mut room.places,
        keeps_locations,
        recording,
        path,
    )
}

/// From its start the run goes on by turns, until it ends or fails, or an answer isn't recorded.
fn take_turns<D: Exact>(
    execution: &mut Execution<D>,
    places: &mut Vec<usize>,
    keeps_locations: bool,
    recording: &Recording<D>,
    path: &mut Path,
) -> Result<Option<Ending<D>>, AllocError>
    requires { execution.old.over ≡ None }
    ensures ends { (does : Function D) → (words told : List (Word D)) → (whole : Story D) → IsTrueOf does words recording.now → AreAt words places.old.items told
        → IsUnderWay (by_function does) whole [] told execution.old.run path.old 0 Reply.Start
        → IfOk result (λ known. IfSome known (λ ending. EndsThere whole ending path.new)) }
    ensures history { IfOk result (λ known. IfSome known (λ ending. LeadsTo (moment execution.old path.old) ending path.new)) }
    ensures located { IfOk result (λ known. IfSome known (IsLocated keeps_locations)) }
    ensures same { IsSameSearch path.old path.new }
{
    let mut thread = 0u8;
    let mut reply = Reply::Start;
    'turns: loop {
        let known = next_op(recording, places, thread, &reply);
        reply.let_go();
        let Some(op) = known? else {
            return Ok(None);
        };
        match execution.submit(path, op) {
            Ok(Turn::Reply(next, told)) => {
                thread = next;
                reply = told;
            }
            Ok(Turn::Start(next)) => {
                thread = next;
                reply = Reply::Start;
            }
            answer => {
                return ended(
                    answer,
                    keeps_locations,
                    recording,
                    places,
                    execution.active(),
                );
            }
        }
    }
}

/// What the thread hands over that gets the reply, if that is recorded. Then it is at the next place.
pub(crate) fn next_op<D: Exact>(
    recording: &Recording<D>,
    places: &mut Vec<usize>,
    thread: u8,
    reply: &Reply<D>,
) -> Result<Option<Request<D, ()>>, AllocError>
    ensures { (does : Function D) → (words told : List (Word D)) → IsTrueOf does words recording.now → AreAt words places.old.items told
        → IfOk result (λ known. IfSome known (λ op. HandsOver does words told thread reply.now op places.new.items)) }
{
    let Some(place) = places.get(thread as usize) else {
        return Ok(None);
    };
    let Some(number) = recording.find(*place, reply) else {
        return Ok(None);
    };
    let answer = recording.answer(number);
    go_on(places, thread, answer.after, answer.child)?;
    Ok(Some(copy_request(&answer.op)?))
}

/// How a run ends whose last operation was answered so while this thread is active. A turn is no end: it is never answered here. A failure
/// has the place of the thread's last operation, if places are kept.
fn ended<D: Exact>(
    answer: Result<Turn<D>, Stop>,
    keeps_locations: bool,
    recording: &Recording<D>,
    places: &[usize],
    active: u8,
) -> Result<Option<Ending<D>>, AllocError>
    ensures ends { IfOk result (λ known. IfSome known (IsEndBy answer)) }
    ensures located { IfOk result (λ known. IfSome known (IsLocated keeps_locations)) }
{
    match answer {
        Err(Stop::Memory) => Err(AllocError),
        Err(Stop::Failure(failure)) => {
            let location = if keeps_locations {
                last_location(recording, places, active)
            } else {
                None
            };
            Ok(Some(Ending::Failed(failure.at(location))))
        }
        Ok(Turn::Ended(value)) => Ok(Some(Ending::Ended(value))),
        Ok(Turn::Reply(..) | Turn::Start(_)) => Err(AllocError),
    }
}

/// Where the thread's last operation was called, if that is recorded.
fn last_location<D>(recording: &Recording<D>, places: &[usize], thread: u8) -> Option<Location> {
    let place = *places.get(thread as usize)?;
    recording.location(place)
}
