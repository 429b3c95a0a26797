//! One run of a search that remembers states, which is made of what is recorded: of a thread that is noted where it is in the recording.
ghost use Rattle.std.specs.Prelude.{ℕ, ⊤, ◌≡◌, ◌≤◌, ◌+◌, [], None, IfErr, IfOk, IfSome, List, OnOk};
ghost use Rattle.loom_objects.specs.Operation.Labelled.{Op};
ghost use Rattle.loom_objects.specs.Operation.Plain.{plain, started};
ghost use Rattle.loom_objects.specs.declared.operation.Request.TheVariants.{Unreachable};
ghost use Rattle.loom_objects.specs.declared.operation.Reply.TheVariants.{Start};
ghost use Rattle.loom_engine.specs.Path.Route.{IsAtStart, IsSameSearch};
ghost use Rattle.loom_engine.specs.Runs.Body.{with_child};
ghost use Rattle.loom_engine.specs.Trees.Meeting.{whole_search};
ghost use Rattle.loom.specs.Model.Cover.{AreNoted, ComesTo, EndsWith, IsEndBy, IsHanding, IsUnderWay, Noting, Passes, StaysOpen, noting};
ghost use Rattle.loom.specs.Runner.Recorded.{Function, Word, by_function};
ghost use Rattle.loom.specs.Runner.Recording.{AreAt, IsOfRun, IsTrueOf, all_told};

use crate::model::cover::run::{Ending, Halt, ended, pass};
use crate::runner::error::RunnerError;
use crate::runner::exact::Exact;
use crate::runner::recorded::playing::next_op;
use crate::runner::recorded::recording::Recording;
use loom_engine::rt::execution::{Begun, Execution, Limits};
use loom_engine::rt::path::Path;
use loom_engine::rt::states::States;
use loom_objects::body::Body;
use loom_objects::data::Data;
use loom_objects::failure::Stop;
use loom_objects::operation::{Op, Reply, Request, Turn};
use loom_views::same::Same;
use std::alloc::{AllocError, Global};
use std::marker::Model;

/// Where a thread is in a recording. It takes the place of a body in what is noted, and is never resumed.
#[derive(Drop)]
pub(crate) struct Place(usize);

impl Model for Place {
    ghost use Rattle.std.specs.Prelude.{ℕ};

    ghost Value = { ℕ };

    ghost view = { λ place. place.0 };
}

impl Body for Place {
    type Data = ();

    ghost use Rattle.std.specs.Prelude.{None};
    ghost use Rattle.loom_objects.specs.declared.operation.Request.TheVariants.{Unreachable};

    ghost next = { λ place reply. (place, record { request = Unreachable; label = None }) };

    fn resume(&mut self, reply: Reply<()>) -> Result<Op<(), Place>, AllocError>
        ensures { IfOk result (λ op. ◌≡◌ {A = ℕ × Op ⊤ ℕ} (self.new, op) (self.old, record { request = Unreachable; label = None })) }
    {
        reply.let_go();
        Ok(Op::new(Request::Unreachable))
    }

    fn try_clone(&self) -> Result<Place, AllocError>
        ensures { IfOk result (λ copy. copy ≡ self.now) }
    {
        Ok(Place(self.0))
    }
}

impl Same for Place {
    fn is_same(&self, other: &Place) -> bool {
        self.0 == other.0
    }
}

/// What a run needs room for. The next one uses it again.
#[derive(Drop)]
pub(crate) struct Room<D> {
    // where the threads are
    places: Vec<usize>,
    // the same, as it is noted
    standing: Vec<Place>,
    execution: Execution<D>,
}

impl<D: Exact> Room<D> {
    /// Room for a run.
    pub(crate) fn new(alloc: Global, limits: Limits) -> Result<Room<D>, AllocError>
        requires some { 1 ≤ limits.max_threads }
        requires few { limits.max_threads ≤ 5 }
    {
        Ok(Room {
            execution: Execution::new(alloc, limits)?,
            places: Vec::new(alloc),
            standing: Vec::new(alloc),
        })
    }
}

/// One run along the path, from its start, by what is recorded, with these states. None where a thread needs an answer that isn't
/// recorded: then the path is left on the way.
pub(crate) fn run<D: Exact + Same>(
    room: &mut Room<D>,
    limits: Limits,
    recording: &Recording<D>,
    path: &mut Path,
    states: &mut States<D, Place>,
) -> Result<Option<Ending<D>>, AllocError>
    requires some { 1 ≤ limits.max_threads }
    requires few { limits.max_threads ≤ 5 }
    requires starts { IsAtStart path.old.explores path.old }
    requires unguided { path.old.given ≡ [] }
    requires whole { path.old.search ≡ whole_search path.old.search.max_branches }
    ensures along { (does : Function D) → (words : List (Word D)) → IsTrueOf does words recording.now
        → AreNoted (by_function does) (noting limits.max_threads limits.max_steps [] path.old (all_told words states.old))
        → IfOk result (λ known. IfSome known (λ ending. EndsWith (by_function does) (noting limits.max_threads limits.max_steps [] path.old (all_told words states.old)) ending path.new (all_told words states.new))) }
    ensures same { IsSameSearch path.old path.new }
{
    room.places.clear();
    room.places.push(0)?;
    room.execution.restart(limits)?;
    take_turns(
        &mut room.execution,
        &mut room.places,
        &mut room.standing,
        recording,
        path,
        states,
    )
}

/// Such a run, where each answer is recorded. `NotSettled` where one isn't.
pub(crate) fn run_known<D: Exact + Same>(
    room: &mut Room<D>,
    limits: Limits,
    recording: &Recording<D>,
    path: &mut Path,
    states: &mut States<D, Place>,
) -> Result<Ending<D>, RunnerError>
    requires some { 1 ≤ limits.max_threads }
    requires few { limits.max_threads ≤ 5 }
    requires starts { IsAtStart path.old.explores path.old }
    requires unguided { path.old.given ≡ [] }
    requires whole { path.old.search ≡ whole_search path.old.search.max_branches }
    ensures along { (does : Function D) → (words : List (Word D)) → IsTrueOf does words recording.now
        → AreNoted (by_function does) (noting limits.max_threads limits.max_steps [] path.old (all_told words states.old))
        → IfOk result (λ ending. EndsWith (by_function does) (noting limits.max_threads limits.max_steps [] path.old (all_told words states.old)) ending path.new (all_told words states.new)) }
    ensures same { IsSameSearch path.old path.new }
    ensures errors { IfErr result IsOfRun }
{
    match run(room, limits, recording, path, states) {
        Ok(Some(ending)) => Ok(ending),
        Ok(None) => Err(RunnerError::NotSettled),
        Err(_) => Err(RunnerError::Memory),
    }
}

/// From its start the run goes on by turns, until it ends, fails or is given up, or an answer isn't recorded.
fn take_turns<D: Exact + Same>(
    execution: &mut Execution<D>,
    places: &mut Vec<usize>,
    standing: &mut Vec<Place>,
    recording: &Recording<D>,
    path: &mut Path,
    states: &mut States<D, Place>,
) -> Result<Option<Ending<D>>, AllocError>
    requires { execution.old.over ≡ None }
    ensures along { (does : Function D) → (words told : List (Word D)) → (run : Noting D (Word D)) → IsTrueOf does words recording.now → AreAt words places.old.items told
        → IsUnderWay (by_function does) run told execution.old.run path.old 0 Start (all_told words states.old)
        → IfOk result (λ known. IfSome known (λ ending. EndsWith (by_function does) run ending path.new (all_told words states.new))) }
    ensures same { IsSameSearch path.old path.new }
{
    let mut thread = 0u8;
    let mut reply = Reply::Start;
    'turns: loop {
        let known = next_op(recording, places, thread, &reply);
        reply.let_go();
        let Some(op) = known? else {
            return Ok(None);
        };
        match submit(execution, places, standing, path, states, op) {
            Ok(Turn::Reply(next, told)) => {
                thread = next;
                reply = told;
            }
            Ok(Turn::Start(next)) => {
                thread = next;
                reply = Reply::Start;
            }
            answer => return end_known(answer),
        }
    }
}

/// How a run ends whose last operation was answered so. A turn is no end: it is never answered here.
fn end_known<D: Drop>(answer: Result<Turn<D>, Halt>) -> Result<Option<Ending<D>>, AllocError>
    ensures { IfOk result (λ known. IfSome known (IsEndBy answer)) }
{
    Ok(Some(ended(answer)?))
}

/// What a thread hands over is submitted, up to the next turn. The threads are at these places then.
fn submit<D: Data + Same>(
    execution: &mut Execution<D>,
    places: &[usize],
    standing: &mut Vec<Place>,
    path: &mut Path,
    states: &mut States<D, Place>,
    request: Request<D, ()>,
) -> Result<Turn<D>, Halt>
    requires { execution.old.over ≡ None }
    ensures event { (does : Function D) → (words before told : List (Word D)) → (run : Noting D (Word D)) → (op : Op D (Word D)) → request ≡ plain op → told ≡ with_child before (started op) → AreAt words places.now told
        → IsHanding (by_function does) run before execution.old.run path.old op (all_told words states.old) → ComesTo (by_function does) run result told execution.new.run path.new (all_told words states.new) }
    ensures open { StaysOpen result execution.new.over }
    ensures steps { OnOk result (execution.old.run.state.steps_left ≡ execution.new.run.state.steps_left + 1) }
    ensures same { IsSameSearch path.old path.new }
{
    match execution.begin(path, request) {
        Err(stop) => Err(Halt::Stopped(stop)),
        Ok(Begun::Turn(turn)) => Ok(turn),
        Ok(Begun::AtBranch) => pass_at(execution, places, standing, path, states),
    }
}

/// The schedule at the first branch point of an operation, or the run is given up there. The threads are at these places, and no states
/// are known besides.
fn pass_at<D: Data + Same>(
    execution: &mut Execution<D>,
    places: &[usize],
    standing: &mut Vec<Place>,
    path: &mut Path,
    states: &mut States<D, Place>,
) -> Result<Turn<D>, Halt>
    requires { execution.old.over ≡ None }
    ensures event { Passes places.now execution.old path.old states.old result execution.new path.new states.new }
    ensures open { StaysOpen result execution.new.over }
    ensures steps { execution.new.run.state.steps_left ≡ execution.old.run.state.steps_left }
    ensures same { IsSameSearch path.old path.new }
{
    let known = States::none(*Vec::allocator(standing), false);
    match stand(places, standing) {
        Ok(()) => pass(execution, standing.as_slice(), path, &known, states),
        Err(_) => Err(Halt::Stopped(Stop::Memory)),
    }
}

/// The places, as they are noted.
fn stand(places: &[usize], standing: &mut Vec<Place>) -> Result<(), AllocError>
    ensures { IfOk result (λ _. standing.new.items ≡ places.now) }
{
    standing.clear();
    for place in places {
        standing.push(Place(*place))?;
    }
    Ok(())
}
