//! One run of a body along a path, which a listener hears: the threads' bodies are resumed by turns, and what they hand over is
//! submitted, until the run ends or fails. Its contract is the run of the body's tree of `loom_engine`, and its events are those of
//! the body's story. Each run of a check, each replay and each explanation is made by it.
pub(crate) mod drawing;
pub(crate) mod snapshots;

ghost use Rattle.std.specs.Prelude.{◌≡◌, ◌≢◌, ◌≤◌, ◌+◌, ◌∷◌, Bool, [], None, Err, OnOk, OnErr, IfOk};
ghost use Rattle.loom_objects.specs.Operation.Plain.{plain, started};
ghost use Rattle.loom_engine.specs.Execution.{Along, ShowsCourse, over_after};
ghost use Rattle.loom_engine.specs.Runs.Course.{opening};
ghost use Rattle.loom_engine.specs.Runs.Machine.{submit as submitted};
ghost use Rattle.loom_engine.specs.Path.Route.{Route, IsAtStart, IsSameSearch, trail};
ghost use Rattle.loom_engine.specs.Runs.Body.{runs as runs_of, with_child};
ghost use Rattle.loom.specs.Explain.Story.{Story, story_of};
ghost use Rattle.loom.specs.Model.Run.{RunsAlong, IsEndBy, IsEndOf, IsLocated, MayBeRefusedBy};
ghost use Rattle.loom.specs.Model.Turns.{IsHeardAs, IsUnderWay};

use crate::model::listener::Listener;
use loom_engine::rt::execution::{Execution, Limits};
use loom_engine::rt::path::Path;
use loom_engine::rt::snapshots::Snapshots;
use loom_objects::body::Body;
use loom_objects::failure::{Failure, Stop, failed};
use loom_objects::operation::{Op, Reply, Turn};
use loom_views::rt::failure::FailureKind;
use std::alloc::{AllocError, Global};

/// How a run ended.
#[derive(Drop)]
pub enum Ending<D> {
    /// Main ended with this value.
    Ended(D),
    Failed(Failure),
}

/// What a run needs room for. The next one uses it again.
#[derive(Drop)]
pub struct Room<B: Body> {
    /// The threads that the run has.
    pub bodies: Vec<B>,
    /// What they work on.
    pub execution: Execution<B::Data>,
    /// Earlier runs at their branch points, if the check keeps any.
    pub snapshots: Snapshots<B::Data, B>,
}

impl<B: Body> Room<B> {
    /// Room for a run: it has no thread yet, and its execution is at the start.
    pub fn new(alloc: Global, limits: Limits) -> Result<Room<B>, AllocError>
        requires some { 1 ≤ limits.max_threads }
        requires few { limits.max_threads ≤ 5 }
        ensures empty { IfOk result (λ room. room.bodies.items ≡ []) }
        ensures opens { IfOk result (λ room. (explores : Bool) (path : Route) → IsAtStart explores path → ShowsCourse (opening explores limits.max_threads limits.max_steps) room.execution.run path) }
        ensures over { IfOk result (λ room. room.execution.over ≡ None) }
        ensures none { IfOk result (λ room. room.snapshots ≡ []) }
    {
        Ok(Room {
            bodies: Vec::new(alloc),
            execution: Execution::new(alloc, limits)?,
            snapshots: Snapshots::new(alloc),
        })
    }

    /// Lets the room go.
    pub fn leave(self) {}
}

/// One run of the body along the path, from its start, which the listener hears. An error only where a growth was refused, in the
/// run, the body or the listener. A failure has the place of its operation, if the listener knows it.
pub(crate) fn run<B: Body, L: Listener<B::Data>>(
    room: &mut Room<B>,
    limits: Limits,
    body: &B,
    path: &mut Path,
    listener: &mut L,
) -> Result<Ending<B::Data>, AllocError>
    requires some { 1 ≤ limits.max_threads }
    requires few { limits.max_threads ≤ 5 }
    requires starts { IsAtStart path.old.explores path.old }
    ensures along { IfOk result (λ ending. RunsAlong (runs_of B.next path.old.explores limits.max_threads limits.max_steps body.now) path.old ending path.new) }
    ensures heard { IfOk result (λ ending. IsHeardAs L.takes_reply L.takes_op (story_of path.old.search B.next path.old.explores limits.max_threads limits.max_steps body.now (trail path.old)) listener.old listener.new ending path.new) }
    ensures located { IfOk result (IsLocated L.knows_locations) }
    ensures same { IsSameSearch path.old path.new }
{
    begin(&mut room.bodies, body)?;
    room.execution.restart(limits)?;
    take_turns(&mut room.execution, &mut room.bodies, path, listener)
}

/// The body alone, as it is. What the first of those before it needed room for is used again.
#[inline(always)]
pub(crate) fn begin<B: Body>(bodies: &mut Vec<B>, body: &B) -> Result<(), AllocError>
    ensures { IfOk result (λ _. bodies.new.items ≡ body.now ∷ []) }
{
    bodies.truncate(1);
    if bodies.is_empty() {
        bodies.push(body.try_clone()?)?;
        return Ok(());
    }
    bodies[0].restart(body)
}

/// From its start the run goes on by turns, until it ends or fails. An error only where a growth was refused.
fn take_turns<B: Body, L: Listener<B::Data>>(
    execution: &mut Execution<B::Data>,
    bodies: &mut Vec<B>,
    path: &mut Path,
    listener: &mut L,
) -> Result<Ending<B::Data>, AllocError>
    requires { execution.old.over ≡ None }
    ensures heard { (whole : Story B.Data) → IsUnderWay B.next whole [] bodies.old.items execution.old.run path.old 0 Reply.Start
        → IfOk result (λ ending. IsHeardAs L.takes_reply L.takes_op whole listener.old listener.new ending path.new) }
    ensures located { IfOk result (IsLocated L.knows_locations) }
    ensures same { IsSameSearch path.old path.new }
{
    let mut thread = 0u8;
    let mut reply = Reply::Start;
    'turns: loop {
        let place = thread as usize;
        if place >= bodies.len() {
            reply.let_go();
            return stopped(failed(FailureKind::Misuse), listener, execution.active());
        }
        if let Err(refusal) = listener.hear_reply(&reply) {
            reply.let_go();
            return Err(refusal);
        }
        let body = &mut bodies[place];
        let op = body.resume(reply)?;
        if let Err(refusal) = listener.hear_op(thread, &op, path.position()) {
            let_go(op);
            return Err(refusal);
        }
        match submit(execution, bodies, path, op) {
            Ok(Turn::Reply(next, told)) => {
                thread = next;
                reply = told;
            }
            Ok(Turn::Start(next)) => {
                thread = next;
                reply = Reply::Start;
            }
            answer => return ended(answer, listener, execution.active()),
        }
    }
}

/// How a run ends whose last operation was answered so while this thread is active. A turn is no end: it is never answered here.
// It takes the answer whole: taken apart beside the turns, each reply would be moved by its bytes. Inlined, so that no answer has to
// be put in memory for it.
#[inline(always)]
fn ended<D: Drop, L: Listener<D>>(
    answer: Result<Turn<D>, Stop>,
    listener: &L,
    active: u8,
) -> Result<Ending<D>, AllocError>
    ensures ends { IfOk result (IsEndBy answer) }
    ensures located { IfOk result (IsLocated L.knows_locations) }
{
    match answer {
        Err(stop) => stopped(stop, listener, active),
        Ok(Turn::Ended(value)) => Ok(Ending::Ended(value)),
        Ok(Turn::Reply(..) | Turn::Start(_)) => Err(AllocError),
    }
}

/// Lets an operation go that a body has handed over.
fn let_go<D: Drop, B: Drop>(_op: Op<D, B>) {}

/// How a run ends that is stopped so while this thread is active: a failure has the place of the thread's last operation, if the
/// listener knows it. An error where memory was refused.
fn stopped<D, L: Listener<D>>(stop: Stop, listener: &L, active: u8) -> Result<Ending<D>, AllocError>
    ensures ends { IfOk result (IsEndOf stop) }
    ensures located { IfOk result (IsLocated L.knows_locations) }
{
    match stop {
        Stop::Memory => Err(AllocError),
        Stop::Failure(failure) => Ok(Ending::Failed(failure.at(listener.location(active)))),
    }
}

/// What a thread hands over is submitted; what a spawn starts is a body more. `Memory` only where the event needs it, or a body
/// is added.
// Inlined, so that the operation isn't moved, nor the answer: it is handed on as it is.
#[inline(always)]
fn submit<B: Body>(
    execution: &mut Execution<B::Data>,
    bodies: &mut Vec<B>,
    path: &mut Path,
    op: Op<B::Data, B>,
) -> Result<Turn<B::Data>, Stop>
    requires { execution.old.over ≡ None }
    ensures event { Along (submitted (plain op)) execution.old.run path.old result execution.new.run path.new }
    ensures child { OnOk result (bodies.new.items ≡ with_child bodies.old.items (started op)) }
    ensures over { OnOk result (execution.new.over ≡ over_after result) }
    ensures steps { OnOk result (execution.old.run.state.steps_left ≡ execution.new.run.state.steps_left + 1) }
    ensures growth { result ≡ Err Stop.Memory → MayBeRefusedBy op execution.old.run path.old }
    ensures same { IsSameSearch path.old path.new }
{
    let (request, started) = op.split();
    match add_child(bodies, started) {
        Ok(()) => execution.submit(path, request),
        Err(_) => {
            request.let_go();
            Err(Stop::Memory)
        }
    }
}

/// What a spawn started is a body more.
// Inlined: it is called at each operation, and few start a thread.
#[inline(always)]
pub(crate) fn add_child<B: Drop>(bodies: &mut Vec<B>, started: Option<B>) -> Result<(), AllocError>
    ensures more { OnOk result (bodies.new.items ≡ with_child bodies.old.items started) }
    ensures growth { OnErr result (started ≢ None) }
{
    if let Some(child) = started {
        bodies.push(child)?;
    }
    Ok(())
}
