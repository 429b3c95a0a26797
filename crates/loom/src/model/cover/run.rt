//! One run of a search that remembers states, along its path. Where an operation reaches its first branch point past the path's
//! nodes, and the run explores there, its state is looked up: if it was noted the run is given up, and otherwise it is noted. Where
//! runs are kept it goes on from the last one whose choices are those of its path.
ghost use Rattle.std.specs.Prelude.{◌≡◌, ◌≤◌, ◌+◌, [], None, IfOk, OnOk};
ghost use Rattle.loom_engine.specs.Covering.Kept.{beside};
ghost use Rattle.loom_engine.specs.Path.Route.{IsAtStart, IsSameSearch};
ghost use Rattle.loom_engine.specs.Trees.Meeting.{whole_search};
ghost use Rattle.loom.specs.Model.Cover.{AreNoted, ComesTo, EndsWith, IsAtBranch, IsEndBy, IsEndOf, IsHanding, IsUnderWay, LooksUpRun, Noting, Passes, StaysOpen, noting};
ghost use Rattle.loom.specs.Model.CoverSnapshots.{AreKeptAfter, AreKeptBy, AreKeptIn, AreLeft, AreLeftAfter};

use crate::model::run::snapshots::keep;
use crate::model::run::{Room, add_child, begin};
use loom_engine::rt::execution::{Begun, Execution, Limits};
use loom_engine::rt::path::Path;
use loom_engine::rt::snapshots::Snapshots;
use loom_engine::rt::states::States;
use loom_objects::body::Body;
use loom_objects::data::Data;
use loom_objects::failure::{Failure, Stop, failed};
use loom_objects::operation::{Op, Reply, Turn};
use loom_views::rt::failure::FailureKind;
use loom_views::same::Same;
use std::alloc::AllocError;

/// How a run ended.
#[derive(Drop)]
pub enum Ending<D> {
    /// Main ended with this value.
    Ended(D),
    /// It was given up in a state that was noted, under this number.
    Met(usize),
    Failed(Failure),
}

/// Why a run goes no further.
#[derive(Clone, Copy)]
pub enum Halt {
    /// Its state was noted before, under this number.
    Met(usize),
    Stopped(Stop),
}

/// What is found where a run's state is looked up.
#[derive(Clone, Copy)]
pub enum Found {
    /// It was noted before, under this number.
    Known(usize),
    /// It wasn't, or it isn't looked up there.
    New,
}

/// One run of the body along the path, from its start or from where an earlier run along a path that began so stood, with the states that
/// are known and these, among which new ones are noted. The number of a state counts those that are known first. An error only where a
/// growth was refused, in the run, the body, for a state or for what is kept.
pub(crate) fn run<B: Body + Same>(
    room: &mut Room<B>,
    limits: Limits,
    body: &B,
    path: &mut Path,
    known: &States<B::Data, B>,
    states: &mut States<B::Data, B>,
) -> Result<Ending<B::Data>, AllocError>
where
    B::Data: Same,
    requires some { 1 ≤ limits.max_threads }
    requires few { limits.max_threads ≤ 5 }
    requires starts { IsAtStart path.old.explores path.old }
    requires unguided { path.old.given ≡ [] }
    requires whole { path.old.search ≡ whole_search path.old.search.max_branches }
    requires left { AreLeft B.next path.old.search.max_branches path.old.explores limits.max_threads limits.max_steps body.now path.old.nodes room.old.snapshots }
    ensures along { AreNoted B.next (noting limits.max_threads limits.max_steps body.now path.old (beside known.now states.old))
        → IfOk result (λ ending. EndsWith B.next (noting limits.max_threads limits.max_steps body.now path.old (beside known.now states.old)) ending path.new (beside known.now states.new)) }
    ensures left { AreNoted B.next (noting limits.max_threads limits.max_steps body.now path.old (beside known.now states.old))
        → IfOk result (λ ending. AreLeftAfter B.next path.old.search.max_branches path.old.explores limits.max_threads limits.max_steps body.now ending path.new.nodes room.new.snapshots) }
    ensures same { IsSameSearch path.old path.new }
{
    room.snapshots.keep_before(path.node_count());
    let is_on = room
        .snapshots
        .go_on(&mut room.execution, &mut room.bodies, path)?;
    if is_on {
        return from_snapshot(
            &mut room.execution,
            &mut room.bodies,
            &mut room.snapshots,
            path,
            known,
            states,
        );
    }
    begin(&mut room.bodies, body)?;
    room.execution.restart(limits)?;
    take_turns(
        &mut room.execution,
        &mut room.bodies,
        &mut room.snapshots,
        path,
        known,
        states,
        0,
        Reply::Start,
    )
}

/// From its branch point the run goes on, until it ends, fails or is given up.
fn from_snapshot<B: Body + Same>(
    execution: &mut Execution<B::Data>,
    bodies: &mut Vec<B>,
    snapshots: &mut Snapshots<B::Data, B>,
    path: &mut Path,
    known: &States<B::Data, B>,
    states: &mut States<B::Data, B>,
) -> Result<Ending<B::Data>, AllocError>
where
    B::Data: Same,
    requires { execution.old.over ≡ None }
    ensures along { (run : Noting B.Data B) → IsAtBranch B.next run bodies.old.items execution.old.run path.old (beside known.now states.old) → IfOk result (λ ending. EndsWith B.next run ending path.new (beside known.now states.new)) }
    ensures kept { (run : Noting B.Data B) → IsAtBranch B.next run bodies.old.items execution.old.run path.old (beside known.now states.old) → AreKeptIn B.next run path.old.nodes snapshots.old
        → IfOk result (λ ending. AreKeptAfter B.next run ending path.new.nodes snapshots.new) }
    ensures same { IsSameSearch path.old path.new }
{
    match execution.schedule(path) {
        Ok(Turn::Reply(thread, told)) => {
            take_turns(
                execution, bodies, snapshots, path, known, states, thread, told,
            )
        }
        Ok(Turn::Start(thread)) => take_turns(
            execution,
            bodies,
            snapshots,
            path,
            known,
            states,
            thread,
            Reply::Start,
        ),
        Ok(turn) => ended(Ok(turn)),
        Err(stop) => stopped(stop),
    }
}

/// From this turn the run goes on, until it ends, fails or is given up. An error only where a growth was refused.
fn take_turns<B: Body + Same>(
    execution: &mut Execution<B::Data>,
    bodies: &mut Vec<B>,
    snapshots: &mut Snapshots<B::Data, B>,
    path: &mut Path,
    known: &States<B::Data, B>,
    states: &mut States<B::Data, B>,
    first_thread: u8,
    first_reply: Reply<B::Data>,
) -> Result<Ending<B::Data>, AllocError>
where
    B::Data: Same,
    requires { execution.old.over ≡ None }
    ensures along { (run : Noting B.Data B) → IsUnderWay B.next run bodies.old.items execution.old.run path.old first_thread first_reply (beside known.now states.old) → IfOk result (λ ending. EndsWith B.next run ending path.new (beside known.now states.new)) }
    ensures kept { (run : Noting B.Data B) → IsUnderWay B.next run bodies.old.items execution.old.run path.old first_thread first_reply (beside known.now states.old) → AreKeptIn B.next run path.old.nodes snapshots.old
        → IfOk result (λ ending. AreKeptAfter B.next run ending path.new.nodes snapshots.new) }
    ensures same { IsSameSearch path.old path.new }
{
    let mut thread = first_thread;
    let mut reply = first_reply;
    'turns: loop {
        let place = thread as usize;
        if place >= bodies.len() {
            reply.let_go();
            return stopped(failed(FailureKind::Misuse));
        }
        let body = &mut bodies[place];
        let op = body.resume(reply)?;
        match submit(execution, bodies, snapshots, path, known, states, op) {
            Ok(Turn::Reply(next, told)) => {
                thread = next;
                reply = told;
            }
            Ok(Turn::Start(next)) => {
                thread = next;
                reply = Reply::Start;
            }
            answer => return ended(answer),
        }
    }
}

/// How a run ends whose last operation was answered so. A turn is no end: it is never answered here.
pub(crate) fn ended<D: Drop>(answer: Result<Turn<D>, Halt>) -> Result<Ending<D>, AllocError>
    ensures { IfOk result (IsEndBy answer) }
{
    match answer {
        Err(Halt::Met(number)) => Ok(Ending::Met(number)),
        Err(Halt::Stopped(stop)) => stopped(stop),
        Ok(Turn::Ended(value)) => Ok(Ending::Ended(value)),
        Ok(Turn::Reply(..) | Turn::Start(_)) => Err(AllocError),
    }
}

/// How a run ends that is stopped so. An error where memory was refused.
fn stopped<D>(stop: Stop) -> Result<Ending<D>, AllocError>
    ensures { IfOk result (IsEndOf stop) }
{
    match stop {
        Stop::Memory => Err(AllocError),
        Stop::Failure(failure) => Ok(Ending::Failed(failure)),
    }
}

/// What a thread hands over is submitted, up to the next turn; what a spawn starts is a body more.
fn submit<B: Body + Same>(
    execution: &mut Execution<B::Data>,
    bodies: &mut Vec<B>,
    snapshots: &mut Snapshots<B::Data, B>,
    path: &mut Path,
    known: &States<B::Data, B>,
    states: &mut States<B::Data, B>,
    op: Op<B::Data, B>,
) -> Result<Turn<B::Data>, Halt>
where
    B::Data: Same,
    requires { execution.old.over ≡ None }
    ensures event { (run : Noting B.Data B) → IsHanding B.next run bodies.old.items execution.old.run path.old op (beside known.now states.old) → ComesTo B.next run result bodies.new.items execution.new.run path.new (beside known.now states.new) }
    ensures kept { (run : Noting B.Data B) → IsHanding B.next run bodies.old.items execution.old.run path.old op (beside known.now states.old) → AreKeptIn B.next run path.old.nodes snapshots.old → AreKeptBy B.next run result path.new.nodes snapshots.new }
    ensures open { StaysOpen result execution.new.over }
    ensures steps { OnOk result (execution.old.run.state.steps_left ≡ execution.new.run.state.steps_left + 1) }
    ensures same { IsSameSearch path.old path.new }
{
    let (request, started) = op.split();
    match add_child(bodies, started) {
        Err(_) => {
            request.let_go();
            Err(Halt::Stopped(Stop::Memory))
        }
        Ok(()) => match execution.begin(path, request) {
            Err(stop) => Err(Halt::Stopped(stop)),
            Ok(Begun::Turn(turn)) => Ok(turn),
            Ok(Begun::AtBranch) => {
                keep_and_pass(execution, bodies.as_slice(), snapshots, path, known, states)
            }
        },
    }
}

/// The branch point is passed, as `pass` does. Where the run isn't given up it is kept before its schedule, if something is left there.
fn keep_and_pass<B: Body + Same>(
    execution: &mut Execution<B::Data>,
    bodies: &[B],
    snapshots: &mut Snapshots<B::Data, B>,
    path: &mut Path,
    known: &States<B::Data, B>,
    states: &mut States<B::Data, B>,
) -> Result<Turn<B::Data>, Halt>
where
    B::Data: Same,
    requires { execution.old.over ≡ None }
    ensures event { Passes bodies.now execution.old path.old (beside known.now states.old) result execution.new path.new (beside known.now states.new) }
    ensures kept { (run : Noting B.Data B) → IsAtBranch B.next run bodies.now execution.old.run path.old (beside known.now states.old) → AreKeptIn B.next run path.old.nodes snapshots.old → AreKeptBy B.next run result path.new.nodes snapshots.new }
    ensures open { StaysOpen result execution.new.over }
    ensures steps { execution.new.run.state.steps_left ≡ execution.old.run.state.steps_left }
    ensures same { IsSameSearch path.old path.new }
{
    match look_up(execution, bodies, path, known, states) {
        Err(_) => Err(Halt::Stopped(Stop::Memory)),
        Ok(Found::Known(number)) => Err(Halt::Met(number)),
        Ok(Found::New) => match keep(execution, bodies, snapshots, path) {
            Err(_) => Err(Halt::Stopped(Stop::Memory)),
            Ok(()) => match execution.schedule(path) {
                Err(stop) => Err(Halt::Stopped(stop)),
                Ok(turn) => Ok(turn),
            },
        },
    }
}

/// The schedule at the first branch point of an operation, up to the next turn; or the run is given up there. Bodies are only kept and
/// compared here.
pub(crate) fn pass<D: Data + Same, B: Body + Same>(
    execution: &mut Execution<D>,
    bodies: &[B],
    path: &mut Path,
    known: &States<D, B>,
    states: &mut States<D, B>,
) -> Result<Turn<D>, Halt>
    requires { execution.old.over ≡ None }
    ensures event { Passes bodies.now execution.old path.old (beside known.now states.old) result execution.new path.new (beside known.now states.new) }
    ensures open { StaysOpen result execution.new.over }
    ensures steps { execution.new.run.state.steps_left ≡ execution.old.run.state.steps_left }
    ensures same { IsSameSearch path.old path.new }
{
    match look_up(execution, bodies, path, known, states) {
        Err(_) => Err(Halt::Stopped(Stop::Memory)),
        Ok(Found::Known(number)) => Err(Halt::Met(number)),
        Ok(Found::New) => match execution.schedule(path) {
            Err(stop) => Err(Halt::Stopped(stop)),
            Ok(turn) => Ok(turn),
        },
    }
}

/// Looks the state of the run up, if it explores past its path's nodes: among those that were known, and those that were noted since. If
/// it isn't there it is noted. An error where memory is refused.
#[tactic(auto, using(crate::proofs::ModelLemmas::Covering::not_looked_up))]
fn look_up<D: Data + Same, B: Body + Same>(
    execution: &Execution<D>,
    bodies: &[B],
    path: &Path,
    known: &States<D, B>,
    states: &mut States<D, B>,
) -> Result<Found, AllocError>
    ensures { IfOk result (λ found. LooksUpRun execution.now.run bodies.now path.now (beside known.now states.old) found (beside known.now states.new)) }
{
    if !path.explores_now() {
        return Ok(Found::New);
    }
    if !path.is_used_up() {
        return Ok(Found::New);
    }
    match states.look_up(known, execution, bodies, path)? {
        Some(number) => Ok(Found::Known(number)),
        None => Ok(Found::New),
    }
}
