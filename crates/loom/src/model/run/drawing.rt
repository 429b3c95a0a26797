//! One run of a body whose choices are drawn as it reaches them (own). It goes by turns as one along a path does; nobody hears it.
ghost use Rattle.std.specs.Prelude.{◌≡◌, ◌≤◌, ◌+◌, [], None, OnOk, IfOk, false};
ghost use Rattle.loom_objects.specs.Operation.Plain.{plain, started};
ghost use Rattle.loom_engine.specs.Drawing.{AlongDrawn, Leads};
ghost use Rattle.loom_engine.specs.Execution.{over_after};
ghost use Rattle.loom_engine.specs.Path.Drawn.{IsDrawn, MakesMore, led_by};
ghost use Rattle.loom_engine.specs.Path.Route.{IsAtStart, IsSameSearch, chosen};
ghost use Rattle.loom_engine.specs.Runs.Body.{runs as runs_of, with_child};
ghost use Rattle.loom_engine.specs.Runs.Machine.{submit as submitted};
ghost use Rattle.loom.specs.Explain.Story.{Story};
ghost use Rattle.loom.specs.Model.Run.{IsLocated};
ghost use Rattle.loom.specs.Model.Turns.{IsUnderWay};
ghost use Rattle.loom.specs.Model.Walking.{EndsSo, RunsDrawn};

use crate::model::listener::NoListener;
use crate::model::run::{Ending, Room, add_child, begin, ended, stopped};
use loom_engine::rt::execution::{Execution, Limits};
use loom_engine::rt::path::Path;
use loom_engine::rt::path::drawing::Chooser;
use loom_objects::body::Body;
use loom_objects::failure::{Stop, failed};
use loom_objects::operation::{Op, Reply, Turn};
use loom_views::rt::failure::FailureKind;
use std::alloc::AllocError;

/// One run of the body along the path, from its start, whose choices are drawn. An error only where a growth was refused, in the run or
/// the body.
pub(crate) fn draw_run<B: Body, C: Chooser>(
    room: &mut Room<B>,
    limits: Limits,
    body: &B,
    path: &mut Path,
    chooser: &mut C,
) -> Result<Ending<B::Data>, AllocError>
    requires some { 1 ≤ limits.max_threads }
    requires few { limits.max_threads ≤ 5 }
    requires starts { IsAtStart path.old.explores path.old }
    requires drawn { IsDrawn path.old }
    ensures along { IfOk result (λ ending. RunsDrawn (runs_of B.next path.old.explores limits.max_threads limits.max_steps body.now) path.old ending path.new) }
    ensures located { IfOk result (IsLocated false) }
    ensures same { IsSameSearch path.old path.new }
{
    begin(&mut room.bodies, body)?;
    room.execution.restart(limits)?;
    draw_turns(&mut room.execution, &mut room.bodies, path, chooser)
}

/// From its start the run goes on by turns, until it ends or fails.
fn draw_turns<B: Body, C: Chooser>(
    execution: &mut Execution<B::Data>,
    bodies: &mut Vec<B>,
    path: &mut Path,
    chooser: &mut C,
) -> Result<Ending<B::Data>, AllocError>
    requires going { execution.old.over ≡ None }
    requires drawn { IsDrawn path.old }
    ensures comes { (whole : Story B.Data) → IsUnderWay B.next whole [] bodies.old.items execution.old.run (led_by (chosen path.new) path.old) 0 Reply.Start
        → IfOk result (λ ending. EndsSo whole ending (led_by (chosen path.new) path.new)) }
    ensures located { IfOk result (IsLocated false) }
    ensures same { IsSameSearch path.old path.new }
{
    let mut thread = 0u8;
    let mut reply = Reply::Start;
    'turns: loop {
        let place = thread as usize;
        if place >= bodies.len() {
            reply.let_go();
            return stopped(failed(FailureKind::Misuse), &NoListener, execution.active());
        }
        let body = &mut bodies[place];
        let op = body.resume(reply)?;
        match submit(execution, bodies, path, chooser, op) {
            Ok(Turn::Reply(next, told)) => {
                thread = next;
                reply = told;
            }
            Ok(Turn::Start(next)) => {
                thread = next;
                reply = Reply::Start;
            }
            answer => return ended(answer, &NoListener, execution.active()),
        }
    }
}

/// What a thread hands over is submitted; what a spawn starts is a body more.
#[inline(always)]
fn submit<B: Body, C: Chooser>(
    execution: &mut Execution<B::Data>,
    bodies: &mut Vec<B>,
    path: &mut Path,
    chooser: &mut C,
    op: Op<B::Data, B>,
) -> Result<Turn<B::Data>, Stop>
    requires going { execution.old.over ≡ None }
    requires drawn { IsDrawn path.old }
    ensures event { AlongDrawn Leads (submitted (plain op)) execution.old.run path.old result execution.new.run path.new }
    ensures child { OnOk result (bodies.new.items ≡ with_child bodies.old.items (started op)) }
    ensures over { OnOk result (execution.new.over ≡ over_after result) }
    ensures steps { OnOk result (execution.old.run.state.steps_left ≡ execution.new.run.state.steps_left + 1) }
    ensures more { MakesMore path.old path.new }
    ensures drawn { IsDrawn path.new }
    ensures same { IsSameSearch path.old path.new }
{
    let (request, started) = op.split();
    match add_child(bodies, started) {
        Ok(()) => execution.submit_drawn(path, chooser, request),
        Err(_) => {
            request.let_go();
            Err(Stop::Memory)
        }
    }
}
