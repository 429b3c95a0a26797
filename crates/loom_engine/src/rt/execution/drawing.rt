//! The execution of a run whose choices are drawn as it meets them (own). Each function does what the one of that name does along
//! a path, but that it makes no marks.
ghost use Rattle.std.specs.Prelude.{◌≡◌, ◌+◌, OnOk};
ghost use Rattle.loom_engine.specs.Drawing.{AlongDrawn, Leads, LeadsOn, SubmitsDrawn};
ghost use Rattle.loom_engine.specs.Execution.{takes_turn};
ghost use Rattle.loom_engine.specs.Path.Drawn.{IsDrawn, MakesMore};
ghost use Rattle.loom_engine.specs.Path.Route.{IsSame, IsSameSearch};
ghost use Rattle.loom_engine.specs.Runs.Machine as machine;

use crate::rt::execution::{
    Execution, FURTHER_BRANCHES, Progress, access, may_end, record_end, start, switch_path,
};
use crate::rt::path::Path;
use crate::rt::path::drawing::Chooser;
use loom_objects::data::Data;
use loom_objects::failure::{Stop, failed};
use loom_objects::operation::{ExploreOp, Reply, Request, Turn};
use loom_objects::rt::machine::{end_run, enter_wait, read, resume};
use loom_objects::rt::run::{Entry, Passed, Resumed};
use loom_views::rt::failure::FailureKind;

impl<D: Data> Execution<D> {
    /// The active thread hands over an operation, which is done up to the next turn, as `submit` does it; but what it chooses at a
    /// node is drawn. After a `Stop` each later call answers the same, and after `Turn::Ended` `Misuse` without a location; then
    /// nothing changes (own).
    // Inlined, as what it calls, so that no operation is copied from one function to the next.
    #[inline(always)]
    pub fn submit_drawn<C: Chooser>(
        &mut self,
        path: &mut Path,
        chooser: &mut C,
        op: Request<D, ()>,
    ) -> Result<Turn<D>, Stop>
        requires { IsDrawn path.old }
        ensures event { SubmitsDrawn self.old op path.old result self.new path.new }
        ensures steps { OnOk result (self.old.run.state.steps_left ≡ self.new.run.state.steps_left + 1) }
        ensures more { MakesMore path.old path.new }
        ensures drawn { IsDrawn path.new }
        ensures same { IsSameSearch path.old path.new }
    {
        if let Some(stop) = self.over {
            op.let_go();
            return Err(stop);
        }
        let answer = hand_over(&mut self.run, path, chooser, op);
        record_end(&mut self.over, &answer);
        answer
    }
}

/// An operation up to the next turn: up to its branch point, and on from there.
#[inline(always)]
fn hand_over<D: Data, C: Chooser>(
    run: &mut Progress<D>,
    path: &mut Path,
    chooser: &mut C,
    op: Request<D, ()>,
) -> Result<Turn<D>, Stop>
    requires { IsDrawn path.old }
    ensures along { AlongDrawn Leads (machine.submit op) run.old path.old result run.new path.new }
    ensures steps { OnOk result (run.old.state.steps_left ≡ run.new.state.steps_left + 1) }
    ensures more { MakesMore path.old path.new }
    ensures drawn { IsDrawn path.new }
    ensures same { IsSameSearch path.old path.new }
{
    match start(run, path, op) {
        Err(stop) => Err(stop),
        Ok(Entry::Answered(reply)) => Ok(Turn::Reply(run.state.scene.active(), reply)),
        Ok(Entry::AtBranch) => schedule(run, path, chooser, FURTHER_BRANCHES),
        Ok(Entry::Spurious(notifier)) => wait(run, path, chooser, notifier),
        Ok(Entry::Explores(op)) => switch_drawn(run, path, op),
    }
}

/// The path explores from now on, or doesn't.
fn switch_drawn<D: Data>(
    run: &mut Progress<D>,
    path: &mut Path,
    op: ExploreOp,
) -> Result<Turn<D>, Stop>
    requires { IsDrawn path.old }
    ensures along { AlongDrawn Leads (machine.switches op) run.old path.old result run.new path.new }
    ensures steps { run.new.state.steps_left ≡ run.old.state.steps_left }
    ensures more { MakesMore path.old path.new }
    ensures drawn { IsDrawn path.new }
    ensures same { IsSameSearch path.old path.new }
{
    match switch_path(path, op) {
        Ok(()) => Ok(Turn::Reply(run.state.scene.active(), Reply::Done)),
        Err(kind) => Err(failed(kind)),
    }
}

/// Whether the active thread wakes from the notifier without a notification is drawn, and then it yields or waits.
fn wait<D: Data, C: Chooser>(
    run: &mut Progress<D>,
    path: &mut Path,
    chooser: &mut C,
    notifier: usize,
) -> Result<Turn<D>, Stop>
    requires { IsDrawn path.old }
    ensures along { AlongDrawn Leads (machine.is_asked notifier) run.old path.old result run.new path.new }
    ensures steps { run.new.state.steps_left ≡ run.old.state.steps_left }
    ensures more { MakesMore path.old path.new }
    ensures drawn { IsDrawn path.new }
    ensures same { IsSame path.old path.new }
{
    match path.draw_spurious(chooser) {
        Err(stop) => Err(stop),
        Ok(is_spurious) => match enter_wait(&mut run.state, is_spurious, notifier) {
            Err(stop) => Err(stop),
            Ok(()) => schedule(run, path, chooser, FURTHER_BRANCHES),
        },
    }
}

/// A schedule, and those after it, up to a turn. `Misuse` at one branch point more than there may be.
fn schedule<D: Data, C: Chooser>(
    run: &mut Progress<D>,
    path: &mut Path,
    chooser: &mut C,
    more: u32,
) -> Result<Turn<D>, Stop>
    requires { IsDrawn path.old }
    ensures along { AlongDrawn Leads (machine.schedule more) run.old path.old result run.new path.new }
    ensures steps { run.new.state.steps_left ≡ run.old.state.steps_left }
    ensures more { MakesMore path.old path.new }
    ensures drawn { IsDrawn path.new }
    ensures same { IsSame path.old path.new }
{
    let mut left = more;
    'passes: loop {
        match pass(run, path, chooser) {
            Err(stop) => return Err(stop),
            Ok(Passed::Turn(turn)) => return Ok(turn),
            Ok(Passed::AtBranch) => {
                if left == 0 {
                    return Err(failed(FailureKind::Misuse));
                }
                left -= 1;
            }
        }
    }
}

/// The thread that goes on is drawn, and what it has pending takes effect.
fn pass<D: Data, C: Chooser>(
    run: &mut Progress<D>,
    path: &mut Path,
    chooser: &mut C,
) -> Result<Passed<D>, Stop>
    requires { IsDrawn path.old }
    ensures along { AlongDrawn LeadsOn machine.passes run.old path.old result run.new path.new }
    ensures steps { run.new.state.steps_left ≡ run.old.state.steps_left }
    ensures more { MakesMore path.old path.new }
    ensures drawn { IsDrawn path.new }
    ensures same { IsSame path.old path.new }
{
    let place = path.position();
    match path.draw_thread(chooser, &run.state.scene.offers()) {
        Err(stop) => Err(stop),
        Ok(Some(thread)) => match access(run, path, thread, place) {
            Err(stop) => Err(stop),
            Ok(()) => take_turn(run, path, chooser, thread),
        },
        Ok(None) => match close(run, path) {
            Err(stop) => Err(stop),
            Ok(turn) => Ok(Passed::Turn(turn)),
        },
    }
}

/// The chosen thread goes on with what it has pending. Which store a load reads is drawn.
fn take_turn<D: Data, C: Chooser>(
    run: &mut Progress<D>,
    path: &mut Path,
    chooser: &mut C,
    thread: u8,
) -> Result<Passed<D>, Stop>
    requires { IsDrawn path.old }
    ensures along { AlongDrawn LeadsOn (takes_turn thread) run.old path.old result run.new path.new }
    ensures steps { run.new.state.steps_left ≡ run.old.state.steps_left }
    ensures more { MakesMore path.old path.new }
    ensures drawn { IsDrawn path.new }
    ensures same { IsSame path.old path.new }
{
    match resume(&mut run.state, thread) {
        Err(stop) => Err(stop),
        Ok(Resumed::Passed(passed)) => Ok(passed),
        Ok(Resumed::Load(load)) => match path.draw_load(chooser, &load.readable) {
            Err(stop) => Err(stop),
            Ok(slot) => match read(&mut run.state, &load, slot) {
                Err(stop) => Err(stop),
                Ok(turn) => Ok(Passed::Turn(turn)),
            },
        },
    }
}

/// No thread can go on: the run is over, if all threads have ended. All choices of the path were drawn, so none is left over.
fn close<D: Data>(run: &mut Progress<D>, _path: &Path) -> Result<Turn<D>, Stop>
    requires { IsDrawn _path.now }
    ensures along { AlongDrawn Leads machine.closes run.old _path.now result run.new _path.now }
    ensures steps { run.new.state.steps_left ≡ run.old.state.steps_left }
{
    match may_end(run.state.scene.all_ended(), true) {
        Err(kind) => Err(failed(kind)),
        Ok(()) => end_run(&mut run.state),
    }
}
