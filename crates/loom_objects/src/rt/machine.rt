//! The steps of a run: an operation begins, a thread is chosen, a load reads, the run ends.
mod effects;

ghost use Rattle.std.specs.Prelude.{◌≡◌, ◌≢◌, Bool, Err, ◌+◌, slice_get, true, IfOk, OnOk};
ghost use Rattle.loom_objects.specs.Stages.ChosenCopy.{GivesCopy, reads_at};
ghost use Rattle.loom_objects.specs.Rules.Tables as effects;
ghost use Rattle.loom_objects.specs.Operation.Accessed.{accessed};
ghost use Rattle.loom_objects.specs.Scene.Stage.{HasSlot, KeepsAt};
ghost use Rattle.loom_objects.specs.Scene.Shown.{Comes, Does, Shows, Resumes};
ghost use Rattle.loom_objects.specs.Rules.Steps as rules;
ghost use Rattle.loom_objects.specs.World.{World};
ghost use Rattle.loom_objects.specs.declared.choice.Choice.{Choice};

use crate::data::Data;
use crate::failure::{Stop, failed};
use crate::operation::{Request, Turn};
use crate::rt::machine::effects::{begin_op, go_on};
use crate::rt::run::{Entry, Loading, Resumed, RunState};
use crate::rt::{atomic, notify};
use loom_views::rt::failure::FailureKind;

/// What the active thread's operation does up to its branch point, or all of it, where it has none. It is counted
/// before anything else: `TooManySteps` where none is left.
#[inline(always)]
pub fn begin<D: Data>(run: &mut RunState<D>, op: Request<D, ()>) -> Result<Entry<D>, Stop>
    ensures does { Does (rules.begins op) run.old result run.new }
    ensures steps { OnOk result (run.old.steps_left ≡ run.new.steps_left + 1) }
    ensures growth { result ≡ Err Stop.Memory → effects.needs_memory op ≡ true }
{
    if run.steps_left == 0 {
        op.let_go();
        return Err(failed(FailureKind::TooManySteps));
    }
    run.steps_left -= 1;
    match begin_op(&mut run.scene, op) {
        Ok(answer) => answer.map_err(failed),
        Err(_) => Err(Stop::Memory),
    }
}

/// The thread is chosen, and what it has pending takes effect; an access that reads from an atomic up to the choice of
/// the store that it reads. `Memory` only where a reader gets a copy of a lock's data.
pub fn resume<D: Data>(run: &mut RunState<D>, thread: u8) -> Result<Resumed<D>, Stop>
    ensures does { (exploring : Bool) → (w : World D) → Shows w run.old → Resumes exploring (rules.resumes exploring thread w) result run.new }
    ensures slot { IfOk result HasSlot }
    ensures steps { run.new.steps_left ≡ run.old.steps_left }
    ensures growth { result ≡ Err Stop.Memory → (exploring : Bool) → (w : World D) → Shows w run.old → GivesCopy (rules.resumes exploring thread w) }
    ensures reads { result ≡ Err Stop.Memory → reads_at (slice_get run.old.scene.threads thread) ≡ true }
{
    match go_on(&mut run.scene, thread) {
        Ok(answer) => answer.map_err(failed),
        Err(_) => Err(Stop::Memory),
    }
}

/// An access goes on by the slot that was chosen, in which a store is kept.
#[inline(always)]
pub fn read<D: Drop>(run: &mut RunState<D>, load: &Loading, slot: u8) -> Result<Turn<D>, Stop>
    ensures does { (w : World D) → Shows w run.old → KeepsAt w.points (accessed load.now.access) slot →
        Comes (rules.read_by load.now w (Choice.Load slot)) result run.new }
    ensures steps { run.new.steps_left ≡ run.old.steps_left }
    ensures no_growth { result ≢ Err Stop.Memory }
{
    match atomic::read(&mut run.scene, load.access, slot as usize) {
        Ok(reply) => Ok(Turn::Reply(run.scene.active(), reply)),
        Err(kind) => Err(failed(kind)),
    }
}

/// Once it was chosen whether the active thread wakes from the notifier without a notification: it yields, or waits.
pub fn enter_wait<D: Drop>(
    run: &mut RunState<D>,
    is_spurious: bool,
    notifier: usize,
) -> Result<(), Stop>
    ensures does { Does (rules.enters_wait is_spurious notifier) run.old result run.new }
    ensures steps { run.new.steps_left ≡ run.old.steps_left }
    ensures no_growth { result ≢ Err Stop.Memory }
{
    notify::enter_wait(&mut run.scene, is_spurious, notifier).map_err(failed)
}

/// The run ends with main's result. The first object that is left, and must not be, is a leak.
pub fn end_run<D: Drop>(run: &mut RunState<D>) -> Result<Turn<D>, Stop>
    ensures does { Does rules.ends run.old result run.new }
    ensures steps { run.new.steps_left ≡ run.old.steps_left }
    ensures no_growth { result ≢ Err Stop.Memory }
{
    run.scene.end().map_err(failed)
}
