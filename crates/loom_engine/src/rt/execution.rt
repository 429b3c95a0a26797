//! The execution of one run, an operation after another: up to its branch point, through the schedule there, and with its effect
//! (loom's `rt/execution.rs`).
//!
//! How far an operation came is answered at each of these. `Entry` says it at its beginning: it is answered at once, or there is
//! something to be chosen first. `Resumed` says it once the chosen thread has gone on: the effect is there, or a load asks which
//! store it reads. `Passed` says it of the effect: a turn, or the thread has reached another branch point. `Turn` is what the
//! caller is answered.
pub mod drawing;

ghost use Rattle.std.specs.Prelude.{◌≡◌, None, Bool, ◌≢◌, ◌≤◌, ◌+◌, ◌<◌, Err, Some, true, length, slice_get, IfOk, OnOk};
ghost use Rattle.loom_engine.specs.Begun.{Begins, begins_at, over_begun, wakes_at};
ghost use Rattle.loom_engine.specs.Execution.{may_end, over_after, Notes, ShowsCourse, IsMarked, Starts, takes_turn, Along, AllNeedMemory, MayBeRefused, Schedules, Submits, itself};
ghost use Rattle.std.specs.List.{Contains};
ghost use Rattle.loom_objects.specs.declared.choice.Choice.{Choice};
ghost use Rattle.loom_engine.specs.Runs.Course.{Course, opening, used_in};
ghost use Rattle.loom_objects.specs.Dependence.Shown.{Keeps};
ghost use Rattle.loom_objects.specs.Rules.Tables.{needs_memory};
ghost use Rattle.loom_objects.specs.Exploring.{is_on};
ghost use Rattle.loom_objects.specs.Scene.Shown.{Shows};
ghost use Rattle.loom_objects.specs.Rules.Uses.{use_at};
ghost use Rattle.loom_objects.specs.World.{World};
ghost use Rattle.loom_engine.specs.Runs.Machine as machine;
ghost use Rattle.loom_engine.specs.Path.Route.{Route, IsAtStart, IsSame, IsSameSearch, Decides, Switches};
ghost use Rattle.loom_objects.specs.Tree.Stores.{which_store};

use crate::rt::path::{MAX_BRANCHES, Path};
use loom_objects::data::Data;
use loom_objects::failure::{Stop, failed};
use loom_objects::operation::{ExploreOp, Reply, Request, Turn};
use loom_objects::rt::dependence::{Dependence, Use};
use loom_objects::rt::machine::{begin, end_run, enter_wait, read, resume};
use loom_objects::rt::run::{Entry, Passed, Resumed, RunState};
use loom_objects::rt::scene::Scene;
use loom_views::rt::MAX_ATOMIC_HISTORY;
use loom_views::rt::failure::FailureKind;
use loom_views::same::Same;
use std::alloc::{AllocError, Global};
use std::marker::Model;

/// Whether a run may end in which no thread can go on, or why it fails: a thread hasn't ended, or the path goes on (loom's
/// `rt/execution.rs`).
pub fn may_end(all_ended: bool, is_used_up: bool) -> Result<(), FailureKind>
    ensures { result ≡ may_end all_ended is_used_up }
{
    if !all_ended {
        return Err(FailureKind::Deadlock);
    }
    if !is_used_up {
        return Err(FailureKind::NotDeterministic);
    }
    Ok(())
}

/// Where this answer ends the run, notes what every further operation is answered (own).
pub fn record_end<D>(over: &mut Option<Stop>, answer: &Result<Turn<D>, Stop>)
    requires { over.old ≡ None }
    ensures { over.new ≡ over_after answer.now }
{
    match answer {
        Ok(Turn::Ended(_)) => *over = Some(failed(FailureKind::Misuse)),
        Ok(Turn::Reply(..)) | Ok(Turn::Start(_)) => {}
        Err(stop) => *over = Some(*stop),
    }
}

/// Where an operation couldn't be begun, notes what every further operation is answered.
fn record_stop<D>(over: &mut Option<Stop>, answer: &Result<Begun<D>, Stop>)
    requires { over.old ≡ None }
    ensures over { over.new ≡ over_begun answer.now }
{
    if let Err(stop) = answer {
        *over = Some(*stop);
    }
}

// as many as a path may have nodes: the path refuses the next one before this is used up
const FURTHER_BRANCHES: u32 = MAX_BRANCHES;

/// How much a run may use.
#[derive(Clone, Copy, Debug)]
pub struct Limits {
    /// How many threads there may be, main included: 1 to 5.
    pub max_threads: usize,
    /// How many operations all threads together may hand over.
    pub max_steps: usize,
}

/// How far an operation has come that was begun (own).
#[derive(Drop)]
pub enum Begun<D> {
    /// It had no branch point, and this is the next turn.
    Turn(Turn<D>),
    /// It has reached its branch point, at which `Execution::schedule` goes on.
    AtBranch,
}

/// A run so far.
#[derive(Drop)]
pub struct Progress<D> {
    /// The state of the machine.
    pub state: RunState<D>,
    /// The order of the accesses to objects.
    pub dependence: Dependence,
}

/// The execution of one run (loom's `rt/execution.rs`).
#[derive(Drop)]
pub struct Execution<D> {
    run: Progress<D>,
    // what every further operation is answered
    over: Option<Stop>,
}

impl<D> Model for Execution<D> {
    ghost use Rattle.loom_engine.specs.Execution.{ExecutionState};

    ghost Value = { ExecutionState D };

    ghost view = { λ e. record { run = e.run; over = e.over } };
}

impl<D: Data + Same> Execution<D> {
    /// A copy. An error where memory is refused (own).
    pub fn try_clone(&self) -> Result<Execution<D>, AllocError>
        ensures { IfOk result (λ copy. copy ≡ self.now) }
    {
        let scene = self.run.state.scene.try_clone()?;
        let dependence = self.run.dependence.try_clone(scene.alloc())?;
        Ok(Execution {
            run: Progress {
                state: RunState {
                    scene,
                    steps_left: self.run.state.steps_left,
                },
                dependence,
            },
            over: self.over,
        })
    }

    /// It becomes a copy of another one, in the room that it has. An error where memory is refused (own).
    pub fn copy_from(&mut self, other: &Execution<D>) -> Result<(), AllocError>
        ensures { IfOk result (λ _. self.new ≡ other.now) }
    {
        self.run.state.scene.copy_from(&other.run.state.scene)?;
        self.run.dependence.copy_from(&other.run.dependence)?;
        self.run.state.steps_left = other.run.state.steps_left;
        self.over = other.over;
        Ok(())
    }
}

impl<D: Data> Execution<D> {
    /// A run in which main is about to hand over its first operation.
    pub fn new(alloc: Global, limits: Limits) -> Result<Execution<D>, AllocError>
        requires some { 1 ≤ limits.max_threads }
        requires few { limits.max_threads ≤ 5 }
        ensures opens { IfOk result (λ execution. (explores : Bool) (path : Route) → IsAtStart explores path → ShowsCourse (opening explores limits.max_threads limits.max_steps) execution.run path) }
        ensures steps { IfOk result (λ execution. execution.run.state.steps_left ≡ limits.max_steps) }
        ensures over { IfOk result (λ execution. execution.over ≡ None) }
    {
        Ok(Execution {
            run: Progress {
                state: RunState::new(alloc, limits.max_threads, limits.max_steps)?,
                dependence: Dependence::new(alloc)?,
            },
            over: None,
        })
    }

    /// A run once more, in which main is about to hand over its first operation. What the last one needed room for is used again.
    // Inlined: each run begins with it.
    #[inline(always)]
    pub fn restart(&mut self, limits: Limits) -> Result<(), AllocError>
        requires some { 1 ≤ limits.max_threads }
        requires few { limits.max_threads ≤ 5 }
        ensures opens { IfOk result (λ _. (explores : Bool) (path : Route) → IsAtStart explores path → ShowsCourse (opening explores limits.max_threads limits.max_steps) self.new.run path) }
        ensures steps { IfOk result (λ _. self.new.run.state.steps_left ≡ limits.max_steps) }
        ensures over { IfOk result (λ _. self.new.over ≡ None) }
    {
        self.run.state.restart(limits.max_threads, limits.max_steps);
        self.run.dependence.restart()?;
        self.over = None;
        Ok(())
    }

    /// The active thread hands over an operation, which is done up to the next turn: the path says who goes on at a branch
    /// point. It is one event of the machine. `Memory` only where an object, a thread or a node is made, or data is copied.
    /// After a `Stop` each later call answers the same, and after `Turn::Ended` `Misuse` without a location; then nothing
    /// changes.
    // Inlined, as what it calls, so that no operation is copied from one function to the next.
    #[inline(always)]
    pub fn submit(&mut self, path: &mut Path, op: Request<D, ()>) -> Result<Turn<D>, Stop>
        ensures event { Submits self.old op path.old result self.new path.new }
        ensures steps { OnOk result (self.old.run.state.steps_left ≡ self.new.run.state.steps_left + 1) }
        ensures same { IsSameSearch path.old path.new }
    {
        if let Some(stop) = self.over {
            op.let_go();
            return Err(stop);
        }
        let answer = hand_over(&mut self.run, path, op);
        record_end(&mut self.over, &answer);
        answer
    }

    /// The active thread hands over an operation, which is done up to its branch point, or up to the next turn where it has none:
    /// what `submit` does before its schedule. After a `Stop` each later call answers the same, and nothing changes (own).
    pub fn begin(&mut self, path: &mut Path, op: Request<D, ()>) -> Result<Begun<D>, Stop>
        ensures event { Begins self.old op path.old result self.new path.new }
        ensures steps { OnOk result (self.old.run.state.steps_left ≡ self.new.run.state.steps_left + 1) }
        ensures same { IsSameSearch path.old path.new }
    {
        if let Some(stop) = self.over {
            op.let_go();
            return Err(stop);
        }
        let answer = enter(&mut self.run, path, op);
        record_stop(&mut self.over, &answer);
        answer
    }

    /// A branch point of the active thread: the path says who goes on, what that thread has pending takes effect, and so on up to
    /// the next turn (loom's `rt/execution.rs`). Once the run is over it is the same answer again, and nothing changes.
    pub fn schedule(&mut self, path: &mut Path) -> Result<Turn<D>, Stop>
        ensures event { Schedules self.old path.old result self.new path.new }
        ensures steps { self.new.run.state.steps_left ≡ self.old.run.state.steps_left }
        ensures same { IsSame path.old path.new }
    {
        if let Some(stop) = self.over {
            return Err(stop);
        }
        let answer = schedule(&mut self.run, path, FURTHER_BRANCHES);
        record_end(&mut self.over, &answer);
        answer
    }

    /// The threads, the objects and the views of the run, to read (own).
    pub fn scene(&self) -> &Scene<D>
        ensures { result.now ≡ self.now.run.state.scene }
    {
        &self.run.state.scene
    }

    /// Of how many threads there are accesses in order (own).
    pub fn ordered_threads(&self) -> usize
        ensures { result ≡ length self.now.run.dependence.threads }
    {
        self.run.dependence.thread_count()
    }

    /// The thread whose turn it is: whose operation took effect last, or was handed over last.
    pub fn active(&self) -> u8
        ensures { result ≡ self.now.run.state.scene.active }
    {
        self.run.state.scene.active()
    }
}

/// An operation up to the next turn: up to its branch point, and on from there.
#[inline(always)]
fn hand_over<D: Data>(
    run: &mut Progress<D>,
    path: &mut Path,
    op: Request<D, ()>,
) -> Result<Turn<D>, Stop>
    ensures along { Along (machine.submit op) run.old path.old result run.new path.new }
    ensures growth { result ≡ Err Stop.Memory → MayBeRefused op run.old path.old }
    ensures steps { OnOk result (run.old.state.steps_left ≡ run.new.state.steps_left + 1) }
    ensures same { IsSameSearch path.old path.new }
{
    match start(run, path, op) {
        Err(stop) => Err(stop),
        Ok(Entry::Answered(reply)) => Ok(Turn::Reply(run.state.scene.active(), reply)),
        Ok(Entry::AtBranch) => schedule(run, path, FURTHER_BRANCHES),
        Ok(Entry::Spurious(notifier)) => wait(run, path, notifier),
        Ok(Entry::Explores(op)) => switch(run, path, op),
    }
}

/// An operation up to its branch point, or up to the next turn where it has none.
fn enter<D: Data>(
    run: &mut Progress<D>,
    path: &mut Path,
    op: Request<D, ()>,
) -> Result<Begun<D>, Stop>
    ensures along { Along (begins_at op) run.old path.old result run.new path.new }
    ensures steps { OnOk result (run.old.state.steps_left ≡ run.new.state.steps_left + 1) }
    ensures same { IsSameSearch path.old path.new }
{
    match start(run, path, op) {
        Err(stop) => Err(stop),
        Ok(Entry::Answered(reply)) => Ok(Begun::Turn(Turn::Reply(run.state.scene.active(), reply))),
        Ok(Entry::AtBranch) => Ok(Begun::AtBranch),
        Ok(Entry::Spurious(notifier)) => wake(run, path, notifier),
        Ok(Entry::Explores(op)) => match switch(run, path, op) {
            Err(stop) => Err(stop),
            Ok(turn) => Ok(Begun::Turn(turn)),
        },
    }
}

/// Whether the active thread wakes from the notifier without a notification is chosen, and then it is at its branch point.
fn wake<D: Data>(run: &mut Progress<D>, path: &mut Path, notifier: usize) -> Result<Begun<D>, Stop>
    ensures along { Along (wakes_at notifier) run.old path.old result run.new path.new }
    ensures steps { run.new.state.steps_left ≡ run.old.state.steps_left }
    ensures same { IsSame path.old path.new }
{
    match path.branch_spurious() {
        Err(stop) => Err(stop),
        Ok(is_spurious) => match enter_wait(&mut run.state, is_spurious, notifier) {
            Err(stop) => Err(stop),
            Ok(()) => Ok(Begun::AtBranch),
        },
    }
}

/// What the operation does up to its branch point. There are no accesses yet to the objects that it makes, and a thread that it
/// makes comes after what its parent comes after. Their order is kept where the search is reduced, and else the counts alone.
#[inline(always)]
fn start<D: Data>(run: &mut Progress<D>, path: &Path, op: Request<D, ()>) -> Result<Entry<D>, Stop>
    ensures starts { Starts path.now.search.reduce op run.old result run.new }
    ensures growth { result ≡ Err Stop.Memory → (w : World D) → Shows w run.old.state → needs_memory op ≡ true }
    ensures steps { OnOk result (run.old.state.steps_left ≡ run.new.state.steps_left + 1) }
{
    let parent = run.state.scene.active() as usize;
    let threads = run.state.scene.thread_count();
    let objects = run.state.scene.object_count();
    let answer = begin(&mut run.state, op);
    if answer.is_ok() {
        let threads = run.state.scene.thread_count().saturating_sub(threads);
        let objects = run.state.scene.object_count().saturating_sub(objects);
        if run
            .dependence
            .grow(path.is_reduced(), parent, threads, objects)
            .is_err()
        {
            return Err(Stop::Memory);
        }
    }
    answer
}

/// The path explores from now on, or doesn't.
fn switch<D: Data>(run: &mut Progress<D>, path: &mut Path, op: ExploreOp) -> Result<Turn<D>, Stop>
    ensures along { Along (machine.switches op) run.old path.old result run.new path.new }
    ensures no_growth { result ≢ Err Stop.Memory }
    ensures steps { run.new.state.steps_left ≡ run.old.state.steps_left }
    ensures same { IsSameSearch path.old path.new }
{
    match switch_path(path, op) {
        Ok(()) => Ok(Turn::Reply(run.state.scene.active(), Reply::Done)),
        Err(kind) => Err(failed(kind)),
    }
}

/// The switch of a path that the operation names.
fn switch_path(path: &mut Path, op: ExploreOp) -> Result<(), FailureKind>
    ensures switches { Switches path.old op result path.new }
    ensures same { IsSameSearch path.old path.new }
{
    match op {
        ExploreOp::Explore => path.explore_state(),
        ExploreOp::StopExploring => path.critical(),
        ExploreOp::SkipBranch => {
            path.skip_branch();
            Ok(())
        }
    }
}

/// Whether the active thread wakes from the notifier without a notification is chosen, and then it yields or waits.
#[inline(never)]
fn wait<D: Data>(run: &mut Progress<D>, path: &mut Path, notifier: usize) -> Result<Turn<D>, Stop>
    ensures along { Along (machine.is_asked notifier) run.old path.old result run.new path.new }
    ensures growth { result ≡ Err Stop.Memory → AllNeedMemory itself (machine.is_asked notifier) run.old path.old }
    ensures steps { run.new.state.steps_left ≡ run.old.state.steps_left }
    ensures same { IsSame path.old path.new }
{
    match path.branch_spurious() {
        Err(stop) => Err(stop),
        Ok(is_spurious) => match enter_wait(&mut run.state, is_spurious, notifier) {
            Err(stop) => Err(stop),
            Ok(()) => schedule(run, path, FURTHER_BRANCHES),
        },
    }
}

/// A schedule, and those after it, up to a turn. `Misuse` at one branch point more than there may be.
// Not inlined: what it passes is inlined into it.
#[inline(never)]
fn schedule<D: Data>(run: &mut Progress<D>, path: &mut Path, more: u32) -> Result<Turn<D>, Stop>
    ensures along { Along (machine.schedule more) run.old path.old result run.new path.new }
    ensures growth { result ≡ Err Stop.Memory → AllNeedMemory itself (machine.schedule more) run.old path.old }
    ensures steps { run.new.state.steps_left ≡ run.old.state.steps_left }
    ensures same { IsSame path.old path.new }
{
    let mut left = more;
    'passes: loop {
        match pass(run, path) {
            Err(stop) => return Err(stop),
            Ok(Passed::Turn(turn)) => return Ok(turn),
            Ok(Passed::AtBranch) => {
                if left == 0 {
                    return Err(failed(FailureKind::Misuse));
                }
                left -= 1;
            }
        }
    }
}

/// The path says which thread goes on, and what it has pending takes effect.
#[inline(always)]
fn pass<D: Data>(run: &mut Progress<D>, path: &mut Path) -> Result<Passed<D>, Stop>
    ensures along { Along machine.passes run.old path.old result run.new path.new }
    ensures growth { result ≡ Err Stop.Memory → AllNeedMemory Passed.Turn machine.passes run.old path.old }
    ensures steps { run.new.state.steps_left ≡ run.old.state.steps_left }
    ensures same { IsSame path.old path.new }
{
    let place = path.position();
    mark(run, path);
    match path.branch_thread(&run.state.scene.offers()) {
        Err(stop) => Err(stop),
        Ok(Some(thread)) => match access(run, path, thread, place) {
            Err(stop) => Err(stop),
            Ok(()) => take_turn(run, path, thread),
        },
        Ok(None) => match close(run, path) {
            Err(stop) => Err(stop),
            Ok(turn) => Ok(Passed::Turn(turn)),
        },
    }
}

/// The schedule's marks are made. A search that isn't reduced makes none, so nothing is looked up for it.
#[inline(always)]
fn mark<D: Data>(run: &Progress<D>, path: &mut Path)
    ensures marks { IsMarked run.now path.old path.new }
    ensures same { IsSame path.old path.new }
{
    if path.is_reduced() {
        mark_unordered(run, path);
    }
}

/// Marks are made for the last accesses that what is pending depends on and isn't ordered after.
// Not inlined, so that a schedule is small enough for what it passes to be inlined into it.
#[inline(never)]
fn mark_unordered<D: Data>(run: &Progress<D>, path: &mut Path)
    requires { path.old.search.reduce ≡ true }
    ensures marks { IsMarked run.now path.old path.new }
    ensures same { IsSame path.old path.new }
{
    let uses = run.state.scene.uses();
    path.backtrack(&run.dependence.unordered(&uses));
}

/// What the thread of this number is about to do to its object.
fn use_by<D: Data>(run: &Progress<D>, thread: u8) -> Option<Use>
    ensures { result ≡ use_at run.now.state.scene.threads thread }
{
    match run.state.scene.thread(thread) {
        Ok(chosen) => chosen.task.used(),
        Err(_) => None,
    }
}

/// What the thread is about to do, chosen at this place, is an access, unless it is on no object. Where the search isn't reduced no
/// mark is made of it, so that it is counted alone.
fn access<D: Data>(run: &mut Progress<D>, path: &Path, thread: u8, place: usize) -> Result<(), Stop>
    requires { thread < 5 }
    ensures notes { (c : Course D) → Keeps path.now.search.reduce c.order run.old.dependence → c.passed ≡ place → Notes path.now.search.reduce (used_in thread c (use_at run.old.state.scene.threads thread)) result run.new.dependence }
    ensures state { run.new.state ≡ run.old.state }
    ensures no_growth { result ≢ Err Stop.Memory }
{
    match use_by(run, thread) {
        Some(used) => run
            .dependence
            .record(path.is_reduced(), thread as usize, used, place)
            .map_err(failed),
        None => Ok(()),
    }
}

/// The chosen thread goes on with what it has pending. A load asks the path which store it reads.
#[inline(always)]
fn take_turn<D: Data>(run: &mut Progress<D>, path: &mut Path, thread: u8) -> Result<Passed<D>, Stop>
    ensures along { Along (takes_turn thread) run.old path.old result run.new path.new }
    ensures growth { result ≡ Err Stop.Memory → AllNeedMemory Passed.Turn (takes_turn thread) run.old path.old }
    ensures steps { run.new.state.steps_left ≡ run.old.state.steps_left }
    ensures same { IsSame path.old path.new }
{
    match resume(&mut run.state, thread) {
        Err(stop) => Err(stop),
        Ok(Resumed::Passed(passed)) => Ok(passed),
        Ok(Resumed::Load(load)) => match choose_slot(path, &load.readable) {
            Err(stop) => Err(stop),
            Ok(slot) => match read(&mut run.state, &load, slot) {
                Err(stop) => Err(stop),
                Ok(turn) => Ok(Passed::Turn(turn)),
            },
        },
    }
}

/// The path says which of the slots that may be read is.
#[inline(always)]
fn choose_slot(path: &mut Path, readable: &[bool; MAX_ATOMIC_HISTORY]) -> Result<u8, Stop>
    requires some { Contains readable.now true }
    ensures says { Decides Choice.Load path.old (which_store (is_on path.old.exploring) readable.now) result path.new }
    ensures readable { IfOk result (λ slot. slice_get readable.now slot ≡ Some true) }
    ensures same { IsSame path.old path.new }
{
    path.push_load(readable)?;
    path.branch_load()
}

/// No thread can go on: the run is over, if all threads have ended and the path is used up.
fn close<D: Drop>(run: &mut Progress<D>, path: &Path) -> Result<Turn<D>, Stop>
    ensures along { Along machine.closes run.old path.now result run.new path.now }
    ensures no_growth { result ≢ Err Stop.Memory }
    ensures steps { run.new.state.steps_left ≡ run.old.state.steps_left }
{
    match may_end(run.state.scene.all_ended(), path.is_used_up()) {
        Err(kind) => Err(failed(kind)),
        Ok(()) => end_run(&mut run.state),
    }
}
