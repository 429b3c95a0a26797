//! How threads are spawned, joined and ended (loom's `thread.rs`).
ghost use Rattle.std.specs.Prelude.{◌≡◌, IfOk, OnErr, true};
ghost use Rattle.loom_objects.specs.Scene.Stage.{Does};
ghost use Rattle.loom_objects.specs.Rules.Thread as rules;
ghost use Rattle.loom_objects.specs.World.{child_thread};

use crate::operation::{Name, Reply, ThreadOp};
use crate::rt::notify::{self, Notify, Spurious};
use crate::rt::object::Object;
use crate::rt::run::Entry;
use crate::rt::scene::Scene;
use crate::rt::thread::{Phase, State, Task, Thread, park};
use loom_views::rt::failure::FailureKind;
use loom_views::sequence::Sequence;
use std::alloc::{AllocError, Global};

/// The thread gives its own values back: its end is next.
pub fn exit<D: Drop>(scene: &mut Scene<D>) -> Result<Entry<D>, FailureKind>
    ensures { Does rules.exit scene.old result scene.new }
{
    if !matches!(scene.active_thread().phase, Phase::Finished) {
        return Err(FailureKind::Misuse);
    }
    scene.set_phase(Phase::Exited);
    Ok(Entry::Answered(Reply::Locals(scene.take_locals())))
}

/// What an operation of threads does up to its branch point, or all of it. An error of the outer result only where memory is
/// refused.
pub fn thread_begins<D: Drop>(
    scene: &mut Scene<D>,
    op: ThreadOp<D, ()>,
) -> Result<Result<Entry<D>, FailureKind>, AllocError>
    ensures does { IfOk result (λ answer. Does (rules.thread_begins op) scene.old answer scene.new) }
    ensures growth { OnErr result (rules.needs_memory op ≡ true) }
{
    let begun = match op {
        ThreadOp::Spawn((), name) => return spawn(scene, name),
        ThreadOp::Join(thread, notifier) => join_begins(scene, thread, notifier),
        ThreadOp::Finish(value) => finish(scene, value),
        ThreadOp::Exit => exit(scene),
        ThreadOp::End => end(scene),
        ThreadOp::Current => Ok(park::current(scene)),
        ThreadOp::Park => Ok(park::park(scene)),
        ThreadOp::Unpark(thread) => park::unpark(scene, thread),
        ThreadOp::Yield => park::yield_now(scene),
    };
    Ok(begun)
}

/// A thread more, with its parent's view and a notifier of its own.
fn spawn<D: Drop>(
    scene: &mut Scene<D>,
    name: Option<Name>,
) -> Result<Result<Entry<D>, FailureKind>, AllocError>
    ensures { IfOk result (λ answer. Does (rules.spawn name) scene.old answer scene.new) }
{
    let count = scene.thread_count();
    if count >= scene.max_threads() {
        return Ok(Err(FailureKind::TooManyThreads));
    }
    if let Err(kind) = scene.spawn_view() {
        return Ok(Err(kind));
    }
    let notifier = scene.add(Object::Notify(Notify {
        notified: false,
        waiter: None,
        spurious: Spurious::Never,
        wakers: None,
    }))?;
    let thread = child(scene.alloc(), name, notifier);
    scene.add_thread(thread)?;
    Ok(Ok(Entry::Answered(Reply::Spawned(count as u8, name, notifier))))
}

/// A thread that is to start, with no values of its own yet.
fn child<D>(alloc: Global, name: Option<Name>, notifier: usize) -> Thread<D>
    ensures { result ≡ child_thread name notifier }
{
    Thread {
        state: State::Runnable,
        phase: Phase::Working,
        task: Task::Start,
        notifier: Some(notifier),
        result: None,
        has_token: false,
        name,
        keys: Sequence::new(alloc),
        locals: Sequence::new(alloc),
    }
}

/// The active thread is to wait for a thread's end, and reaches a branch point, blocked until it is notified.
fn join_begins<D: Drop>(
    scene: &mut Scene<D>,
    thread: u8,
    notifier: usize,
) -> Result<Entry<D>, FailureKind>
    ensures { Does (rules.join_begins thread notifier) scene.old result scene.new }
{
    if scene.thread(thread)?.notifier != Some(notifier) {
        return Err(FailureKind::Misuse);
    }
    let active = scene.active();
    let notify = scene.notify_mut(notifier)?;
    if notify.waiter.is_some() {
        return Err(FailureKind::Misuse);
    }
    notify.waiter = Some(active);
    let is_notified = notify.notified;
    scene.pend(Task::Join(thread, notifier), !is_notified);
    Ok(Entry::AtBranch)
}

/// The active thread acquires from the notifier, and has the result of the thread that it joins.
pub fn join<D: Drop>(
    scene: &mut Scene<D>,
    thread: u8,
    notifier: usize,
) -> Result<Reply<D>, FailureKind>
    ensures { Does (rules.join thread notifier) scene.old result scene.new }
{
    let notify = scene.notify_mut(notifier)?;
    if !notify.notified {
        return Err(FailureKind::Misuse);
    }
    notify.notified = false;
    let value = scene.take_result(thread)?;
    scene.acquire(notifier);
    Ok(Reply::Data(value))
}

/// Main has its result at once, and gives the values back that were made once. Another thread reaches a branch point, at which
/// it is to notify.
fn finish<D: Drop>(scene: &mut Scene<D>, value: D) -> Result<Entry<D>, FailureKind>
    ensures { Does (rules.finish value) scene.old result scene.new }
{
    let thread = scene.active_thread();
    if !matches!(thread.phase, Phase::Working) {
        return Err(FailureKind::Misuse);
    }
    let notifier = thread.notifier;
    scene.set_phase(Phase::Finished);
    let Some(notifier) = notifier else {
        scene.set_result(value);
        return Ok(Entry::Answered(Reply::Lazies(scene.take_lazies())));
    };
    scene.pend(Task::Finish(notifier, value), false);
    Ok(Entry::AtBranch)
}

/// The active thread releases and notifies who joins it, and has its result.
pub fn child_finish<D: Drop>(
    scene: &mut Scene<D>,
    notifier: usize,
    value: D,
) -> Result<Reply<D>, FailureKind>
    ensures { Does (rules.child_finish notifier value) scene.old result scene.new }
{
    notify::notify_waiter(scene, notifier)?;
    scene.set_result(value);
    Ok(Reply::Done)
}

/// The thread has ended before its branch point.
fn end<D: Drop>(scene: &mut Scene<D>) -> Result<Entry<D>, FailureKind>
    ensures { Does rules.end scene.old result scene.new }
{
    if !matches!(scene.active_thread().phase, Phase::Exited) {
        return Err(FailureKind::Misuse);
    }
    scene.set_phase(Phase::Over);
    scene.set_state(State::Ended);
    Ok(Entry::AtBranch)
}
