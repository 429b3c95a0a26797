//! Each form of no operation, or of several, and those whose answer isn't the reply's alone: once in main, and once in a thread that main
//! starts and joins. What is expected follows from the rules: a thread that is alone goes on at each of its branch points.
ghost use Rattle.std.specs.Prelude.{◌≤◌};

use crate::closures::children::{Task, start};
use crate::closures::finding::Wanted::{Complete, Fails, NoMemory};
use crate::closures::finding::{Counter, Main, comes_to, find};
use crate::closures::{NONE, ONE, ZERO, holds};
use loom::model::builder::Builder;
use loom::runner::{Handle, Host, Stop};
use loom::sync::{Condvar, Mutex};
use loom::{Choice, FailureKind};
use std::alloc::AllocError;
use std::mem;
use std::process::Abort;
use std::sync::Wait;
use std::test::Fail;

/// What a thread does by itself.
#[derive(Clone, Copy)]
pub(super) enum Form {
    /// Asserts what holds.
    AssertTrue,
    /// Asserts what doesn't hold.
    AssertFalse,
    /// Asks until the third answer.
    Until,
    /// Changes what a mutex holds, and looks at it.
    WithLock,
    /// Changes what a cell holds, and looks at it.
    WithMut,
    /// Sets a cell that holds copies.
    Set,
    /// Counts the references to a value.
    Count,
    /// Sends by a second sender.
    CloneSender,
    /// Has what it has made.
    Allocated,
    /// Was refused memory.
    Refused,
    /// Reaches what is never to be.
    Unreachable,
}

impl Form {
    /// What the form answers in this thread.
    pub(super) fn play<R: Wait>(self, handle: &mut Handle<u64, R>) -> Result<u64, Stop> {
        match self {
            Form::AssertTrue => assert_then(handle, true),
            Form::AssertFalse => assert_then(handle, false),
            Form::Until => until_third(handle),
            Form::WithLock => change_locked(handle),
            Form::WithMut => change_cell(handle),
            Form::Set => set_copied(handle),
            Form::Count => count_two(handle),
            Form::CloneSender => send_by_second(handle),
            Form::Allocated => handle.allocated(Ok(5)),
            Form::Refused => handle.allocated(Err(AllocError)),
            Form::Unreachable => {
                handle.unreachable_unchecked()?;
                Ok(0)
            }
        }
    }
}

/// Asserts it, and answers 4 then.
fn assert_then<R: Wait>(handle: &mut Handle<u64, R>, fact: bool) -> Result<u64, Stop> {
    handle.assert(fact)?;
    Ok(4)
}

/// Answers how often the condition was asked.
fn until_third<R: Wait>(handle: &mut Handle<u64, R>) -> Result<u64, Stop> {
    let mut asked = 0u64;
    handle.until(|_| {
        asked = asked.wrapping_add(1);
        Ok(asked == 3)
    })?;
    Ok(asked)
}

/// The mutex holds 2, and then 5. A second lock shows that the first was released.
fn change_locked<R: Wait>(handle: &mut Handle<u64, R>) -> Result<u64, Stop> {
    let mutex = handle.mutex(2)?;
    let before = handle.with_lock(&mutex, |data| mem::replace(data, 5))?;
    let now = handle.with_lock(&mutex, |data| *data)?;
    handle.assert([before, now] == [2, 5])?;
    Ok(now)
}

/// The cell holds 2, and then 5. The second access shows that the first has ended.
fn change_cell<R: Wait>(handle: &mut Handle<u64, R>) -> Result<u64, Stop> {
    let cell = handle.unsafe_cell(2)?;
    let before = handle.with_mut(&cell, |data| mem::replace(data, 5))?;
    let now = handle.with(&cell, |data| *data)?;
    handle.assert([before, now] == [2, 5])?;
    Ok(now)
}

/// The cell holds 2, and then 6.
fn set_copied<R: Wait>(handle: &mut Handle<u64, R>) -> Result<u64, Stop> {
    let cell = handle.cell(2)?;
    handle.set(&cell, 6)?;
    handle.copied(&cell)
}

/// Answers how many references there are of two.
fn count_two<R: Wait>(handle: &mut Handle<u64, R>) -> Result<u64, Stop> {
    let arc = handle.arc(9)?;
    let other = handle.clone_arc(&arc)?;
    let count = handle.strong_count(&arc)?;
    handle.drop_arc(other)?;
    handle.drop_arc(arc)?;
    Ok(count as u64)
}

/// Answers what was sent by the second sender, once the first was dropped.
fn send_by_second<R: Wait>(handle: &mut Handle<u64, R>) -> Result<u64, Stop> {
    let (sender, receiver) = handle.channel()?;
    let second = handle.clone_sender(&sender)?;
    handle.drop_sender(sender)?;
    let sent = handle.send(&second, 8)?;
    handle.assert(sent == Ok(()))?;
    let received = handle.recv(&receiver)?;
    Ok(received.unwrap_or(0))
}

/// Main starts a thread that does this, and answers what it has answered.
pub(super) fn in_child<R: Host>(
    handle: &mut Handle<u64, R>,
    form: Form,
    counter: &Counter,
) -> Result<u64, Stop> {
    let child = start(handle, Task::Form(form), counter)?;
    handle.join(&child)
}

/// A mutex, and the condition variable by which a change of its data is notified.
#[derive(Clone, Copy)]
pub(super) struct Change {
    mutex: Mutex,
    condvar: Condvar,
}

/// Waits while the mutex holds 0, and answers what it holds then.
pub(super) fn await_change<R: Wait>(
    handle: &mut Handle<u64, R>,
    change: &Change,
) -> Result<u64, Stop> {
    let (guard, value) = handle.lock(&change.mutex)?;
    let (guard, value) = handle.wait_while(&change.condvar, guard, value, |value| *value == 0)?;
    handle.release(guard, value)?;
    Ok(value)
}

/// Puts 7 into the mutex, and says so.
pub(super) fn make_change<R: Wait>(
    handle: &mut Handle<u64, R>,
    change: &Change,
) -> Result<u64, Stop> {
    handle.with_lock(&change.mutex, |data| *data = 7)?;
    handle.notify_one(&change.condvar)?;
    Ok(7)
}

/// What one thread waits for, in runs that make the first choice alone.
fn new_change<R: Wait>(handle: &mut Handle<u64, R>) -> Result<Change, Stop> {
    handle.stop_exploring()?;
    let mutex = handle.mutex(0)?;
    let condvar = handle.condvar()?;
    Ok(Change { mutex, condvar })
}

/// Main waits, and the thread that it starts makes the change.
pub(super) fn main_waits<R: Host>(
    handle: &mut Handle<u64, R>,
    counter: &Counter,
) -> Result<u64, Stop> {
    let change = new_change(handle)?;
    let child = start(handle, Task::MakeChange(change), counter)?;
    let seen = await_change(handle, &change)?;
    let made = handle.join(&child)?;
    handle.assert([seen, made] == [7, 7])?;
    Ok(seen)
}

/// The thread that main starts waits, and main makes the change once it does.
pub(super) fn child_waits<R: Host>(
    handle: &mut Handle<u64, R>,
    counter: &Counter,
) -> Result<u64, Stop> {
    let change = new_change(handle)?;
    let child = start(handle, Task::AwaitChange(change), counter)?;
    handle.yield_now()?;
    make_change(handle, &change)?;
    handle.join(&child)
}

/// Main alone goes on at four branch points, and ends.
static IN_MAIN: [Choice; 5] = [ZERO, ZERO, ZERO, ZERO, NONE];

/// Main waits in its join. The thread goes on at four branch points, and as it finishes. It ends, main has its result and ends.
static IN_CHILD: [Choice; 8] = [ONE, ONE, ONE, ONE, ONE, ONE, ZERO, NONE];

/// Main locks the mutex, and waits in two steps. The thread locks it, notifies main, finishes and ends. Main has the lock again, joins
/// and ends.
static MAIN_WAITS: [Choice; 10] = [ZERO, ZERO, ONE, ONE, ONE, ONE, ZERO, ZERO, ZERO, NONE];

/// Main yields. The thread locks the mutex, and waits in two steps. Main locks it, notifies the thread and waits in its join. The
/// thread has the lock again, finishes and ends, and so does main.
static CHILD_WAITS: [Choice; 11] = [ONE, ONE, ONE, ZERO, ZERO, ZERO, ONE, ONE, ONE, ZERO, NONE];

/// The check makes one run, which ends with this value by these choices.
fn runs_once<R: Abort + Host>(
    rt: &R,
    main: Main,
    value: u64,
    choices: &[Choice],
) -> Result<(), Fail> {
    let found = find(rt, &Builder::new(), main)?;
    holds(rt, found.comes_to(Complete(1)));
    holds(
        rt,
        found.runs.get(0).is_some_and(|run| run.is(value, choices)),
    );
    Ok(())
}

/// In main and in a thread the form has so many branch points, and answers this value.
fn comes_to_in_both<R: Abort + Host>(
    rt: &R,
    form: Form,
    value: u64,
    points: usize,
) -> Result<(), Fail>
    requires { points ≤ 4 }
{
    runs_once(rt, Main::Form(form), value, &IN_MAIN[4 - points..])?;
    runs_once(rt, Main::FormInChild(form), value, &IN_CHILD[4 - points..])
}

#[test]
fn asserts_that_hold(rt: HostRuntime) -> Result<(), Fail> {
    comes_to_in_both(&rt, Form::AssertTrue, 4, 0)
}

/// An assertion fails in each thread, in the first run.
#[test]
fn asserts_that_fail(rt: HostRuntime) -> Result<(), Fail> {
    let builder = Builder::new();
    let (main, child) = (
        Main::Form(Form::AssertFalse),
        Main::FormInChild(Form::AssertFalse),
    );
    let kind = FailureKind::Assertion;
    comes_to(&rt, &builder, main, Fails(kind, 0, &IN_MAIN[..0]), 1, 0)?;
    comes_to(&rt, &builder, child, Fails(kind, 0, &IN_CHILD[..1]), 1, 0)
}

#[test]
fn tries(rt: HostRuntime) -> Result<(), Fail> {
    comes_to_in_both(&rt, Form::Until, 3, 2)
}

#[test]
fn waits_while(rt: HostRuntime) -> Result<(), Fail> {
    runs_once(&rt, Main::WaitsWhile, 7, MAIN_WAITS.as_slice())?;
    runs_once(&rt, Main::ChildWaitsWhile, 7, CHILD_WAITS.as_slice())
}

#[test]
fn accesses_by_closures(rt: HostRuntime) -> Result<(), Fail> {
    comes_to_in_both(&rt, Form::WithLock, 5, 2)?;
    comes_to_in_both(&rt, Form::WithMut, 5, 0)?;
    comes_to_in_both(&rt, Form::Set, 6, 0)
}

#[test]
fn counts_of_references_and_senders(rt: HostRuntime) -> Result<(), Fail> {
    comes_to_in_both(&rt, Form::Count, 2, 4)?;
    comes_to_in_both(&rt, Form::CloneSender, 8, 2)
}

#[test]
fn allocations(rt: HostRuntime) -> Result<(), Fail> {
    comes_to_in_both(&rt, Form::Allocated, 5, 0)?;
    let (main, child) = (Main::Form(Form::Refused), Main::FormInChild(Form::Refused));
    comes_to(&rt, &Builder::new(), main, NoMemory, 1, 0)?;
    comes_to(&rt, &Builder::new(), child, NoMemory, 1, 0)
}
