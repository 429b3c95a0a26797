//! Each short form once, by one thread or two: what it answers. (Where answers are compared they aren't taken apart: after a stop
//! each later call answers it again, and none is equal to a number.)
use crate::closures::children::{Task, start};
use crate::closures::finding::{Counter, Main, passes};
use loom::cell::{Cell, UnsafeCell};
use loom::runner::{Handle, Host, Stop, TryRecvError};
use loom::sync::atomic::AtomicU64;
use loom::sync::atomic::Ordering::{AcqRel, Acquire, Relaxed, SeqCst};
use loom::sync::mpsc::{Receiver, Sender};
use loom::sync::{Arc, Condvar, Mutex, Notify, RwLock};
use loom::thread::Thread;
use loom_ops::answers::answer::Loaded;
use std::mem;
use std::sync::Wait;
use std::test::Fail;

/// The read-modify-writes of one number after another.
pub(super) fn updates<R: Wait>(handle: &mut Handle<u64, R>) -> Result<u64, Stop> {
    let number = handle.atomic(6u64)?;
    let before = [
        handle.swap(&number, 12, AcqRel).ok(),
        handle.fetch_add(&number, 3, AcqRel).ok(),
        handle.fetch_sub(&number, 1, AcqRel).ok(),
        handle.fetch_and(&number, 11, AcqRel).ok(),
        handle.fetch_or(&number, 4, AcqRel).ok(),
    ];
    handle.assert(before == [Some(6), Some(12), Some(15), Some(14), Some(10)])?;
    exchanges(handle, &number)?;
    other_updates(handle, &number)?;
    mutate(handle, number)
}

/// The others, and a load that doesn't synchronize.
fn other_updates<R: Wait>(handle: &mut Handle<u64, R>, number: &AtomicU64) -> Result<(), Stop> {
    let read = [
        handle.swap(number, 12, AcqRel).ok(),
        handle.fetch_xor(number, 10, AcqRel).ok(),
        handle.fetch_nand(number, 3, AcqRel).ok(),
        handle.fetch_min(number, 9, AcqRel).ok(),
        handle.fetch_max(number, 20, AcqRel).ok(),
        handle.compare_and_swap(number, 20, 7, SeqCst).ok(),
        handle.compare_and_swap(number, 20, 1, SeqCst).ok(),
        handle.unsync_load(number).ok(),
    ];
    let complement = Some(u64::MAX - 2);
    let wanted = [
        Some(1),
        Some(12),
        Some(6),
        complement,
        Some(9),
        Some(20),
        Some(7),
        Some(7),
    ];
    handle.assert(read == wanted)
}

/// Closures change the number, which is then taken out.
fn mutate<R: Wait>(handle: &mut Handle<u64, R>, number: AtomicU64) -> Result<u64, Stop> {
    let before = handle.with_mut_atomic(&number, |value| mem::replace(value, 9))?;
    let replaced = handle.fetch_update(&number, AcqRel, Acquire, |value| value.checked_add(1))?;
    let kept = handle.fetch_update(&number, AcqRel, Acquire, |value| value.checked_sub(11))?;
    let last = handle.into_inner_atomic(number)?;
    handle.assert(before == 7 && replaced == Ok(9) && kept == Err(10) && last == 10)?;
    Ok(last)
}

/// Adds one by an update, and answers what was there before, or else 9.
pub(super) fn update_once<R: Wait>(
    handle: &mut Handle<u64, R>,
    number: &AtomicU64,
) -> Result<u64, Stop> {
    let replaced = handle.fetch_update(number, AcqRel, Acquire, |value| value.checked_add(1))?;
    Ok(replaced.unwrap_or(9))
}

/// Two threads update the same number: each replaces what the other has left.
pub(super) fn two_updates<R: Host>(
    handle: &mut Handle<u64, R>,
    counter: &Counter,
) -> Result<u64, Stop> {
    let number = handle.atomic(0u64)?;
    let child = start(handle, Task::Update(number), counter)?;
    let before = update_once(handle, &number)?;
    let other = handle.join(&child)?;
    let total = handle.load(&number, Acquire)?;
    handle.assert(total == 2 && before.wrapping_add(other) == 1)?;
    Ok(total)
}

/// An update that is asked for as any operation is, the compare-exchanges, a fence, and a load.
fn exchanges<R: Wait>(handle: &mut Handle<u64, R>, number: &AtomicU64) -> Result<u64, Stop> {
    let Loaded(before) = handle.ask::<Loaded<u64>>(number.fetch_max(20, AcqRel).request)?;
    let read = [
        handle.compare_exchange(number, 0, 1, SeqCst, Relaxed).ok(),
        handle
            .compare_exchange_weak(number, 20, 1, SeqCst, Relaxed)
            .ok(),
    ];
    handle.assert(before == 14 && read == [Some(Err(20)), Some(Ok(20))])?;
    handle.fence(SeqCst)?;
    let last = handle.load(number, Acquire)?;
    Ok(last)
}

/// Mutexes and read-write locks, tried while they are held and while they aren't.
pub(super) fn locks<R: Wait>(handle: &mut Handle<u64, R>) -> Result<u64, Stop> {
    let mutex = handle.mutex(1)?;
    try_held(handle, &mutex)?;
    try_free(handle, &mutex)?;
    let lock = handle.rw_lock(3)?;
    write(handle, &lock)?;
    read_twice(handle, &lock)?;
    try_both_ways(handle, &lock)?;
    change_lock(handle, lock)?;
    replace(handle, &mutex)?;
    change_mutex(handle, mutex)
}

/// A read-write lock is tried while it is read, and while it is written.
fn try_both_ways<R: Wait>(handle: &mut Handle<u64, R>, lock: &RwLock) -> Result<(), Stop> {
    let (guard, _) = handle.read(lock)?;
    let Some((second, value)) = handle.try_read(lock)? else {
        return Err(handle.fail());
    };
    let none = handle.try_write(lock)?;
    handle.assert(value == 4 && none.is_none())?;
    handle.release_read(second)?;
    handle.release_read(guard)?;
    try_written(handle, lock)
}

/// A read-write lock is tried while nobody holds it, and while it is written.
fn try_written<R: Wait>(handle: &mut Handle<u64, R>, lock: &RwLock) -> Result<(), Stop> {
    let Some((guard, value)) = handle.try_write(lock)? else {
        return Err(handle.fail());
    };
    let none = handle.try_read(lock)?;
    handle.assert(value == 4 && none.is_none())?;
    handle.release_write(guard, 6)
}

/// A read-write lock is written and read by closures, changed without a lock, and taken apart.
fn change_lock<R: Wait>(handle: &mut Handle<u64, R>, lock: RwLock) -> Result<(), Stop> {
    let before = handle.with_write(&lock, |data| mem::replace(data, 7))?;
    let seen = handle.with_read(&lock, |data| *data)?;
    let again = handle.get_mut_rw_lock(&lock, |data| mem::replace(data, 8))?;
    let last = handle.into_inner_rw_lock(lock)?;
    handle.assert([before, seen, again, last] == [6, 7, 7, 8])
}

/// A mutex is changed without a lock, and taken apart.
fn change_mutex<R: Wait>(handle: &mut Handle<u64, R>, mutex: Mutex) -> Result<u64, Stop> {
    let before = handle.get_mut_mutex(&mutex, |data| mem::replace(data, 6))?;
    let last = handle.into_inner_mutex(mutex)?;
    handle.assert([before, last] == [5, 6])?;
    Ok(last)
}

/// A mutex is tried while it is held.
fn try_held<R: Wait>(handle: &mut Handle<u64, R>, mutex: &Mutex) -> Result<(), Stop> {
    let (guard, value) = handle.lock(mutex)?;
    let tried = handle.try_lock(mutex)?;
    handle.assert(value == 1 && tried.is_none())?;
    handle.release(guard, 2)
}

/// A mutex is tried while it isn't held.
fn try_free<R: Wait>(handle: &mut Handle<u64, R>, mutex: &Mutex) -> Result<(), Stop> {
    let Some((guard, value)) = handle.try_lock(mutex)? else {
        return Err(handle.fail());
    };
    handle.assert(value == 2)?;
    handle.release(guard, value)
}

/// A read-write lock is written.
fn write<R: Wait>(handle: &mut Handle<u64, R>, lock: &RwLock) -> Result<(), Stop> {
    let (guard, value) = handle.write(lock)?;
    handle.assert(value == 3)?;
    handle.release_write(guard, 4)
}

/// A read-write lock is read twice at a time.
fn read_twice<R: Wait>(handle: &mut Handle<u64, R>, lock: &RwLock) -> Result<(), Stop> {
    let (first, value) = handle.read(lock)?;
    let (second, again) = handle.read(lock)?;
    handle.assert([value, again] == [4, 4])?;
    handle.release_read(first)?;
    handle.release_read(second)
}

/// A mutex is locked for a change, and for a look.
fn replace<R: Wait>(handle: &mut Handle<u64, R>, mutex: &Mutex) -> Result<u64, Stop> {
    let before = handle.with_lock(mutex, |data| mem::replace(data, 5))?;
    let now = handle.with_lock(mutex, |data| *data)?;
    handle.assert([before, now] == [2, 5])?;
    Ok(now)
}

/// Both kinds of cells, and counted references.
pub(super) fn data<R: Wait>(handle: &mut Handle<u64, R>) -> Result<u64, Stop> {
    let open = handle.unsafe_cell(1)?;
    look(handle, &open)?;
    open_and_end(handle, &open)?;
    let cell = handle.cell(3)?;
    set(handle, &cell)?;
    exchange_cells(handle, cell)?;
    let last = handle.into_inner_unsafe_cell(open)?;
    handle.assert(last == 2)?;
    counted(handle)?;
    alone(handle)
}

/// Cells give what they hold for other data, exchange it, and are taken apart.
fn exchange_cells<R: Wait>(handle: &mut Handle<u64, R>, cell: Cell) -> Result<(), Stop> {
    let other = handle.cell(8)?;
    let replaced = handle.replace(&cell, 5)?;
    let taken = handle.take(&cell, 6)?;
    handle.swap_cells(&cell, &other)?;
    let (one, two) = (
        handle.into_inner_cell(cell)?,
        handle.into_inner_cell(other)?,
    );
    handle.assert([replaced, taken, one, two] == [4, 5, 8, 6])
}

/// A cell is changed and read by closures.
fn look<R: Wait>(handle: &mut Handle<u64, R>, cell: &UnsafeCell) -> Result<(), Stop> {
    handle.with_mut(cell, |count| *count = 2)?;
    let seen = handle.with(cell, |count| *count)?;
    handle.assert(seen == 2)
}

/// A cell is read and written by accesses that are ended.
fn open_and_end<R: Wait>(handle: &mut Handle<u64, R>, cell: &UnsafeCell) -> Result<(), Stop> {
    let (pointer, value) = handle.get(cell)?;
    let same = handle.deref_pointer(&pointer)?;
    handle.end(pointer)?;
    let (pointer, again) = handle.get_mut(cell)?;
    handle.end_mut(pointer, again)?;
    handle.assert([value, same, again] == [2, 2, 2])
}

/// A cell is written and read by accesses that end at once.
fn set<R: Wait>(handle: &mut Handle<u64, R>, cell: &Cell) -> Result<(), Stop> {
    handle.set(cell, 4)?;
    let now = handle.copied(cell)?;
    handle.assert(now == 4)
}

/// A counted reference, and one more of it.
fn counted<R: Wait>(handle: &mut Handle<u64, R>) -> Result<u64, Stop> {
    let arc = handle.arc(6)?;
    let other = handle.clone_arc(&arc)?;
    let value = handle.deref(&other).ok();
    let count = handle.strong_count(&arc).ok();
    handle.assert(value == Some(6) && count == Some(2))?;
    drop_both(handle, arc, other)?;
    Ok(6)
}

/// The last one gives the value.
fn drop_both<R: Wait>(handle: &mut Handle<u64, R>, arc: Arc, other: Arc) -> Result<(), Stop> {
    let left = handle.drop_arc(other)?;
    handle.assert(left.is_none())?;
    let left = handle.drop_arc(arc)?;
    handle.assert(left == Some(6))
}

/// A counted reference is changed and taken apart where it is alone, and only there.
fn alone<R: Wait>(handle: &mut Handle<u64, R>) -> Result<u64, Stop> {
    let arc = handle.arc(6)?;
    let other = handle.clone_arc(&arc)?;
    let none = handle.get_mut_arc(&arc, |value| mem::replace(value, 0))?;
    let shared = handle.try_unwrap(other)?;
    handle.assert(arc.ptr_eq(other) && none.is_none() && shared.is_none())?;
    handle.drop_arc(other)?;
    let before = handle.get_mut_arc(&arc, |value| mem::replace(value, 7))?;
    let last = handle.try_unwrap(arc)?;
    handle.assert(before == Some(6) && last == Some(7))?;
    Ok(7)
}

/// A channel with two senders, whose ends are dropped.
pub(super) fn messages<R: Wait>(handle: &mut Handle<u64, R>) -> Result<u64, Stop> {
    let (sender, receiver) = handle.channel()?;
    let none = handle.try_recv(&receiver)?;
    handle.assert(none == Err(TryRecvError::Empty))?;
    send_two(handle, &sender)?;
    receive_two(handle, &receiver)?;
    send_late(handle, sender, receiver)?;
    Ok(0)
}

/// Each of two senders sends, and one of them is dropped.
fn send_two<R: Wait>(handle: &mut Handle<u64, R>, sender: &Sender) -> Result<(), Stop> {
    let second = handle.clone_sender(sender)?;
    let sent = [handle.send(sender, 1).ok(), handle.send(&second, 2).ok()];
    handle.assert(sent == [Some(Ok(())), Some(Ok(()))])?;
    handle.drop_sender(second)
}

/// Both messages are received.
fn receive_two<R: Wait>(handle: &mut Handle<u64, R>, receiver: &Receiver) -> Result<(), Stop> {
    let one = handle.recv(receiver).ok();
    let two = handle.try_recv(receiver).ok();
    handle.assert(one == Some(Some(1)) && two == Some(Ok(2)))
}

/// The receiver is dropped, and then a message is sent in vain.
fn send_late<R: Wait>(
    handle: &mut Handle<u64, R>,
    sender: Sender,
    receiver: Receiver,
) -> Result<(), Stop> {
    let left = handle.drop_receiver(receiver)?;
    handle.assert(left.is_empty())?;
    let late = handle.send(&sender, 3)?;
    handle.assert(late == Err(3))?;
    handle.drop_sender(sender)
}

/// The receiver of a channel without a sender is told so.
pub(super) fn no_messages<R: Wait>(handle: &mut Handle<u64, R>) -> Result<u64, Stop> {
    let (sender, receiver) = handle.channel()?;
    handle.drop_sender(sender)?;
    let none = handle.recv(&receiver)?;
    handle.assert(none.is_none())?;
    Ok(0)
}

/// By what a thread waits for another: a notifier, then a token, and then a condition variable.
#[derive(Clone, Copy)]
pub(super) struct Signals {
    notifier: Notify,
    waiter: Thread,
    mutex: Mutex,
    condvar: Condvar,
}

/// A thread waits for another by each signal.
pub(super) fn waits<R: Host>(handle: &mut Handle<u64, R>, counter: &Counter) -> Result<u64, Stop> {
    let signals = new_signals(handle)?;
    let child = start(handle, Task::Signal(signals), counter)?;
    await_signals(handle, &signals)?;
    handle.join(&child)
}

/// The signals, of which this thread waits for each.
fn new_signals<R: Wait>(handle: &mut Handle<u64, R>) -> Result<Signals, Stop> {
    let notifier = handle.notifier()?;
    let mutex = handle.mutex(0)?;
    let condvar = handle.condvar()?;
    let waiter = handle.current()?;
    Ok(Signals {
        notifier,
        waiter,
        mutex,
        condvar,
    })
}

/// Gives each signal once, and the last one twice.
pub(super) fn give_signals<R: Wait>(
    handle: &mut Handle<u64, R>,
    signals: &Signals,
) -> Result<u64, Stop> {
    handle.notify(&signals.notifier)?;
    handle.unpark(&signals.waiter)?;
    let (guard, _) = handle.lock(&signals.mutex)?;
    handle.release(guard, 1)?;
    handle.notify_one(&signals.condvar)?;
    handle.notify_all(&signals.condvar)?;
    Ok(9)
}

/// Waits for each signal.
fn await_signals<R: Wait>(handle: &mut Handle<u64, R>, signals: &Signals) -> Result<(), Stop> {
    handle.wait_for(&signals.notifier)?;
    handle.park()?;
    let (guard, value) = handle.lock(&signals.mutex)?;
    let (guard, value) = handle.wait_while(&signals.condvar, guard, value, |value| *value == 0)?;
    handle.release(guard, value)?;
    handle.assert(value == 1)
}

/// What one thread waits for, with a time that never runs out.
#[derive(Clone, Copy)]
pub(super) struct Timed {
    mutex: Mutex,
    condvar: Condvar,
}

/// Main waits with a time for what a thread does.
pub(super) fn waits_with_time<R: Host>(
    handle: &mut Handle<u64, R>,
    counter: &Counter,
) -> Result<u64, Stop> {
    let mutex = handle.mutex(0)?;
    let condvar = handle.condvar()?;
    let timed = Timed { mutex, condvar };
    let (guard, value) = handle.lock(&mutex)?;
    let child = start(handle, Task::Change(timed), counter)?;
    let ((guard, changed), result) = handle.wait_timeout(&condvar, guard, value)?;
    handle.release(guard, changed)?;
    handle.assert(changed == 1 && !result.timed_out())?;
    handle.join(&child)
}

/// Changes the data, and says so.
pub(super) fn change_in_time<R: Wait>(
    handle: &mut Handle<u64, R>,
    timed: &Timed,
) -> Result<u64, Stop> {
    handle.with_lock(&timed.mutex, |data| *data = 1)?;
    handle.notify_one(&timed.condvar)?;
    handle.spin_loop()?;
    Ok(1)
}

#[test]
fn changes_of_atomics(rt: HostRuntime) -> Result<(), Fail> {
    passes(&rt, Main::Updates, 0)
}

#[test]
fn updates_by_two_threads(rt: HostRuntime) -> Result<(), Fail> {
    passes(&rt, Main::TwoUpdates, 0)
}

#[test]
fn locks_that_are_tried(rt: HostRuntime) -> Result<(), Fail> {
    passes(&rt, Main::Locks, 0)
}

#[test]
fn cells_and_references(rt: HostRuntime) -> Result<(), Fail> {
    passes(&rt, Main::Data, 0)
}

#[test]
fn channels(rt: HostRuntime) -> Result<(), Fail> {
    passes(&rt, Main::Messages, 0)?;
    passes(&rt, Main::NoMessages, 0)
}

#[test]
fn threads_that_wait(rt: HostRuntime) -> Result<(), Fail> {
    passes(&rt, Main::Waits, 0)
}

#[test]
fn a_wait_with_a_time(rt: HostRuntime) -> Result<(), Fail> {
    passes(&rt, Main::WaitsWithTime, 0)
}
