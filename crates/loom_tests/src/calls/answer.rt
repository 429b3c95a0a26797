//! The answer to a call, as a text: the reply, and behind it each handle and each value that is read off it.
use crate::page::Page;
use loom::alloc::Track;
use loom::cell::{Cell, ConstPtr, MutPtr, UnsafeCell};
use loom::future::{AtomicWaker, BlockOn, Waker};
use loom::sync::atomic::{Atomic, FetchUpdate};
use loom::sync::mpsc::{Receiver, Sender};
use loom::sync::{
    Arc, Condvar, Mutex, MutexGuard, Notify, RwLock, RwLockReadGuard, RwLockWriteGuard,
    TryLockError, WaitTimeoutResult,
};
use loom::thread::{AccessError, JoinHandle, Thread};
use loom::{Numeric, Reply, Turn};
use loom_objects::failure::Stop;
use std::fmt::Debug;

/// Writes the answer to a call, where atomics hold a `T`: whose turn it is and the reply, or the kind of the failure.
pub fn put_answer<T: Numeric + Debug + Drop>(page: &mut Page, answer: Result<Turn<u64>, Stop>) {
    match answer {
        Ok(turn) => put_turn::<T>(page, turn),
        Err(Stop::Failure(failure)) => page.add_debug(&failure.kind),
        Err(Stop::Memory) => page.add_debug(&"no memory"),
    }
}

fn put_turn<T: Numeric + Debug + Drop>(page: &mut Page, turn: Turn<u64>) {
    page.add_debug(&turn);
    if let Turn::Reply(_, reply) = turn {
        put_made::<T>(page, &reply);
        put_held(page, &reply);
        put_value::<T>(page, &reply);
        put_thread(page, &reply);
        put_taken(page, reply);
    }
}

// Writes each handle of an object that the reply gives.
fn put_made<T: Numeric + Debug + Drop>(page: &mut Page, reply: &Reply<u64>) {
    page.add_some(Atomic::<T>::from_reply(reply));
    page.add_some(UnsafeCell::from_reply(reply));
    page.add_some(Cell::from_reply(reply));
    page.add_some(Arc::from_reply(reply));
    page.add_some(Track::from_reply(reply));
    page.add_some(Mutex::from_reply(reply));
    page.add_some(RwLock::from_reply(reply));
    page.add_some(Condvar::from_reply(reply));
    page.add_some(Notify::from_reply(reply));
    page.add_some(Sender::from_reply(reply));
    page.add_some(Receiver::from_reply(reply));
    page.add_some(AtomicWaker::from_reply(reply));
    page.add_some(Waker::from_reply(reply));
    if let Some(block_on) = BlockOn::from_reply(reply) {
        page.add_some(Some(block_on));
        page.add_some(Some(block_on.waker()));
    }
}

// Writes what the thread holds from now on, or that it holds nothing.
fn put_held(page: &mut Page, reply: &Reply<u64>) {
    page.add_some(ConstPtr::from_reply(reply));
    page.add_some(MutPtr::from_reply(reply));
    page.add_some(MutexGuard::from_reply(reply));
    page.add_some(RwLockReadGuard::from_reply(reply));
    page.add_some(RwLockWriteGuard::from_reply(reply));
    page.add_some(TryLockError::from_reply(reply));
    if let Some(result) = WaitTimeoutResult::from_reply(reply) {
        page.add_some(Some(result.timed_out()));
    }
}

// Writes what an atomic holds, what an exchange has read, and how far an update is.
fn put_value<T: Numeric + Debug + Drop>(page: &mut Page, reply: &Reply<u64>) {
    page.add_some(Atomic::<T>::value(reply));
    page.add_some(Atomic::<T>::exchanged(reply));
    page.add_some(FetchUpdate::<T>::fetched(reply));
}

// Writes which thread it is, or that its value was given back.
fn put_thread(page: &mut Page, reply: &Reply<u64>) {
    if let Some(thread) = Thread::from_reply(reply) {
        put_name(page, thread);
    }
    if let Some(handle) = JoinHandle::from_reply(reply) {
        put_name(page, handle.thread());
    }
    page.add_some(AccessError::from_reply(reply));
}

fn put_name(page: &mut Page, thread: Thread) {
    page.add_some(Some(thread.id()));
    page.add_some(Some(thread.name()));
}

// Writes what the thread holds from now on, with its data.
fn put_taken(page: &mut Page, reply: Reply<u64>) {
    match reply {
        Reply::Reading(number, data) => {
            page.add_some(ConstPtr::take(Reply::Reading(number, data)));
        }
        Reply::Writing(number, data) => {
            page.add_some(MutPtr::take(Reply::Writing(number, data)));
            page.add_some(MutPtr::data(Reply::Writing(number, data)));
        }
        Reply::ReadLocked(number, data) => {
            page.add_some(RwLockReadGuard::take(Reply::ReadLocked(number, data)));
        }
        Reply::WriteLocked(number, data) => {
            page.add_some(RwLockWriteGuard::take(Reply::WriteLocked(number, data)));
        }
        other => page.add_some(MutexGuard::take(other)),
    }
}
