//! What the threads do that these tests start, all by one closure: each type of closure is built with all of the runner once more.
use crate::closures::carried::cells::{self, Access};
use crate::closures::carried::{orders, others, threads};
use loom::cell::UnsafeCell;
use loom::future::Waker;
use loom::lazy_static::Lazy;
use loom::runner::{Handle, Stop};
use loom::sync::Mutex;
use loom::sync::atomic::{AtomicBool, AtomicU64};
use loom::sync::mpsc::Sender;
use loom::thread::JoinHandle;
use std::sync::Wait;
use std::thread::Threads;

/// What a thread does.
#[derive(Clone, Copy)]
pub(super) enum Child {
    /// Accesses the cell.
    Access(Access, UnsafeCell),
    /// Writes the cell, and then tells of it.
    WriteAndTell(UnsafeCell, AtomicU64),
    /// Tells of it, and then writes the cell.
    TellAndWrite(UnsafeCell, AtomicU64),
    /// Asks for a lazy value.
    Lazy,
    /// Loads without synchronizing.
    UnsyncLoad(AtomicU64),
    /// Stores 1 to the first, and tells of it by the second.
    Publish(AtomicU64, AtomicU64),
    /// Sets the first, and looks at the second behind a fence.
    SetAndLook(AtomicBool, AtomicBool),
    /// Stores what it loads from the first into the second.
    Copy(AtomicU64, AtomicU64),
    /// Stores 1 to the first, and loads from the second.
    StoreAndLoad(AtomicU64, AtomicU64),
    /// Loads the number, and stores one more.
    LoadAndStore(AtomicU64),
    /// Sets the flag.
    Set(AtomicBool),
    /// Waits until the first is set, and looks at the second.
    WaitAndLook(AtomicBool, AtomicBool),
    /// Opens the gate, and wakes who waits for it.
    Open(AtomicBool, Waker),
    /// Sends this, and drops the sender.
    Send(Sender, u64),
    /// Sends what it says of its name.
    SendName(Sender),
    /// Adds one under the lock.
    Increment(Mutex),
}

impl Child {
    fn play<R: Wait>(self, handle: &mut Handle<u64, R>) -> Result<u64, Stop> {
        match self {
            Child::Access(access, cell) => access.play(handle, &cell),
            Child::WriteAndTell(cell, flag) => cells::write_and_tell(handle, &cell, &flag),
            Child::TellAndWrite(cell, flag) => cells::tell_and_write(handle, &cell, &flag),
            Child::Lazy => handle.lazy(&Lazy::new(1), || 0),
            Child::UnsyncLoad(number) => handle.unsync_load(&number),
            Child::Publish(value, flag) => orders::publish(handle, &value, &flag),
            Child::SetAndLook(mine, other) => orders::set_and_look(handle, &mine, &other),
            Child::Copy(from, to) => orders::copy(handle, &from, &to),
            Child::StoreAndLoad(mine, theirs) => orders::store_and_load(handle, &mine, &theirs),
            Child::LoadAndStore(number) => others::load_and_store(handle, &number),
            Child::Set(flag) => orders::set(handle, &flag),
            Child::WaitAndLook(one, other) => orders::wait_and_look(handle, &one, &other),
            Child::Open(gate, waker) => threads::open(handle, &gate, waker),
            Child::Send(sender, message) => threads::send_once(handle, sender, message),
            Child::SendName(sender) => threads::send_name(handle, sender),
            Child::Increment(mutex) => threads::increment(handle, &mutex),
        }
    }
}

/// Starts a thread that does this.
pub(super) fn start<R: Threads + Wait + Clone + Send + 'static>(
    handle: &mut Handle<u64, R>,
    child: Child,
) -> Result<JoinHandle, Stop> {
    handle.spawn(move |handle| child.play(handle))
}
