//! Read-write locks: many threads read, or one writes.
ghost use Rattle.std.specs.Prelude.{◌≡◌};
ghost use Rattle.loom_ops.specs.RwLock.{rwlock_handle, read_guard_handle, read_guard_taken, write_guard_handle, write_guard_taken};
ghost use Rattle.loom_objects.specs.Operation.Labelled.{bare};
ghost use Rattle.loom_ops.specs.Answers.{tried_read_in, tried_write_in};

use crate::answers::answer::Answer;
use loom_objects::operation::{Op, Reply, Request, RwLockOp};

/// A read-write lock of the run (loom's `sync/rwlock.rs`).
#[derive(Clone, Copy, Debug)]
pub struct RwLock {
    /// Its place in the order in which objects were made.
    pub number: usize,
}

/// A lock that this thread reads (loom's `sync/rwlock.rs`). The guards that were replied and not released are counted, by
/// thread: a handle that is copied or dropped does nothing.
#[derive(Clone, Copy, Debug)]
pub struct RwLockReadGuard {
    /// The lock's number.
    pub number: usize,
}

/// A lock that this thread writes (loom's `sync/rwlock.rs`).
#[derive(Clone, Copy, Debug)]
pub struct RwLockWriteGuard {
    /// The lock's number.
    pub number: usize,
}

impl RwLock {
    /// A new lock with this data, which nobody holds (loom's `sync/rwlock.rs`).
    #[allow(clippy::new_ret_no_self)]
    pub fn new<D, S>(value: D) -> Op<D, S>
        ensures { result ≡ bare (Request.RwLock (RwLockOp.New value)) }
    {
        Op::new(Request::RwLock(RwLockOp::New(value)))
    }

    /// The lock that was made, if that is what the reply says (own).
    pub fn from_reply<D>(reply: &Reply<D>) -> Option<RwLock>
        ensures { result ≡ rwlock_handle reply.now }
    {
        match reply {
            Reply::RwLock(number) => Some(RwLock { number: *number }),
            _ => None,
        }
    }

    /// The thread reads from its reply on, which gives it a copy of the data. It waits while a thread writes, and for no
    /// other that reads (loom's `sync/rwlock.rs`).
    pub fn read<D, S>(self) -> Op<D, S>
        ensures { result ≡ bare (Request.RwLock (RwLockOp.Read self.number)) }
    {
        Op::new(Request::RwLock(RwLockOp::Read(self.number)))
    }

    /// Reads where no thread writes. Where one does, it replies `WouldBlock` and doesn't wait (loom's `sync/rwlock.rs`).
    pub fn try_read<D, S>(self) -> Op<D, S>
        ensures { result ≡ bare (Request.RwLock (RwLockOp.TryRead self.number)) }
    {
        Op::new(Request::RwLock(RwLockOp::TryRead(self.number)))
    }

    /// The thread alone writes from its reply on, which gives it the data. It waits while a thread reads or writes (loom's
    /// `sync/rwlock.rs`).
    pub fn write<D, S>(self) -> Op<D, S>
        ensures { result ≡ bare (Request.RwLock (RwLockOp.Write self.number)) }
    {
        Op::new(Request::RwLock(RwLockOp::Write(self.number)))
    }

    /// Writes where no thread reads or writes. Where one does, this one as well, it replies `WouldBlock` and doesn't wait
    /// (loom's `sync/rwlock.rs`).
    pub fn try_write<D, S>(self) -> Op<D, S>
        ensures { result ≡ bare (Request.RwLock (RwLockOp.TryWrite self.number)) }
    {
        Op::new(Request::RwLock(RwLockOp::TryWrite(self.number)))
    }

    /// Replies the data, which `put` hands back. While a thread reads or writes that is a misuse, and so is any access before
    /// the `put` (loom's `sync/rwlock.rs`).
    pub fn get_mut<D, S>(self) -> Op<D, S>
        ensures { result ≡ bare (Request.RwLock (RwLockOp.GetMut self.number)) }
    {
        Op::new(Request::RwLock(RwLockOp::GetMut(self.number)))
    }

    /// Hands the data back, after `get_mut` by the same thread, else it is a misuse (own).
    pub fn put<D, S>(self, value: D) -> Op<D, S>
        ensures { result ≡ bare (Request.RwLock (RwLockOp.Put self.number value)) }
    {
        Op::new(Request::RwLock(RwLockOp::Put(self.number, value)))
    }

    /// Replies the data, and the lock is no more: a later operation of it is a misuse, and so is this one while a thread reads
    /// or writes (loom's `sync/rwlock.rs`).
    pub fn into_inner<D, S>(self) -> Op<D, S>
        ensures { result ≡ bare (Request.RwLock (RwLockOp.IntoInner self.number)) }
    {
        Op::new(Request::RwLock(RwLockOp::IntoInner(self.number)))
    }
}

impl RwLockReadGuard {
    /// The lock that the thread reads now, if that is what the reply says (own).
    pub fn from_reply<D>(reply: &Reply<D>) -> Option<RwLockReadGuard>
        ensures { result ≡ read_guard_handle reply.now }
    {
        match reply {
            Reply::ReadLocked(number, _) => Some(RwLockReadGuard { number: *number }),
            _ => None,
        }
    }

    /// The lock that the thread reads now, with a copy of its data, if that is what the reply says (own).
    pub fn take<D: Drop>(reply: Reply<D>) -> Option<(RwLockReadGuard, D)>
        ensures { result ≡ read_guard_taken reply }
    {
        match reply {
            Reply::ReadLocked(number, value) => Some((RwLockReadGuard { number }, value)),
            _ => None,
        }
    }

    /// One guard of the thread ends: in loom the guard's drop. A thread that has none of the lock makes a misuse (loom's
    /// `sync/rwlock.rs`).
    pub fn release<D, S>(self) -> Op<D, S>
        ensures { result ≡ bare (Request.RwLock (RwLockOp.ReadRelease self.number)) }
    {
        Op::new(Request::RwLock(RwLockOp::ReadRelease(self.number)))
    }
}

impl RwLockWriteGuard {
    /// The lock that the thread writes now, if that is what the reply says (own).
    pub fn from_reply<D>(reply: &Reply<D>) -> Option<RwLockWriteGuard>
        ensures { result ≡ write_guard_handle reply.now }
    {
        match reply {
            Reply::WriteLocked(number, _) => Some(RwLockWriteGuard { number: *number }),
            _ => None,
        }
    }

    /// The lock that the thread writes now, with its data, if that is what the reply says (own).
    pub fn take<D: Drop>(reply: Reply<D>) -> Option<(RwLockWriteGuard, D)>
        ensures { result ≡ write_guard_taken reply }
    {
        match reply {
            Reply::WriteLocked(number, value) => Some((RwLockWriteGuard { number }, value)),
            _ => None,
        }
    }

    /// The lock is free, and holds this data: in loom the guard's drop. A thread that doesn't write makes a misuse (loom's
    /// `sync/rwlock.rs`).
    pub fn release<D, S>(self, value: D) -> Op<D, S>
        ensures { result ≡ bare (Request.RwLock (RwLockOp.WriteRelease self.number value)) }
    {
        Op::new(Request::RwLock(RwLockOp::WriteRelease(self.number, value)))
    }
}

impl<D: Drop> Answer<D> for RwLock {
    ghost held = { rwlock_handle };

    fn from_reply(reply: Reply<D>) -> Option<RwLock>
        ensures { result ≡ rwlock_handle reply }
    {
        let lock = RwLock::from_reply(&reply);
        reply.let_go();
        lock
    }
}

impl<D: Drop> Answer<D> for (RwLockReadGuard, D) {
    ghost held = { read_guard_taken };

    fn from_reply(reply: Reply<D>) -> Option<(RwLockReadGuard, D)>
        ensures { result ≡ read_guard_taken reply }
    {
        RwLockReadGuard::take(reply)
    }
}

impl<D: Drop> Answer<D> for (RwLockWriteGuard, D) {
    ghost held = { write_guard_taken };

    fn from_reply(reply: Reply<D>) -> Option<(RwLockWriteGuard, D)>
        ensures { result ≡ write_guard_taken reply }
    {
        RwLockWriteGuard::take(reply)
    }
}

impl<D: Drop> Answer<D> for Option<(RwLockReadGuard, D)> {
    ghost held = { tried_read_in };

    fn from_reply(reply: Reply<D>) -> Option<Option<(RwLockReadGuard, D)>>
        ensures { result ≡ tried_read_in reply }
    {
        match reply {
            Reply::ReadLocked(number, value) => Some(Some((RwLockReadGuard { number }, value))),
            Reply::WouldBlock => Some(None),
            other => {
                other.let_go();
                None
            }
        }
    }
}

impl<D: Drop> Answer<D> for Option<(RwLockWriteGuard, D)> {
    ghost held = { tried_write_in };

    fn from_reply(reply: Reply<D>) -> Option<Option<(RwLockWriteGuard, D)>>
        ensures { result ≡ tried_write_in reply }
    {
        match reply {
            Reply::WriteLocked(number, value) => Some(Some((RwLockWriteGuard { number }, value))),
            Reply::WouldBlock => Some(None),
            other => {
                other.let_go();
                None
            }
        }
    }
}
