//! Mutexes: one thread at a time holds a mutex, and has its data meanwhile.
ghost use Rattle.std.specs.Prelude.{◌≡◌};
ghost use Rattle.loom_objects.specs.Operation.Labelled.{bare};
ghost use Rattle.loom_ops.specs.Mutex.{mutex_handle, guard_handle, guard_taken};
ghost use Rattle.loom_ops.specs.Answers.{guard_in, tried_in};

use crate::answers::answer::Answer;
use loom_objects::operation::{MutexOp, Op, Reply, Request};

/// A mutex of the run (loom's `sync/mutex.rs`).
#[derive(Clone, Copy, Debug)]
pub struct Mutex {
    /// Its place in the order in which objects were made.
    pub number: usize,
}

/// A mutex that this thread holds (loom's `sync/mutex.rs`).
#[derive(Clone, Copy, Debug)]
pub struct MutexGuard {
    /// The mutex's number.
    pub number: usize,
}

/// A lock that was tried: the guard and the data, unless it is held (own).
pub struct Tried<D>(pub Option<(MutexGuard, D)>);

impl Mutex {
    /// A new mutex with this data, which nobody holds (loom's `sync/mutex.rs`).
    #[allow(clippy::new_ret_no_self)]
    pub fn new<D, S>(value: D) -> Op<D, S>
        ensures { result ≡ bare (Request.Mutex (MutexOp.New value)) }
    {
        Op::new(Request::Mutex(MutexOp::New(value)))
    }

    /// The mutex that was made, if that is what the reply says (own).
    pub fn from_reply<D>(reply: &Reply<D>) -> Option<Mutex>
        ensures { result ≡ mutex_handle reply.now }
    {
        match reply {
            Reply::Mutex(number) => Some(Mutex { number: *number }),
            _ => None,
        }
    }

    /// The thread holds the mutex from its reply on, which gives it the data. It waits while another holds it (loom's
    /// `sync/mutex.rs`).
    pub fn lock<D, S>(self) -> Op<D, S>
        ensures { result ≡ bare (Request.Mutex (MutexOp.Lock self.number)) }
    {
        Op::new(Request::Mutex(MutexOp::Lock(self.number)))
    }

    /// Locks the mutex where nobody holds it. Where a thread does, this one as well, it replies `WouldBlock` and doesn't wait
    /// (loom's `sync/mutex.rs`).
    pub fn try_lock<D, S>(self) -> Op<D, S>
        ensures { result ≡ bare (Request.Mutex (MutexOp.TryLock self.number)) }
    {
        Op::new(Request::Mutex(MutexOp::TryLock(self.number)))
    }

    /// Replies the data, which `put` hands back. While a thread holds the mutex that is a misuse, and so is any other operation
    /// of it before the `put` (loom's `sync/mutex.rs`).
    pub fn get_mut<D, S>(self) -> Op<D, S>
        ensures { result ≡ bare (Request.Mutex (MutexOp.GetMut self.number)) }
    {
        Op::new(Request::Mutex(MutexOp::GetMut(self.number)))
    }

    /// Hands the data back, after `get_mut` by the same thread, else it is a misuse (own).
    pub fn put<D, S>(self, value: D) -> Op<D, S>
        ensures { result ≡ bare (Request.Mutex (MutexOp.Put self.number value)) }
    {
        Op::new(Request::Mutex(MutexOp::Put(self.number, value)))
    }

    /// Replies the data, and the mutex is no more: a later operation of it is a misuse, and so is this one while a thread holds
    /// the mutex (loom's `sync/mutex.rs`).
    pub fn into_inner<D, S>(self) -> Op<D, S>
        ensures { result ≡ bare (Request.Mutex (MutexOp.IntoInner self.number)) }
    {
        Op::new(Request::Mutex(MutexOp::IntoInner(self.number)))
    }
}

impl MutexGuard {
    /// The mutex that the thread holds now, if that is what the reply says: of a lock, or of a wait with a time (own).
    pub fn from_reply<D>(reply: &Reply<D>) -> Option<MutexGuard>
        ensures { result ≡ guard_handle reply.now }
    {
        match reply {
            Reply::Locked(number, _) => Some(MutexGuard { number: *number }),
            Reply::Waited(number, ..) => Some(MutexGuard { number: *number }),
            _ => None,
        }
    }

    /// The mutex that the thread holds now, with its data, if that is what the reply says: of a lock, or of a wait (own).
    pub fn take<D: Drop>(reply: Reply<D>) -> Option<(MutexGuard, D)>
        ensures { result ≡ guard_taken reply }
    {
        match reply {
            Reply::Locked(number, value) => Some((MutexGuard { number }, value)),
            Reply::Waited(number, value, _) => Some((MutexGuard { number }, value)),
            _ => None,
        }
    }

    /// The mutex is free, and holds this data: in loom the guard's drop (loom's `sync/mutex.rs`).
    pub fn release<D, S>(self, value: D) -> Op<D, S>
        ensures { result ≡ bare (Request.Mutex (MutexOp.Release self.number value)) }
    {
        Op::new(Request::Mutex(MutexOp::Release(self.number, value)))
    }
}

impl<D: Drop> Answer<D> for Mutex {
    ghost held = { mutex_handle };

    fn from_reply(reply: Reply<D>) -> Option<Mutex>
        ensures { result ≡ mutex_handle reply }
    {
        let mutex = Mutex::from_reply(&reply);
        reply.let_go();
        mutex
    }
}

impl<D: Drop> Answer<D> for (MutexGuard, D) {
    ghost held = { guard_in };

    fn from_reply(reply: Reply<D>) -> Option<(MutexGuard, D)>
        ensures { result ≡ guard_in reply }
    {
        match reply {
            Reply::Locked(number, value) => Some((MutexGuard { number }, value)),
            other => {
                other.let_go();
                None
            }
        }
    }
}

impl<D: Drop> Answer<D> for Tried<D> {
    ghost held = { tried_in };

    fn from_reply(reply: Reply<D>) -> Option<Tried<D>>
        ensures { result ≡ tried_in reply }
    {
        match reply {
            Reply::Locked(number, value) => Some(Tried(Some((MutexGuard { number }, value)))),
            Reply::WouldBlock => Some(Tried(None)),
            other => {
                other.let_go();
                None
            }
        }
    }
}
