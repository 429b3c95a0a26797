//! Why a lock that was tried has no guard.
ghost use Rattle.std.specs.Prelude.{◌≡◌, Some, codes};
ghost use Rattle.loom_ops.specs.Mutex.{try_lock_error};

use loom_objects::operation::Reply;
use std::fmt;

/// Why `try_lock`, `try_read` or `try_write` has no guard (std's `sync::TryLockError`). A lock is never poisoned here.
#[derive(Clone, Copy, Debug, PartialEq, Eq)]
pub enum TryLockError {
    /// A thread holds the lock, this one or another.
    WouldBlock,
}

impl fmt::Display for TryLockError {
    ghost output = { λ _. Some (codes "try_lock failed because the operation would block") };

    fn fmt<W: fmt::Write>(&self, f: &mut fmt::Formatter<W>) -> fmt::Result {
        f.pad("try_lock failed because the operation would block")
    }
}

impl std::error::Error for TryLockError {}

impl TryLockError {
    /// That a thread holds the lock, if that is what the reply says (own).
    pub fn from_reply<D>(reply: &Reply<D>) -> Option<TryLockError>
        ensures { result ≡ try_lock_error reply.now }
    {
        match reply {
            Reply::WouldBlock => Some(TryLockError::WouldBlock),
            _ => None,
        }
    }
}
