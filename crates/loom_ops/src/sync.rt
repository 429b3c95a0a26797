//! loom's `sync`: atomics, locks, condition variables, notifiers, channels, and counted references.
pub mod arc;
pub mod atomic;
pub mod condvar;
pub mod mpsc;
pub mod mutex;
pub mod notify;
pub mod rwlock;
pub mod try_lock;

pub use crate::sync::arc::Arc;
pub use crate::sync::condvar::{Condvar, WaitTimeoutResult};
pub use crate::sync::mutex::{Mutex, MutexGuard};
pub use crate::sync::notify::Notify;
pub use crate::sync::rwlock::{RwLock, RwLockReadGuard, RwLockWriteGuard};
pub use crate::sync::try_lock::TryLockError;
