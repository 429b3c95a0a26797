//! The state of a run, and what operations do to it.

pub mod access;
pub mod alloc;
pub mod arc;
pub mod atomic;
pub mod atomic_waker;
pub mod cell;
pub mod condvar;
pub mod dependence;
pub mod exploring;
pub mod kept;
pub mod leaks;
pub mod lent;
pub mod locals;
pub mod machine;
pub mod mpsc;
pub mod mutex;
pub mod notify;
pub mod object;
mod readers;
pub mod run;
pub mod rwlock;
pub mod scene;
pub mod schedule;
pub mod stages;
pub mod thread;
pub mod waker;
