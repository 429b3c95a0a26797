//! The parts of loom's `rt` that keep the memory model of a run, and the kinds of failure.

pub mod atomic;
pub mod cell;
pub mod failure;
pub mod num;
pub mod ranks;
pub mod synchronize;
pub mod views;
pub mod vv;

/// The most threads that a run may have, main included.
pub const MAX_THREADS: usize = 5;

/// The most stores of an atomic that are kept.
pub const MAX_ATOMIC_HISTORY: usize = 7;

/// The most stores that an atomic may have in a run, its first value counted (own).
pub const MAX_STORES: u16 = 65_535;
