//! The text that explains each closure's run, in a file of its own.
pub mod closures_assertion;
pub mod closures_deadlock;
pub mod closures_leak;
pub mod closures_misuse;
pub mod closures_race;
pub mod relaxed_ring_closures;
