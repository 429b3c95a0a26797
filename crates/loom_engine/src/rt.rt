//! The execution of a run, and the path of its choices.

pub mod execution;
pub mod parts;
pub mod path;
pub mod snapshots;
pub mod states;
