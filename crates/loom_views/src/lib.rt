//! The memory model: version vectors, the views of threads, the accesses of a cell and the last seven stores of an atomic, all of
//! these for a whole run (`rt::views`), and the 22 kinds of failure (`rt::failure`). Contracts speak of points of a
//! happens-before graph and of whole histories, and the code keeps counts. `laws` says that the definitions mean what one expects
//! of a memory model. `sequence` is a vector that contracts see as the list of its values, `same` says whether two values are the same,
//! and on a `shelf` equal ones are kept once, found by digests (`chains`). No other crate of the repository is used.
#![tactic(auto)]

pub mod chains;
pub mod laws;
pub mod rt;
pub mod same;
pub mod sequence;
pub mod shelf;
