//! Litmus tests as texts, in herd's C: read, and written again, and run.
#![tactic(auto)]

pub mod error;
pub mod laws;
pub mod read;
pub mod run;
pub mod test;
pub mod words;
pub mod write;
