//! Bodies that are lists of steps.
mod code;
pub(crate) mod comparing;
mod operations;
mod program;
pub mod script;
pub mod state;
pub mod step;
