//! Checks of bodies (`model`) and of closures on threads of the host (`runner`): every run that the memory model allows is made,
//! or those that a reduced or bounded search has to make. `explain` says what happened in one run, `checkpoint` keeps how far a
//! check came, and `choices` are the choices of a run as a text.
#![tactic(auto)]

pub mod checkpoint;
pub mod choices;
pub mod explain;
pub mod laws;
pub mod model;
pub mod runner;

pub use crate::checkpoint::file::FileStore;
pub use crate::checkpoint::files::{HostFiles, TextFiles};
pub use crate::checkpoint::memory::MemoryStore;
pub use crate::checkpoint::store::{CheckpointStore, StoreError};
pub use crate::choices::{Choices, ChoicesError, ShownChoices};
pub use crate::model::clock::{Clock, HostClock, NoClock};
pub use loom_objects::body::Body;
pub use loom_objects::choice::{Choice, ParseChoiceError};
pub use loom_objects::data::Data;
pub use loom_objects::failure::Failure;
pub use loom_objects::label::Label;
pub use loom_objects::location::Location;
pub use loom_objects::operation::{Exchange, Labelled, Op, Reply, Request, Turn};
pub use loom_objects::text::Text;
pub use loom_objects::text_literal;
pub use loom_ops::{
    alloc, cell, explore, fail, future, hint, lazy_static, skip_branch, stop_exploring, sync,
    thread, unexpected_reply,
};
pub use loom_views::rt::MAX_THREADS;
pub use loom_views::rt::failure::FailureKind;
pub use loom_views::rt::num::Numeric;

/// The parts of a run (loom's `rt`), public since contracts name them: views, objects and threads with the leak check at a run's
/// end, its execution, and the path of its choices.
pub mod rt {
    pub use loom_engine::rt::path::node;
    pub use loom_engine::rt::{execution, path};
    pub use loom_objects::failure::Stop;
    pub use loom_objects::location;
    pub use loom_objects::rt::{dependence, leaks, object, run, thread};
    pub use loom_views::rt::{synchronize, vv};
}
