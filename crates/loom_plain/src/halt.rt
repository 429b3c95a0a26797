//! Why no runs are found.
use loom_objects::operation::Reply;

/// Why no runs are found.
#[derive(Clone, Copy)]
pub enum Halt {
    /// A growth was refused.
    Memory,
    /// The body has more runs than are made here.
    TooManyRuns,
    /// The plain program is wrong: what must be there isn't.
    Broken,
}

/// The reply that the active thread gets, or nothing where it is at a branch point.
pub type NextReply = Option<Reply<u64>>;
