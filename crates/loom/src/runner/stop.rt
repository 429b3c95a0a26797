//! Why a closure goes no further.
use loom_objects::failure::Failure;

/// Why a closure goes no further (own).
#[derive(Clone, Copy, Debug)]
pub enum Stop {
    /// The run failed, or is over.
    Failure(Failure),
    /// A growth was refused.
    Memory,
    /// The start of a thread was refused.
    Refused,
}
