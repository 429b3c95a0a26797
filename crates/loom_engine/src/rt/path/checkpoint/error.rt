//! Why a text or a value is no path.
use std::alloc::AllocError;
use std::fmt;
use thiserror::Error;

/// A setting that a path's text has, by its name in a builder or, where none has it, in the text.
#[derive(Clone, Copy, Debug, PartialEq, Eq)]
pub enum Setting {
    /// The rule of orders, which no builder sets.
    Order,
    /// Whether the search is reduced.
    Reduce,
    /// The bound on preemptions.
    PreemptionBound,
    /// Whether runs begin to explore only when the body says so.
    Exploring,
}

impl fmt::Display for Setting {
    fn fmt<W: fmt::Write>(&self, f: &mut fmt::Formatter<W>) -> fmt::Result {
        match self {
            Setting::Order => write!(f, "order"),
            Setting::Reduce => write!(f, "reduce"),
            Setting::PreemptionBound => write!(f, "preemption_bound"),
            Setting::Exploring => write!(f, "expect_explicit_explore"),
        }
    }
}

/// Why a text or a value is no path. The reasons are tested in this order.
#[derive(Debug, Drop, Error)]
pub enum PathError {
    /// The text is no JSON, or nests too deep.
    #[error("the checkpoint is not JSON")]
    NotJson,
    /// The value isn't of the format.
    #[error("the checkpoint has the wrong shape")]
    WrongShape,
    /// The value is of another version, this one.
    #[error("the checkpoint has version {0}, and not 2")]
    WrongVersion(u64),
    /// The path is of a search with other settings. This is the first that differs.
    #[error("the checkpoint was made with another `{0}`")]
    OtherSettings(Setting),
    /// There are more nodes than a run may have, so many.
    #[error("the checkpoint has {0} nodes, more than a run may have")]
    TooManyNodes(usize),
    /// A node isn't of the format, or isn't well formed.
    #[error("the checkpoint has a bad node")]
    BadNode,
    /// Memory was refused.
    #[error("out of memory")]
    Memory(AllocError),
}
