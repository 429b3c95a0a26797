//! Why a text or a value is no part, and no list of parts.

use crate::rt::path::checkpoint::error::PathError;
use std::alloc::AllocError;
use thiserror::Error;

/// Why a text or a value is no part, or no list of parts. The reasons are tested in this order, those of the parts of a list
/// for one part after another (own).
#[derive(Debug, Drop, Error)]
pub enum PartsError {
    /// The text is no JSON, or nests too deep.
    #[error("the parts are not JSON")]
    NotJson,
    /// The value doesn't say that it is one: it is another object, as the checkpoint of a search that isn't cut, or none.
    #[error("the checkpoint has no parts")]
    WrongFormat,
    /// The value is of another version, this one.
    #[error("the parts have version {0}, and not 2")]
    WrongVersion(u64),
    /// The value isn't of the format.
    #[error("the parts have the wrong shape")]
    WrongShape,
    /// The settings of the search, or the path of a part, are refused.
    #[error("{0}")]
    Path(PathError),
    /// A part has so many fixed nodes, and its path has fewer, or has more of them though the part is done.
    #[error("a part has {0} fixed nodes, and its path hasn't")]
    WrongFloor(u64),
    /// An option that was handed out isn't of the format.
    #[error("the parts have a bad option")]
    BadOption,
    /// Memory was refused.
    #[error("out of memory")]
    Memory(AllocError),
}
