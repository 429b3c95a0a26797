//! What a check keeps while it is under way: a path as a JSON value and as a text, and the stores of texts.
pub mod file;
pub mod files;
pub mod memory;
pub mod named;
pub mod store;

pub use crate::checkpoint::file::FileStore;
pub use crate::checkpoint::files::{HostFiles, TextFiles};
pub use crate::checkpoint::memory::MemoryStore;
pub use crate::checkpoint::store::{CheckpointStore, StoreError};
pub use loom_engine::rt::path::checkpoint::error::PathError;
pub use loom_engine::rt::path::checkpoint::text::{from_text, to_text};
