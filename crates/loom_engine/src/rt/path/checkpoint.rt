//! A path as a JSON value and as a text.
pub mod error;
pub mod read;
pub mod text;
pub mod value;
pub mod write;

/// The version of the format, and of those of parts. Own.
pub const VERSION: u64 = 2;

/// The rule of orders under which paths are made: raising one store's order raises all above it. Own.
pub const ORDER: &str = "all";
