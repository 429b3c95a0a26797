//! Bodies that are written as such.
pub mod comparing;
pub mod guide;
pub mod peterson;
pub mod queue;
pub mod ring;
pub mod spin;
pub mod updates;
