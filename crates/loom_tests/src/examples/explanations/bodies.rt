//! Bodies that fail, one for each kind of failure, and some of which more is told.
pub mod limits;
pub mod locks;
pub mod misuses;
pub mod races;
pub mod values;
