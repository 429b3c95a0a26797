//! The bodies of the other folder, and those of the guide, as closures, and the rows that are closures.
pub mod peterson;
pub mod queue;
pub mod ring;
pub mod rows;
pub mod scenes;
pub mod spin;
pub mod stack;
pub mod tasks;
