//! What is proved of the definitions: the contract of each function is a law.

pub mod cover;
pub mod locks;
pub mod orders;
pub mod parts;
pub mod report;
pub mod runs;
pub mod tree;
pub mod views;
pub mod walk;
