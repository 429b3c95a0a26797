//! Texts of litmus tests: what is read, what is written, and why others are refused.
pub mod numbers;
pub mod random;
pub mod spoilt;
pub mod texts;
pub mod written;
pub mod wrong;
