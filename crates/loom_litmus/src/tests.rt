//! Tests of litmus tests: what is read and written, what is found, and what the program prints.
mod answers;
mod finding;
pub mod reading;
mod results;
mod words;
mod workers;
