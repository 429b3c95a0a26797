//! Tests of the libraries and of the examples; and the text that tests put together, those of `loom_rows` too. No program calls it.
#![tactic(auto)]

#[cfg(test)]
mod ample;
#[cfg(test)]
mod asserting;
#[cfg(test)]
mod calls;
#[cfg(test)]
mod checkpoints;
#[cfg(test)]
mod closures;
#[cfg(test)]
mod examples;
pub mod page;
#[cfg(test)]
mod porting;
#[cfg(test)]
mod views;
