//! Who hears how many runs a check has made.

/// Hears of the runs of a check, while they are made (own).
pub trait Counting {
    /// So many runs have ended without a failure by now (own).
    fn made(&mut self, runs: u64);
}

/// Does nothing with what it hears (own).
#[derive(Clone, Copy, Debug)]
pub struct Unheard;

impl Counting for Unheard {
    fn made(&mut self, _runs: u64) {}
}
