//! An event of a run, and how the run ends.
use loom_objects::failure::Failure;
use loom_objects::operation::{Op, Reply};

/// One event of a run: a thread gets the reply to its last operation, and hands over its next one.
#[derive(Debug, Drop)]
pub struct Event {
    /// Whose event it is; 0 is main.
    pub thread: u8,
    /// The reply to the thread's last operation, or `Start`. Data are `()`.
    pub told: Reply<()>,
    /// What it handed over. Data, and what a spawn starts, are `()`.
    pub op: Op<(), ()>,
    /// How many choices the run had made when this was handed over. Those from here up to the next event's number were made
    /// at this event.
    pub choices_before: usize,
}

/// How a run ended.
#[derive(Clone, Copy, Debug)]
pub enum End {
    /// Main came to its value.
    Ended,
    /// It failed.
    Failed(Failure),
}
