//! An event of a run, and an entry of a thread's told list.
use loom_objects::failure::Failure;
use loom_objects::label::Label;
use loom_objects::operation::{Reply, Request, Turn};

/// An operation of the thread whose turn it is, up to the next turn (own).
#[derive(Drop)]
pub struct Event<D> {
    /// Whose turn it was.
    pub by: u8,
    /// What it handed over.
    pub op: Request<D, ()>,
    /// What its closure calls that, and where. It changes nothing that the operation does.
    pub label: Option<Label>,
    /// How many choices the run had made when it was handed over.
    pub choices_before: usize,
    /// The next turn, or why the run fails by it.
    pub outcome: Result<Turn<D>, Failure>,
}

/// An operation that a thread handed over, and the reply to it, if there was one (own).
#[derive(Drop)]
pub struct Entry<D> {
    /// What it handed over.
    pub op: Request<D, ()>,
    /// The reply, unless the run stopped before it.
    pub reply: Option<Reply<D>>,
}
