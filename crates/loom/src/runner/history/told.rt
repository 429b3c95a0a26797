//! The told list of a thread: the operations that it handed over, each with its reply.
use crate::runner::history::event::Entry;
use std::marker::Model;

/// The told list of a thread: what it handed over, and the replies (own).
#[derive(Drop)]
pub struct Told<D> {
    /// Which thread; 0 is main.
    pub thread: u8,
    /// In order. At most the last one has no reply.
    pub entries: Vec<Entry<D>>,
}

impl<D> Model for Told<D> {
    ghost use Rattle.loom.specs.Runner.Events.{Share};

    ghost Value = { Share D };

    ghost view = { λ t. record { thread = t.thread; entries = t.entries.items } };
}
