//! What is known of an object, a store, an access and a thread, as far as a run's events tell.
use crate::text::forms::Kind;
use loom_objects::label::Label;
use loom_objects::operation::Name;
use std::sync::atomic::Ordering;

/// An object of the run. Its number is its place in the order in which objects were made.
#[derive(Clone, Copy)]
pub(crate) struct Object {
    pub(crate) kind: Kind,
    /// What the operation was called that made it.
    pub(crate) label: Option<Label>,
    /// Who made it, and when.
    pub(crate) made: At,
    /// How many stores, references, wakers or messages there are now; 1 of a tracked value that wasn't given back.
    pub(crate) count: usize,
    /// When it was taken apart.
    pub(crate) apart: Option<usize>,
}

/// An event by its number, from 1, and its thread.
#[derive(Clone, Copy)]
pub(crate) struct At {
    pub(crate) event: usize,
    pub(crate) thread: usize,
}

/// A store of an atomic.
#[derive(Clone, Copy)]
pub(crate) struct Store {
    pub(crate) atomic: usize,
    /// Its number among the stores of its atomic, from 0.
    pub(crate) number: usize,
    pub(crate) at: At,
    /// Its ordering; none of the first value.
    pub(crate) order: Option<Ordering>,
}

/// A store that was read.
#[derive(Clone, Copy)]
pub(crate) struct Reading {
    pub(crate) at: At,
    pub(crate) store: Store,
    pub(crate) order: Ordering,
    /// What read it, as a noun.
    pub(crate) noun: &'static str,
}

/// How an object was accessed, as far as it decides about races.
#[derive(Clone, Copy)]
pub(crate) enum Manner {
    /// It was made.
    Making,
    Load,
    /// A store, or a read-modify-write.
    Store,
    /// A load that doesn't synchronize.
    UnsyncLoad,
    Mutation,
    CellRead,
    CellWrite,
}

/// An access to an atomic or a cell.
#[derive(Clone, Copy)]
pub(crate) struct Access {
    pub(crate) object: usize,
    pub(crate) manner: Manner,
    pub(crate) at: At,
}

/// Who has an object since when: a lock, a cell that is open, or data that is out.
#[derive(Clone, Copy)]
pub(crate) struct Hold {
    pub(crate) object: usize,
    pub(crate) at: At,
}

/// A thread of the run.
#[derive(Clone, Copy)]
pub(crate) struct Member {
    pub(crate) name: Option<Name>,
    /// The event of what it has handed over last, and isn't answered yet; 0 where there is none.
    pub(crate) pending: usize,
    /// The line of that event.
    pub(crate) line: usize,
    /// How many stages of it have passed.
    pub(crate) stage: u8,
}

impl Manner {
    /// Whether such an access conflicts with an earlier one.
    pub(crate) fn conflicts_with(self, earlier: Manner) -> bool {
        match self {
            Manner::Making => false,
            Manner::Load => matches!(earlier, Manner::Making | Manner::Mutation),
            Manner::Store => {
                matches!(
                    earlier,
                    Manner::Making | Manner::Mutation | Manner::UnsyncLoad
                )
            }
            Manner::UnsyncLoad => {
                matches!(earlier, Manner::Making | Manner::Mutation | Manner::Store)
            }
            Manner::Mutation => true,
            Manner::CellRead => matches!(earlier, Manner::Making | Manner::CellWrite),
            Manner::CellWrite => true,
        }
    }

    /// The word for such an access.
    pub(crate) fn noun(self) -> &'static str {
        match self {
            Manner::Making => "making",
            Manner::Load => "load",
            Manner::Store => "store",
            Manner::UnsyncLoad => "unsynchronized load",
            Manner::Mutation => "mutation",
            Manner::CellRead => "read",
            Manner::CellWrite => "write",
        }
    }
}
