//! What an operation's reply says, and what the operation did to an atomic, a cell, a lock or a count.
use crate::text::forms::Deed;
use crate::text::names::Value;
use crate::text::objects::{Manner, Store};
use crate::text::page::Page;
use loom_objects::made;
use loom_objects::operation::{AtomicOp, CellOp, Reply};
use loom_views::rt::num::Numbers;
use std::sync::atomic::Ordering;

// The replies that say why there is nothing for the thread.
macro_rules! refused {
    () => {
        Reply::Shared | Reply::WouldBlock | Reply::Empty | Reply::RecvError | Reply::Disconnected
        | Reply::NoWaker | Reply::Absent | Reply::AccessError
    };
}

// The replies that have a list of values.
macro_rules! lists {
    () => { Reply::Messages(_) | Reply::Locals(_) | Reply::Lazies(_) };
}

/// What is shown of a reply.
#[derive(Clone, Copy)]
pub(crate) enum Answer {
    Nothing,
    /// It is shown in any case.
    Words(&'static str),
    /// It is shown where the thread waited for it.
    Late(&'static str),
    Value(Value),
    /// The number of the store that was made.
    Stored(usize),
    Read(Store, Outcome),
    Waker(usize),
    Thread(u8),
}

/// What came of a read.
#[derive(Clone, Copy)]
pub(crate) enum Outcome {
    Nothing,
    Value(Value),
    Exchanged(Value),
    Kept(Value),
}

/// What an operation did to its atomic.
pub(crate) struct Touch {
    /// Whether it read a store.
    pub(crate) reads: bool,
    /// Whether it made one.
    pub(crate) writes: bool,
    pub(crate) manner: Manner,
    /// What it is, as a noun.
    pub(crate) noun: &'static str,
}

static LOADS: Touch = Touch {
    reads: true,
    writes: false,
    manner: Manner::Load,
    noun: "load",
};

static FAILS: Touch = Touch {
    reads: true,
    writes: false,
    manner: Manner::Load,
    noun: "exchange that failed",
};

static STORES: Touch = Touch {
    reads: false,
    writes: true,
    manner: Manner::Store,
    noun: "store",
};

static CHANGES: Touch = Touch {
    reads: true,
    writes: true,
    manner: Manner::Store,
    noun: "read-modify-write",
};

static EXCHANGES: Touch = Touch {
    reads: true,
    writes: true,
    manner: Manner::Store,
    noun: "exchange",
};

static LOADS_UNSYNC: Touch = Touch {
    reads: false,
    writes: false,
    manner: Manner::UnsyncLoad,
    noun: "unsynchronized load",
};

static MUTATES: Touch = Touch {
    reads: false,
    writes: false,
    manner: Manner::Mutation,
    noun: "mutation",
};

impl Answer {
    /// Whether it is shown, by whether the thread waited for it.
    pub(crate) fn is_shown(self, has_waited: bool) -> bool {
        match self {
            Answer::Nothing => false,
            Answer::Late(_) => has_waited,
            _ => true,
        }
    }
}

impl Page {
    pub(crate) fn answer(&mut self, answer: Answer) {
        match answer {
            Answer::Nothing => {}
            Answer::Words(words) | Answer::Late(words) => self.words(words),
            Answer::Value(value) => self.value("", value.numbers, value.bits),
            Answer::Stored(number) => self.number("store ", number),
            Answer::Read(_, outcome) => self.outcome(outcome),
            Answer::Waker(number) => self.number("waker of #", number),
            Answer::Thread(thread) => self.number("thread ", usize::from(thread)),
        }
    }

    fn outcome(&mut self, outcome: Outcome) {
        match outcome {
            Outcome::Nothing => {}
            Outcome::Value(value) => self.value(": ", value.numbers, value.bits),
            Outcome::Exchanged(value) => {
                self.value(": Ok(", value.numbers, value.bits);
                self.words(")");
            }
            Outcome::Kept(value) => {
                self.value(": Err(", value.numbers, value.bits);
                self.words(")");
            }
        }
    }
}

/// What a reply says, of an operation that reads no store.
pub(crate) fn answer_of(reply: &Reply<()>) -> Answer {
    match reply {
        Reply::Data(_) => Answer::Late("has the value"),
        Reply::Locked(..) | Reply::ReadLocked(..) | Reply::WriteLocked(..) => {
            Answer::Late("holds it")
        }
        Reply::Waited(_, _, true) => Answer::Words("the time ran out, holds the mutex"),
        Reply::Waited(_, _, false) => Answer::Late("holds the mutex"),
        Reply::Value(bits) => Answer::Value(Value {
            numbers: Numbers::U64,
            bits: *bits,
        }),
        Reply::Shared => Answer::Words("others share it"),
        Reply::WouldBlock => Answer::Words("would block"),
        Reply::Empty => Answer::Words("no message"),
        Reply::RecvError | Reply::Disconnected => Answer::Words("no message, and no sender"),
        Reply::SendError(_) => Answer::Words("no receiver"),
        Reply::Waker(number) => Answer::Waker(*number),
        Reply::NoWaker => Answer::Words("no waker"),
        Reply::Absent => Answer::Words("no value yet"),
        Reply::AccessError => Answer::Words("was given back"),
        Reply::Stood(..) => Answer::Words("another value stands"),
        Reply::Thread(thread, _) => Answer::Thread(*thread),
        // what was made is shown with the operation
        made!() | lists!() => Answer::Nothing,
        Reply::Start | Reply::Done | Reply::Exchanged(_) => Answer::Nothing,
        Reply::Reading(..) | Reply::Writing(..) => Answer::Nothing,
    }
}

/// What came of a read, by its reply.
pub(crate) fn outcome_of(reply: &Reply<()>, numbers: Numbers) -> Outcome {
    match reply {
        Reply::Value(bits) => Outcome::Value(Value {
            numbers,
            bits: *bits,
        }),
        Reply::Exchanged(Ok(bits)) => Outcome::Exchanged(Value {
            numbers,
            bits: *bits,
        }),
        Reply::Exchanged(Err(bits)) => Outcome::Kept(Value {
            numbers,
            bits: *bits,
        }),
        _ => Outcome::Nothing,
    }
}

/// What the operation does to its atomic, by whether it is an exchange that failed; nothing is done by what makes one.
pub(crate) fn touch_of(op: AtomicOp, has_failed: bool) -> Option<&'static Touch> {
    let touch = match op {
        AtomicOp::New(..) => return None,
        AtomicOp::Load(..) => &LOADS,
        AtomicOp::Store(..) => &STORES,
        AtomicOp::Update(..) => &CHANGES,
        AtomicOp::CompareExchange(..) | AtomicOp::CompareAndSwap(..) if has_failed => &FAILS,
        AtomicOp::CompareExchange(..) | AtomicOp::CompareAndSwap(..) => &EXCHANGES,
        AtomicOp::UnsyncLoad(_) | AtomicOp::IntoInner(_) => &LOADS_UNSYNC,
        AtomicOp::WithMut(_) | AtomicOp::WithMutEnd(..) => &MUTATES,
    };
    Some(touch)
}

/// By which ordering the operation reads or stores, by whether it is an exchange that failed; Relaxed where it does neither.
pub(crate) fn order_of(op: AtomicOp, has_failed: bool) -> Ordering {
    match op {
        AtomicOp::Load(_, order)
        | AtomicOp::Store(_, _, order)
        | AtomicOp::Update(_, _, order)
        | AtomicOp::CompareAndSwap(_, _, _, order) => order,
        AtomicOp::CompareExchange(_, exchange) if has_failed => exchange.failure,
        AtomicOp::CompareExchange(_, exchange) => exchange.success,
        AtomicOp::New(..)
        | AtomicOp::UnsyncLoad(_)
        | AtomicOp::IntoInner(_)
        | AtomicOp::WithMut(_)
        | AtomicOp::WithMutEnd(..) => Ordering::Relaxed,
    }
}

/// Whether the operation is an exchange that met another value, by its reply.
pub(crate) fn has_failed(op: AtomicOp, reply: &Reply<()>, numbers: Numbers) -> bool {
    if let AtomicOp::CompareAndSwap(_, expected, ..) = op {
        return is_another(reply, numbers.fit(expected));
    }
    matches!(reply, Reply::Exchanged(Err(_)))
}

/// Whether the reply is another number than the one that was expected.
fn is_another(reply: &Reply<()>, expected: u64) -> bool {
    match reply {
        Reply::Value(bits) => *bits != expected,
        _ => false,
    }
}

/// How the operation accesses its cell, and the cell; a swap also accesses another one.
pub(crate) fn cell_touch(op: &CellOp<()>) -> Option<(usize, Manner)> {
    match op {
        CellOp::Read(cell) | CellOp::Get(cell) => Some((*cell, Manner::CellRead)),
        CellOp::Write(cell) | CellOp::Replace(cell, _) | CellOp::Swap(cell, _) => {
            Some((*cell, Manner::CellWrite))
        }
        CellOp::New(_)
        | CellOp::ReadEnd(_)
        | CellOp::Deref(_)
        | CellOp::WriteEnd(..)
        | CellOp::IntoInner(_) => None,
    }
}

/// Which object the thread has by this reply.
pub(crate) fn taken_by(reply: &Reply<()>) -> Option<usize> {
    match reply {
        Reply::Reading(number, _) | Reply::Writing(number, _) => Some(*number),
        _ => locked_by(reply),
    }
}

/// Which lock the thread has by this reply.
pub(crate) fn locked_by(reply: &Reply<()>) -> Option<usize> {
    match reply {
        Reply::Locked(number, _)
        | Reply::Waited(number, _, _)
        | Reply::ReadLocked(number, _)
        | Reply::WriteLocked(number, _) => Some(*number),
        made!() | refused!() | lists!() => None,
        Reply::Start | Reply::Done | Reply::Value(_) | Reply::Exchanged(_) => None,
        Reply::Data(_) | Reply::SendError(_) | Reply::Stood(..) => None,
        Reply::Reading(..) | Reply::Writing(..) | Reply::Waker(_) | Reply::Thread(..) => None,
    }
}

/// Whether what the operation was to do is done, by its reply.
pub(crate) fn is_done(deed: Deed, reply: &Reply<()>) -> bool {
    match deed {
        Deed::Takes => !matches!(reply, Reply::Shared),
        Deed::Sends => matches!(reply, Reply::Done),
        Deed::Receives => matches!(reply, Reply::Data(_)),
        _ => true,
    }
}

/// The data that a reply has, if it has some: of two values the one that stands. Of several, as what a channel has left, none is
/// told.
pub(crate) fn data_told<D>(reply: &Reply<D>) -> Option<&D> {
    match reply {
        Reply::Data(value)
        | Reply::Reading(_, value)
        | Reply::Writing(_, value)
        | Reply::Locked(_, value)
        | Reply::Waited(_, value, _)
        | Reply::ReadLocked(_, value)
        | Reply::WriteLocked(_, value)
        | Reply::SendError(value)
        | Reply::Stood(value, _) => Some(value),
        made!() | refused!() | lists!() => None,
        Reply::Start | Reply::Done | Reply::Value(_) | Reply::Exchanged(_) => None,
        Reply::Waker(_) | Reply::Thread(..) => None,
    }
}
