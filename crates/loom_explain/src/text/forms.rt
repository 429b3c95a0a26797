//! Which kinds of objects there are, and each operation as it is written in code, with what it does, waits for and asks: a form
//! for each, in a file for each group of kinds.

// A form of an operation on an object of this kind: its words, what it does, what it asks, and where they are there what a
// thread does that waits, what comes of a stage that isn't the last, and what it has to do with other lines.
macro_rules! on {
    ($kind:expr, $words:expr, $deed:ident, $asks:expr) => {
        on!($kind, $words, $deed, $asks, None, $crate::text::forms::GOES_ON, Nothing)
    };
    ($kind:expr, $words:expr, $deed:ident, $asks:expr, waits $waits:expr) => {
        on!($kind, $words, $deed, $asks, Some($waits), $crate::text::forms::GOES_ON, Nothing)
    };
    ($kind:expr, $words:expr, $deed:ident, $asks:expr, passes $passes:expr) => {
        on!($kind, $words, $deed, $asks, None, $passes, Nothing)
    };
    ($kind:expr, $words:expr, $deed:ident, $asks:expr, ties $ties:ident) => {
        on!($kind, $words, $deed, $asks, None, $crate::text::forms::GOES_ON, $ties)
    };
    ($kind:expr, $words:expr, $deed:ident, $asks:expr, waits $waits:expr, ties $ties:ident) => {
        on!($kind, $words, $deed, $asks, Some($waits), $crate::text::forms::GOES_ON, $ties)
    };
    ($kind:expr, $words:expr, $deed:ident, $asks:expr, $waits:expr, $passes:expr, $ties:ident) => {
        $crate::text::forms::Form {
            on: $crate::text::forms::On::Object,
            kind: Some($kind),
            words: $words,
            deed: $crate::text::forms::Deed::$deed,
            asks: $asks,
            waits: $waits,
            passes: $passes,
            ties: $crate::text::forms::Ties::$ties,
        }
    };
}

// A form of an operation that makes an object of this kind.
macro_rules! makes {
    ($kind:expr, $words:expr, $asks:expr) => {
        $crate::text::forms::Form {
            on: $crate::text::forms::On::Nothing,
            kind: Some($kind),
            words: $words,
            deed: $crate::text::forms::Deed::Makes,
            asks: $asks,
            waits: None,
            passes: $crate::text::forms::GOES_ON,
            ties: $crate::text::forms::Ties::Nothing,
        }
    };
}

// A form of an operation that is on no object: what it is on, its words and what it asks, and where they are there what a thread
// does that waits, and what it has to do with other lines.
macro_rules! other {
    ($on:ident, $words:expr, $asks:expr) => {
        other!($on, $words, $asks, None, Nothing)
    };
    ($on:ident, $words:expr, $asks:expr, ties $ties:ident) => {
        other!($on, $words, $asks, None, $ties)
    };
    ($on:ident, $words:expr, $asks:expr, waits $waits:expr, ties $ties:ident) => {
        other!($on, $words, $asks, Some($waits), $ties)
    };
    ($on:ident, $words:expr, $asks:expr, $waits:expr, $ties:ident) => {
        $crate::text::forms::Form {
            on: $crate::text::forms::On::$on,
            kind: None,
            words: $words,
            deed: $crate::text::forms::Deed::Nothing,
            asks: $asks,
            waits: $waits,
            passes: $crate::text::forms::GOES_ON,
            ties: $crate::text::forms::Ties::$ties,
        }
    };
}

mod atomics;
mod bodies;
mod cells;
mod channels;
mod counts;
mod locks;
mod threads;
mod values;
mod waits;
mod wakers;

use crate::text::forms::atomics::atomic_form;
use crate::text::forms::bodies::{FAIL, FENCE, UNREACHABLE, explore_form};
use crate::text::forms::cells::{cell_data, cell_form};
use crate::text::forms::channels::{channel_data, channel_form};
use crate::text::forms::counts::{arc_data, arc_form, track_data, track_form};
use crate::text::forms::locks::{mutex_data, mutex_form, rwlock_data, rwlock_form};
use crate::text::forms::threads::{thread_data, thread_form};
use crate::text::forms::values::{lazy_data, lazy_form, local_data, local_form};
use crate::text::forms::waits::{condvar_data, condvar_form, notify_form};
use crate::text::forms::wakers::{atomic_waker_form, waker_form};
use crate::text::world::World;
use loom_objects::operation::{AtomicWakerOp, CellOp, CondvarOp, Request};
use loom_views::rt::num::Numbers;

/// What is asked of who gives data back.
const DATA_OUT: &str = "the thread is to have the data out, by `get_mut`";

/// What comes of an operation at its branch point.
const GOES_ON: &str = "goes on";

/// What an object is.
#[derive(Clone, Copy)]
pub(crate) enum Kind {
    /// With the type of what it holds.
    Atomic(Numbers),
    Cell,
    Arc,
    Track,
    Mutex,
    RwLock,
    Condvar,
    Notify,
    /// By which a thread is joined.
    Joining,
    Channel,
    /// By which a future's wakers wake.
    Waking,
    /// The count of a future's wakers.
    Wakers,
    AtomicWaker,
}

/// What is made with an object.
#[derive(Clone, Copy)]
pub(crate) enum Beside {
    Nothing,
    /// The first store of an atomic.
    Store,
    /// The thread that is joined by it.
    Thread,
    /// The notifier that a future's wakers wake.
    Notifier,
}

/// What an operation is on, by which its text begins.
#[derive(Clone, Copy)]
pub(crate) enum On {
    Nothing,
    Object,
    Local,
    Lazy,
    /// A thread, whose number follows the words.
    Thread,
}

/// What an operation does to its object, as far as it is kept.
#[derive(Clone, Copy)]
pub(crate) enum Deed {
    Nothing,
    /// It makes one.
    Makes,
    /// The thread has it from now on, where the reply gives its data.
    Takes,
    /// The thread has it no more.
    Gives,
    /// One reference or waker more.
    Clones,
    /// One reference or waker fewer.
    Drops,
    /// A message more, if it was sent.
    Sends,
    /// A message or a reference fewer, where the reply gives it.
    Receives,
    /// No message is left.
    Empties,
    /// It is no more.
    TakesApart,
}

/// What comes of an operation for others, or what of others has come to it.
#[derive(Clone, Copy)]
pub(crate) enum Ties {
    Nothing,
    /// It gives its object free, for who has it next.
    Frees,
    /// It leaves a notification for who waits on its object.
    Notifies,
    /// It goes on by such a notification, unless it woke by itself.
    IsNotified,
    /// It wakes the first thread that sleeps on its object.
    WakesOne,
    /// It wakes all threads that sleep on its object.
    WakesAll,
    /// It leaves a message, if that was sent.
    Sends,
    /// It has a message, if there was one.
    Receives,
    /// It puts the waker that is its argument into its object.
    Registers,
    /// It notifies by the waker that its object has.
    WakesRegistered,
    /// It leaves a token for its thread.
    Unparks,
    /// It goes on by such a token.
    Parks,
    /// It goes on by the end of its thread.
    Joins,
}

/// An operation as it is written in code, whichever object it is on, and what it does, waits for and asks.
pub(crate) struct Form {
    pub(crate) on: On,
    /// Of which kind its object is to be, or what it makes.
    pub(crate) kind: Option<Kind>,
    pub(crate) words: &'static str,
    pub(crate) deed: Deed,
    /// What is asked of who hands it over.
    pub(crate) asks: &'static str,
    /// What a thread does that waits at it, if one may.
    pub(crate) waits: Option<&'static str>,
    /// What comes of a stage that isn't the last.
    pub(crate) passes: &'static str,
    pub(crate) ties: Ties,
}

/// An operation: the number of what it is on, 0 where that is nothing, and its form.
#[derive(Clone, Copy)]
pub(crate) struct Call {
    pub(crate) number: usize,
    pub(crate) form: &'static Form,
}

impl Kind {
    /// What such an object is called.
    pub(crate) fn name(self) -> &'static str {
        match self {
            Kind::Atomic(_) => "atomic",
            Kind::Cell => "cell",
            Kind::Arc => "Arc",
            Kind::Track => "tracked value",
            Kind::Mutex => "mutex",
            Kind::RwLock => "RwLock",
            Kind::Condvar => "condvar",
            Kind::Notify => "notifier",
            Kind::Joining => "a thread's notifier",
            Kind::Channel => "channel",
            Kind::Waking => "a future's notifier",
            Kind::Wakers => "future",
            Kind::AtomicWaker => "place for a waker",
        }
    }

    /// Whether it is the other, whatever an atomic holds.
    pub(crate) fn is_like(self, other: Kind) -> bool {
        self.name() == other.name()
    }

    /// What it counts when it is made: the first store, reference, waker or tracked value.
    pub(crate) fn first_count(self) -> usize {
        match self {
            Kind::Atomic(_) | Kind::Arc | Kind::Track | Kind::Wakers => 1,
            Kind::Cell
            | Kind::Mutex
            | Kind::RwLock
            | Kind::Condvar
            | Kind::Notify
            | Kind::Joining
            | Kind::Channel
            | Kind::Waking
            | Kind::AtomicWaker => 0,
        }
    }

    /// What is made with it.
    pub(crate) fn beside(self) -> Beside {
        match self {
            Kind::Atomic(_) => Beside::Store,
            Kind::Joining => Beside::Thread,
            Kind::Wakers => Beside::Notifier,
            Kind::Cell
            | Kind::Arc
            | Kind::Track
            | Kind::Mutex
            | Kind::RwLock
            | Kind::Condvar
            | Kind::Notify
            | Kind::Channel
            | Kind::Waking
            | Kind::AtomicWaker => Beside::Nothing,
        }
    }

    /// Whether making it counts as an access.
    pub(crate) fn is_accessed(self) -> bool {
        matches!(self, Kind::Atomic(_) | Kind::Cell)
    }
}

impl Call {
    /// The number of its object, if it has one.
    pub(crate) fn object(self) -> Option<usize> {
        match self.form.on {
            On::Object => Some(self.number),
            _ => None,
        }
    }

    /// What it makes, if it makes an object. Of the two of a future it is the count of its wakers.
    pub(crate) fn made(self) -> Option<Kind> {
        match self.form.deed {
            Deed::Makes => self.form.kind,
            _ => None,
        }
    }
}

/// The object that is the operation's argument, if it has one.
pub(crate) fn argument_of(request: &Request<(), ()>) -> Option<usize> {
    if let Request::Cell(CellOp::Swap(_, other)) = request {
        return Some(*other);
    }
    if let Request::Condvar(
        CondvarOp::Wait(_, mutex, _) | CondvarOp::WaitTimeout(_, mutex, _),
    ) = request
    {
        return Some(*mutex);
    }
    if let Request::AtomicWaker(
        AtomicWakerOp::Register(_, wakers) | AtomicWakerOp::RegisterByRef(_, wakers),
    ) = request
    {
        return Some(*wakers);
    }
    None
}

/// What the operation is on, and its form.
pub(crate) fn call_of(request: &Request<(), ()>, world: &World) -> Call {
    let (number, form) = match request {
        Request::Atomic(op) => (op.atomic().unwrap_or(0), atomic_form(*op)),
        Request::Fence(_) => (0, &FENCE),
        Request::Cell(op) => cell_form(op),
        Request::Arc(op) => arc_form(op),
        Request::Track(op) => track_form(op),
        Request::Mutex(op) => mutex_form(op),
        Request::RwLock(op) => rwlock_form(op),
        Request::Condvar(op) => condvar_form(op),
        Request::Notify(op) => notify_form(*op),
        Request::Channel(op) => channel_form(op),
        Request::Waker(op) => waker_form(*op),
        Request::AtomicWaker(op) => atomic_waker_form(*op),
        Request::Local(op) => local_form(op),
        Request::Lazy(op) => lazy_form(op),
        Request::Explore(op) => (0, explore_form(*op)),
        Request::Thread(op) => thread_form(op, world),
        Request::Fail => (0, &FAIL),
        Request::Unreachable => (0, &UNREACHABLE),
    };
    Call { number, form }
}

/// The data that an operation hands over, if it does.
pub(crate) fn data_of<D, S>(request: &Request<D, S>) -> Option<&D> {
    match request {
        Request::Cell(op) => cell_data(op),
        Request::Arc(op) => arc_data(op),
        Request::Track(op) => track_data(op),
        Request::Mutex(op) => mutex_data(op),
        Request::RwLock(op) => rwlock_data(op),
        Request::Condvar(op) => condvar_data(op),
        Request::Channel(op) => channel_data(op),
        Request::Local(op) => local_data(op),
        Request::Lazy(op) => lazy_data(op),
        Request::Thread(op) => thread_data(op),
        Request::Atomic(_)
        | Request::Fence(_)
        | Request::Notify(_)
        | Request::Waker(_)
        | Request::AtomicWaker(_)
        | Request::Explore(_)
        | Request::Fail
        | Request::Unreachable => None,
    }
}
