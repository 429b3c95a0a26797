//! The objects of a run, and which of them may not be left (loom's `rt/object.rs`).
ghost use Rattle.std.specs.Prelude.{◌≡◌};
ghost use Rattle.loom_objects.specs.Rules.Uses as rules;

use crate::data::Data;
use crate::rt::alloc::Track;
use crate::rt::arc::Arc;
use crate::rt::atomic::Atomic;
use crate::rt::atomic_waker::AtomicWaker;
use crate::rt::cell::Cell;
use crate::rt::condvar::Condvar;
use crate::rt::kept::Kept;
pub use crate::rt::lent::Lent;
use crate::rt::mpsc::Channel;
use crate::rt::mutex::Mutex;
use crate::rt::notify::Notify;
use crate::rt::rwlock::RwLock;
use crate::rt::waker::Wakers;
use loom_views::is_kind;
use loom_views::rt::failure::FailureKind;
use loom_views::same::Same;
use std::alloc::{AllocError, Global};

// The object, if it is of this kind and stands; any other is a misuse.
macro_rules! of_kind {
    ($object:expr, $kind:ident($found:ident) $(if $stands:expr)?) => {
        match $object {
            Object::$kind($found) $(if $stands)? => Ok($found),
            _ => Err(FailureKind::Misuse),
        }
    };
}

pub(crate) use of_kind;

/// An object of a run. Its number is its place in the order of creation (loom's `rt/object.rs`).
#[derive(Drop)]
pub enum Object<D> {
    Atomic(Atomic),
    Mutex(Mutex<D>),
    RwLock(RwLock<D>),
    Condvar(Condvar),
    Notify(Notify),
    Cell(Cell<D>),
    Arc(Arc<D>),
    Track(Track<D>),
    Channel(Channel<D>),
    Wakers(Wakers),
    AtomicWaker(AtomicWaker),
}

impl<D> Object<D> {
    /// Which leak it is where it is left, if it is one.
    pub fn leak(&self) -> Option<FailureKind>
        ensures { result ≡ rules.leak_of self.now }
    {
        match self {
            Object::Arc(arc) if arc.count > 0 => Some(FailureKind::LeakArc),
            Object::Track(track) if !track.content.is_taken => Some(FailureKind::LeakTrack),
            Object::Channel(channel) if !channel.is_empty() => Some(FailureKind::LeakMessages),
            Object::Wakers(wakers) if wakers.count > 0 => Some(FailureKind::LeakArc),
            Object::Arc(_) | Object::Track(_) | Object::Channel(_) | Object::Wakers(_) => None,
            Object::Atomic(_)
            | Object::Mutex(_)
            | Object::RwLock(_)
            | Object::Condvar(_)
            | Object::Notify(_)
            | Object::Cell(_)
            | Object::AtomicWaker(_) => None,
        }
    }
}

impl<D: Data + Same> Kept for Object<D> {
    fn copied(&self, alloc: Global) -> Result<Object<D>, AllocError> {
        Ok(match self {
            Object::Atomic(atomic) => Object::Atomic(*atomic),
            Object::Mutex(mutex) => Object::Mutex(mutex.copied(alloc)?),
            Object::RwLock(lock) => Object::RwLock(lock.copied(alloc)?),
            Object::Condvar(condvar) => Object::Condvar(condvar.copied(alloc)?),
            Object::Notify(notify) => Object::Notify(*notify),
            Object::Cell(cell) => Object::Cell(cell.copied(alloc)?),
            Object::Arc(arc) => Object::Arc(arc.copied(alloc)?),
            Object::Track(track) => Object::Track(track.copied(alloc)?),
            Object::Channel(channel) => Object::Channel(channel.copied(alloc)?),
            Object::Wakers(wakers) => Object::Wakers(*wakers),
            Object::AtomicWaker(place) => Object::AtomicWaker(*place),
        })
    }

    fn is_equal(&self, other: &Object<D>) -> bool {
        match self {
            Object::Atomic(a) => is_kind!(other, Object::Atomic(x) => a.is_equal(x)),
            Object::Mutex(a) => is_kind!(other, Object::Mutex(x) => a.is_equal(x)),
            Object::RwLock(a) => is_kind!(other, Object::RwLock(x) => a.is_equal(x)),
            Object::Condvar(a) => is_kind!(other, Object::Condvar(x) => a.is_equal(x)),
            Object::Notify(a) => is_kind!(other, Object::Notify(x) => a.is_equal(x)),
            Object::Cell(a) => is_kind!(other, Object::Cell(x) => a.is_equal(x)),
            Object::Arc(a) => is_kind!(other, Object::Arc(x) => a.is_equal(x)),
            Object::Track(a) => is_kind!(other, Object::Track(x) => a.is_equal(x)),
            Object::Channel(a) => is_kind!(other, Object::Channel(x) => a.is_equal(x)),
            Object::Wakers(a) => is_kind!(other, Object::Wakers(x) => a.is_equal(x)),
            Object::AtomicWaker(a) => is_kind!(other, Object::AtomicWaker(x) => a.is_equal(x)),
        }
    }
}
