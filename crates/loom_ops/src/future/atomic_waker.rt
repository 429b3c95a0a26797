//! Atomic wakers: a place where one thread registers its waker, and another takes it out to wake it.
ghost use Rattle.std.specs.Prelude.{◌≡◌};
ghost use Rattle.loom_ops.specs.Waker.{atomic_waker_handle};
ghost use Rattle.loom_objects.specs.Operation.Labelled.{bare};

use crate::answers::answer::Answer;
use crate::future::Waker;
use loom_objects::operation::{AtomicWakerOp, Op, Reply, Request};

/// A place for a waker, with a lock (loom's `future/atomic_waker.rs`).
#[derive(Clone, Copy, Debug)]
pub struct AtomicWaker {
    /// Its place in the order in which objects were made.
    pub number: usize,
}

impl AtomicWaker {
    /// A new place, without a waker (loom's `future/atomic_waker.rs`).
    #[allow(clippy::new_ret_no_self)]
    pub fn new<D, S>() -> Op<D, S>
        ensures { result ≡ bare (Request.AtomicWaker AtomicWakerOp.New) }
    {
        Op::new(Request::AtomicWaker(AtomicWakerOp::New))
    }

    /// The place that was made, if that is what the reply says (own).
    pub fn from_reply<D>(reply: &Reply<D>) -> Option<AtomicWaker>
        ensures { result ≡ atomic_waker_handle reply.now }
    {
        match reply {
            Reply::AtomicWaker(number) => Some(AtomicWaker { number: *number }),
            _ => None,
        }
    }

    /// The waker takes the place, and the one that was there is dropped. Where another thread holds the lock, the waker wakes
    /// and the thread yields (loom's `future/atomic_waker.rs`).
    pub fn register<D, S>(self, waker: Waker) -> Op<D, S>
        ensures { result ≡ bare (Request.AtomicWaker (AtomicWakerOp.Register self.number waker.number)) }
    {
        Op::new(Request::AtomicWaker(AtomicWakerOp::Register(self.number, waker.number)))
    }

    /// Registers a clone of the waker, which is made first (loom's `future/atomic_waker.rs`).
    pub fn register_by_ref<D, S>(self, waker: &Waker) -> Op<D, S>
        ensures { result ≡ bare (Request.AtomicWaker (AtomicWakerOp.RegisterByRef self.number waker.now.number)) }
    {
        Op::new(Request::AtomicWaker(AtomicWakerOp::RegisterByRef(self.number, waker.number)))
    }

    /// Takes the waker out, if there is one, and wakes by it (loom's `future/atomic_waker.rs`).
    pub fn wake<D, S>(self) -> Op<D, S>
        ensures { result ≡ bare (Request.AtomicWaker (AtomicWakerOp.Wake self.number)) }
    {
        Op::new(Request::AtomicWaker(AtomicWakerOp::Wake(self.number)))
    }

    /// Takes the waker out and replies it, and else `NoWaker` (loom's `future/atomic_waker.rs`).
    pub fn take_waker<D, S>(self) -> Op<D, S>
        ensures { result ≡ bare (Request.AtomicWaker (AtomicWakerOp.TakeWaker self.number)) }
    {
        Op::new(Request::AtomicWaker(AtomicWakerOp::TakeWaker(self.number)))
    }

    /// Replies the waker that is left, which isn't dropped by that, and else `NoWaker`: in loom the drop (loom's
    /// `future/atomic_waker.rs`).
    pub fn drop<D, S>(self) -> Op<D, S>
        ensures { result ≡ bare (Request.AtomicWaker (AtomicWakerOp.Drop self.number)) }
    {
        Op::new(Request::AtomicWaker(AtomicWakerOp::Drop(self.number)))
    }
}

impl<D: Drop> Answer<D> for AtomicWaker {
    ghost held = { atomic_waker_handle };

    fn from_reply(reply: Reply<D>) -> Option<AtomicWaker>
        ensures { result ≡ atomic_waker_handle reply }
    {
        let place = AtomicWaker::from_reply(&reply);
        reply.let_go();
        place
    }
}
