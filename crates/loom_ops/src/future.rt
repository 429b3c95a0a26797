//! Futures: a thread waits until a waker of its future notifies it. The body polls, in place of a future.
ghost use Rattle.std.specs.Prelude.{◌≡◌};
ghost use Rattle.loom_ops.specs.Waker.{block_on_handle, waker_handle};
ghost use Rattle.loom_objects.specs.Operation.Labelled.{bare};
ghost use Rattle.loom_ops.specs.Answers.{taken_in};

pub mod atomic_waker;

use crate::answers::answer::Answer;
pub use crate::future::atomic_waker::AtomicWaker;
use loom_objects::operation::{Op, Reply, Request, WakerOp};

/// What drives a future to its end: make it and poll; while the future is pending, wait and poll again; then finish (loom's
/// `block_on` in `future/mod.rs`).
#[derive(Clone, Copy, Debug)]
pub struct BlockOn {
    /// The place of its count of wakers in the order in which objects were made.
    pub number: usize,
}

/// A waker of a future (loom's `future/mod.rs`). The wakers that were made and not dropped are counted, not the handles: a
/// handle that is copied or dropped does nothing. Where some are left at the run's end, it fails as `LeakArc`.
#[derive(Clone, Copy, Debug)]
pub struct Waker {
    /// The place of its count in the order in which objects were made.
    pub number: usize,
}

impl BlockOn {
    /// A notifier for a future, which isn't notified, with a count of one waker (loom's `future/mod.rs`).
    #[allow(clippy::new_ret_no_self)]
    pub fn new<D, S>() -> Op<D, S>
        ensures { result ≡ bare (Request.Waker WakerOp.New) }
    {
        Op::new(Request::Waker(WakerOp::New))
    }

    /// What was made, if that is what the reply says (own).
    pub fn from_reply<D>(reply: &Reply<D>) -> Option<BlockOn>
        ensures { result ≡ block_on_handle reply.now }
    {
        match reply {
            Reply::BlockOn(number) => Some(BlockOn { number: *number }),
            _ => None,
        }
    }

    /// The waker that a poll is lent: it isn't counted, and the poll must not drop it, nor wake by it but by reference. It is
    /// no operation (loom's `future/mod.rs`).
    pub fn waker(self) -> Waker
        ensures { result.number ≡ self.number }
    {
        Waker {
            number: self.number,
        }
    }

    /// Waits until a waker notifies. Once in a run, one wait may also end without that (loom's `future/mod.rs`).
    pub fn wait<D, S>(self) -> Op<D, S>
        ensures { result ≡ bare (Request.Waker (WakerOp.Wait self.number)) }
    {
        Op::new(Request::Waker(WakerOp::Wait(self.number)))
    }

    /// The future is ready: one waker fewer, which is the notifier's own (loom's `future/mod.rs`).
    pub fn finish<D, S>(self) -> Op<D, S>
        ensures { result ≡ bare (Request.Waker (WakerOp.Finish self.number)) }
    {
        Op::new(Request::Waker(WakerOp::Finish(self.number)))
    }
}

impl Waker {
    /// The waker, if that is what the reply says: the one that was taken out of its place, or the first one of what was made,
    /// which is lent (own).
    pub fn from_reply<D>(reply: &Reply<D>) -> Option<Waker>
        ensures { result ≡ waker_handle reply.now }
    {
        match reply {
            Reply::BlockOn(number) => Some(Waker { number: *number }),
            Reply::Waker(number) => Some(Waker { number: *number }),
            _ => None,
        }
    }

    /// One waker more, by the same handle (loom's `future/mod.rs`).
    #[allow(clippy::should_implement_trait)]
    pub fn clone<D, S>(self) -> Op<D, S>
        ensures { result ≡ bare (Request.Waker (WakerOp.Clone self.number)) }
    {
        Op::new(Request::Waker(WakerOp::Clone(self.number)))
    }

    /// Notifies the thread that waits, or else the next wait, and then there is one waker fewer (loom's `future/mod.rs`).
    pub fn wake<D, S>(self) -> Op<D, S>
        ensures { result ≡ bare (Request.Waker (WakerOp.Wake self.number)) }
    {
        Op::new(Request::Waker(WakerOp::Wake(self.number)))
    }

    /// Notifies the thread that waits, or else the next wait (loom's `future/mod.rs`).
    pub fn wake_by_ref<D, S>(self) -> Op<D, S>
        ensures { result ≡ bare (Request.Waker (WakerOp.WakeByRef self.number)) }
    {
        Op::new(Request::Waker(WakerOp::WakeByRef(self.number)))
    }

    /// One waker fewer: in loom the drop. Where none is left any operation of a waker is a misuse (loom's `future/mod.rs`).
    pub fn drop<D, S>(self) -> Op<D, S>
        ensures { result ≡ bare (Request.Waker (WakerOp.Drop self.number)) }
    {
        Op::new(Request::Waker(WakerOp::Drop(self.number)))
    }
}

impl<D: Drop> Answer<D> for BlockOn {
    ghost held = { block_on_handle };

    fn from_reply(reply: Reply<D>) -> Option<BlockOn>
        ensures { result ≡ block_on_handle reply }
    {
        let block_on = BlockOn::from_reply(&reply);
        reply.let_go();
        block_on
    }
}

impl<D: Drop> Answer<D> for Option<Waker> {
    ghost held = { taken_in };

    fn from_reply(reply: Reply<D>) -> Option<Option<Waker>>
        ensures { result ≡ taken_in reply }
    {
        match reply {
            Reply::Waker(number) => Some(Some(Waker { number })),
            Reply::NoWaker => Some(None),
            other => {
                other.let_go();
                None
            }
        }
    }
}
