//! Notifiers: one thread waits until others notify.
ghost use Rattle.std.specs.Prelude.{◌≡◌};
ghost use Rattle.loom_ops.specs.Notify.{notify_handle};
ghost use Rattle.loom_objects.specs.Operation.Labelled.{bare};

use crate::answers::answer::Answer;
use loom_objects::operation::{NotifyOp, Op, Reply, Request};

/// A notifier of the run (loom's `sync/notify.rs`).
#[derive(Clone, Copy, Debug)]
pub struct Notify {
    /// Its place in the order in which objects were made.
    pub number: usize,
}

impl Notify {
    /// A new notifier, which isn't notified (loom's `sync/notify.rs`).
    #[allow(clippy::new_ret_no_self)]
    pub fn new<D, S>() -> Op<D, S>
        ensures { result ≡ bare (Request.Notify NotifyOp.New) }
    {
        Op::new(Request::Notify(NotifyOp::New))
    }

    /// The notifier that was made, if that is what the reply says (own).
    pub fn from_reply<D>(reply: &Reply<D>) -> Option<Notify>
        ensures { result ≡ notify_handle reply.now }
    {
        match reply {
            Reply::Notify(number) => Some(Notify { number: *number }),
            _ => None,
        }
    }

    /// Notifies the thread that waits, or else the next one that will (loom's `sync/notify.rs`).
    pub fn notify<D, S>(self) -> Op<D, S>
        ensures { result ≡ bare (Request.Notify (NotifyOp.Notify self.number)) }
    {
        Op::new(Request::Notify(NotifyOp::Notify(self.number)))
    }

    /// Waits until it is notified. Once in a run, one wait on it may also end without that. A second thread that waits is the
    /// failure `SecondWaiter` (loom's `sync/notify.rs`).
    pub fn wait<D, S>(self) -> Op<D, S>
        ensures { result ≡ bare (Request.Notify (NotifyOp.Wait self.number)) }
    {
        Op::new(Request::Notify(NotifyOp::Wait(self.number)))
    }
}

impl<D: Drop> Answer<D> for Notify {
    ghost held = { notify_handle };

    fn from_reply(reply: Reply<D>) -> Option<Notify>
        ensures { result ≡ notify_handle reply }
    {
        let notifier = Notify::from_reply(&reply);
        reply.let_go();
        notifier
    }
}
