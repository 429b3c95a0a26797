//! Condition variables: threads sleep on them until others notify.
ghost use Rattle.std.specs.Prelude.{◌≡◌};
ghost use Rattle.loom_objects.specs.Operation.Labelled.{bare};
ghost use Rattle.loom_ops.specs.Condvar.{condvar_handle, timeout_in};
ghost use Rattle.loom_ops.specs.Answers.{waited_in};

use crate::answers::answer::Answer;
use crate::sync::mutex::MutexGuard;
use loom_objects::operation::{CondvarOp, Op, Reply, Request};

/// A condition variable of the run (loom's `sync/condvar.rs`).
#[derive(Clone, Copy, Debug)]
pub struct Condvar {
    /// Its place in the order in which objects were made.
    pub number: usize,
}

/// Whether the time of a wait ran out (loom's `sync/condvar.rs`).
#[derive(Clone, Copy, Debug)]
pub struct WaitTimeoutResult(pub bool);

impl Condvar {
    /// A new condition variable, on which no thread waits (loom's `sync/condvar.rs`).
    #[allow(clippy::new_ret_no_self)]
    pub fn new<D, S>() -> Op<D, S>
        ensures { result ≡ bare (Request.Condvar CondvarOp.New) }
    {
        Op::new(Request::Condvar(CondvarOp::New))
    }

    /// The condition variable that was made, if that is what the reply says (own).
    pub fn from_reply<D>(reply: &Reply<D>) -> Option<Condvar>
        ensures { result ≡ condvar_handle reply.now }
    {
        match reply {
            Reply::Condvar(number) => Some(Condvar { number: *number }),
            _ => None,
        }
    }

    /// The thread releases its mutex, which holds this data then, and sleeps until it is notified. It locks the mutex again
    /// before its reply, which is that of `lock`. Without the mutex that is a misuse (loom's `sync/condvar.rs`).
    pub fn wait<D, S>(self, guard: MutexGuard, value: D) -> Op<D, S>
        ensures { result ≡ bare (Request.Condvar (CondvarOp.Wait self.number guard.number value)) }
    {
        Op::new(Request::Condvar(CondvarOp::Wait(self.number, guard.number, value)))
    }

    /// Waits as `wait` does, but the reply is `Waited`, which also says that the time didn't run out: it never does, as in loom,
    /// and so no time is given (loom's `sync/condvar.rs`).
    pub fn wait_timeout<D, S>(self, guard: MutexGuard, value: D) -> Op<D, S>
        ensures { result ≡ bare (Request.Condvar (CondvarOp.WaitTimeout self.number guard.number value)) }
    {
        Op::new(Request::Condvar(CondvarOp::WaitTimeout(self.number, guard.number, value)))
    }

    /// Wakes the thread that has waited longest, if there is one (loom's `sync/condvar.rs`).
    pub fn notify_one<D, S>(self) -> Op<D, S>
        ensures { result ≡ bare (Request.Condvar (CondvarOp.NotifyOne self.number)) }
    {
        Op::new(Request::Condvar(CondvarOp::NotifyOne(self.number)))
    }

    /// Wakes all threads that wait (loom's `sync/condvar.rs`).
    pub fn notify_all<D, S>(self) -> Op<D, S>
        ensures { result ≡ bare (Request.Condvar (CondvarOp.NotifyAll self.number)) }
    {
        Op::new(Request::Condvar(CondvarOp::NotifyAll(self.number)))
    }
}

impl WaitTimeoutResult {
    /// How a wait with a time ended, if that is what the reply says (own).
    pub fn from_reply<D>(reply: &Reply<D>) -> Option<WaitTimeoutResult>
        ensures { result ≡ timeout_in reply.now }
    {
        match reply {
            Reply::Waited(_, _, timed_out) => Some(WaitTimeoutResult(*timed_out)),
            _ => None,
        }
    }

    /// Whether the time ran out; in a run it never does. It is no operation (loom's `sync/condvar.rs`).
    pub fn timed_out(self) -> bool
        ensures { result ≡ self.0 }
    {
        self.0
    }
}

impl<D: Drop> Answer<D> for Condvar {
    ghost held = { condvar_handle };

    fn from_reply(reply: Reply<D>) -> Option<Condvar>
        ensures { result ≡ condvar_handle reply }
    {
        let condvar = Condvar::from_reply(&reply);
        reply.let_go();
        condvar
    }
}

impl<D: Drop> Answer<D> for ((MutexGuard, D), WaitTimeoutResult) {
    ghost held = { waited_in };

    fn from_reply(reply: Reply<D>) -> Option<((MutexGuard, D), WaitTimeoutResult)>
        ensures { result ≡ waited_in reply }
    {
        match reply {
            Reply::Waited(number, value, timed_out) => {
                Some(((MutexGuard { number }, value), WaitTimeoutResult(timed_out)))
            }
            other => {
                other.let_go();
                None
            }
        }
    }
}
