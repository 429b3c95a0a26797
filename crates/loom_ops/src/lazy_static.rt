//! Values that are made once a run.
ghost use Rattle.std.specs.Prelude.{◌≡◌, Some, codes};
ghost use Rattle.loom_objects.specs.Operation.Labelled.{bare};
ghost use Rattle.loom_ops.specs.Answers.{standing_in};

use crate::answers::answer::Answer;
pub use crate::thread::{AccessError, yield_now};
use loom_objects::operation::{LazyOp, Op, Reply, Request};
use std::fmt;

/// A value that is made once a run, by the first thread that gives it (loom's `lazy_static.rs`). In loom it has a function that
/// makes it; here the body asks by `get`, and gives one by `init`.
#[derive(Clone, Copy)]
pub struct Lazy {
    /// The number that it is named by.
    pub key: usize,
}

/// The value that stands once one was given (own).
#[derive(Drop)]
pub struct Standing<D> {
    /// A copy of it.
    pub value: D,
    /// The one that was given, if another stood before.
    pub spare: Option<D>,
}

impl fmt::Debug for Lazy {
    ghost debug_output = { λ _. Some (codes "Lazy { .. }") };

    fn fmt<W: fmt::Write>(&self, f: &mut fmt::Formatter<W>) -> fmt::Result {
        f.pad("Lazy { .. }")
    }
}

impl Lazy {
    /// The value that is named by this number. It is no operation (loom's `lazy_static.rs`).
    pub fn new(key: usize) -> Lazy
        ensures { result.key ≡ key }
    {
        Lazy { key }
    }

    /// Replies a copy of the value, or `Absent`. Once main has finished that is the failure `LazyShutdown` (loom's
    /// `lazy_static.rs`).
    pub fn get<D, S>(self) -> Op<D, S>
        ensures { result ≡ bare (Request.Lazy (LazyOp.Get self.key)) }
    {
        Op::new(Request::Lazy(LazyOp::Get(self.key)))
    }

    /// Gives the value, and replies a copy of it. Where one was given before, that one stays, and it replies `Stood` with a copy
    /// and with what wasn't needed. Once main has finished that is the failure `LazyShutdown` (loom's `lazy_static.rs`).
    pub fn init<D, S>(self, value: D) -> Op<D, S>
        ensures { result ≡ bare (Request.Lazy (LazyOp.Init self.key value)) }
    {
        Op::new(Request::Lazy(LazyOp::Init(self.key, value)))
    }
}

impl<D: Drop> Answer<D> for Standing<D> {
    ghost held = { standing_in };

    fn from_reply(reply: Reply<D>) -> Option<Standing<D>>
        ensures { result ≡ standing_in reply }
    {
        match reply {
            Reply::Data(value) => Some(Standing { value, spare: None }),
            Reply::Stood(value, spare) => Some(Standing {
                value,
                spare: Some(spare),
            }),
            other => {
                other.let_go();
                None
            }
        }
    }
}
