//! Counted references.
ghost use Rattle.std.specs.Prelude.{◌≡◌, ◌==◌};
ghost use Rattle.loom_ops.specs.Arc.{arc_handle};
ghost use Rattle.loom_objects.specs.Operation.Labelled.{bare};
ghost use Rattle.loom_ops.specs.Answers.{alone_in, left_in};

use crate::answers::answer::Answer;
use loom_objects::operation::{ArcOp, Op, Reply, Request};

/// A counted reference of the run (loom's `sync/arc.rs`). The references that were made and not dropped are counted, not the
/// handles: a handle that is copied or dropped does nothing. Where some are left at the run's end, it fails as `LeakArc`.
#[derive(Clone, Copy, Debug)]
pub struct Arc {
    /// Its place in the order in which objects were made.
    pub number: usize,
}

/// The value of a reference that was dropped, if it was the last one (own).
#[derive(Drop)]
pub struct Left<D>(pub Option<D>);

/// The value of a reference, if it is the only one (own).
#[derive(Drop)]
pub struct Alone<D>(pub Option<D>);

impl Arc {
    /// A new counted reference to this value, the only one (loom's `sync/arc.rs`).
    #[allow(clippy::new_ret_no_self)]
    pub fn new<D, S>(value: D) -> Op<D, S>
        ensures { result ≡ bare (Request.Arc (ArcOp.New value)) }
    {
        Op::new(Request::Arc(ArcOp::New(value)))
    }

    /// The counted reference that was made, if that is what the reply says (own).
    pub fn from_reply<D>(reply: &Reply<D>) -> Option<Arc>
        ensures { result ≡ arc_handle reply.now }
    {
        match reply {
            Reply::Arc(number) => Some(Arc { number: *number }),
            _ => None,
        }
    }

    /// One reference more, by the same handle (loom's `sync/arc.rs`).
    #[allow(clippy::should_implement_trait)]
    pub fn clone<D, S>(self) -> Op<D, S>
        ensures { result ≡ bare (Request.Arc (ArcOp.Clone self.number)) }
    {
        Op::new(Request::Arc(ArcOp::Clone(self.number)))
    }

    /// One reference fewer: in loom the drop. The last one replies the value, and a later operation of it is a misuse (loom's
    /// `sync/arc.rs`).
    pub fn drop<D, S>(self) -> Op<D, S>
        ensures { result ≡ bare (Request.Arc (ArcOp.Drop self.number)) }
    {
        Op::new(Request::Arc(ArcOp::Drop(self.number)))
    }

    /// Replies a copy of the value: in loom the `Deref` (loom's `sync/arc.rs`).
    pub fn get<D, S>(self) -> Op<D, S>
        ensures { result ≡ bare (Request.Arc (ArcOp.Get self.number)) }
    {
        Op::new(Request::Arc(ArcOp::Get(self.number)))
    }

    /// Replies the value if there is one reference alone, and else `Shared`. `put` hands it back, and any other operation of
    /// the reference before that is a misuse (loom's `sync/arc.rs`).
    pub fn get_mut<D, S>(self) -> Op<D, S>
        ensures { result ≡ bare (Request.Arc (ArcOp.GetMut self.number)) }
    {
        Op::new(Request::Arc(ArcOp::GetMut(self.number)))
    }

    /// Hands the value back, after `get_mut` by the same thread, else it is a misuse (own).
    pub fn put<D, S>(self, value: D) -> Op<D, S>
        ensures { result ≡ bare (Request.Arc (ArcOp.Put self.number value)) }
    {
        Op::new(Request::Arc(ArcOp::Put(self.number, value)))
    }

    /// Drops the reference and replies the value if it is alone, and else replies `Shared` and drops nothing (loom's
    /// `sync/arc.rs`).
    pub fn try_unwrap<D, S>(self) -> Op<D, S>
        ensures { result ≡ bare (Request.Arc (ArcOp.TryUnwrap self.number)) }
    {
        Op::new(Request::Arc(ArcOp::TryUnwrap(self.number)))
    }

    /// Replies how many references there are (loom's `sync/arc.rs`).
    pub fn strong_count<D, S>(self) -> Op<D, S>
        ensures { result ≡ bare (Request.Arc (ArcOp.StrongCount self.number)) }
    {
        Op::new(Request::Arc(ArcOp::StrongCount(self.number)))
    }

    /// Both count the same references. It is no operation (loom's `sync/arc.rs`).
    pub fn ptr_eq(self, other: Arc) -> bool
        ensures { result ≡ (self.number == other.number) }
    {
        self.number == other.number
    }
}

impl<D: Drop> Answer<D> for Arc {
    ghost held = { arc_handle };

    fn from_reply(reply: Reply<D>) -> Option<Arc>
        ensures { result ≡ arc_handle reply }
    {
        let arc = Arc::from_reply(&reply);
        reply.let_go();
        arc
    }
}

impl<D: Drop> Answer<D> for Left<D> {
    ghost held = { left_in };

    fn from_reply(reply: Reply<D>) -> Option<Left<D>>
        ensures { result ≡ left_in reply }
    {
        match reply {
            Reply::Data(value) => Some(Left(Some(value))),
            Reply::Done => Some(Left(None)),
            other => {
                other.let_go();
                None
            }
        }
    }
}

impl<D: Drop> Answer<D> for Alone<D> {
    ghost held = { alone_in };

    fn from_reply(reply: Reply<D>) -> Option<Alone<D>>
        ensures { result ≡ alone_in reply }
    {
        match reply {
            Reply::Data(value) => Some(Alone(Some(value))),
            Reply::Shared => Some(Alone(None)),
            other => {
                other.let_go();
                None
            }
        }
    }
}
