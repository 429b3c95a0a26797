//! Tracked values: what a run leaves behind of them is a leak.
ghost use Rattle.std.specs.Prelude.{◌≡◌};
ghost use Rattle.loom_ops.specs.Alloc.{track_handle};
ghost use Rattle.loom_objects.specs.Operation.Labelled.{bare};

use crate::answers::answer::Answer;
use loom_objects::operation::{Op, Reply, Request, TrackOp};

/// A value that the run must drop, or take out, before it ends, else it fails as `LeakTrack` (loom's `alloc.rs`). A handle
/// that is dropped does nothing.
#[derive(Clone, Copy, Debug)]
pub struct Track {
    /// Its place in the order in which objects were made.
    pub number: usize,
}

impl Track {
    /// A new tracked value (loom's `alloc.rs`).
    #[allow(clippy::new_ret_no_self)]
    pub fn new<D, S>(value: D) -> Op<D, S>
        ensures { result ≡ bare (Request.Track (TrackOp.New value)) }
    {
        Op::new(Request::Track(TrackOp::New(value)))
    }

    /// The tracked value that was made, if that is what the reply says (own).
    pub fn from_reply<D>(reply: &Reply<D>) -> Option<Track>
        ensures { result ≡ track_handle reply.now }
    {
        match reply {
            Reply::Track(number) => Some(Track { number: *number }),
            _ => None,
        }
    }

    /// Replies a copy of the value (loom's `alloc.rs`).
    pub fn get_ref<D, S>(self) -> Op<D, S>
        ensures { result ≡ bare (Request.Track (TrackOp.GetRef self.number)) }
    {
        Op::new(Request::Track(TrackOp::GetRef(self.number)))
    }

    /// Replies the value, which `put` hands back. Any other operation of it before that is a misuse (loom's `alloc.rs`).
    pub fn get_mut<D, S>(self) -> Op<D, S>
        ensures { result ≡ bare (Request.Track (TrackOp.GetMut self.number)) }
    {
        Op::new(Request::Track(TrackOp::GetMut(self.number)))
    }

    /// Hands the value back, after `get_mut` by the same thread, else it is a misuse (own).
    pub fn put<D, S>(self, value: D) -> Op<D, S>
        ensures { result ≡ bare (Request.Track (TrackOp.Put self.number value)) }
    {
        Op::new(Request::Track(TrackOp::Put(self.number, value)))
    }

    /// Replies the value, which isn't tracked any more: a later operation of it is a misuse (loom's `alloc.rs`).
    pub fn into_inner<D, S>(self) -> Op<D, S>
        ensures { result ≡ bare (Request.Track (TrackOp.IntoInner self.number)) }
    {
        Op::new(Request::Track(TrackOp::IntoInner(self.number)))
    }

    /// The value isn't tracked any more, and is replied: in loom the drop. A later operation of it is a misuse (loom's
    /// `alloc.rs`).
    pub fn drop<D, S>(self) -> Op<D, S>
        ensures { result ≡ bare (Request.Track (TrackOp.Drop self.number)) }
    {
        Op::new(Request::Track(TrackOp::Drop(self.number)))
    }
}

impl<D: Drop> Answer<D> for Track {
    ghost held = { track_handle };

    fn from_reply(reply: Reply<D>) -> Option<Track>
        ensures { result ≡ track_handle reply }
    {
        let track = Track::from_reply(&reply);
        reply.let_go();
        track
    }
}
