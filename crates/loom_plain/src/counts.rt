//! Counted references and tracked values.
use crate::dependence::Action;
use crate::halt::NextReply;
use crate::kinds::{Kind, Step};
use crate::machine::Machine;
use loom_objects::operation::{ArcOp, Reply, TrackOp};
use loom_views::rt::failure::FailureKind;

/// What a branch point of a counted reference is for.
#[derive(Clone, Copy)]
pub enum Counting {
    Clone,
    Drop,
    GetMut,
    TryUnwrap,
    Unwrap,
    StrongCount,
}

impl Machine {
    /// An operation of a counted reference is handed over.
    pub fn arc_begins(&mut self, op: ArcOp<u64>) -> NextReply {
        let (number, action, counting) = match op {
            ArcOp::New(value) => return Some(Reply::Arc(self.makes(Kind::Arc, Some(value)))),
            ArcOp::Get(number) => return self.replies_shared(number),
            ArcOp::Put(number, value) => return self.puts(number, Kind::Arc, value),
            ArcOp::Clone(number) => (number, Action::Increment, Counting::Clone),
            ArcOp::Drop(number) => (number, Action::Decrement, Counting::Drop),
            ArcOp::GetMut(number) => (number, Action::Decrement, Counting::GetMut),
            ArcOp::TryUnwrap(number) => (number, Action::Decrement, Counting::TryUnwrap),
            ArcOp::StrongCount(number) => (number, Action::Inspect, Counting::StrongCount),
        };
        self.comes_to(number, Kind::Arc, action, Step::Count(counting))
    }

    // A copy of the value, which isn't out.
    fn replies_shared(&mut self, number: usize) -> NextReply {
        let arc = self.object(number, Kind::Arc);
        let (is_out, value) = (arc.lent.is_some(), arc.value);
        self.check(!is_out, FailureKind::Misuse);
        Some(Reply::Data(self.required(value)))
    }

    /// The operation of a counted reference takes effect.
    pub fn counts(&mut self, number: usize, counting: Counting) -> NextReply {
        let arc = self.object(number, Kind::Arc);
        let (is_out, count) = (arc.lent.is_some(), arc.count);
        self.check(!is_out, FailureKind::Misuse);
        match counting {
            Counting::Clone => {
                self.at(number).count = count.saturating_add(1);
                Some(Reply::Done)
            }
            Counting::Drop => self.drops_arc(number),
            Counting::GetMut => {
                self.acquires_from(number);
                if count == 1 {
                    self.lends(number, Kind::Arc, true)
                } else {
                    Some(Reply::Shared)
                }
            }
            Counting::TryUnwrap => {
                self.acquires_from(number);
                if count == 1 {
                    let step = Step::Count(Counting::Unwrap);
                    self.comes_to(number, Kind::Arc, Action::Decrement, step)
                } else {
                    Some(Reply::Shared)
                }
            }
            Counting::Unwrap => {
                self.check(count == 1, FailureKind::Misuse);
                self.drops_arc(number)
            }
            Counting::StrongCount => {
                self.acquires_from(number);
                Some(Reply::Value(count))
            }
        }
    }

    // One reference fewer; who drops the last one has the value.
    fn drops_arc(&mut self, number: usize) -> NextReply {
        if !self.drops_one(number) {
            return Some(Reply::Done);
        }
        let value = self.at(number).value;
        Some(Reply::Data(self.required(value)))
    }

    /// An operation of a tracked value.
    pub fn track_begins(&mut self, op: TrackOp<u64>) -> NextReply {
        match op {
            TrackOp::New(value) => Some(Reply::Track(self.makes(Kind::Track, Some(value)))),
            TrackOp::GetRef(number) => {
                let value = self.object(number, Kind::Track).value;
                Some(Reply::Data(self.required(value)))
            }
            TrackOp::GetMut(number) => self.lends(number, Kind::Track, true),
            TrackOp::Put(number, value) => self.puts(number, Kind::Track, value),
            TrackOp::IntoInner(number) | TrackOp::Drop(number) => {
                self.lends(number, Kind::Track, false)
            }
        }
    }
}
