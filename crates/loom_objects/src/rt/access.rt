//! The last accesses to an object, by what later ones depend on (loom's `rt/access.rs`).

ghost use Rattle.std.specs.Prelude.{◌≡◌, cond, Some};
ghost use Rattle.loom_objects.specs.declared.rt.dependence.Action.{Action};
ghost use Rattle.loom_objects.specs.Dependence.Order.{depends_on};
ghost use Rattle.loom_objects.specs.Dependence.Shown.{nothing, slot_of};

use crate::rt::dependence::Action;
use loom_views::rt::vv::VersionVec;

/// An access to an object (loom's `rt/access.rs`).
#[derive(Clone, Copy)]
pub struct LastAccess {
    /// What the access is ordered after, and the access itself (loom's `dpor_vv`).
    pub view: VersionVec,
    /// The place of the schedule that chose the thread, among the run's nodes (loom's `path_id`).
    pub place: usize,
}

/// The last accesses to an object, one for each question that an operation can ask (loom's `last_access` and its like in
/// `rt/atomic.rs`, `rt/arc.rs`, `rt/mpsc.rs`, `rt/mutex.rs` and the others).
#[derive(Clone, Copy)]
pub struct LastAccesses {
    /// The last one of all.
    pub latest: Option<LastAccess>,
    /// The last that may have stored to an atomic.
    pub change: Option<LastAccess>,
    /// The last that read how many references there are.
    pub inspection: Option<LastAccess>,
    /// The last that dropped a reference, or tested for the one alone.
    pub decrement: Option<LastAccess>,
    /// The last that made the number of references another one.
    pub recount: Option<LastAccess>,
    /// The last that sent to a channel.
    pub send: Option<LastAccess>,
    /// The last that received from a channel.
    pub receipt: Option<LastAccess>,
}

impl LastAccesses {
    /// No access was made (loom's `rt/object.rs`).
    pub fn new() -> LastAccesses
        ensures { result ≡ nothing }
    {
        LastAccesses {
            latest: None,
            change: None,
            inspection: None,
            decrement: None,
            recount: None,
            send: None,
            receipt: None,
        }
    }

    /// The last access that such a one depends on (loom's `last_dependent_access` in `rt/object.rs`).
    pub fn last_before(&self, action: Action) -> Option<LastAccess>
        ensures { result ≡ slot_of action self.now }
    {
        match action {
            Action::Read => self.change,
            Action::Change => self.latest,
            Action::Increment => self.inspection,
            Action::Decrement => self.decrement,
            Action::Inspect => self.recount,
            Action::Send => self.send,
            Action::Receive => self.receipt,
            Action::Other => self.latest,
        }
    }

    /// An access is made: it is the last for each question that it answers (loom's `set_last_access` in `rt/object.rs`).
    pub fn note(&mut self, action: Action, access: &LastAccess)
        ensures { (asked : Action) → slot_of asked self.new ≡ cond (depends_on asked action) (Some access.now) (slot_of asked self.old) }
    {
        self.latest = Some(*access);
        match action {
            Action::Read => {}
            Action::Change => self.change = Some(*access),
            Action::Increment => self.recount = Some(*access),
            Action::Decrement => {
                self.decrement = Some(*access);
                self.recount = Some(*access);
            }
            Action::Inspect => self.inspection = Some(*access),
            Action::Send => self.send = Some(*access),
            Action::Receive => self.receipt = Some(*access),
            Action::Other => {}
        }
    }
}
