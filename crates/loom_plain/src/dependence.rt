//! Which accesses to objects are ordered: a graph of its own, in which each scheduled operation on an object is a point.
use crate::machine::Machine;
use crate::memory::push;
use crate::run::Reversal;
use loom_views::rt::MAX_THREADS;
use loom_views::rt::failure::FailureKind;

/// What an operation does to its object, as far as others depend on it.
#[derive(Clone, Copy, PartialEq, Eq)]
pub enum Action {
    /// It loads from an atomic.
    Read,
    /// It stores to an atomic, or may.
    Change,
    /// It makes one counted reference more.
    Increment,
    /// It drops a counted reference, or tests whether it has the one reference alone.
    Decrement,
    /// It asks how many counted references there are.
    Inspect,
    /// It sends to a channel.
    Send,
    /// It receives from a channel.
    Receive,
    /// It takes a read-write lock to write.
    Write,
    /// It waits on a notifier.
    Wait,
    /// It uses a lock, a condition variable or a notifier in another way.
    Other,
}

/// An access that was made.
#[derive(Clone, Copy)]
pub struct Access {
    object: usize,
    action: Action,
    point: usize,
    // The place of the schedule that chose its thread.
    place: usize,
}

// Whether an access depends on an earlier one that does this to its object.
fn depends(action: Action, earlier: Action) -> bool {
    match action {
        Action::Read => matches!(earlier, Action::Change),
        Action::Increment => matches!(earlier, Action::Inspect),
        Action::Decrement => matches!(earlier, Action::Decrement),
        Action::Inspect => matches!(earlier, Action::Increment | Action::Decrement),
        Action::Send => matches!(earlier, Action::Send),
        Action::Receive => matches!(earlier, Action::Receive),
        Action::Change | Action::Write | Action::Wait | Action::Other => true,
    }
}

impl Machine {
    // The last access that one depends on which does this to the object.
    fn last_before(&self, object: usize, action: Action) -> Option<Access> {
        let mut accesses = self.rest.accesses.iter().rev();
        accesses
            .find(|access| access.object == object && depends(action, access.action))
            .copied()
    }

    // Where the thread is about to make an access that depends on one from which no chain of edges leads to the thread: the place
    // of that one's schedule.
    fn unordered(&mut self, number: u8) -> Option<usize> {
        let thread = self.thread(number);
        let (pending, own) = (thread.pending, thread.last);
        let action = pending.action?;
        match self.last_before(pending.number, action) {
            Some(access) if !self.rest.order.reaches(access.point, own) => Some(access.place),
            _ => None,
        }
    }

    /// Which threads are about to make accesses that depend on ones that they aren't ordered after.
    pub fn finds_reversals(&mut self) {
        for thread in 0..MAX_THREADS as u8 {
            if let Some(place) = self.unordered(thread) {
                let reversals = &mut self.rest.run.reversals;
                push(reversals, Reversal { thread, place }, &mut self.halt);
            }
        }
    }

    /// The active thread, chosen at this place, makes an access where it is pending on an object: it comes after the thread's last
    /// one and after the last one that it depends on.
    pub fn makes_access(&mut self, place: usize) {
        let me = self.me();
        let (pending, own, count) = (me.pending, me.last, me.accesses);
        let Some(action) = pending.action else {
            return;
        };
        self.check(count < 65_534, FailureKind::TooManyVersions);
        let object = pending.number;
        let before = match self.last_before(object, action) {
            Some(access) => access.point,
            None => own,
        };
        let rest = &mut *self.rest;
        let point = rest.order.add(own, before, &mut self.halt);
        let access = Access {
            object,
            action,
            point,
            place,
        };
        push(&mut rest.accesses, access, &mut self.halt);
        let me = self.me();
        me.last = point;
        me.accesses = count.saturating_add(1);
    }
}
