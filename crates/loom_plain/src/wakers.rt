//! Wakers of futures, and atomic wakers: places for a waker, each with a lock.
use crate::dependence::Action;
use crate::halt::NextReply;
use crate::kinds::{Kind, Step};
use crate::machine::Machine;
use loom_objects::operation::{AtomicWakerOp, Reply, WakerOp};
use loom_views::rt::failure::FailureKind;

/// What a thread does once it has dropped a waker.
#[derive(Clone, Copy)]
pub enum AfterDrop {
    Nothing,
    Yield,
    /// It releases the lock of this place.
    Free(usize),
}

// The reply of a waker that was taken out of its place.
fn waker_reply(waker: Option<usize>) -> Reply<u64> {
    match waker {
        Some(number) => Reply::Waker(number),
        None => Reply::NoWaker,
    }
}

impl Machine {
    /// An operation of a future's notifier or of its wakers is handed over.
    pub fn waker_begins(&mut self, op: WakerOp) -> NextReply {
        match op {
            // A notifier, and then the count of its wakers.
            WakerOp::New => {
                let notifier = self.makes(Kind::Notify, None);
                let number = self.makes(Kind::Waker, None);
                self.at(number).notifier = notifier;
                Some(Reply::BlockOn(number))
            }
            WakerOp::Wait(number) => {
                let notifier = self.object(number, Kind::Waker).notifier;
                self.wait_begins(notifier, Some(number))
            }
            WakerOp::Clone(number) => {
                let step = Step::CloneWaker(None);
                self.comes_to(number, Kind::Waker, Action::Increment, step)
            }
            WakerOp::Finish(number) | WakerOp::Drop(number) => {
                let step = Step::DropWaker(AfterDrop::Nothing);
                self.comes_to(number, Kind::Waker, Action::Decrement, step)
            }
            WakerOp::Wake(number) => self.wake_begins(number, Some(AfterDrop::Nothing)),
            WakerOp::WakeByRef(number) => self.wake_begins(number, None),
        }
    }

    // An operation by which the active thread is to wake is handed over.
    fn wake_begins(&mut self, number: usize, after: Option<AfterDrop>) -> NextReply {
        self.object(number, Kind::Waker);
        self.comes_to_wake(number, after)
    }

    // The active thread comes to wake by the waker, which is tested when that takes effect.
    fn comes_to_wake(&mut self, number: usize, after: Option<AfterDrop>) -> NextReply {
        let notifier = self.at(number).notifier;
        self.pends(notifier, Action::Other, Step::Wake(number, after), false)
    }

    /// The active thread wakes by the waker, and may come to drop that.
    pub fn wakes_by(
        &mut self,
        notifier: usize,
        number: usize,
        after: Option<AfterDrop>,
    ) -> NextReply {
        self.object(number, Kind::Waker);
        self.notifies(notifier);
        match after {
            Some(after) => self.pends(number, Action::Decrement, Step::DropWaker(after), false),
            None => Some(Reply::Done),
        }
    }

    /// One waker more, which may be about to take a place.
    pub fn clones_waker(&mut self, number: usize, place: Option<usize>) -> NextReply {
        let wakers = self.object(number, Kind::Waker);
        wakers.count = wakers.count.saturating_add(1);
        match place {
            Some(place) => self.pends(place, Action::Other, Step::Register(number), false),
            None => Some(Reply::Done),
        }
    }

    /// One waker fewer; who drops the last one acquires.
    pub fn drops_waker(&mut self, number: usize, after: AfterDrop) -> NextReply {
        self.object(number, Kind::Waker);
        self.drops_one(number);
        match after {
            AfterDrop::Nothing => Some(Reply::Done),
            AfterDrop::Yield => self.yields(0, Step::Continue),
            AfterDrop::Free(place) => {
                self.frees(place);
                Some(Reply::Done)
            }
        }
    }

    /// An operation of a place for wakers is handed over.
    pub fn atomic_waker_begins(&mut self, op: AtomicWakerOp) -> NextReply {
        match op {
            AtomicWakerOp::New => Some(Reply::AtomicWaker(self.makes(Kind::AtomicWaker, None))),
            AtomicWakerOp::Register(number, waker) => {
                self.object(waker, Kind::Waker);
                self.comes_to(
                    number,
                    Kind::AtomicWaker,
                    Action::Other,
                    Step::Register(waker),
                )
            }
            AtomicWakerOp::RegisterByRef(number, waker) => {
                self.object(number, Kind::AtomicWaker);
                let step = Step::CloneWaker(Some(number));
                self.comes_to(waker, Kind::Waker, Action::Increment, step)
            }
            AtomicWakerOp::Wake(number) => self.take_begins(number, true),
            AtomicWakerOp::TakeWaker(number) => self.take_begins(number, false),
            AtomicWakerOp::Drop(number) => {
                Some(waker_reply(self.object(number, Kind::AtomicWaker).waker.take()))
            }
        }
    }

    // The active thread is to take the waker out, and is blocked while the place is held.
    fn take_begins(&mut self, number: usize, wakes: bool) -> NextReply {
        let is_held = self.object(number, Kind::AtomicWaker).holder.is_some();
        self.pends(number, Action::Other, Step::TakeWaker(wakes), is_held)
    }

    // The active thread holds the place, and leaves this waker there. Gives the old one.
    fn holds_atomic_waker(&mut self, number: usize, waker: Option<usize>) -> Option<usize> {
        let place = self.at(number);
        let (old, is_held) = (place.waker, place.holder.is_some());
        place.waker = waker;
        self.check(!is_held, FailureKind::Misuse);
        self.holds(number);
        old
    }

    /// The waker takes the place, and an old one is dropped while the place is held; where another thread holds it, the waker
    /// wakes and is dropped, and the active thread yields.
    pub fn registers(&mut self, number: usize, waker: usize) -> NextReply {
        self.object(waker, Kind::Waker);
        if self.at(number).holder.is_some() {
            return self.comes_to_wake(waker, Some(AfterDrop::Yield));
        }
        match self.holds_atomic_waker(number, Some(waker)) {
            Some(old) => {
                let step = Step::DropWaker(AfterDrop::Free(number));
                self.pends(old, Action::Decrement, step, false)
            }
            None => {
                self.frees(number);
                Some(Reply::Done)
            }
        }
    }

    /// The waker is taken out of the place, and may be about to wake.
    pub fn takes_waker(&mut self, number: usize, wakes: bool) -> NextReply {
        let waker = self.holds_atomic_waker(number, None);
        self.frees(number);
        match waker {
            Some(waker) if wakes => self.comes_to_wake(waker, Some(AfterDrop::Nothing)),
            None if wakes => Some(Reply::Done),
            _ => Some(waker_reply(waker)),
        }
    }
}
