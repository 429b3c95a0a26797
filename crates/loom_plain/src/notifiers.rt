//! Notifiers.
use crate::choices::MAX_OPTIONS;
use crate::dependence::Action;
use crate::halt::NextReply;
use crate::kinds::{Kind, Step};
use crate::machine::Machine;
use crate::state::State;
use loom_objects::choice::Choice;
use loom_objects::operation::{NotifyOp, Reply};
use loom_views::rt::MAX_THREADS;
use loom_views::rt::failure::FailureKind;

impl Machine {
    /// An operation of a notifier is handed over.
    pub fn notify_begins(&mut self, op: NotifyOp) -> NextReply {
        match op {
            NotifyOp::New => Some(Reply::Notify(self.makes(Kind::Notify, None))),
            NotifyOp::Notify(number) => {
                self.comes_to(number, Kind::Notify, Action::Other, Step::Notify)
            }
            NotifyOp::Wait(number) => self.wait_begins(number, None),
        }
    }

    /// The active thread is to wait on the notifier, which may be that of a future with these wakers, unless it wakes without
    /// a notification.
    pub fn wait_begins(&mut self, number: usize, future: Option<usize>) -> NextReply {
        let active = self.active;
        let notify = self.object(number, Kind::Notify);
        let is_second = notify.holder.is_some();
        let (has_woken, is_notified) = (notify.has_woken, notify.is_notified);
        notify.holder = Some(active);
        self.check(!is_second, FailureKind::SecondWaiter);
        if !has_woken && self.wakes_early() {
            self.at(number).has_woken = true;
            self.yields(number, Step::Await(future, false))
        } else {
            self.pends(
                number,
                Action::Wait,
                Step::Await(future, true),
                !is_notified,
            )
        }
    }

    // Whether the thread wakes without a notification is chosen.
    fn wakes_early(&mut self) -> bool {
        let mut options = [None; MAX_OPTIONS];
        options[0] = Some(Choice::Spurious(false));
        options[1] = Some(Choice::Spurious(true));
        match self.choose(options, false) {
            Some(Choice::Spurious(wakes)) => wakes,
            _ => false,
        }
    }

    /// The active thread has woken, by a notification or without one. A future that it waits for has a waker left.
    pub fn awaits(&mut self, number: usize, future: Option<usize>, is_notified: bool) -> NextReply {
        if let Some(wakers) = future {
            self.object(wakers, Kind::Waker);
        }
        self.at(number).holder = None;
        if is_notified {
            self.acquires_notice(number);
        }
        Some(Reply::Done)
    }

    /// The active thread acquires from the notifier, which isn't notified any more.
    pub fn acquires_notice(&mut self, number: usize) {
        self.at(number).is_notified = false;
        self.acquires_from(number);
    }

    /// The active thread notifies the notifier. Others that are about to wait on it take in what it has seen,
    /// and go on.
    pub fn notifies(&mut self, number: usize) {
        self.releases_to(number);
        self.at(number).is_notified = true;
        for thread in 0..MAX_THREADS as u8 {
            if thread != self.active {
                self.tells_waiter(thread, number);
            }
        }
    }

    // A thread that is about to wait on the notifier takes in what the active one has seen, and goes on.
    fn tells_waiter(&mut self, number: u8, notifier: usize) {
        let pending = self.thread(number).pending;
        if pending.number == notifier && matches!(pending.action, Some(Action::Wait)) {
            self.tell(number);
            let thread = self.thread(number);
            if matches!(thread.state, State::Blocked) {
                thread.state = State::Runnable;
            }
        }
    }
}
