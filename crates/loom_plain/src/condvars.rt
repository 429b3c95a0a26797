//! Condition variables.
use crate::dependence::Action;
use crate::halt::NextReply;
use crate::kinds::{Kind, Step};
use crate::locks::Claim;
use crate::machine::Machine;
use crate::state::State;
use loom_objects::operation::{CondvarOp, Reply};
use loom_views::rt::MAX_THREADS;
use loom_views::rt::failure::FailureKind;

impl Machine {
    /// An operation of a condition variable is handed over.
    pub fn condvar_begins(&mut self, op: CondvarOp<u64>) -> NextReply {
        match op {
            CondvarOp::New => Some(Reply::Condvar(self.makes(Kind::Condvar, None))),
            CondvarOp::Wait(number, mutex, value) => {
                self.wait_on_begins(number, mutex, Step::Sleep(mutex, value, Claim::Lock))
            }
            CondvarOp::WaitTimeout(number, mutex, value) => {
                self.wait_on_begins(number, mutex, Step::Sleep(mutex, value, Claim::Relock))
            }
            CondvarOp::NotifyOne(number) => {
                self.comes_to(number, Kind::Condvar, Action::Other, Step::WakeUp(1))
            }
            CondvarOp::NotifyAll(number) => {
                self.comes_to(
                    number,
                    Kind::Condvar,
                    Action::Other,
                    Step::WakeUp(MAX_THREADS as u8),
                )
            }
        }
    }

    fn wait_on_begins(&mut self, number: usize, mutex: usize, step: Step) -> NextReply {
        let active = self.active;
        let is_held = self.object(mutex, Kind::Mutex).holder == Some(active);
        self.check(is_held, FailureKind::Misuse);
        self.comes_to(number, Kind::Condvar, Action::Other, step)
    }

    /// The active thread is the last waiter, and releases the mutex.
    pub fn sleeps(&mut self, number: usize, mutex: usize, value: u64, claim: Claim) -> NextReply {
        let active = self.active;
        let has_grown = self.at(number).waiters.push_back(active).is_ok();
        self.grows(has_grown);
        self.unlocks(mutex, Kind::Mutex, value);
        self.steps_back(State::Sleeping, mutex, Step::Awake(claim))
    }

    /// So many waiters are woken, the first one first, as far as there are any. A waiter takes in what the active thread has
    /// seen, and is runnable.
    pub fn wakes_up(&mut self, number: usize, most: u8) -> NextReply {
        for _ in 0..most {
            if let Some(waiter) = self.at(number).waiters.pop_front() {
                self.tell(waiter);
                self.thread(waiter).state = State::Runnable;
            }
        }
        Some(Reply::Done)
    }
}
