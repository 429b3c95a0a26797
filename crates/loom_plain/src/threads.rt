//! Threads: spawns, joins, tokens, yields, ends.
use crate::dependence::Action;
use crate::halt::NextReply;
use crate::kinds::{Kind, Step};
use crate::machine::Machine;
use crate::memory::push;
use crate::state::{Phase, State, Thread};
use loom_objects::operation::{Name, Reply, ThreadOp};
use loom_views::rt::failure::FailureKind;

impl Machine {
    /// An operation of threads is handed over.
    pub fn thread_begins(&mut self, op: ThreadOp<u64, ()>) -> NextReply {
        match op {
            ThreadOp::Spawn((), name) => self.spawn(name),
            ThreadOp::Join(thread, notifier) => self.join_begins(thread, notifier),
            ThreadOp::Current => Some(Reply::Thread(self.active, self.me().name)),
            ThreadOp::Park => self.park(),
            ThreadOp::Unpark(thread) => self.unpark(thread),
            ThreadOp::Yield => self.yields(0, Step::Continue),
            ThreadOp::Finish(value) => self.finish_begins(value),
            ThreadOp::Exit => {
                self.moves_on(Phase::Finished, Phase::Exited);
                self.takes_locals()
            }
            ThreadOp::End => {
                self.moves_on(Phase::Exited, Phase::Over);
                let rest = &mut *self.rest;
                rest.ended = rest.ended.saturating_add(1);
                self.steps_back(State::Ended, 0, Step::Nothing)
            }
        }
    }

    // The active thread comes from the one phase to the other.
    fn moves_on(&mut self, from: Phase, to: Phase) {
        let me = self.me();
        let is_from = me.phase == from;
        me.phase = to;
        self.check(is_from, FailureKind::Misuse);
    }

    fn spawn(&mut self, name: Option<Name>) -> NextReply {
        let count = self.threads.len();
        let most = self.rest.settings.max_threads;
        self.check(count < most, FailureKind::TooManyThreads);
        let Ok(number) = u8::try_from(count) else {
            return None;
        };
        let me = self.me();
        let (before, last) = (me.present, me.last);
        let begins = self.raising_point(before);
        self.raise();
        let notifier = self.makes(Kind::End, None);
        let mut thread = Thread::new(self.alloc, State::Runnable, begins);
        thread.versions = 1;
        thread.last = last;
        thread.notifier = Some(notifier);
        thread.name = name;
        push(&mut self.threads, thread, &mut self.halt);
        Some(Reply::Spawned(number, name, notifier))
    }

    fn join_begins(&mut self, number: u8, notifier: usize) -> NextReply {
        let thread = self.thread(number);
        let may_join = thread.notifier == Some(notifier) && !thread.is_joined;
        thread.is_joined = true;
        self.check(may_join, FailureKind::Misuse);
        let is_notified = self.at(notifier).is_notified;
        self.pends(notifier, Action::Wait, Step::Join(number), !is_notified)
    }

    /// The active thread has joined this one, which has the notifier.
    pub fn joins(&mut self, notifier: usize, number: u8) -> NextReply {
        self.acquires_notice(notifier);
        let value = self.thread(number).value.take();
        Some(Reply::Data(self.required(value)))
    }

    fn park(&mut self) -> NextReply {
        let me = self.me();
        if me.has_token {
            me.has_token = false;
            return Some(Reply::Done);
        }
        self.steps_back(State::Parked, 0, Step::Continue)
    }

    fn unpark(&mut self, number: u8) -> NextReply {
        let is_there = usize::from(number) < self.threads.len();
        self.check(is_there, FailureKind::Misuse);
        if number != self.active {
            self.tell(number);
        }
        let thread = self.thread(number);
        match thread.state {
            State::Parked => thread.state = State::Runnable,
            State::Ended => {}
            State::Runnable | State::Blocked | State::Sleeping | State::Yielding => {
                thread.has_token = true;
            }
        }
        Some(Reply::Done)
    }

    /// The active thread lets others go on first, and then does this.
    pub fn yields(&mut self, number: usize, step: Step) -> NextReply {
        let me = self.me();
        me.yielded = Some(me.raised);
        me.yields = me.yields.saturating_add(1);
        self.steps_back(State::Yielding, number, step)
    }

    fn finish_begins(&mut self, value: u64) -> NextReply {
        self.moves_on(Phase::Working, Phase::Finished);
        let me = self.me();
        me.value = Some(value);
        match me.notifier {
            None => self.takes_lazies(),
            Some(notifier) => self.pends(notifier, Action::Other, Step::Notify, false),
        }
    }
}
