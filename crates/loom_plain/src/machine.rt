//! The whole state of a run, and the moves that all operations make.
use crate::choices::Past;
use crate::dependence::{Access, Action};
use crate::graph::Graph;
use crate::halt::{Halt, NextReply};
use crate::kinds::Step;
use crate::memory::push;
use crate::run::{PlainRun, Settings};
use crate::state::{Object, Pending, State, Thread};
use loom_objects::choice::Choice;
use loom_objects::operation::Lazy;
use loom_views::rt::MAX_THREADS;
use loom_views::rt::failure::FailureKind;
use loom_views::sequence::Sequence;
use std::alloc::Global;

/// What few moves of a run change, apart from the rest of its state.
#[derive(Drop)]
pub struct Rest {
    /// In place of a thread that isn't there. It is never chosen.
    pub nobody: Thread,
    /// In place of an object that isn't there.
    pub nothing: Object,
    /// The points of accesses to objects.
    pub order: Graph,
    /// The accesses, from the first one.
    pub accesses: Vec<Access>,
    /// The values that were made once in the run, in the order made, each with the point that is acquired with it.
    pub lazies: Sequence<Lazy<u64>>,
    /// The choices that are given.
    pub given: Vec<Choice>,
    /// What was chosen.
    pub run: PlainRun,
    /// What is known of the schedules that were made.
    pub past: Past,
    /// Whether other options are tried at the choices that come.
    pub is_exploring: bool,
    /// Whether that stays as it is up to the run's end.
    pub is_settled: bool,
    /// What the run may use, and which runs are made.
    pub settings: Settings,
    /// How many threads have ended.
    pub ended: usize,
    /// The point at which sequentially consistent fences meet.
    pub global: usize,
}

/// The whole state of a run. Once the run has failed or can't be made, nothing is chosen any more, and what the operation on
/// its way still does doesn't count.
#[derive(Drop)]
pub struct Machine {
    /// Where memory comes from.
    pub alloc: Global,
    /// How the run fails.
    pub failure: Option<FailureKind>,
    /// Why the run can't be made.
    pub halt: Option<Halt>,
    /// Its first point is 0, which raises no thread, and which no other point reaches.
    pub graph: Graph,
    /// In order of creation; main is the first.
    pub threads: Vec<Thread>,
    /// In order of creation.
    pub objects: Vec<Object>,
    /// The thread whose turn it is.
    pub active: u8,
    /// What few moves change.
    pub rest: Box<Rest>,
}

impl Machine {
    /// Whether the run goes no further.
    pub fn has_halted(&self) -> bool {
        self.failure.is_some() || self.halt.is_some()
    }

    /// The run fails by this kind, unless the test holds or it has failed already.
    pub fn check(&mut self, test: bool, kind: FailureKind) {
        if !test && self.failure.is_none() {
            self.failure = Some(kind);
        }
    }

    /// The plain program is wrong, unless the test holds or the run has halted already.
    pub fn expect(&mut self, test: bool) {
        if !test && !self.has_halted() {
            self.halt = Some(Halt::Broken);
        }
    }

    /// Memory was refused, unless something has grown.
    pub fn grows(&mut self, has_grown: bool) {
        if !has_grown {
            self.halt = Some(Halt::Memory);
        }
    }

    /// The value, or a misuse of what has to hold it.
    pub fn required(&mut self, value: Option<u64>) -> u64 {
        self.check(value.is_some(), FailureKind::Misuse);
        value.unwrap_or(0)
    }

    /// The thread of this number, or nobody.
    pub fn thread(&mut self, number: u8) -> &mut Thread {
        self.threads
            .get_mut(usize::from(number))
            .unwrap_or(&mut self.rest.nobody)
    }

    /// The thread whose turn it is.
    pub fn me(&mut self) -> &mut Thread {
        let active = self.active;
        self.thread(active)
    }

    /// A point after these two.
    pub fn point(&mut self, one: usize, other: usize) -> usize {
        self.graph.add(one, other, &mut self.halt)
    }

    /// A point after this one, which raises a thread's version.
    pub fn raising_point(&mut self, before: usize) -> usize {
        let point = self.point(before, before);
        push(&mut self.graph.raising, point, &mut self.halt);
        point
    }

    /// The active thread raises its version.
    pub fn raise(&mut self) {
        let me = self.me();
        let (present, versions) = (me.present, me.versions);
        me.versions = versions.saturating_add(1);
        let point = self.raising_point(present);
        let me = self.me();
        me.present = point;
        me.raised = point;
        self.check(versions < 65_534, FailureKind::TooManyVersions);
    }

    /// The active thread acquires from the point.
    pub fn acquire(&mut self, point: usize) {
        let present = self.me().present;
        self.me().present = self.point(present, point);
    }

    /// The point after this one by which the active thread passes on what it has seen. What its last release fence left is of that.
    pub fn released_to(&mut self, point: usize) -> usize {
        let present = self.me().present;
        self.point(point, present)
    }

    /// The thread takes in what the active one has seen.
    pub fn tell(&mut self, number: u8) {
        let present = self.me().present;
        let before = self.thread(number).present;
        self.thread(number).present = self.point(before, present);
    }

    /// The active thread reaches a branch point, where it is to do this to the object.
    pub fn pends(
        &mut self,
        number: usize,
        action: Action,
        step: Step,
        is_blocked: bool,
    ) -> NextReply {
        let me = self.me();
        me.pending = Pending {
            number,
            action: Some(action),
            step,
        };
        if is_blocked {
            me.state = State::Blocked;
        }
        None
    }

    /// The active thread reaches a branch point in this state, where others depend on nothing that it does to an object.
    pub fn steps_back(&mut self, state: State, number: usize, step: Step) -> NextReply {
        let me = self.me();
        me.pending = Pending {
            number,
            action: None,
            step,
        };
        me.state = state;
        None
    }

    /// Each other thread that is about to do this to the object, or whatever is done to it, gets this state.
    pub fn set_pending(&mut self, number: usize, action: Option<Action>, state: State) {
        for other in 0..MAX_THREADS as u8 {
            let is_other = other != self.active;
            let thread = self.thread(other);
            let pending = thread.pending;
            if is_other
                && pending.number == number
                && pending.action.is_some()
                && (action.is_none() || action == pending.action)
            {
                thread.state = state;
            }
        }
    }
}
