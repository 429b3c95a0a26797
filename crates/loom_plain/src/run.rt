//! One run: the operations of the threads, one after another.
use crate::choices::{MAX_OPTIONS, Made, Options, Past};
use crate::graph::Graph;
use crate::halt::{Halt, NextReply};
use crate::kinds::Kind;
use crate::machine::{Machine, Rest};
use crate::memory::push;
use crate::state::{Object, State, Thread};
use loom_objects::body::Body;
use loom_objects::choice::Choice;
use loom_objects::operation::{Reply, Request};
use loom_views::rt::MAX_THREADS;
use loom_views::rt::failure::FailureKind;
use loom_views::sequence::Sequence;
use std::alloc::Global;
use std::mem;

/// What a run may use, and which runs are made.
#[derive(Clone, Copy)]
pub struct Settings {
    /// How many threads it may have.
    pub max_threads: usize,
    /// How many choices it may make.
    pub max_branches: usize,
    /// How many operations its threads may hand over.
    pub max_steps: usize,
    /// Whether a thread is tried only where an access calls for it.
    pub reduce: bool,
    /// How many preemptions a run may count, if that is bounded.
    pub bound: Option<usize>,
    /// Whether other options are tried only once the body says so.
    pub expect_explicit_explore: bool,
}

/// How a run ended.
#[derive(Clone, Copy)]
pub enum Ending {
    /// With main's result.
    Ended(u64),
    Failed(FailureKind),
}

/// A thread that was about to make an access which depends on an earlier one that it isn't ordered after.
#[derive(Clone, Copy)]
pub struct Reversal {
    /// The thread that was about to make it.
    pub thread: u8,
    /// The place of the schedule that chose the thread of the earlier access.
    pub place: usize,
}

/// A run that was made.
#[derive(Drop)]
pub struct PlainRun {
    /// Its choices, in order.
    pub choices: Vec<Choice>,
    /// Its choices, each with what else could have been chosen.
    pub made: Vec<Made>,
    /// The threads whose accesses weren't ordered after an earlier one that they depend on.
    pub reversals: Vec<Reversal>,
    /// How it ended.
    pub ending: Ending,
}

/// The run of the body that makes these choices, and then defaults.
pub fn run<B: Body<Data = u64>>(
    alloc: Global,
    settings: Settings,
    body: &B,
    list: Vec<Choice>,
) -> Result<PlainRun, Halt> {
    match Box::new(alloc, rest_of(alloc, settings, list)) {
        Ok(rest) => {
            let mut machine = opening(alloc, rest);
            makes_run(&mut machine, body, settings.max_steps);
            machine.comes_to_end()
        }
        Err(_) => Err(Halt::Memory),
    }
}

// The threads' operations, from main's first one on.
fn makes_run<B: Body<Data = u64>>(machine: &mut Machine, body: &B, steps: usize) {
    machine.starts_main();
    let mut bodies = Vec::new(machine.alloc);
    push_copy(&mut bodies, body, &mut machine.halt);
    goes_on(machine, &mut bodies, steps);
}

// One more body, in the state that this one is in.
fn push_copy<B: Body<Data = u64>>(bodies: &mut Vec<B>, body: &B, halt: &mut Option<Halt>) {
    match body.try_clone() {
        Ok(copy) => push(bodies, copy, halt),
        Err(_) => *halt = Some(Halt::Memory),
    }
}

// Nothing chosen.
fn no_run(alloc: Global) -> PlainRun {
    PlainRun {
        choices: Vec::new(alloc),
        made: Vec::new(alloc),
        reversals: Vec::new(alloc),
        ending: Ending::Ended(0),
    }
}

// What is needed beside threads and objects, where these choices are given.
fn rest_of(alloc: Global, settings: Settings, given: Vec<Choice>) -> Rest {
    Rest {
        nobody: Thread::new(alloc, State::Ended, 0),
        nothing: Object::new(alloc, Kind::Nothing, None),
        order: Graph::new(alloc),
        accesses: Vec::new(alloc),
        lazies: Sequence::new(alloc),
        given,
        run: no_run(alloc),
        past: Past {
            preemptions: 0,
            last: None,
            nearest: None,
            switch: None,
        },
        is_exploring: !settings.expect_explicit_explore,
        is_settled: false,
        settings,
        ended: 0,
        global: 0,
    }
}

// Without threads and objects.
fn opening(alloc: Global, rest: Box<Rest>) -> Machine {
    Machine {
        alloc,
        failure: None,
        halt: None,
        graph: Graph::new(alloc),
        threads: Vec::new(alloc),
        objects: Vec::new(alloc),
        active: 0,
        rest,
    }
}

// The threads' operations up to the run's end.
fn goes_on<B: Body<Data = u64>>(machine: &mut Machine, bodies: &mut Vec<B>, steps: usize) {
    let mut reply = Reply::Start;
    for _ in 0..steps {
        match step(machine, bodies, reply) {
            Some(next) => reply = next,
            None => return,
        }
    }
    machine.check(false, FailureKind::TooManySteps);
}

// The thread whose turn it is gets the reply, unless the run has halted, and hands its next operation over. Gives the next
// reply, or nothing at the run's end.
fn step<B: Body<Data = u64>>(
    machine: &mut Machine,
    bodies: &mut Vec<B>,
    reply: Reply<u64>,
) -> NextReply {
    let place = if machine.has_halted() {
        bodies.len()
    } else {
        usize::from(machine.active)
    };
    let Some(body) = bodies.get_mut(place) else {
        machine.expect(false);
        return None;
    };
    let Ok(op) = body.resume(reply) else {
        machine.halt = Some(Halt::Memory);
        return None;
    };
    let (request, child) = op.split();
    if let Some(child) = child {
        push(bodies, child, &mut machine.halt);
    }
    machine.submit(request)
}

impl Machine {
    // Main is the first thread, about to hand over its first operation.
    fn starts_main(&mut self) {
        self.graph.add(0, 0, &mut self.halt);
        self.rest.order.add(0, 0, &mut self.halt);
        let main = Thread::new(self.alloc, State::Runnable, 0);
        push(&mut self.threads, main, &mut self.halt);
    }

    // The active thread hands the operation over. Gives the reply to the thread whose turn it is then, or nothing at the run's
    // end.
    fn submit(&mut self, request: Request<u64, ()>) -> NextReply {
        match self.begins(request) {
            Some(reply) => Some(reply),
            None => self.goes_to_reply(),
        }
    }

    // Threads are chosen until one gets a reply, or none is left.
    fn goes_to_reply(&mut self) -> NextReply {
        for _ in 0..self.rest.settings.max_branches.saturating_add(1) {
            if !self.schedule() {
                return None;
            }
            if let Some(reply) = self.takes_effect() {
                return Some(reply);
            }
        }
        None
    }

    // A thread is chosen, or none. The chosen one makes an access where it is pending on an object.
    fn schedule(&mut self) -> bool {
        let options = self.thread_options();
        let place = self.rest.run.made.len();
        let Some(Choice::Thread(Some(chosen))) = self.choose(options, true) else {
            return false;
        };
        self.active = chosen;
        self.makes_access(place);
        // Each other thread that yields is runnable again.
        for number in 0..MAX_THREADS as u8 {
            let is_other = number != self.active;
            let thread = self.thread(number);
            if is_other && matches!(thread.state, State::Yielding) {
                thread.state = State::Runnable;
            }
        }
        true
    }

    /// Of each thread whether it could neither go on nor yielded.
    pub fn disabled(&mut self) -> [bool; MAX_THREADS] {
        let mut disabled = [false; MAX_THREADS];
        for number in 0..MAX_THREADS as u8 {
            if let Some(is_disabled) = disabled.get_mut(usize::from(number)) {
                *is_disabled = self.lateness(number) == u64::MAX;
            }
        }
        disabled
    }

    // The default, and each other thread that is runnable.
    fn thread_options(&mut self) -> Options {
        let default = self.default_thread();
        let mut options = [None; MAX_OPTIONS];
        options[0] = Some(Choice::Thread(default));
        for number in 0..MAX_THREADS as u8 {
            if default != Some(number)
                && matches!(self.thread(number).state, State::Runnable)
                && let Some(option) = options.get_mut(usize::from(number).saturating_add(1))
            {
                *option = Some(Choice::Thread(Some(number)));
            }
        }
        options
    }

    // How late the thread comes where it isn't chosen: the active one is the first, then come others that are runnable, those
    // that have yielded less often first, and then those that yield. Others have the highest number, and don't come.
    fn lateness(&mut self, number: u8) -> u64 {
        let is_active = number == self.active;
        let thread = self.thread(number);
        match thread.state {
            State::Runnable if is_active => 0,
            State::Runnable => thread.yields.saturating_add(1),
            State::Yielding => u64::MAX - 1,
            _ => u64::MAX,
        }
    }

    // The thread that comes first; of those that come equally late the first.
    fn default_thread(&mut self) -> Option<u8> {
        let mut first = None;
        let mut least = u64::MAX;
        for number in 0..MAX_THREADS as u8 {
            let late = self.lateness(number);
            if late < least {
                first = Some(number);
                least = late;
            }
        }
        first
    }

    // How the run ends. It fails where some thread hasn't ended or some object is left, unless it has failed already.
    fn ending(&mut self) -> Ending {
        let has_ended = self.rest.ended == self.threads.len();
        self.check(has_ended, FailureKind::Deadlock);
        let leak = self.leak();
        self.failure = self.failure.or(leak);
        let value = self.thread(0).value;
        self.expect(value.is_some());
        match self.failure {
            Some(kind) => Ending::Failed(kind),
            None => Ending::Ended(value.unwrap_or(0)),
        }
    }

    // The run is over, and gives its choices away.
    fn comes_to_end(&mut self) -> Result<PlainRun, Halt> {
        self.rest.run.ending = self.ending();
        if let Some(halt) = self.halt {
            return Err(halt);
        }
        let none = no_run(self.alloc);
        Ok(mem::replace(&mut self.rest.run, none))
    }
}
