//! Threads of scripts are compared, for checks that remember states. How far they are comes first: the steps, which all threads of a
//! check share, are compared where that is the same.
ghost use Rattle.std.specs.Prelude.{◌≡◌, IsTrue, map};
ghost use Rattle.loom_examples.specs.Scripts.Written.{written};

use crate::scripts::program::Program;
use crate::scripts::script::Script;
use crate::scripts::state::{Handle, State};
use crate::scripts::step::{Step, Value};
use loom_objects::label::Label;
use loom_objects::operation::{AtomicOp, Request, ThreadOp};
use loom_views::is_kind;
use loom_views::same::{Same, are_same};
use std::sync::atomic::Ordering;

impl Same for Script {
    fn is_same(&self, other: &Script) -> bool {
        self.state().is_same(other.state()) && is_program_same(self.program(), other.program())
    }
}

impl Same for State {
    fn is_same(&self, other: &State) -> bool {
        self.at == other.at
            && self.keep == other.keep
            && are_same(&self.registers, &other.registers)
            && are_same(&self.slots, &other.slots)
    }
}

impl Same for Handle {
    fn is_same(&self, other: &Handle) -> bool {
        match *self {
            Handle::Empty => matches!(*other, Handle::Empty),
            Handle::Object(a) => is_kind!(*other, Handle::Object(x) => a == x),
            Handle::Thread(a) => is_kind!(*other, Handle::Thread(x) => a == x),
            Handle::Spawned(a, b) => is_kind!(*other, Handle::Spawned(x, y) => a == x && b == y),
        }
    }
}

/// Whether the programs are the same: by their bytes, where both have a code.
#[tactic(auto, using(crate::proofs::ScriptLemmas::Coding::told_once))]
fn is_program_same(one: &Program, other: &Program) -> bool
    ensures { IsTrue result → one.now ≡ other.now }
{
    match (one.code(), other.code()) {
        (Some(code), Some(others)) => are_bytes_same(code, others),
        _ => are_steps_same(one.steps(), other.steps()),
    }
}

fn are_bytes_same(one: &[u8], other: &[u8]) -> bool
    ensures { IsTrue result → one.now ≡ other.now }
{
    *one == *other
}

/// Whether the steps read the same.
fn are_steps_same(one: &[Step], other: &[Step]) -> bool
    ensures { IsTrue result → map written one.now ≡ map written other.now }
{
    let mut rest = one;
    let mut left = other;
    while let Some((first, tail)) = rest.split_first() {
        let Some((second, others)) = left.split_first() else {
            return false;
        };
        if !is_step_same(first, second) {
            return false;
        }
        rest = tail;
        left = others;
    }
    left.is_empty()
}

/// Whether the two steps read the same: a label may be elsewhere in memory.
fn is_step_same(one: &Step, other: &Step) -> bool
    ensures { IsTrue result → written one.now ≡ written other.now }
{
    match one {
        Step::Do(a, b) => is_kind!(other, Step::Do(x, y) => *a == *x && is_request_same(b, y)),
        Step::Labelled(a, b, c) =>
            is_kind!(other, Step::Labelled(x, y, z) => *a == *x && is_label_same(c, z) && is_request_same(b, y)),
        Step::Store(a, b, c) =>
            is_kind!(other, Step::Store(x, y, z) => *a == *x && is_value_same(*b, *y) && is_order_same(*c, *z)),
        Step::Label(a) => is_kind!(other, Step::Label(x) => *a == *x),
        Step::JumpTo(a) => is_kind!(other, Step::JumpTo(x) => *a == *x),
        Step::IfTo(a, b, c) =>
            is_kind!(other, Step::IfTo(x, y, z) => *a == *x && *b == *y && *c == *z),
        Step::UnlessTo(a, b, c) =>
            is_kind!(other, Step::UnlessTo(x, y, z) => *a == *x && *b == *y && *c == *z),
        Step::SpawnAt(a, b) => is_kind!(other, Step::SpawnAt(x, y) => *a == *x && *b == *y),
    }
}

fn is_label_same(one: &Label, other: &Label) -> bool
    ensures { IsTrue result → one.now ≡ other.now }
{
    *one == *other
}

fn is_value_same(one: Value, other: Value) -> bool
    ensures { IsTrue result → one ≡ other }
{
    one == other
}

pub(crate) fn is_order_same(one: Ordering, other: Ordering) -> bool
    ensures { IsTrue result → one ≡ other }
{
    one == other
}

fn is_request_same(one: &Request<Value, usize>, other: &Request<Value, usize>) -> bool
    ensures { IsTrue result → one.now ≡ other.now }
{
    match one {
        Request::Atomic(a) => is_kind!(other, Request::Atomic(x) => is_atomic_same(a, x)),
        Request::Fence(a) => is_kind!(other, Request::Fence(x) => is_order_same(*a, *x)),
        Request::Cell(a) => is_kind!(other, Request::Cell(x) => a == x),
        Request::Arc(a) => is_kind!(other, Request::Arc(x) => a == x),
        Request::Track(a) => is_kind!(other, Request::Track(x) => a == x),
        Request::Mutex(a) => is_kind!(other, Request::Mutex(x) => a == x),
        Request::RwLock(a) => is_kind!(other, Request::RwLock(x) => a == x),
        Request::Condvar(a) => is_kind!(other, Request::Condvar(x) => a == x),
        Request::Notify(a) => is_kind!(other, Request::Notify(x) => a == x),
        Request::Channel(a) => is_kind!(other, Request::Channel(x) => a == x),
        Request::Waker(a) => is_kind!(other, Request::Waker(x) => a == x),
        Request::AtomicWaker(a) => is_kind!(other, Request::AtomicWaker(x) => a == x),
        Request::Local(a) => is_kind!(other, Request::Local(x) => a == x),
        Request::Lazy(a) => is_kind!(other, Request::Lazy(x) => a == x),
        Request::Explore(a) => is_kind!(other, Request::Explore(x) => a == x),
        Request::Thread(a) => is_kind!(other, Request::Thread(x) => is_thread_same(a, x)),
        _ => is_end_same(one, other),
    }
}

// Whether two requests that end the run are the same. Scripts have no others.
fn is_end_same(one: &Request<Value, usize>, other: &Request<Value, usize>) -> bool
    ensures { IsTrue result → one.now ≡ other.now }
{
    match one {
        Request::Fail => matches!(other, Request::Fail),
        Request::Unreachable => matches!(other, Request::Unreachable),
        _ => false,
    }
}

fn is_atomic_same(one: &AtomicOp, other: &AtomicOp) -> bool
    ensures { IsTrue result → one.now ≡ other.now }
{
    one == other
}

fn is_thread_same(one: &ThreadOp<Value, usize>, other: &ThreadOp<Value, usize>) -> bool
    ensures { IsTrue result → one.now ≡ other.now }
{
    match one {
        ThreadOp::Spawn(a, b) => is_kind!(other, ThreadOp::Spawn(x, y) => *a == *x && *b == *y),
        ThreadOp::Join(a, b) => is_kind!(other, ThreadOp::Join(x, y) => *a == *x && *b == *y),
        ThreadOp::Current => matches!(other, ThreadOp::Current),
        ThreadOp::Park => matches!(other, ThreadOp::Park),
        ThreadOp::Unpark(a) => is_kind!(other, ThreadOp::Unpark(x) => *a == *x),
        ThreadOp::Yield => matches!(other, ThreadOp::Yield),
        ThreadOp::Finish(a) => is_kind!(other, ThreadOp::Finish(x) => is_value_same(*a, *x)),
        ThreadOp::Exit => matches!(other, ThreadOp::Exit),
        ThreadOp::End => matches!(other, ThreadOp::End),
    }
}
