//! The steps of scripts.
use loom_objects::label::Label;
use loom_objects::operation::{Request, ThreadOp};
use std::sync::atomic::Ordering;

/// A number that a step makes. What it names is a register, of four, in which its thread keeps numbers; any other is 0.
#[derive(Clone, Copy, Debug, PartialEq, Eq)]
pub enum Value {
    /// This number.
    Plain(u64),
    /// What the register holds.
    Held(usize),
    /// One more than the register holds; after the highest number comes 0.
    Next(usize),
    /// Ten times what the one register holds and what the other holds, as the lowest 64 bits of it.
    Both(usize, usize),
}

/// One step of a script. Slots are eight places in which its thread keeps what names objects and threads.
#[derive(Drop)]
pub enum Step {
    /// Makes this operation of the machine, in which a slot stands for each object and thread, and the place of a step for
    /// what a spawn starts. A join has the thread's slot twice: for the thread, and for its notifier. What the reply tells is
    /// kept, a handle in the slot of this number, and a number in the register of it. Of numbers that are given back the
    /// register gets the digits, behind a 1, and of a thread's name the bytes, behind a 1; without a name it gets 0. In the last
    /// register instead goes the number that a compare-exchange found and left there or that a channel didn't take, 1 where
    /// others share or have what was asked for or there is none yet, and 2 where there will be none. An exchange that fails
    /// clears its own register: it gets 0.
    Do(usize, Request<Value, usize>),
    /// `Do`, and how the script's author calls the operation.
    Labelled(usize, Request<Value, usize>, Label),
    /// Stores the value into the atomic in the slot. (An operation of an atomic holds its number, and no value.)
    Store(usize, Value, Ordering),
    /// The name of the place behind it, where a step stands that is no jump and no name of a place. It makes no operation.
    Label(&'static str),
    /// Goes on behind the first label of this name, and without one at the script's end.
    JumpTo(&'static str),
    /// Does so if the register holds this number, and else goes on at the next step.
    IfTo(usize, u64, &'static str),
    /// Does so if the register holds another number, and else goes on at the next step.
    UnlessTo(usize, u64, &'static str),
    /// Starts a thread behind the label of this name, and keeps it in the slot.
    SpawnAt(usize, &'static str),
}

/// The thread gives its locals back.
pub const EXIT: Step = Step::Do(0, Request::Thread(ThreadOp::Exit));

/// The thread's last operation.
pub const END: Step = Step::Do(0, Request::Thread(ThreadOp::End));

/// The thread waits for a token.
pub const PARK: Step = Step::Do(0, Request::Thread(ThreadOp::Park));

/// The thread lets others go on first.
pub const YIELD: Step = Step::Do(0, Request::Thread(ThreadOp::Yield));

/// The script's assertion fails.
pub const FAIL: Step = Step::Do(0, Request::Fail);
