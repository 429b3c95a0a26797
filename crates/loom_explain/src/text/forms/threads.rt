//! Forms of operations of threads.
use crate::text::forms::{Deed, Form, GOES_ON, Kind, On, Ties};
use crate::text::world::World;
use loom_objects::operation::ThreadOp;

/// What is asked of who joins.
const JOINED_ONCE: &str = "a thread is joined once, by its own notifier";

/// What is asked of who is over.
const IN_ORDER: &str = "`finish`, `exit` and `end` come once each, in this order";

static SPAWN: Form = Form {
    on: On::Thread,
    kind: Some(Kind::Joining),
    words: "spawn thread",
    deed: Deed::Makes,
    asks: "",
    waits: None,
    passes: GOES_ON,
    ties: Ties::Nothing,
};

static JOIN: Form =
    other!(Thread, "join thread", JOINED_ONCE, waits "waits for the end of", ties Joins);

static CURRENT: Form = other!(Nothing, "current()", "");

static PARK: Form = other!(Nothing, "park()", "", waits "parked, without a token,", ties Parks);

static UNPARK: Form = other!(Thread, "unpark thread", "there is no such thread", ties Unparks);

static YIELD: Form = other!(Nothing, "yield_now()", "");

static FINISH: Form = other!(Nothing, "finish()", IN_ORDER);

static EXIT: Form = other!(Nothing, "exit()", IN_ORDER);

static END: Form = other!(Nothing, "end()", IN_ORDER);

pub(crate) fn thread_form(op: &ThreadOp<(), ()>, world: &World) -> (usize, &'static Form) {
    match op {
        ThreadOp::Spawn(..) => (world.threads.len(), &SPAWN),
        ThreadOp::Join(thread, _) => (usize::from(*thread), &JOIN),
        ThreadOp::Current => (0, &CURRENT),
        ThreadOp::Park => (0, &PARK),
        ThreadOp::Unpark(thread) => (usize::from(*thread), &UNPARK),
        ThreadOp::Yield => (0, &YIELD),
        ThreadOp::Finish(_) => (0, &FINISH),
        ThreadOp::Exit => (0, &EXIT),
        ThreadOp::End => (0, &END),
    }
}

/// The result that the operation hands over, if it does.
pub(crate) fn thread_data<D, S>(op: &ThreadOp<D, S>) -> Option<&D> {
    match op {
        ThreadOp::Finish(value) => Some(value),
        ThreadOp::Spawn(..)
        | ThreadOp::Join(..)
        | ThreadOp::Current
        | ThreadOp::Park
        | ThreadOp::Unpark(_)
        | ThreadOp::Yield
        | ThreadOp::Exit
        | ThreadOp::End => None,
    }
}
