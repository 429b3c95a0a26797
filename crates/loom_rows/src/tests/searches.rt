//! Small bodies with the runs of their searches, each of which tells a search from one that is a little wrong.
use super::finding::{Case, Shows, find};
use loom::sync::atomic::Ordering::Relaxed;
use loom_examples::rows::settings::Settings;
use loom_examples::rows::{Checked, DEFAULTS, Row, WHOLE};
use loom_examples::scripts::step::{END, EXIT, PARK, Step, Value, YIELD};
use loom_objects::operation::{ArcOp, AtomicOp, MutexOp, Request, ThreadOp};
use loom_views::rt::num::Numbers;

const NEW: Step = Step::Do(0, Request::Atomic(AtomicOp::New(Numbers::U64, 0)));

const STORE: Step = Step::Do(0, Request::Atomic(AtomicOp::Store(0, 1, Relaxed)));

const LOAD: Step = Step::Do(0, Request::Atomic(AtomicOp::Load(0, Relaxed)));

const FINISH: Step = Step::Do(0, Request::Thread(ThreadOp::Finish(Value::Plain(7))));

// Main stores beside a thread that stores.
const STORES: &[Step] = &[
    NEW,
    Step::SpawnAt(1, "child"),
    STORE,
    Step::Label("finish"),
    FINISH,
    EXIT,
    END,
    Step::Label("child"),
    STORE,
    Step::JumpTo("finish"),
];

/// Main loads beside a thread that loads.
const LOADS: &[Step] = &[
    NEW,
    Step::SpawnAt(1, "child"),
    LOAD,
    Step::Label("finish"),
    FINISH,
    EXIT,
    END,
    Step::Label("child"),
    LOAD,
    Step::JumpTo("finish"),
];

/// Main stores and then makes a thread that stores, beside one that does nothing but end.
const STORE_THEN_SPAWN: &[Step] = &[
    NEW,
    Step::SpawnAt(1, "first"),
    STORE,
    Step::SpawnAt(2, "second"),
    Step::Label("first"),
    FINISH,
    EXIT,
    END,
    Step::Label("second"),
    STORE,
    Step::JumpTo("first"),
];

/// Main locks and then unparks a thread that locks too, beside one that does nothing but end.
const UNPARK_AFTER_LOCK: &[Step] = &[
    Step::Do(0, Request::Mutex(MutexOp::New(Value::Plain(0)))),
    Step::SpawnAt(1, "second"),
    YIELD,
    Step::SpawnAt(2, "first"),
    Step::Do(0, Request::Mutex(MutexOp::Lock(0))),
    Step::Do(0, Request::Mutex(MutexOp::Release(0, Value::Plain(0)))),
    Step::Do(1, Request::Thread(ThreadOp::Unpark(1))),
    Step::Label("first"),
    FINISH,
    EXIT,
    END,
    Step::Label("second"),
    PARK,
    Step::Do(0, Request::Mutex(MutexOp::Lock(0))),
    Step::Do(0, Request::Mutex(MutexOp::Release(0, Value::Plain(0)))),
    Step::JumpTo("first"),
];

/// Main stores beside a thread that yields and then stores, and one that yields.
const YIELD_THEN_STORE: &[Step] = &[
    NEW,
    Step::SpawnAt(1, "first"),
    Step::SpawnAt(2, "second"),
    STORE,
    Step::Label("finish"),
    FINISH,
    EXIT,
    END,
    Step::Label("first"),
    YIELD,
    STORE,
    Step::JumpTo("finish"),
    Step::Label("second"),
    YIELD,
    Step::JumpTo("finish"),
];

/// Main loads from one atomic and stores into another, beside a thread that stores into that one.
const LOAD_THEN_STORE: &[Step] = &[
    NEW,
    Step::Do(1, Request::Atomic(AtomicOp::New(Numbers::U64, 0))),
    Step::SpawnAt(2, "child"),
    Step::Do(1, Request::Atomic(AtomicOp::Load(1, Relaxed))),
    STORE,
    Step::Label("finish"),
    FINISH,
    EXIT,
    END,
    Step::Label("child"),
    STORE,
    Step::JumpTo("finish"),
];

const MAKE: Step = Step::Do(0, Request::Arc(ArcOp::New(Value::Plain(0))));

const CLONE: Step = Step::Do(0, Request::Arc(ArcOp::Clone(0)));

const DROP: Step = Step::Do(0, Request::Arc(ArcOp::Drop(0)));

/// Main drops two of three counted references, beside a thread that makes one more and drops two.
const CLONES_AND_DROPS: &[Step] = &[
    MAKE,
    CLONE,
    CLONE,
    Step::SpawnAt(1, "child"),
    DROP,
    DROP,
    Step::Label("finish"),
    FINISH,
    EXIT,
    END,
    Step::Label("child"),
    CLONE,
    DROP,
    DROP,
    Step::JumpTo("finish"),
];

/// Main counts two references and drops one, beside such a thread.
const COUNT_AND_DROPS: &[Step] = &[
    MAKE,
    CLONE,
    Step::SpawnAt(1, "child"),
    Step::Do(0, Request::Arc(ArcOp::StrongCount(0))),
    DROP,
    Step::Label("finish"),
    FINISH,
    EXIT,
    END,
    Step::Label("child"),
    CLONE,
    DROP,
    DROP,
    Step::JumpTo("finish"),
];

/// Main and two threads each store.
pub const THREE_STORES: &[Step] = &[
    NEW,
    Step::SpawnAt(1, "child"),
    Step::SpawnAt(2, "child"),
    STORE,
    Step::Label("finish"),
    FINISH,
    EXIT,
    END,
    Step::Label("child"),
    STORE,
    Step::JumpTo("finish"),
];

/// Main joins a thread that stores, and then stores, beside a thread that does nothing but end.
const JOINED: &[Step] = &[
    NEW,
    Step::SpawnAt(1, "second"),
    Step::SpawnAt(2, "first"),
    Step::Do(0, Request::Thread(ThreadOp::Join(1, 1))),
    STORE,
    Step::Label("first"),
    FINISH,
    EXIT,
    END,
    Step::Label("second"),
    STORE,
    Step::JumpTo("first"),
];

static ROWS: [Row; 10] = [
    row!("stores", STORES),
    row!("loads", LOADS),
    row!("store, spawn", STORE_THEN_SPAWN),
    row!("lock, unpark", UNPARK_AFTER_LOCK),
    row!("yield, store", YIELD_THEN_STORE),
    row!("load, store", LOAD_THEN_STORE),
    row!("clones and drops", CLONES_AND_DROPS),
    row!("count and drops", COUNT_AND_DROPS),
    row!("three stores", THREE_STORES),
    row!("joined", JOINED),
];

/// The bodies with their names, but for those that are rows.
pub fn rows() -> &'static [Row] {
    &ROWS
}

// At most so many preemptions.
macro_rules! by {
    ($bound:expr, $settings:expr) => {
        Settings {
            preemption_bound: Some($bound),
            ..$settings
        }
    };
}

const WHOLE_BY_0: Settings = by!(0, WHOLE);

const WHOLE_BY_1: Settings = by!(1, WHOLE);

const WHOLE_BY_2: Settings = by!(2, WHOLE);

const REDUCED_BY_0: Settings = by!(0, DEFAULTS);

const REDUCED_BY_1: Settings = by!(1, DEFAULTS);

const REDUCED_BY_2: Settings = by!(2, DEFAULTS);

static CASES: [Case; 35] = [
    case!(
        "lock_beside",
        WHOLE,
        3,
        "complete 3; t0 t1 t1 t- = 7; t1 t1 t0 t- = 7; t1 t0 t1 t- = 7"
    ),
    case!("lock_beside", WHOLE_BY_0, 1, "complete 1; t0 t1 t1 t- = 7"),
    case!(
        "lock_beside",
        WHOLE_BY_1,
        2,
        "complete 2; t0 t1 t1 t- = 7; t1 t1 t0 t- = 7"
    ),
    case!("lock_beside", DEFAULTS, 1, "complete 1; t0 t1 t1 t- = 7"),
    case!(
        "load_beside",
        DEFAULTS,
        4,
        "complete 4; t0 l0 t1 t1 t1 t- = 0; t1 t1 t1 t0 l0 t- = 0; t1 t1 t1 t0 l1 t- = 1; t1 t0 l0 t1 t1 t- = 0"
    ),
    case!(
        "load_beside",
        REDUCED_BY_0,
        1,
        "complete 1; t0 l0 t1 t1 t1 t- = 0"
    ),
    case!(
        "load_beside",
        REDUCED_BY_1,
        3,
        "complete 3; t0 l0 t1 t1 t1 t- = 0; t1 t1 t1 t0 l0 t- = 0; t1 t1 t1 t0 l1 t- = 1"
    ),
    case!("stores", WHOLE, 0, "complete 4"),
    case!(
        "stores",
        DEFAULTS,
        3,
        "complete 3; t0 t1 t1 t1 t- = 7; t1 t1 t1 t0 t- = 7; t1 t0 t1 t1 t- = 7"
    ),
    case!("stores", REDUCED_BY_0, 1, "complete 1; t0 t1 t1 t1 t- = 7"),
    case!(
        "stores",
        REDUCED_BY_1,
        2,
        "complete 2; t0 t1 t1 t1 t- = 7; t1 t1 t1 t0 t- = 7"
    ),
    case!("loads", WHOLE, 0, "complete 4"),
    case!("loads", DEFAULTS, 1, "complete 1; t0 l0 t1 t1 l0 t1 t- = 7"),
    case!("store, spawn", WHOLE, 0, "complete 15"),
    case!(
        "store, spawn",
        DEFAULTS,
        1,
        "complete 1; t0 t1 t1 t2 t2 t2 t- = 7"
    ),
    case!("lock, unpark", WHOLE, 0, "complete 15"),
    case!(
        "lock, unpark",
        DEFAULTS,
        2,
        "complete 2; t1 t0 t0 t1 t1 t1 t2 t2 t- = 7; t1 t0 t2 t2 t0 t1 t1 t1 t- = 7"
    ),
    case!("yield, store", WHOLE, 0, "complete 97"),
    case!(
        "yield, store",
        DEFAULTS,
        2,
        "complete 2; t0 t1 t2 t1 t1 t1 t2 t2 t- = 7; t1 t0 t2 t1 t1 t1 t2 t2 t- = 7"
    ),
    case!("load, store", WHOLE, 0, "complete 10"),
    case!(
        "load, store",
        DEFAULTS,
        3,
        "complete 3; t0 l0 t0 t1 t1 t1 t- = 7; t0 l0 t1 t1 t1 t0 t- = 7; t0 l0 t1 t0 t1 t1 t- = 7"
    ),
    case!("load, store", WHOLE_BY_1, 0, "complete 3"),
    case!(
        "load, store",
        REDUCED_BY_1,
        3,
        "complete 3; t0 l0 t0 t1 t1 t1 t- = 7; t0 l0 t1 t1 t1 t0 t- = 7; t1 t1 t1 t0 l0 t0 t- = 7"
    ),
    case!("load, store", REDUCED_BY_2, 0, "complete 5"),
    case!("clones and drops", WHOLE, 0, "complete 21"),
    case!(
        "clones and drops",
        DEFAULTS,
        4,
        "complete 10; t0 t0 t0 t0 t1 t1 t1 t1 t1 t- = 7; t0 t0 t0 t1 t1 t1 t1 t1 t0 t- = 7; t0 t0 t0 t1 t1 t1 t0 t1 t1 t- = 7; t0 t0 t0 t1 t1 t0 t1 t1 t1 t- = 7"
    ),
    case!("count and drops", DEFAULTS, 0, "complete 14"),
    case!("three stores", WHOLE, 0, "complete 140"),
    case!("three stores", DEFAULTS, 0, "complete 26"),
    case!("three stores", WHOLE_BY_1, 0, "complete 8"),
    case!(
        "three stores",
        REDUCED_BY_1,
        6,
        "complete 6; t0 t1 t1 t1 t2 t2 t2 t- = 7; t0 t1 t2 t2 t2 t1 t1 t- = 7; t0 t2 t2 t2 t1 t1 t1 t- = 7; t0 t2 t1 t1 t1 t2 t2 t- = 7; t1 t1 t1 t0 t2 t2 t2 t- = 7; t2 t2 t2 t0 t1 t1 t1 t- = 7"
    ),
    case!("three stores", REDUCED_BY_2, 0, "complete 16"),
    case!("joined", WHOLE, 0, "complete 21"),
    case!(
        "joined",
        DEFAULTS,
        2,
        "complete 2; t1 t1 t1 t0 t0 t2 t2 t- = 7; t1 t1 t2 t2 t1 t0 t0 t- = 7"
    ),
    case!("joined", REDUCED_BY_1, 0, "complete 3"),
];

// A deadlock comes after three runs.
static CROSSWISE: [Case; 1] = [case!(
    "two_mutexes_deadlock",
    DEFAULTS,
    3,
    "failed 2 3 t1 t1 t2 t2 t-; t1 t1 t1 t1 t0 t2 t2 t2 t2 t0 t- = 0; t1 t1 t1 t2 t2 t2 t2 t1 t0 t0 t- = 0; t1 t1 t1 t2 t2 t2 t1 t0 t2 t0 t- = 0"
)];

// Bounds leave few runs. Of two threads that wait for a flag each, none may see the other flag, one of them, or both.
static BOUNDED: [Case; 6] = [
    case!("three_adds", WHOLE_BY_1, 0, "complete 16"),
    case!("three_adds", WHOLE_BY_2, 0, "complete 84"),
    case!("three_adds", REDUCED_BY_1, 0, "complete 12"),
    case!("three_adds", REDUCED_BY_2, 0, "complete 68"),
    case!("acq_rel", REDUCED_BY_1, 0, "complete 412"),
    results!("acq_rel", REDUCED_BY_1, "complete; 0; 1; 2"),
];

#[test]
fn searches_make_these_runs(rt: HostRuntime) {
    find(&rt, &CASES);
    find(&rt, &CROSSWISE);
    find(&rt, &BOUNDED);
}
