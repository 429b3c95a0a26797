//! The scripts of the rows about atomics and fences.
ghost use Rattle.std.specs.Prelude.{◌≡◌, map};
ghost use Rattle.loom_examples.specs.Rows.Meanings.{named};
ghost use Rattle.loom_examples.specs.Rows.Table.{fence_rows, flag_rows, function_rows, unsynchronized_rows, update_rows};

use crate::row;
use crate::rows::{Checked, DEFAULTS, ONE_PREEMPTION, Row, TEN_STEPS};
use crate::scripts::step::{END, EXIT, FAIL, Step, Value, YIELD};
use loom_objects::operation::{AtomicOp, Exchange, MutexOp, Request, ThreadOp};
use loom_views::rt::num::Numbers;
use loom_views::rt::num::change::Change::{Add, Max, Min, Nand, Xor};
use std::sync::atomic::Ordering::{Acquire, Relaxed, Release, SeqCst};

/// A number of 64 bits (loom's `tests/atomic_int.rs`).
pub const NUM_A: u64 = 11641914933775430211;

/// Another one (loom's `tests/atomic_int.rs`).
pub const NUM_B: u64 = 13209405719799650717;

/// The 64 bits of -99.
const MINUS_99: u64 = 18446744073709551517;

/// Main asserts what each function of a `u8` replies and leaves.
pub const U8_FUNCTIONS: &[Step] = &[
    Step::Do(0, Request::Atomic(AtomicOp::New(Numbers::U8, 67))),
    Step::Do(0, Request::Atomic(AtomicOp::Update(0, Xor(157), SeqCst))),
    Step::UnlessTo(0, 67, "wrong"),
    Step::Do(1, Request::Atomic(AtomicOp::Load(0, SeqCst))),
    Step::UnlessTo(1, 222, "wrong"),
    Step::Do(0, Request::Atomic(AtomicOp::New(Numbers::U8, 67))),
    Step::Do(0, Request::Atomic(AtomicOp::Update(0, Nand(157), SeqCst))),
    Step::UnlessTo(0, 67, "wrong"),
    Step::Do(1, Request::Atomic(AtomicOp::Load(0, SeqCst))),
    Step::UnlessTo(1, 254, "wrong"),
    Step::Do(0, Request::Atomic(AtomicOp::New(Numbers::U8, 67))),
    Step::Do(0, Request::Atomic(AtomicOp::Update(0, Max(157), SeqCst))),
    Step::UnlessTo(0, 67, "wrong"),
    Step::Do(1, Request::Atomic(AtomicOp::Load(0, SeqCst))),
    Step::UnlessTo(1, 157, "wrong"),
    Step::Do(0, Request::Atomic(AtomicOp::New(Numbers::U8, 67))),
    Step::Do(0, Request::Atomic(AtomicOp::Update(0, Min(157), SeqCst))),
    Step::UnlessTo(0, 67, "wrong"),
    Step::Do(1, Request::Atomic(AtomicOp::Load(0, SeqCst))),
    Step::UnlessTo(1, 67, "wrong"),
    Step::Do(0, Request::Atomic(AtomicOp::New(Numbers::U8, 67))),
    Step::Do(0, Request::Atomic(AtomicOp::Update(0, Add(157), SeqCst))),
    Step::UnlessTo(0, 67, "wrong"),
    Step::Do(1, Request::Atomic(AtomicOp::Load(0, SeqCst))),
    Step::UnlessTo(1, 224, "wrong"),
    Step::Do(0, Request::Atomic(AtomicOp::New(Numbers::U8, 255))),
    Step::Do(0, Request::Atomic(AtomicOp::Update(0, Add(1), SeqCst))),
    Step::UnlessTo(0, 255, "wrong"),
    Step::Do(1, Request::Atomic(AtomicOp::Load(0, SeqCst))),
    Step::UnlessTo(1, 0, "wrong"),
    Step::Do(0, Request::Thread(ThreadOp::Finish(Value::Plain(0)))),
    EXIT,
    END,
    Step::Label("wrong"),
    FAIL,
];

/// Main asserts which of 67 and -99 is the larger `i8`, and which the smaller.
pub const I8_FUNCTIONS: &[Step] = &[
    Step::Do(0, Request::Atomic(AtomicOp::New(Numbers::I8, 67))),
    Step::Do(
        0,
        Request::Atomic(AtomicOp::Update(0, Max(MINUS_99), SeqCst)),
    ),
    Step::UnlessTo(0, 67, "wrong"),
    Step::Do(1, Request::Atomic(AtomicOp::Load(0, SeqCst))),
    Step::UnlessTo(1, 67, "wrong"),
    Step::Do(0, Request::Atomic(AtomicOp::New(Numbers::I8, 67))),
    Step::Do(
        0,
        Request::Atomic(AtomicOp::Update(0, Min(MINUS_99), SeqCst)),
    ),
    Step::UnlessTo(0, 67, "wrong"),
    Step::Do(1, Request::Atomic(AtomicOp::Load(0, SeqCst))),
    Step::UnlessTo(1, MINUS_99, "wrong"),
    Step::Do(0, Request::Thread(ThreadOp::Finish(Value::Plain(0)))),
    EXIT,
    END,
    Step::Label("wrong"),
    FAIL,
];

/// Main asserts that the nand of true and true replies true and leaves false.
pub const BOOL_NAND: &[Step] = &[
    Step::Do(0, Request::Atomic(AtomicOp::New(Numbers::Bool, 1))),
    Step::Do(0, Request::Atomic(AtomicOp::Update(0, Nand(1), SeqCst))),
    Step::UnlessTo(0, 1, "wrong"),
    Step::Do(1, Request::Atomic(AtomicOp::Load(0, SeqCst))),
    Step::UnlessTo(1, 0, "wrong"),
    Step::Do(0, Request::Thread(ThreadOp::Finish(Value::Plain(0)))),
    EXIT,
    END,
    Step::Label("wrong"),
    FAIL,
];

/// Of two exchanges of a number, the first expects another one and fails. Main asserts that, and finishes with what is loaded
/// after the second (loom's `tests/atomic_int.rs`).
pub const COMPARE_EXCHANGE: &[Step] = &[
    Step::Do(0, Request::Atomic(AtomicOp::New(Numbers::U64, NUM_A))),
    Step::Do(0, Request::Atomic(AtomicOp::CompareExchange(0, FAILS))),
    Step::UnlessTo(3, NUM_A, "wrong"),
    Step::Do(1, Request::Atomic(AtomicOp::CompareExchange(0, SUCCEEDS))),
    Step::UnlessTo(1, NUM_A, "wrong"),
    Step::Do(2, Request::Atomic(AtomicOp::Load(0, SeqCst))),
    Step::Do(0, Request::Thread(ThreadOp::Finish(Value::Held(2)))),
    EXIT,
    END,
    Step::Label("wrong"),
    FAIL,
];

const FAILS: Exchange = Exchange {
    expected: NUM_B,
    new: NUM_A,
    success: SeqCst,
    failure: SeqCst,
};

const SUCCEEDS: Exchange = Exchange {
    expected: NUM_A,
    new: NUM_B,
    success: SeqCst,
    failure: SeqCst,
};

/// A thread loads without synchronizing, beside a store of main (loom's `tests/atomic.rs`).
pub const UNSYNC_RACE: &[Step] = &[
    Step::Do(0, Request::Atomic(AtomicOp::New(Numbers::U64, 0))),
    Step::SpawnAt(1, "child"),
    Step::Do(0, Request::Atomic(AtomicOp::Store(0, 1, Relaxed))),
    Step::Do(0, Request::Thread(ThreadOp::Join(1, 1))),
    Step::Do(0, Request::Thread(ThreadOp::Finish(Value::Plain(0)))),
    EXIT,
    END,
    Step::Label("child"),
    Step::Do(0, Request::Atomic(AtomicOp::UnsyncLoad(0))),
    Step::Do(0, Request::Thread(ThreadOp::Finish(Value::Plain(0)))),
    EXIT,
    END,
];

/// Main loads while its own mutation is open.
pub const LOAD_IN_WITH_MUT: &[Step] = &[
    Step::Do(0, Request::Atomic(AtomicOp::New(Numbers::U64, 0))),
    Step::Do(0, Request::Atomic(AtomicOp::WithMut(0))),
    Step::Do(0, Request::Atomic(AtomicOp::Load(0, SeqCst))),
    Step::Do(0, Request::Atomic(AtomicOp::WithMutEnd(0, 0))),
    Step::Do(0, Request::Thread(ThreadOp::Finish(Value::Plain(0)))),
    EXIT,
    END,
];

/// Main makes a relaxed fence, which fails.
pub const RELAXED_FENCE: &[Step] = &[
    Step::Do(0, Request::Fence(Relaxed)),
    Step::Do(0, Request::Thread(ThreadOp::Finish(Value::Plain(0)))),
    EXIT,
    END,
];

/// Main makes as many fences as a thread may raise its version, and then a relaxed one. It counts them in a mutex.
pub const FENCES_THEN_RELAXED: &[Step] = &[
    Step::Do(0, Request::Mutex(MutexOp::New(Value::Plain(0)))),
    Step::Label("again"),
    Step::Do(0, Request::Fence(Release)),
    Step::Do(0, Request::Mutex(MutexOp::GetMut(0))),
    Step::Do(0, Request::Mutex(MutexOp::Put(0, Value::Next(0)))),
    Step::UnlessTo(0, 65_533, "again"),
    Step::Do(0, Request::Fence(Relaxed)),
    Step::Do(0, Request::Thread(ThreadOp::Finish(Value::Plain(0)))),
    EXIT,
    END,
];

/// Main loads without synchronizing, without end.
pub const UNSYNC_LOAD_FOREVER: &[Step] = &[
    Step::Do(0, Request::Atomic(AtomicOp::New(Numbers::U64, 0))),
    Step::Label("again"),
    Step::Do(0, Request::Atomic(AtomicOp::UnsyncLoad(0))),
    Step::JumpTo("again"),
];

/// Two threads set a truth value each, and then load the other's, with a fence between. Main is one of them, and finishes with
/// ten times what the other thread loaded and what it loaded itself (loom's `tests/fence.rs`).
pub const SB_FENCES: &[Step] = &[
    Step::Do(0, Request::Atomic(AtomicOp::New(Numbers::Bool, 0))),
    Step::Do(1, Request::Atomic(AtomicOp::New(Numbers::Bool, 0))),
    Step::SpawnAt(2, "child"),
    Step::Do(0, Request::Atomic(AtomicOp::Store(1, 1, Relaxed))),
    Step::Do(0, Request::Fence(SeqCst)),
    Step::Do(1, Request::Atomic(AtomicOp::Load(0, Relaxed))),
    Step::Do(0, Request::Thread(ThreadOp::Join(2, 2))),
    Step::Do(0, Request::Thread(ThreadOp::Finish(Value::Both(0, 1)))),
    EXIT,
    END,
    Step::Label("child"),
    Step::Do(0, Request::Atomic(AtomicOp::Store(0, 1, Relaxed))),
    Step::Do(0, Request::Fence(SeqCst)),
    Step::Do(0, Request::Atomic(AtomicOp::Load(1, Relaxed))),
    Step::Do(0, Request::Thread(ThreadOp::Finish(Value::Held(0)))),
    EXIT,
    END,
];

/// Two threads add 1 to the same number. Main is one of them, and finishes with ten times what the other thread read and what
/// it read itself (loom's `tests/atomic.rs`).
pub const FETCH_ADD_ATOMIC: &[Step] = &[
    Step::Do(0, Request::Atomic(AtomicOp::New(Numbers::U64, 0))),
    Step::SpawnAt(1, "child"),
    Step::Do(1, Request::Atomic(AtomicOp::Update(0, Add(1), Relaxed))),
    Step::Do(0, Request::Thread(ThreadOp::Join(1, 1))),
    Step::Do(0, Request::Thread(ThreadOp::Finish(Value::Both(0, 1)))),
    EXIT,
    END,
    Step::Label("child"),
    Step::Do(0, Request::Atomic(AtomicOp::Update(0, Add(1), Relaxed))),
    Step::Do(0, Request::Thread(ThreadOp::Finish(Value::Held(0)))),
    EXIT,
    END,
];

/// Main and a thread each store, and each add 1 to what they read. Main loads between the two. It finishes with ten times what it
/// added to and what the other thread added to.
pub const TWO_RMW: &[Step] = &[
    Step::Do(0, Request::Atomic(AtomicOp::New(Numbers::U64, 0))),
    Step::SpawnAt(1, "child"),
    Step::Do(0, Request::Atomic(AtomicOp::Store(0, 10, Relaxed))),
    Step::Do(0, Request::Atomic(AtomicOp::Load(0, Relaxed))),
    Step::Do(0, Request::Atomic(AtomicOp::Update(0, Add(1), Relaxed))),
    Step::Do(1, Request::Thread(ThreadOp::Join(1, 1))),
    Step::Do(0, Request::Thread(ThreadOp::Finish(Value::Both(0, 1)))),
    EXIT,
    END,
    Step::Label("child"),
    Step::Do(0, Request::Atomic(AtomicOp::Store(0, 1, Relaxed))),
    Step::Do(0, Request::Atomic(AtomicOp::Update(0, Add(1), Relaxed))),
    Step::Do(0, Request::Thread(ThreadOp::Finish(Value::Held(0)))),
    EXIT,
    END,
];

/// Three threads whose stores and loads lead to two stores with equal places in loom's modification order.
pub const ORDERS_EQUAL: &[Step] = &[
    Step::Do(0, Request::Atomic(AtomicOp::New(Numbers::U64, 0))),
    Step::SpawnAt(1, "first"),
    Step::Do(0, Request::Atomic(AtomicOp::Store(0, 3, Relaxed))),
    Step::SpawnAt(2, "second"),
    Step::Do(0, Request::Atomic(AtomicOp::Load(0, Relaxed))),
    Step::Do(0, Request::Thread(ThreadOp::Finish(Value::Plain(0)))),
    EXIT,
    END,
    Step::Label("first"),
    Step::Do(0, Request::Atomic(AtomicOp::Store(0, 0, Relaxed))),
    Step::Do(0, Request::Atomic(AtomicOp::Store(0, 0, Relaxed))),
    Step::Do(0, Request::Atomic(AtomicOp::Update(0, Add(1), Relaxed))),
    Step::JumpTo("finish"),
    Step::Label("second"),
    Step::Do(0, Request::Atomic(AtomicOp::Load(0, Relaxed))),
    Step::Do(0, Request::Atomic(AtomicOp::CompareExchange(0, TWO_BY_TWO))),
    Step::Label("finish"),
    Step::Do(0, Request::Thread(ThreadOp::Finish(Value::Plain(0)))),
    EXIT,
    END,
];

const TWO_BY_TWO: Exchange = Exchange {
    expected: 2,
    new: 2,
    success: Relaxed,
    failure: Relaxed,
};

/// Three threads, of which each adds to one atomic twice. Main is one of them, and joins the others.
pub const THREE_ADDS: &[Step] = &[
    Step::Do(0, Request::Atomic(AtomicOp::New(Numbers::U64, 0))),
    Step::SpawnAt(1, "child"),
    Step::SpawnAt(2, "child"),
    Step::Do(0, Request::Atomic(AtomicOp::Update(0, Add(1), Relaxed))),
    Step::Do(0, Request::Atomic(AtomicOp::Update(0, Add(1), Relaxed))),
    Step::Do(0, Request::Thread(ThreadOp::Join(1, 1))),
    Step::Do(0, Request::Thread(ThreadOp::Join(2, 2))),
    Step::JumpTo("finish"),
    Step::Label("child"),
    Step::Do(0, Request::Atomic(AtomicOp::Update(0, Add(1), Relaxed))),
    Step::Do(0, Request::Atomic(AtomicOp::Update(0, Add(1), Relaxed))),
    Step::Label("finish"),
    Step::Do(0, Request::Thread(ThreadOp::Finish(Value::Plain(0)))),
    EXIT,
    END,
];

/// One thread stores to one flag, and another thread to another. Two threads each wait for one of the flags, one for the one
/// and one for the other, and then finish with what they load from the other flag. Main stores to the first flag, joins the
/// two, and finishes with the sum of what they loaded (loom's `tests/spec.rs`).
pub const ACQ_REL: &[Step] = &[
    Step::Do(0, Request::Atomic(AtomicOp::New(Numbers::Bool, 0))),
    Step::Do(1, Request::Atomic(AtomicOp::New(Numbers::Bool, 0))),
    Step::SpawnAt(2, "first"),
    Step::SpawnAt(3, "second"),
    Step::SpawnAt(4, "third"),
    Step::Do(0, Request::Atomic(AtomicOp::Store(0, 1, Release))),
    Step::Do(0, Request::Thread(ThreadOp::Join(3, 3))),
    Step::Do(1, Request::Thread(ThreadOp::Join(4, 4))),
    Step::IfTo(0, 1, "one more"),
    Step::Do(0, Request::Thread(ThreadOp::Finish(Value::Held(1)))),
    Step::JumpTo("exit"),
    Step::Label("one more"),
    Step::Do(0, Request::Thread(ThreadOp::Finish(Value::Next(1)))),
    Step::Label("exit"),
    EXIT,
    END,
    Step::Label("first"),
    Step::Do(0, Request::Atomic(AtomicOp::Store(1, 1, Release))),
    Step::Do(0, Request::Thread(ThreadOp::Finish(Value::Plain(0)))),
    EXIT,
    END,
    Step::Label("second"),
    Step::Do(0, Request::Atomic(AtomicOp::Load(0, Acquire))),
    Step::UnlessTo(0, 1, "second yield"),
    Step::Do(1, Request::Atomic(AtomicOp::Load(1, Acquire))),
    Step::Do(0, Request::Thread(ThreadOp::Finish(Value::Held(1)))),
    Step::JumpTo("exit"),
    Step::Label("second yield"),
    YIELD,
    Step::JumpTo("second"),
    Step::Label("third"),
    Step::Do(0, Request::Atomic(AtomicOp::Load(1, Acquire))),
    Step::UnlessTo(0, 1, "yield"),
    Step::Do(1, Request::Atomic(AtomicOp::Load(0, Acquire))),
    Step::Do(0, Request::Thread(ThreadOp::Finish(Value::Held(1)))),
    Step::JumpTo("exit"),
    Step::Label("yield"),
    YIELD,
    Step::JumpTo("third"),
];

/// Main and a thread each raise a flag, and then wait for the other's without a yield. Main joins the thread.
pub const SPINNERS: &[Step] = &[
    Step::Do(0, Request::Atomic(AtomicOp::New(Numbers::Bool, 0))),
    Step::Do(1, Request::Atomic(AtomicOp::New(Numbers::Bool, 0))),
    Step::SpawnAt(2, "child"),
    Step::Do(0, Request::Atomic(AtomicOp::Store(0, 1, Release))),
    Step::Label("main waits"),
    Step::Do(0, Request::Atomic(AtomicOp::Load(1, Acquire))),
    Step::UnlessTo(0, 1, "main waits"),
    Step::Do(0, Request::Thread(ThreadOp::Join(2, 2))),
    Step::Do(0, Request::Thread(ThreadOp::Finish(Value::Plain(0)))),
    EXIT,
    END,
    Step::Label("child"),
    Step::Do(0, Request::Atomic(AtomicOp::Store(1, 1, Release))),
    Step::Label("child waits"),
    Step::Do(0, Request::Atomic(AtomicOp::Load(0, Acquire))),
    Step::UnlessTo(0, 1, "child waits"),
    Step::Do(0, Request::Thread(ThreadOp::Finish(Value::Plain(0)))),
    EXIT,
    END,
];

/// Main and a thread wait for flags that nobody raises.
pub const SPINNERS_FOREVER: &[Step] = &[
    Step::Do(0, Request::Atomic(AtomicOp::New(Numbers::Bool, 0))),
    Step::Do(1, Request::Atomic(AtomicOp::New(Numbers::Bool, 0))),
    Step::SpawnAt(2, "child"),
    Step::Label("main waits"),
    Step::Do(0, Request::Atomic(AtomicOp::Load(1, Acquire))),
    Step::UnlessTo(0, 1, "main waits"),
    Step::Do(0, Request::Thread(ThreadOp::Join(2, 2))),
    Step::Do(0, Request::Thread(ThreadOp::Finish(Value::Plain(0)))),
    EXIT,
    END,
    Step::Label("child"),
    Step::Do(0, Request::Atomic(AtomicOp::Load(0, Acquire))),
    Step::UnlessTo(0, 1, "child"),
    Step::Do(0, Request::Thread(ThreadOp::Finish(Value::Plain(0)))),
    EXIT,
    END,
];

static FUNCTIONS: [Row; 4] = [
    row!("u8_functions", U8_FUNCTIONS),
    row!("i8_functions", I8_FUNCTIONS),
    row!("bool_nand", BOOL_NAND),
    row!("compare_exchange", COMPARE_EXCHANGE),
];

/// The rows of what atomics are changed by.
pub fn functions() -> &'static [Row]
    ensures { map named result.now ≡ function_rows }
{
    &FUNCTIONS
}

static UNSYNCHRONIZED: [Row; 2] = [
    row!("unsync_race", UNSYNC_RACE),
    row!("load_in_with_mut", LOAD_IN_WITH_MUT),
];

/// The rows of atomics that are accessed beside others.
pub fn unsynchronized() -> &'static [Row]
    ensures { map named result.now ≡ unsynchronized_rows }
{
    &UNSYNCHRONIZED
}

static FENCES: [Row; 4] = [
    row!("relaxed_fence", RELAXED_FENCE),
    row!("fences_then_relaxed", FENCES_THEN_RELAXED),
    row!("unsync_load_forever", UNSYNC_LOAD_FOREVER, TEN_STEPS),
    row!("sb_fences", SB_FENCES),
];

/// The rows of fences, and of loads without end.
pub fn fences() -> &'static [Row]
    ensures { map named result.now ≡ fence_rows }
{
    &FENCES
}

static UPDATES: [Row; 5] = [
    row!("fetch_add_atomic", FETCH_ADD_ATOMIC),
    row!("two_rmw", TWO_RMW),
    row!("orders_equal", ORDERS_EQUAL),
    row!("three_adds", THREE_ADDS),
    Row {
        name: "fetch_update_once",
        checked: Checked::Updater(NUM_A, NUM_B),
        settings: DEFAULTS,
    },
];

/// The rows of threads that update one atomic.
pub fn updates() -> &'static [Row]
    ensures { map named result.now ≡ update_rows }
{
    &UPDATES
}

static FLAGS: [Row; 3] = [
    row!("acq_rel", ACQ_REL, ONE_PREEMPTION),
    row!("spinners", SPINNERS),
    row!("spinners_forever", SPINNERS_FOREVER),
];

/// The rows of threads that wait for flags.
pub fn flags() -> &'static [Row]
    ensures { map named result.now ≡ flag_rows }
{
    &FLAGS
}
