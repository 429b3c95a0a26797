//! The scripts of the rows about cells, counted references and tracked values.
ghost use Rattle.std.specs.Prelude.{◌≡◌, map};
ghost use Rattle.loom_examples.specs.Rows.Meanings.{named};
ghost use Rattle.loom_examples.specs.Rows.Table.{causality_rows, main_alone_rows, read_race_rows, synchronized_rows, thread_race_rows, turn_rows, write_race_rows};

use crate::row;
use crate::rows::Row;
use crate::scripts::step::{END, EXIT, FAIL, Step, Value};
use loom_objects::operation::{ArcOp, AtomicOp, CellOp, Request, ThreadOp, TrackOp};
use loom_views::rt::num::Numbers;
use std::sync::atomic::Ordering::{Acquire, Release};

/// A thread writes a cell and releases that by an atomic. Main reads the cell where it acquires that, before and after it joins
/// the thread, and asserts what it reads (loom's `tests/unsafe_cell.rs`).
pub const ATOMIC_CAUSALITY_SUCCESS: &[Step] = &[
    Step::Do(0, Request::Cell(CellOp::New(Value::Plain(0)))),
    Step::Do(1, Request::Atomic(AtomicOp::New(Numbers::U64, 0))),
    Step::SpawnAt(2, "child"),
    Step::Do(0, Request::Atomic(AtomicOp::Load(1, Acquire))),
    Step::UnlessTo(0, 1, "join"),
    Step::Do(1, Request::Cell(CellOp::Read(0))),
    Step::UnlessTo(1, 123, "wrong"),
    Step::Do(0, Request::Cell(CellOp::ReadEnd(0))),
    Step::Label("join"),
    Step::Do(2, Request::Thread(ThreadOp::Join(2, 2))),
    Step::Do(0, Request::Atomic(AtomicOp::Load(1, Acquire))),
    Step::UnlessTo(0, 1, "finish"),
    Step::Do(1, Request::Cell(CellOp::Read(0))),
    Step::UnlessTo(1, 123, "wrong"),
    Step::Do(0, Request::Cell(CellOp::ReadEnd(0))),
    Step::Label("finish"),
    Step::Do(0, Request::Thread(ThreadOp::Finish(Value::Plain(0)))),
    EXIT,
    END,
    Step::Label("wrong"),
    FAIL,
    Step::Label("child"),
    Step::Do(0, Request::Cell(CellOp::Write(0))),
    Step::Do(0, Request::Cell(CellOp::WriteEnd(0, Value::Plain(123)))),
    Step::Do(0, Request::Atomic(AtomicOp::Store(1, 1, Release))),
    Step::Do(0, Request::Thread(ThreadOp::Finish(Value::Plain(0)))),
    EXIT,
    END,
];

/// The one before, but main reads the cell without looking at the atomic (loom's `tests/unsafe_cell.rs`).
pub const ATOMIC_CAUSALITY_FAIL: &[Step] = &[
    Step::Do(0, Request::Cell(CellOp::New(Value::Plain(0)))),
    Step::Do(1, Request::Atomic(AtomicOp::New(Numbers::U64, 0))),
    Step::SpawnAt(2, "child"),
    Step::Do(1, Request::Cell(CellOp::Read(0))),
    Step::UnlessTo(1, 123, "wrong"),
    Step::Do(0, Request::Cell(CellOp::ReadEnd(0))),
    Step::Do(2, Request::Thread(ThreadOp::Join(2, 2))),
    Step::Do(1, Request::Cell(CellOp::Read(0))),
    Step::UnlessTo(1, 123, "wrong"),
    Step::Do(0, Request::Cell(CellOp::ReadEnd(0))),
    Step::Do(0, Request::Thread(ThreadOp::Finish(Value::Plain(0)))),
    EXIT,
    END,
    Step::Label("wrong"),
    FAIL,
    Step::Label("child"),
    Step::Do(0, Request::Cell(CellOp::Write(0))),
    Step::Do(0, Request::Cell(CellOp::WriteEnd(0, Value::Plain(123)))),
    Step::Do(0, Request::Atomic(AtomicOp::Store(1, 1, Release))),
    Step::Do(0, Request::Thread(ThreadOp::Finish(Value::Plain(0)))),
    EXIT,
    END,
];

/// Main and a thread both write a cell (loom's `tests/unsafe_cell.rs`).
pub const UNSAFE_CELL_RACE_MUT_MUT_1: &[Step] = &[
    Step::Do(0, Request::Cell(CellOp::New(Value::Plain(1)))),
    Step::SpawnAt(1, "child"),
    Step::Do(0, Request::Cell(CellOp::Write(0))),
    Step::Do(0, Request::Cell(CellOp::WriteEnd(0, Value::Next(0)))),
    Step::Do(1, Request::Thread(ThreadOp::Join(1, 1))),
    Step::Do(0, Request::Cell(CellOp::Write(0))),
    Step::Do(0, Request::Cell(CellOp::WriteEnd(0, Value::Next(0)))),
    Step::UnlessTo(0, 3, "wrong"),
    Step::Do(0, Request::Thread(ThreadOp::Finish(Value::Plain(0)))),
    EXIT,
    END,
    Step::Label("wrong"),
    FAIL,
    Step::Label("child"),
    Step::Do(0, Request::Cell(CellOp::Write(0))),
    Step::Do(0, Request::Cell(CellOp::WriteEnd(0, Value::Next(0)))),
    Step::Do(0, Request::Thread(ThreadOp::Finish(Value::Plain(0)))),
    EXIT,
    END,
];

/// Two threads both write a cell (loom's `tests/unsafe_cell.rs`).
pub const UNSAFE_CELL_RACE_MUT_MUT_2: &[Step] = &[
    Step::Do(0, Request::Cell(CellOp::New(Value::Plain(1)))),
    Step::SpawnAt(1, "child"),
    Step::SpawnAt(2, "child"),
    Step::Do(1, Request::Thread(ThreadOp::Join(1, 1))),
    Step::Do(1, Request::Thread(ThreadOp::Join(2, 2))),
    Step::Do(0, Request::Cell(CellOp::Write(0))),
    Step::Do(0, Request::Cell(CellOp::WriteEnd(0, Value::Next(0)))),
    Step::UnlessTo(0, 3, "wrong"),
    Step::Do(0, Request::Thread(ThreadOp::Finish(Value::Plain(0)))),
    EXIT,
    END,
    Step::Label("wrong"),
    FAIL,
    Step::Label("child"),
    Step::Do(0, Request::Cell(CellOp::Write(0))),
    Step::Do(0, Request::Cell(CellOp::WriteEnd(0, Value::Next(0)))),
    Step::Do(0, Request::Thread(ThreadOp::Finish(Value::Plain(0)))),
    EXIT,
    END,
];

/// A thread writes a cell that main reads (loom's `tests/unsafe_cell.rs`).
pub const UNSAFE_CELL_RACE_MUT_IMMUT_1: &[Step] = &[
    Step::Do(0, Request::Cell(CellOp::New(Value::Plain(1)))),
    Step::SpawnAt(1, "child"),
    Step::Do(0, Request::Cell(CellOp::Read(0))),
    Step::Do(0, Request::Cell(CellOp::ReadEnd(0))),
    Step::Do(1, Request::Thread(ThreadOp::Join(1, 1))),
    Step::Do(0, Request::Cell(CellOp::Write(0))),
    Step::Do(0, Request::Cell(CellOp::WriteEnd(0, Value::Next(0)))),
    Step::UnlessTo(0, 2, "wrong"),
    Step::Do(0, Request::Thread(ThreadOp::Finish(Value::Plain(0)))),
    EXIT,
    END,
    Step::Label("wrong"),
    FAIL,
    Step::Label("child"),
    Step::Do(0, Request::Cell(CellOp::Write(0))),
    Step::Do(0, Request::Cell(CellOp::WriteEnd(0, Value::Next(0)))),
    Step::UnlessTo(0, 1, "wrong"),
    Step::Do(0, Request::Thread(ThreadOp::Finish(Value::Plain(0)))),
    EXIT,
    END,
];

/// A thread reads a cell that main writes (loom's `tests/unsafe_cell.rs`).
pub const UNSAFE_CELL_RACE_MUT_IMMUT_2: &[Step] = &[
    Step::Do(0, Request::Cell(CellOp::New(Value::Plain(1)))),
    Step::SpawnAt(1, "child"),
    Step::Do(0, Request::Cell(CellOp::Write(0))),
    Step::Do(0, Request::Cell(CellOp::WriteEnd(0, Value::Next(0)))),
    Step::UnlessTo(0, 1, "wrong"),
    Step::Do(1, Request::Thread(ThreadOp::Join(1, 1))),
    Step::Do(0, Request::Cell(CellOp::Write(0))),
    Step::Do(0, Request::Cell(CellOp::WriteEnd(0, Value::Next(0)))),
    Step::UnlessTo(0, 2, "wrong"),
    Step::Do(0, Request::Thread(ThreadOp::Finish(Value::Plain(0)))),
    EXIT,
    END,
    Step::Label("wrong"),
    FAIL,
    Step::Label("child"),
    Step::Do(0, Request::Cell(CellOp::Read(0))),
    Step::Do(0, Request::Cell(CellOp::ReadEnd(0))),
    Step::Do(0, Request::Thread(ThreadOp::Finish(Value::Plain(0)))),
    EXIT,
    END,
];

/// The first of two threads writes a cell that the second one reads (loom's `tests/unsafe_cell.rs`).
pub const UNSAFE_CELL_RACE_MUT_IMMUT_3: &[Step] = &[
    Step::Do(0, Request::Cell(CellOp::New(Value::Plain(1)))),
    Step::SpawnAt(1, "first"),
    Step::SpawnAt(2, "second"),
    Step::Do(1, Request::Thread(ThreadOp::Join(1, 1))),
    Step::Do(1, Request::Thread(ThreadOp::Join(2, 2))),
    Step::Do(0, Request::Cell(CellOp::Write(0))),
    Step::Do(0, Request::Cell(CellOp::WriteEnd(0, Value::Next(0)))),
    Step::UnlessTo(0, 2, "wrong"),
    Step::Do(0, Request::Thread(ThreadOp::Finish(Value::Plain(0)))),
    EXIT,
    END,
    Step::Label("wrong"),
    FAIL,
    Step::Label("first"),
    Step::Do(0, Request::Cell(CellOp::Write(0))),
    Step::Do(0, Request::Cell(CellOp::WriteEnd(0, Value::Next(0)))),
    Step::UnlessTo(0, 1, "wrong"),
    Step::Do(0, Request::Thread(ThreadOp::Finish(Value::Plain(0)))),
    EXIT,
    END,
    Step::Label("second"),
    Step::Do(0, Request::Cell(CellOp::Read(0))),
    Step::Do(0, Request::Cell(CellOp::ReadEnd(0))),
    Step::Do(0, Request::Thread(ThreadOp::Finish(Value::Plain(0)))),
    EXIT,
    END,
];

/// The second of two threads writes a cell that the first one reads (loom's `tests/unsafe_cell.rs`).
pub const UNSAFE_CELL_RACE_MUT_IMMUT_4: &[Step] = &[
    Step::Do(0, Request::Cell(CellOp::New(Value::Plain(1)))),
    Step::SpawnAt(1, "first"),
    Step::SpawnAt(2, "second"),
    Step::Do(1, Request::Thread(ThreadOp::Join(1, 1))),
    Step::Do(1, Request::Thread(ThreadOp::Join(2, 2))),
    Step::Do(0, Request::Cell(CellOp::Write(0))),
    Step::Do(0, Request::Cell(CellOp::WriteEnd(0, Value::Next(0)))),
    Step::UnlessTo(0, 2, "wrong"),
    Step::Do(0, Request::Thread(ThreadOp::Finish(Value::Plain(0)))),
    EXIT,
    END,
    Step::Label("wrong"),
    FAIL,
    Step::Label("first"),
    Step::Do(0, Request::Cell(CellOp::Read(0))),
    Step::Do(0, Request::Cell(CellOp::ReadEnd(0))),
    Step::Do(0, Request::Thread(ThreadOp::Finish(Value::Plain(0)))),
    EXIT,
    END,
    Step::Label("second"),
    Step::Do(0, Request::Cell(CellOp::Write(0))),
    Step::Do(0, Request::Cell(CellOp::WriteEnd(0, Value::Next(0)))),
    Step::UnlessTo(0, 1, "wrong"),
    Step::Do(0, Request::Thread(ThreadOp::Finish(Value::Plain(0)))),
    EXIT,
    END,
];

/// The one before, where the second one reads it before it writes (loom's `tests/unsafe_cell.rs`).
pub const UNSAFE_CELL_RACE_MUT_IMMUT_5: &[Step] = &[
    Step::Do(0, Request::Cell(CellOp::New(Value::Plain(1)))),
    Step::SpawnAt(1, "first"),
    Step::SpawnAt(2, "second"),
    Step::Do(1, Request::Thread(ThreadOp::Join(1, 1))),
    Step::Do(1, Request::Thread(ThreadOp::Join(2, 2))),
    Step::Do(0, Request::Cell(CellOp::Write(0))),
    Step::Do(0, Request::Cell(CellOp::WriteEnd(0, Value::Next(0)))),
    Step::UnlessTo(0, 2, "wrong"),
    Step::Do(0, Request::Thread(ThreadOp::Finish(Value::Plain(0)))),
    EXIT,
    END,
    Step::Label("wrong"),
    FAIL,
    Step::Label("first"),
    Step::Do(0, Request::Cell(CellOp::Read(0))),
    Step::Do(0, Request::Cell(CellOp::ReadEnd(0))),
    Step::Do(0, Request::Thread(ThreadOp::Finish(Value::Plain(0)))),
    EXIT,
    END,
    Step::Label("second"),
    Step::Do(0, Request::Cell(CellOp::Read(0))),
    Step::Do(0, Request::Cell(CellOp::ReadEnd(0))),
    Step::UnlessTo(0, 1, "wrong"),
    Step::Do(0, Request::Cell(CellOp::Write(0))),
    Step::Do(0, Request::Cell(CellOp::WriteEnd(0, Value::Next(0)))),
    Step::UnlessTo(0, 1, "wrong"),
    Step::Do(0, Request::Thread(ThreadOp::Finish(Value::Plain(0)))),
    EXIT,
    END,
];

/// Main writes a cell, then a thread, which it joins, and then main again (loom's `tests/unsafe_cell.rs`).
pub const UNSAFE_CELL_OK_1: &[Step] = &[
    Step::Do(0, Request::Cell(CellOp::New(Value::Plain(1)))),
    Step::Do(0, Request::Cell(CellOp::Write(0))),
    Step::Do(0, Request::Cell(CellOp::WriteEnd(0, Value::Next(0)))),
    Step::UnlessTo(0, 1, "wrong"),
    Step::SpawnAt(1, "child"),
    Step::Do(1, Request::Thread(ThreadOp::Join(1, 1))),
    Step::Do(0, Request::Cell(CellOp::Write(0))),
    Step::Do(0, Request::Cell(CellOp::WriteEnd(0, Value::Next(0)))),
    Step::UnlessTo(0, 3, "wrong"),
    Step::Do(0, Request::Thread(ThreadOp::Finish(Value::Plain(0)))),
    EXIT,
    END,
    Step::Label("wrong"),
    FAIL,
    Step::Label("child"),
    Step::Do(0, Request::Cell(CellOp::Write(0))),
    Step::Do(0, Request::Cell(CellOp::WriteEnd(0, Value::Next(0)))),
    Step::UnlessTo(0, 2, "wrong"),
    Step::Do(0, Request::Thread(ThreadOp::Finish(Value::Plain(0)))),
    EXIT,
    END,
];

/// The one before, where each of them reads the cell first (loom's `tests/unsafe_cell.rs`).
pub const UNSAFE_CELL_OK_2: &[Step] = &[
    Step::Do(0, Request::Cell(CellOp::New(Value::Plain(1)))),
    Step::Do(0, Request::Cell(CellOp::Read(0))),
    Step::Do(0, Request::Cell(CellOp::ReadEnd(0))),
    Step::UnlessTo(0, 1, "wrong"),
    Step::Do(0, Request::Cell(CellOp::Write(0))),
    Step::Do(0, Request::Cell(CellOp::WriteEnd(0, Value::Next(0)))),
    Step::UnlessTo(0, 1, "wrong"),
    Step::SpawnAt(1, "child"),
    Step::Do(1, Request::Thread(ThreadOp::Join(1, 1))),
    Step::Do(0, Request::Cell(CellOp::Read(0))),
    Step::Do(0, Request::Cell(CellOp::ReadEnd(0))),
    Step::UnlessTo(0, 3, "wrong"),
    Step::Do(0, Request::Cell(CellOp::Write(0))),
    Step::Do(0, Request::Cell(CellOp::WriteEnd(0, Value::Next(0)))),
    Step::UnlessTo(0, 3, "wrong"),
    Step::Do(0, Request::Thread(ThreadOp::Finish(Value::Plain(0)))),
    EXIT,
    END,
    Step::Label("wrong"),
    FAIL,
    Step::Label("child"),
    Step::Do(0, Request::Cell(CellOp::Read(0))),
    Step::Do(0, Request::Cell(CellOp::ReadEnd(0))),
    Step::UnlessTo(0, 2, "wrong"),
    Step::Do(0, Request::Cell(CellOp::Write(0))),
    Step::Do(0, Request::Cell(CellOp::WriteEnd(0, Value::Next(0)))),
    Step::UnlessTo(0, 2, "wrong"),
    Step::Do(0, Request::Thread(ThreadOp::Finish(Value::Plain(0)))),
    EXIT,
    END,
];

/// Main, a thread and a thread of that one read a cell. Main writes it after they were joined (loom's `tests/unsafe_cell.rs`).
pub const UNSAFE_CELL_OK_3: &[Step] = &[
    Step::Do(0, Request::Cell(CellOp::New(Value::Plain(1)))),
    Step::SpawnAt(1, "first"),
    Step::Do(0, Request::Cell(CellOp::Read(0))),
    Step::Do(0, Request::Cell(CellOp::ReadEnd(0))),
    Step::UnlessTo(0, 1, "wrong"),
    Step::Do(1, Request::Thread(ThreadOp::Join(1, 1))),
    Step::Do(0, Request::Cell(CellOp::Write(0))),
    Step::Do(0, Request::Cell(CellOp::WriteEnd(0, Value::Next(0)))),
    Step::UnlessTo(0, 1, "wrong"),
    Step::Do(0, Request::Thread(ThreadOp::Finish(Value::Plain(0)))),
    EXIT,
    END,
    Step::Label("wrong"),
    FAIL,
    Step::Label("first"),
    Step::Do(0, Request::Cell(CellOp::Read(0))),
    Step::Do(0, Request::Cell(CellOp::ReadEnd(0))),
    Step::UnlessTo(0, 1, "wrong"),
    Step::SpawnAt(1, "second"),
    Step::Do(0, Request::Cell(CellOp::Read(0))),
    Step::Do(0, Request::Cell(CellOp::ReadEnd(0))),
    Step::UnlessTo(0, 1, "wrong"),
    Step::Do(1, Request::Thread(ThreadOp::Join(1, 1))),
    Step::Do(0, Request::Thread(ThreadOp::Finish(Value::Plain(0)))),
    EXIT,
    END,
    Step::Label("second"),
    Step::Do(0, Request::Cell(CellOp::Read(0))),
    Step::Do(0, Request::Cell(CellOp::ReadEnd(0))),
    Step::UnlessTo(0, 1, "wrong"),
    Step::Do(0, Request::Thread(ThreadOp::Finish(Value::Plain(0)))),
    EXIT,
    END,
];

/// A thread writes a cell after it released an atomic. Main writes the cell where it acquires that (loom's `tests/unsafe_cell.rs`).
pub const UNSAFE_CELL_ACCESS_AFTER_SYNC: &[Step] = &[
    Step::Do(0, Request::Atomic(AtomicOp::New(Numbers::U64, 0))),
    Step::Do(1, Request::Cell(CellOp::New(Value::Plain(0)))),
    Step::SpawnAt(2, "child"),
    Step::Do(0, Request::Atomic(AtomicOp::Load(0, Acquire))),
    Step::UnlessTo(0, 1, "finish"),
    Step::Do(1, Request::Cell(CellOp::Write(1))),
    Step::Do(0, Request::Cell(CellOp::WriteEnd(1, Value::Plain(2)))),
    Step::Label("finish"),
    Step::Do(0, Request::Thread(ThreadOp::Finish(Value::Plain(0)))),
    EXIT,
    END,
    Step::Label("child"),
    Step::Do(0, Request::Atomic(AtomicOp::Store(0, 1, Release))),
    Step::Do(1, Request::Cell(CellOp::Write(1))),
    Step::Do(0, Request::Cell(CellOp::WriteEnd(1, Value::Plain(1)))),
    Step::Do(0, Request::Thread(ThreadOp::Finish(Value::Plain(0)))),
    EXIT,
    END,
];

/// Main reads a cell while it writes it.
pub const READ_IN_WRITE: &[Step] = &[
    Step::Do(0, Request::Cell(CellOp::New(Value::Plain(0)))),
    Step::Do(0, Request::Cell(CellOp::Write(0))),
    Step::Do(0, Request::Cell(CellOp::Read(0))),
    Step::Do(0, Request::Cell(CellOp::ReadEnd(0))),
    Step::Do(0, Request::Cell(CellOp::WriteEnd(0, Value::Plain(1)))),
    Step::Do(0, Request::Thread(ThreadOp::Finish(Value::Plain(0)))),
    EXIT,
    END,
];

/// Main makes a counted reference and doesn't drop it (loom's `tests/arc.rs`).
pub const DETECT_MEM_LEAK: &[Step] = &[
    Step::Do(0, Request::Arc(ArcOp::New(Value::Plain(0)))),
    Step::Do(0, Request::Thread(ThreadOp::Finish(Value::Plain(0)))),
    EXIT,
    END,
];

/// Main makes a counted reference and clones it, asserts that there are two, and drops both. It finishes with the value.
pub const ARC_COUNT: &[Step] = &[
    Step::Do(0, Request::Arc(ArcOp::New(Value::Plain(7)))),
    Step::Do(0, Request::Arc(ArcOp::Clone(0))),
    Step::Do(0, Request::Arc(ArcOp::StrongCount(0))),
    Step::UnlessTo(0, 2, "wrong"),
    Step::Do(1, Request::Arc(ArcOp::Drop(0))),
    Step::Do(1, Request::Arc(ArcOp::Drop(0))),
    Step::Do(0, Request::Thread(ThreadOp::Finish(Value::Held(1)))),
    EXIT,
    END,
    Step::Label("wrong"),
    FAIL,
];

/// Main makes a counted reference, takes it apart, and finishes with the value.
pub const ARC_UNWRAP: &[Step] = &[
    Step::Do(0, Request::Arc(ArcOp::New(Value::Plain(7)))),
    Step::Do(0, Request::Arc(ArcOp::TryUnwrap(0))),
    Step::Do(0, Request::Thread(ThreadOp::Finish(Value::Held(0)))),
    EXIT,
    END,
];

/// Main makes a tracked value and then a counted reference, and drops neither.
pub const TRACK_THEN_ARC: &[Step] = &[
    Step::Do(0, Request::Track(TrackOp::New(Value::Plain(0)))),
    Step::Do(1, Request::Arc(ArcOp::New(Value::Plain(0)))),
    Step::Do(0, Request::Thread(ThreadOp::Finish(Value::Plain(0)))),
    EXIT,
    END,
];

/// Main makes a counted reference and then a tracked value, and drops neither.
pub const ARC_THEN_TRACK: &[Step] = &[
    Step::Do(0, Request::Arc(ArcOp::New(Value::Plain(0)))),
    Step::Do(1, Request::Track(TrackOp::New(Value::Plain(0)))),
    Step::Do(0, Request::Thread(ThreadOp::Finish(Value::Plain(0)))),
    EXIT,
    END,
];

static CAUSALITY: [Row; 2] = [
    row!("atomic_causality_success", ATOMIC_CAUSALITY_SUCCESS),
    row!("atomic_causality_fail", ATOMIC_CAUSALITY_FAIL),
];

/// The rows of a cell that an atomic releases.
pub fn causality() -> &'static [Row]
    ensures { map named result.now ≡ causality_rows }
{
    &CAUSALITY
}

static WRITES_AT_ONCE: [Row; 2] = [
    row!("unsafe_cell_race_mut_mut_1", UNSAFE_CELL_RACE_MUT_MUT_1),
    row!("unsafe_cell_race_mut_mut_2", UNSAFE_CELL_RACE_MUT_MUT_2),
];

/// The rows of two threads that write a cell.
pub fn writes_at_once() -> &'static [Row]
    ensures { map named result.now ≡ write_race_rows }
{
    &WRITES_AT_ONCE
}

static READS_AT_ONCE: [Row; 2] = [
    row!("unsafe_cell_race_mut_immut_1", UNSAFE_CELL_RACE_MUT_IMMUT_1),
    row!("unsafe_cell_race_mut_immut_2", UNSAFE_CELL_RACE_MUT_IMMUT_2),
];

/// The rows of main and a thread, of which one writes a cell that the other reads.
pub fn reads_at_once() -> &'static [Row]
    ensures { map named result.now ≡ read_race_rows }
{
    &READS_AT_ONCE
}

static READS_OF_THREADS: [Row; 3] = [
    row!("unsafe_cell_race_mut_immut_3", UNSAFE_CELL_RACE_MUT_IMMUT_3),
    row!("unsafe_cell_race_mut_immut_4", UNSAFE_CELL_RACE_MUT_IMMUT_4),
    row!("unsafe_cell_race_mut_immut_5", UNSAFE_CELL_RACE_MUT_IMMUT_5),
];

/// The rows of two threads, of which one writes a cell that the other reads.
pub fn reads_of_threads() -> &'static [Row]
    ensures { map named result.now ≡ thread_race_rows }
{
    &READS_OF_THREADS
}

static TURNS: [Row; 2] = [
    row!("unsafe_cell_ok_1", UNSAFE_CELL_OK_1),
    row!("unsafe_cell_ok_2", UNSAFE_CELL_OK_2),
];

/// The rows of main and a thread that access a cell in turn.
pub fn turns() -> &'static [Row]
    ensures { map named result.now ≡ turn_rows }
{
    &TURNS
}

static SYNCHRONIZED: [Row; 2] = [
    row!("unsafe_cell_ok_3", UNSAFE_CELL_OK_3),
    row!(
        "unsafe_cell_access_after_sync",
        UNSAFE_CELL_ACCESS_AFTER_SYNC
    ),
];

/// The rows of a cell that main writes after others.
pub fn synchronized() -> &'static [Row]
    ensures { map named result.now ≡ synchronized_rows }
{
    &SYNCHRONIZED
}

static MAIN_ALONE: [Row; 6] = [
    row!("read_in_write", READ_IN_WRITE),
    row!("detect_mem_leak", DETECT_MEM_LEAK),
    row!("arc_count", ARC_COUNT),
    row!("arc_unwrap", ARC_UNWRAP),
    row!("track_then_arc", TRACK_THEN_ARC),
    row!("arc_then_track", ARC_THEN_TRACK),
];

/// The rows of main alone, with a cell or with counted references and tracked values.
pub fn main_alone() -> &'static [Row]
    ensures { map named result.now ≡ main_alone_rows }
{
    &MAIN_ALONE
}
