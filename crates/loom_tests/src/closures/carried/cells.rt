//! Loom's `tests/unsafe_cell.rs`: accesses to a cell that are in order, and races.
use crate::closures::carried::children::{Child, start};
use crate::closures::carried::{self, Test, are_found};
use crate::closures::finding::Wanted::{Complete, Fails};
use crate::closures::{ONE, SLOT_1, TWO, ZERO};
use loom::FailureKind;
use loom::cell::UnsafeCell;
use loom::runner::{Handle, Host, Stop};
use loom::sync::atomic::AtomicU64;
use loom::sync::atomic::Ordering::{Acquire, Release};
use std::sync::Wait;
use std::test::Fail;
use std::thread::Threads;

/// What a thread does with a cell.
#[derive(Clone, Copy)]
pub(crate) enum Access {
    /// Adds one to what it holds.
    Inc,
    /// Adds one, and asserts what it holds then.
    IncTo(u64),
    /// Reads it.
    Get,
    /// Reads it, and asserts what it holds.
    GetOf(u64),
    /// Reads it, asserts what it holds, and adds one.
    GetAndInc(u64),
}

impl Access {
    /// Answers what the cell holds then.
    pub(super) fn play<R: Wait>(
        self,
        handle: &mut Handle<u64, R>,
        cell: &UnsafeCell,
    ) -> Result<u64, Stop> {
        match self {
            Access::Inc => increment(handle, cell),
            Access::IncTo(wanted) => {
                let now = increment(handle, cell)?;
                answer(handle, now, wanted)
            }
            Access::Get => read(handle, cell),
            Access::GetOf(wanted) => read_this(handle, cell, wanted),
            Access::GetAndInc(wanted) => {
                read_this(handle, cell, wanted)?;
                let now = increment(handle, cell)?;
                answer(handle, now, wanted.wrapping_add(1))
            }
        }
    }
}

fn increment<R: Wait>(handle: &mut Handle<u64, R>, cell: &UnsafeCell) -> Result<u64, Stop> {
    handle.with_mut(cell, |value| {
        *value = value.wrapping_add(1);
        *value
    })
}

fn read<R: Wait>(handle: &mut Handle<u64, R>, cell: &UnsafeCell) -> Result<u64, Stop> {
    handle.with(cell, |value| *value)
}

/// Asserts that this is the value that is wanted.
fn answer<R: Wait>(handle: &mut Handle<u64, R>, value: u64, wanted: u64) -> Result<u64, Stop> {
    handle.assert(value == wanted)?;
    Ok(value)
}

fn read_this<R: Wait>(
    handle: &mut Handle<u64, R>,
    cell: &UnsafeCell,
    wanted: u64,
) -> Result<u64, Stop> {
    let value = read(handle, cell)?;
    answer(handle, value, wanted)
}

/// Who accesses a cell that holds 1.
#[derive(Clone, Copy)]
pub(crate) enum Scene {
    /// A thread, and main beside it. Then main adds one, up to this.
    BesideMain(Access, Access, u64),
    /// Two threads. Then main adds one, up to this.
    BesideEachOther(Access, Access, u64),
    /// Main, a thread that it joins, and main again.
    InTurn(Access, Access, Access),
    /// Main, a thread and one that this one starts read it. Then main adds one.
    Readers,
    /// Main looks at a cell once it is told that a thread has written it, and again after its join.
    Told,
    /// Main looks at it without being told.
    Untold,
    /// A thread says that it has written a cell, and writes it then.
    ToldBefore,
}

impl Scene {
    pub(super) fn play<R: Host>(self, handle: &mut Handle<u64, R>) -> Result<u64, Stop> {
        match self {
            Scene::BesideMain(theirs, mine, last) => beside_main(handle, theirs, mine, last),
            Scene::BesideEachOther(one, other, last) => beside_each_other(handle, one, other, last),
            Scene::InTurn(first, theirs, last) => in_turn(handle, first, theirs, last),
            Scene::Readers => readers(handle),
            Scene::Told => told(handle, true),
            Scene::Untold => told(handle, false),
            Scene::ToldBefore => told_before(handle),
        }
    }
}

fn beside_main<R: Host>(
    handle: &mut Handle<u64, R>,
    theirs: Access,
    mine: Access,
    last: u64,
) -> Result<u64, Stop> {
    let cell = handle.unsafe_cell(1)?;
    let child = start(handle, Child::Access(theirs, cell))?;
    mine.play(handle, &cell)?;
    handle.join(&child)?;
    Access::IncTo(last).play(handle, &cell)
}

fn beside_each_other<R: Host>(
    handle: &mut Handle<u64, R>,
    one: Access,
    other: Access,
    last: u64,
) -> Result<u64, Stop> {
    let cell = handle.unsafe_cell(1)?;
    let first = start(handle, Child::Access(one, cell))?;
    let second = start(handle, Child::Access(other, cell))?;
    handle.join(&first)?;
    handle.join(&second)?;
    Access::IncTo(last).play(handle, &cell)
}

fn in_turn<R: Host>(
    handle: &mut Handle<u64, R>,
    first: Access,
    theirs: Access,
    last: Access,
) -> Result<u64, Stop> {
    let cell = handle.unsafe_cell(1)?;
    first.play(handle, &cell)?;
    let child = start(handle, Child::Access(theirs, cell))?;
    handle.join(&child)?;
    last.play(handle, &cell)
}

fn readers<R: Threads + Wait + Clone + Send + 'static>(
    handle: &mut Handle<u64, R>,
) -> Result<u64, Stop> {
    let cell = handle.unsafe_cell(1)?;
    let child = handle.spawn(move |handle| read_beside(handle, cell))?;
    read_this(handle, &cell, 1)?;
    handle.join(&child)?;
    Access::IncTo(2).play(handle, &cell)
}

/// Reads 1 before and after it starts a thread that does so too, and joins that one.
fn read_beside<R: Threads + Wait + Clone + Send + 'static>(
    handle: &mut Handle<u64, R>,
    cell: UnsafeCell,
) -> Result<u64, Stop> {
    read_this(handle, &cell, 1)?;
    let child = start(handle, Child::Access(Access::GetOf(1), cell))?;
    read_this(handle, &cell, 1)?;
    handle.join(&child)
}

/// A thread writes a cell and says so. Main looks beside it, where it is told or without that, and after its join.
fn told<R: Host>(handle: &mut Handle<u64, R>, waits: bool) -> Result<u64, Stop> {
    let cell = handle.unsafe_cell(0)?;
    let flag = handle.atomic(0u64)?;
    let child = start(handle, Child::WriteAndTell(cell, flag))?;
    if !waits || handle.load(&flag, Acquire)? == 1 {
        read_this(handle, &cell, 123)?;
    }
    handle.join(&child)?;
    handle.load(&flag, Acquire)?;
    read_this(handle, &cell, 123)
}

pub(super) fn write_and_tell<R: Wait>(
    handle: &mut Handle<u64, R>,
    cell: &UnsafeCell,
    flag: &AtomicU64,
) -> Result<u64, Stop> {
    handle.with_mut(cell, |value| *value = 123)?;
    handle.store(flag, 1, Release)?;
    Ok(0)
}

fn told_before<R: Host>(handle: &mut Handle<u64, R>) -> Result<u64, Stop> {
    let flag = handle.atomic(0u64)?;
    let cell = handle.unsafe_cell(0)?;
    start(handle, Child::TellAndWrite(cell, flag))?;
    if handle.load(&flag, Acquire)? == 1 {
        increment(handle, &cell)?;
    }
    Ok(0)
}

pub(super) fn tell_and_write<R: Wait>(
    handle: &mut Handle<u64, R>,
    cell: &UnsafeCell,
    flag: &AtomicU64,
) -> Result<u64, Stop> {
    handle.store(flag, 1, Release)?;
    increment(handle, cell)
}

// A test of cells, with its name and what its check finds.
macro_rules! test {
    ($name:ident, $scene:expr, $wanted:expr) => {
        Test {
            name: stringify!($name),
            scene: carried::Scene::Cells($scene),
            wanted: $wanted,
        }
    };
}

static RACES: [Test; 7] = [
    test!(
        unsafe_cell_race_mut_mut_1,
        Scene::BesideMain(Access::Inc, Access::Inc, 4),
        Fails(FailureKind::Race, 0, &[ONE])
    ),
    test!(
        unsafe_cell_race_mut_mut_2,
        Scene::BesideEachOther(Access::Inc, Access::Inc, 4),
        Fails(FailureKind::Race, 0, &[ONE, ONE, ZERO, TWO])
    ),
    test!(
        unsafe_cell_race_mut_immut_1,
        Scene::BesideMain(Access::IncTo(2), Access::Get, 3),
        Fails(FailureKind::Race, 0, &[ONE])
    ),
    test!(
        unsafe_cell_race_mut_immut_2,
        Scene::BesideMain(Access::Get, Access::IncTo(2), 3),
        Fails(FailureKind::Race, 0, &[ONE])
    ),
    test!(
        unsafe_cell_race_mut_immut_3,
        Scene::BesideEachOther(Access::IncTo(2), Access::Get, 3),
        Fails(FailureKind::Race, 0, &[ONE, ONE, ZERO, TWO])
    ),
    test!(
        unsafe_cell_race_mut_immut_4,
        Scene::BesideEachOther(Access::Get, Access::IncTo(2), 3),
        Fails(FailureKind::Race, 0, &[ONE, ONE, ZERO, TWO])
    ),
    test!(
        unsafe_cell_race_mut_immut_5,
        Scene::BesideEachOther(Access::Get, Access::GetAndInc(1), 3),
        Fails(FailureKind::Race, 0, &[ONE, ONE, ZERO, TWO])
    ),
];

static IN_ORDER: [Test; 3] = [
    test!(
        unsafe_cell_ok_1,
        Scene::InTurn(Access::IncTo(2), Access::IncTo(3), Access::IncTo(4)),
        Complete(1)
    ),
    test!(
        unsafe_cell_ok_2,
        Scene::InTurn(
            Access::GetAndInc(1),
            Access::GetAndInc(2),
            Access::GetAndInc(3)
        ),
        Complete(1)
    ),
    test!(unsafe_cell_ok_3, Scene::Readers, Complete(1)),
];

static TOLD: [Test; 3] = [
    test!(atomic_causality_success, Scene::Told, Complete(6)),
    test!(
        atomic_causality_fail,
        Scene::Untold,
        Fails(FailureKind::Assertion, 0, &[])
    ),
    test!(
        unsafe_cell_access_after_sync,
        Scene::ToldBefore,
        Fails(FailureKind::Race, 2, &[ONE, ONE, ONE, ZERO, SLOT_1])
    ),
];

#[test]
fn cells(rt: HostRuntime) -> Result<(), Fail> {
    are_found(&rt, &RACES)?;
    are_found(&rt, &IN_ORDER)?;
    are_found(&rt, &TOLD)
}
