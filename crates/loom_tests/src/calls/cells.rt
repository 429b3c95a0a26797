//! Cells.
use crate::calls::run::{Kind, Row, make};
use loom::Op;
use loom::cell::{Cell, ConstPtr, MutPtr, UnsafeCell};
use std::process::Abort;

/// The calls of these tables, by their numbers there.
pub fn call(number: usize) -> Op<u64, ()> {
    let cell = UnsafeCell { number: 0 };
    let reader = ConstPtr { number: 0 };
    let writer = MutPtr { number: 0 };
    let (one, other) = (Cell { number: 0 }, Cell { number: 1 });
    let beside = UnsafeCell { number: 1 };
    match number {
        0 => UnsafeCell::new(1),
        1 => cell.get(),
        2 => reader.deref(),
        3 => reader.with(),
        4 => reader.end(),
        5 => cell.with(),
        6 => cell.get_mut(),
        7 => writer.end(2),
        8 => cell.with_mut(),
        9 => writer.end(3),
        10 => cell.into_inner(),
        11 => Cell::new(1),
        12 => one.set(2),
        13 => one.replace(3),
        14 => one.take(4),
        15 => one.get(),
        16 => one.into_inner(),
        17 => Cell::new(2),
        18 => one.swap(other),
        19 => other.get(),
        20 => one.swap(one),
        21 => one.swap(Cell { number: 9 }),
        22 => UnsafeCell::new(2),
        23 => beside.get(),
        _ => one.swap(Cell { number: 1 }),
    }
}

// Main reads a cell, reads on while the read is open, reads it twice at a time, writes it by each call, takes it apart, and
// finds that it is no more.
static READ_AND_WRITE: [Row; 15] = [
    (
        0,
        "UnsafeCell::new",
        "Reply(0, Cell(0)); UnsafeCell { number: 0 }; Cell { number: 0 }",
    ),
    (
        1,
        "cell.get",
        "Reply(0, Reading(0, 1)); ConstPtr { number: 0 }; (ConstPtr { number: 0 }, 1)",
    ),
    (2, "reader.deref", "Reply(0, Data(1))"),
    (3, "reader.with", "Reply(0, Data(1))"),
    (4, "reader.end", "Reply(0, Done)"),
    (
        1,
        "cell.get",
        "Reply(0, Reading(0, 1)); ConstPtr { number: 0 }; (ConstPtr { number: 0 }, 1)",
    ),
    (
        5,
        "cell.with",
        "Reply(0, Reading(0, 1)); ConstPtr { number: 0 }; (ConstPtr { number: 0 }, 1)",
    ),
    (4, "reader.end", "Reply(0, Done)"),
    (4, "reader.end", "Reply(0, Done)"),
    (
        6,
        "cell.get_mut",
        "Reply(0, Writing(0, 1)); MutPtr { number: 0 }; (MutPtr { number: 0 }, 1); 1",
    ),
    (7, "writer.end", "Reply(0, Done)"),
    (
        8,
        "cell.with_mut",
        "Reply(0, Writing(0, 2)); MutPtr { number: 0 }; (MutPtr { number: 0 }, 2); 2",
    ),
    (9, "writer.end", "Reply(0, Done)"),
    (10, "cell.into_inner", "Reply(0, Data(3))"),
    (1, "cell.get", "Misuse"),
];

// Main changes a cell by each call that replies what was there, takes it apart, and finds that it is no more.
static CHANGE: [Row; 7] = [
    (
        11,
        "Cell::new",
        "Reply(0, Cell(0)); UnsafeCell { number: 0 }; Cell { number: 0 }",
    ),
    (12, "one.set", "Reply(0, Data(1))"),
    (13, "one.replace", "Reply(0, Data(2))"),
    (14, "one.take", "Reply(0, Data(3))"),
    (15, "one.get", "Reply(0, Data(4))"),
    (16, "one.into_inner", "Reply(0, Data(4))"),
    (15, "one.get", "Misuse"),
];

// Main exchanges what two cells hold, and a cell with itself, and then with one that was never made.
static SWAP: [Row; 8] = [
    (
        11,
        "Cell::new",
        "Reply(0, Cell(0)); UnsafeCell { number: 0 }; Cell { number: 0 }",
    ),
    (
        17,
        "Cell::new",
        "Reply(0, Cell(1)); UnsafeCell { number: 1 }; Cell { number: 1 }",
    ),
    (18, "one.swap", "Reply(0, Done)"),
    (15, "one.get", "Reply(0, Data(2))"),
    (19, "other.get", "Reply(0, Data(1))"),
    (20, "one.swap", "Reply(0, Done)"),
    (15, "one.get", "Reply(0, Data(2))"),
    (21, "one.swap", "Misuse"),
];

// Main exchanges two cells, of which it reads one.
static SWAP_WHILE_READING: [Row; 4] = [
    (
        11,
        "Cell::new",
        "Reply(0, Cell(0)); UnsafeCell { number: 0 }; Cell { number: 0 }",
    ),
    (
        22,
        "UnsafeCell::new",
        "Reply(0, Cell(1)); UnsafeCell { number: 1 }; Cell { number: 1 }",
    ),
    (
        23,
        "beside.get",
        "Reply(0, Reading(1, 2)); ConstPtr { number: 1 }; (ConstPtr { number: 1 }, 2)",
    ),
    (24, "one.swap", "OpenAccess"),
];

/// Makes these calls.
pub fn make_all(rt: &(impl Abort + AllocGlobal)) {
    make::<u64, _>(rt, Kind::Cells, &READ_AND_WRITE);
    make::<u64, _>(rt, Kind::Cells, &CHANGE);
    make::<u64, _>(rt, Kind::Cells, &SWAP);
    make::<u64, _>(rt, Kind::Cells, &SWAP_WHILE_READING);
}
