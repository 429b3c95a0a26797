//! Atomics and fences.
use crate::calls::run::{Kind, Row, make};
use loom::Op;
use loom::sync::atomic::Ordering::{Acquire, Release, SeqCst};
use loom::sync::atomic::{Atomic, AtomicBool, AtomicI8, AtomicU8, AtomicU64, fence};
use std::marker::PhantomData;
use std::process::Abort;

/// The first object of a run, which is an atomic.
pub fn first_atomic<T>() -> Atomic<T> {
    Atomic {
        number: 0,
        holds: PhantomData,
    }
}

/// The calls of these tables, by their numbers there.
pub fn call(number: usize) -> Op<u64, ()> {
    let word = first_atomic::<u64>();
    let byte = first_atomic::<u8>();
    let signed = first_atomic::<i8>();
    let flag = first_atomic::<bool>();
    match number {
        0 => AtomicU64::new(1),
        1 => word.store(u64::MAX, Release),
        2 => word.load(Acquire),
        3 => fence(SeqCst),
        4 => AtomicU8::new(67),
        5 => byte.swap(12, SeqCst),
        6 => byte.compare_and_swap(67, 1, SeqCst),
        7 => byte.compare_and_swap(12, 10, SeqCst),
        8 => byte.load(SeqCst),
        9 => byte.fetch_add(250, SeqCst),
        10 => byte.fetch_sub(5, SeqCst),
        11 => byte.fetch_and(15, SeqCst),
        12 => byte.fetch_or(48, SeqCst),
        13 => byte.fetch_xor(1, SeqCst),
        14 => byte.fetch_nand(6, SeqCst),
        15 => byte.fetch_max(250, SeqCst),
        16 => byte.fetch_min(3, SeqCst),
        17 => AtomicU8::new(3),
        18 => byte.with_mut(),
        19 => byte.with_mut_end(9),
        20 => byte.unsync_load(),
        21 => byte.into_inner(),
        22 => AtomicI8::new(67),
        23 => signed.fetch_max(-99, SeqCst),
        24 => signed.fetch_min(-99, SeqCst),
        25 => signed.load(SeqCst),
        26 => AtomicBool::new(true),
        27 => flag.fetch_nand(true, SeqCst),
        _ => flag.load(SeqCst),
    }
}

// Main stores the highest number, and makes a fence.
static STORE_AND_LOAD: [Row; 4] = [
    (
        0,
        "AtomicU64::new",
        "Reply(0, Atomic(0)); Atomic { number: 0, holds: PhantomData<_> }",
    ),
    (1, "word.store", "Reply(0, Done)"),
    (
        2,
        "word.load",
        "Reply(0, Value(18446744073709551615)); 18446744073709551615; Read(18446744073709551615)",
    ),
    (3, "fence", "Reply(0, Done)"),
];

// Main exchanges what an atomic holds, by each call that replies a value alone, adds past the highest number, subtracts past 0,
// changes some bits, and leaves the larger of two numbers and then the smaller.
static UPDATES: [Row; 16] = [
    (
        4,
        "AtomicU8::new",
        "Reply(0, Atomic(0)); Atomic { number: 0, holds: PhantomData<_> }",
    ),
    (5, "byte.swap", "Reply(0, Value(67)); 67; Read(67)"),
    (
        6,
        "byte.compare_and_swap",
        "Reply(0, Value(12)); 12; Read(12)",
    ),
    (
        7,
        "byte.compare_and_swap",
        "Reply(0, Value(12)); 12; Read(12)",
    ),
    (8, "byte.load", "Reply(0, Value(10)); 10; Read(10)"),
    (9, "byte.fetch_add", "Reply(0, Value(10)); 10; Read(10)"),
    (10, "byte.fetch_sub", "Reply(0, Value(4)); 4; Read(4)"),
    (8, "byte.load", "Reply(0, Value(255)); 255; Read(255)"),
    (11, "byte.fetch_and", "Reply(0, Value(255)); 255; Read(255)"),
    (12, "byte.fetch_or", "Reply(0, Value(15)); 15; Read(15)"),
    (13, "byte.fetch_xor", "Reply(0, Value(63)); 63; Read(63)"),
    (14, "byte.fetch_nand", "Reply(0, Value(62)); 62; Read(62)"),
    (8, "byte.load", "Reply(0, Value(249)); 249; Read(249)"),
    (15, "byte.fetch_max", "Reply(0, Value(249)); 249; Read(249)"),
    (16, "byte.fetch_min", "Reply(0, Value(250)); 250; Read(250)"),
    (8, "byte.load", "Reply(0, Value(3)); 3; Read(3)"),
];

// Main changes an atomic in place, takes it apart, and finds that it is no more.
static CHANGE_IN_PLACE: [Row; 6] = [
    (
        17,
        "AtomicU8::new",
        "Reply(0, Atomic(0)); Atomic { number: 0, holds: PhantomData<_> }",
    ),
    (18, "byte.with_mut", "Reply(0, Value(3)); 3; Read(3)"),
    (19, "byte.with_mut_end", "Reply(0, Done)"),
    (20, "byte.unsync_load", "Reply(0, Value(9)); 9; Read(9)"),
    (21, "byte.into_inner", "Reply(0, Value(9)); 9; Read(9)"),
    (20, "byte.unsync_load", "Misuse"),
];

// Main leaves the larger of two signed numbers, and then the smaller.
static COMPARE_SIGNED: [Row; 4] = [
    (
        22,
        "AtomicI8::new",
        "Reply(0, Atomic(0)); Atomic { number: 0, holds: PhantomData<_> }",
    ),
    (23, "signed.fetch_max", "Reply(0, Value(67)); 67; Read(67)"),
    (24, "signed.fetch_min", "Reply(0, Value(67)); 67; Read(67)"),
    (
        25,
        "signed.load",
        "Reply(0, Value(18446744073709551517)); -99; Read(-99)",
    ),
];

// Main asks for the nand of true and true.
static NAND_OF_BOOLS: [Row; 3] = [
    (
        26,
        "AtomicBool::new",
        "Reply(0, Atomic(0)); Atomic { number: 0, holds: PhantomData<_> }",
    ),
    (
        27,
        "flag.fetch_nand",
        "Reply(0, Value(1)); true; Read(true)",
    ),
    (28, "flag.load", "Reply(0, Value(0)); false; Read(false)"),
];

/// Makes these calls.
pub fn make_all(rt: &(impl Abort + AllocGlobal)) {
    make::<u64, _>(rt, Kind::Atomics, &STORE_AND_LOAD);
    make::<u8, _>(rt, Kind::Atomics, &UPDATES);
    make::<u8, _>(rt, Kind::Atomics, &CHANGE_IN_PLACE);
    make::<i8, _>(rt, Kind::Atomics, &COMPARE_SIGNED);
    make::<bool, _>(rt, Kind::Atomics, &NAND_OF_BOOLS);
}
