//! Exchanges and updates of atomics, of each type of integers.
use crate::calls::atomics::first_atomic;
use crate::calls::run::{Kind, Row, make};
use loom::sync::atomic::Ordering::SeqCst;
use loom::sync::atomic::{Atomic, Integer};
use loom::{Numeric, Op};
use std::fmt::Debug;
use std::process::Abort;

const NUM_A: u64 = 11641914933775430211;

const NUM_B: u64 = 13209405719799650717;

// The answers to the calls, where the type holds the numbers so, and in 64 bits so.
macro_rules! exchanged {
    ($a:literal, $b:literal) => {
        exchanged!($a, $b, $a, $b)
    };
    ($a:literal, $b:literal, $a_bits:literal, $b_bits:literal) => {
        [
            (
                0,
                "Atomic::new",
                "Reply(0, Atomic(0)); Atomic { number: 0, holds: PhantomData<_> }",
            ),
            (
                1,
                "atomic.compare_exchange",
                concat!("Reply(0, Exchanged(Err(", $a_bits, "))); Err(", $a, "); Read(", $a, ")"),
            ),
            (
                2,
                "atomic.compare_exchange",
                concat!("Reply(0, Exchanged(Ok(", $a_bits, "))); Ok(", $a, "); Replaced(", $a, ")"),
            ),
            (
                3,
                "atomic.compare_exchange_weak",
                concat!("Reply(0, Exchanged(Ok(", $b_bits, "))); Ok(", $b, "); Replaced(", $b, ")"),
            ),
            (
                4,
                "update.begin",
                concat!("Reply(0, Value(", $a_bits, ")); ", $a, "; Read(", $a, ")"),
            ),
            (
                5,
                "update.exchange",
                concat!("Reply(0, Exchanged(Ok(", $a_bits, "))); Ok(", $a, "); Replaced(", $a, ")"),
            ),
            (
                4,
                "update.begin",
                concat!("Reply(0, Value(", $b_bits, ")); ", $b, "; Read(", $b, ")"),
            ),
            (
                6,
                "atomic.load",
                concat!("Reply(0, Value(", $b_bits, ")); ", $b, "; Read(", $b, ")"),
            ),
        ]
    };
}

static OF_U8: [Row; 8] = exchanged!("67", "157");

static OF_I8: [Row; 8] = exchanged!("67", "-99", "67", "18446744073709551517");

static OF_U16: [Row; 8] = exchanged!("62019", "55709");

static OF_I16: [Row; 8] = exchanged!(
    "-3517",
    "-9827",
    "18446744073709548099",
    "18446744073709541789"
);

static OF_32_BITS: [Row; 8] = exchanged!("1694495299", "111925661");

static OF_U64: [Row; 8] = exchanged!("11641914933775430211", "13209405719799650717");

static OF_I64: [Row; 8] = exchanged!(
    "-6804829139934121405",
    "-5237338353909900899",
    "11641914933775430211",
    "13209405719799650717"
);

/// The calls of these tables, by their numbers there: main exchanges and updates an atomic of one type, which begins with the one
/// number.
pub fn call<T: Numeric>(number: usize) -> Op<u64, ()> {
    let (a, b) = (T::from_u64(NUM_A), T::from_u64(NUM_B));
    let atomic = first_atomic::<T>();
    let update = atomic.fetch_update(SeqCst, SeqCst);
    match number {
        0 => Atomic::new(a),
        1 => atomic.compare_exchange(b, a, SeqCst, SeqCst),
        2 => atomic.compare_exchange(a, b, SeqCst, SeqCst),
        3 => atomic.compare_exchange_weak(b, a, SeqCst, SeqCst),
        4 => update.begin(),
        5 => update.exchange(a, b),
        _ => atomic.load(SeqCst),
    }
}

// Makes these calls, of an atomic of this type of integers.
fn make_of<T: Integer + Debug + Drop, R: Abort + AllocGlobal>(rt: &R, rows: &[Row]) {
    make::<T, _>(rt, Kind::Exchanges, rows);
}

/// Makes these calls, of each type.
pub fn make_all(rt: &(impl Abort + AllocGlobal)) {
    make_of::<u8, _>(rt, &OF_U8);
    make_of::<i8, _>(rt, &OF_I8);
    make_of::<u16, _>(rt, &OF_U16);
    make_of::<i16, _>(rt, &OF_I16);
    make_of::<u32, _>(rt, &OF_32_BITS);
    make_of::<i32, _>(rt, &OF_32_BITS);
    make_of::<u64, _>(rt, &OF_U64);
    make_of::<i64, _>(rt, &OF_I64);
    make_of::<usize, _>(rt, &OF_U64);
    make_of::<isize, _>(rt, &OF_I64);
}
