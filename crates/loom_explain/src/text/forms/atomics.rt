//! Forms of operations of atomics.
use crate::text::forms::{Form, Kind};
use loom_objects::operation::AtomicOp;
use loom_views::rt::num::Numbers;
use loom_views::rt::num::change::Change;

/// What is asked of who uses an atomic.
const ATOMIC_THERE: &str = "the atomic is to be there";

/// An atomic, whatever it holds.
const ATOMIC: Kind = Kind::Atomic(Numbers::U64);

static NEW_BOOL: Form = makes!(Kind::Atomic(Numbers::Bool), "AtomicBool::new", ATOMIC_THERE);

static NEW_U8: Form = makes!(Kind::Atomic(Numbers::U8), "AtomicU8::new", ATOMIC_THERE);

static NEW_U16: Form = makes!(Kind::Atomic(Numbers::U16), "AtomicU16::new", ATOMIC_THERE);

static NEW_U32: Form = makes!(Kind::Atomic(Numbers::U32), "AtomicU32::new", ATOMIC_THERE);

static NEW_U64: Form = makes!(Kind::Atomic(Numbers::U64), "AtomicU64::new", ATOMIC_THERE);

static NEW_I8: Form = makes!(Kind::Atomic(Numbers::I8), "AtomicI8::new", ATOMIC_THERE);

static NEW_I16: Form = makes!(Kind::Atomic(Numbers::I16), "AtomicI16::new", ATOMIC_THERE);

static NEW_I32: Form = makes!(Kind::Atomic(Numbers::I32), "AtomicI32::new", ATOMIC_THERE);

static NEW_I64: Form = makes!(Kind::Atomic(Numbers::I64), "AtomicI64::new", ATOMIC_THERE);

static LOAD: Form = on!(ATOMIC, ".load", Nothing, ATOMIC_THERE);

static STORE: Form = on!(ATOMIC, ".store", Nothing, ATOMIC_THERE);

static SWAP: Form = on!(ATOMIC, ".swap", Nothing, ATOMIC_THERE);

static FETCH_ADD: Form = on!(ATOMIC, ".fetch_add", Nothing, ATOMIC_THERE);

static FETCH_SUB: Form = on!(ATOMIC, ".fetch_sub", Nothing, ATOMIC_THERE);

static FETCH_AND: Form = on!(ATOMIC, ".fetch_and", Nothing, ATOMIC_THERE);

static FETCH_NAND: Form = on!(ATOMIC, ".fetch_nand", Nothing, ATOMIC_THERE);

static FETCH_OR: Form = on!(ATOMIC, ".fetch_or", Nothing, ATOMIC_THERE);

static FETCH_XOR: Form = on!(ATOMIC, ".fetch_xor", Nothing, ATOMIC_THERE);

static FETCH_MAX: Form = on!(ATOMIC, ".fetch_max", Nothing, ATOMIC_THERE);

static FETCH_MIN: Form = on!(ATOMIC, ".fetch_min", Nothing, ATOMIC_THERE);

static COMPARE_EXCHANGE: Form = on!(ATOMIC, ".compare_exchange", Nothing, ATOMIC_THERE);

static COMPARE_AND_SWAP: Form = on!(ATOMIC, ".compare_and_swap", Nothing, ATOMIC_THERE);

static UNSYNC_LOAD: Form = on!(ATOMIC, ".unsync_load()", Nothing, ATOMIC_THERE);

static INTO_INNER: Form = on!(ATOMIC, ".into_inner()", TakesApart, ATOMIC_THERE);

static WITH_MUT: Form = on!(ATOMIC, ".with_mut()", Takes, ATOMIC_THERE);

static WITH_MUT_END: Form = on!(
    ATOMIC,
    " ends with ",
    Gives,
    "a mutation is ended by the thread that opened it"
);

pub(crate) fn atomic_form(op: AtomicOp) -> &'static Form {
    match op {
        AtomicOp::New(numbers, _) => new_form(numbers),
        AtomicOp::Load(..) => &LOAD,
        AtomicOp::Store(..) => &STORE,
        AtomicOp::Update(_, change, _) => change_form(change),
        AtomicOp::CompareExchange(..) => &COMPARE_EXCHANGE,
        AtomicOp::CompareAndSwap(..) => &COMPARE_AND_SWAP,
        AtomicOp::UnsyncLoad(_) => &UNSYNC_LOAD,
        AtomicOp::IntoInner(_) => &INTO_INNER,
        AtomicOp::WithMut(_) => &WITH_MUT,
        AtomicOp::WithMutEnd(..) => &WITH_MUT_END,
    }
}

fn new_form(numbers: Numbers) -> &'static Form {
    match numbers {
        Numbers::Bool => &NEW_BOOL,
        Numbers::U8 => &NEW_U8,
        Numbers::U16 => &NEW_U16,
        Numbers::U32 => &NEW_U32,
        Numbers::U64 => &NEW_U64,
        Numbers::I8 => &NEW_I8,
        Numbers::I16 => &NEW_I16,
        Numbers::I32 => &NEW_I32,
        Numbers::I64 => &NEW_I64,
    }
}

/// The form of a read-modify-write.
fn change_form(change: Change) -> &'static Form {
    match change {
        Change::Swap(_) => &SWAP,
        Change::Add(_) => &FETCH_ADD,
        Change::Sub(_) => &FETCH_SUB,
        Change::And(_) => &FETCH_AND,
        Change::Nand(_) => &FETCH_NAND,
        Change::Or(_) => &FETCH_OR,
        Change::Xor(_) => &FETCH_XOR,
        Change::Max(_) => &FETCH_MAX,
        Change::Min(_) => &FETCH_MIN,
    }
}
