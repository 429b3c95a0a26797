//! Forms of operations of a future's notifier, of its wakers and of places for a waker.
use crate::text::forms::{Form, Kind};
use loom_objects::operation::{AtomicWakerOp, WakerOp};

/// What is asked of who uses a waker.
const A_WAKER: &str = "a waker is to be left";

static WAKER_NEW: Form = makes!(Kind::Wakers, "BlockOn::new", A_WAKER);

static WAKER_WAIT: Form =
    on!(Kind::Wakers, ".wait()", Nothing, A_WAKER, waits "waits for a notification of", ties IsNotified);

static WAKER_FINISH: Form = on!(Kind::Wakers, ".finish()", Drops, A_WAKER);

static WAKER_CLONE: Form = on!(Kind::Wakers, ".waker.clone()", Clones, A_WAKER);

static WAKER_WAKE: Form = on!(Kind::Wakers, ".waker.wake()", Drops, A_WAKER, ties Notifies);

static WAKER_WAKE_BY_REF: Form =
    on!(Kind::Wakers, ".waker.wake_by_ref()", Nothing, A_WAKER, ties Notifies);

static WAKER_DROP: Form = on!(Kind::Wakers, ".waker.drop()", Drops, A_WAKER);

static ATOMIC_WAKER_NEW: Form = makes!(Kind::AtomicWaker, "AtomicWaker::new", A_WAKER);

static ATOMIC_WAKER_REGISTER: Form =
    on!(Kind::AtomicWaker, ".register", Nothing, A_WAKER, ties Registers);

static ATOMIC_WAKER_REGISTER_BY_REF: Form = on!(
    Kind::AtomicWaker,
    ".register_by_ref",
    Nothing,
    A_WAKER,
    ties Registers
);

static ATOMIC_WAKER_WAKE: Form =
    on!(Kind::AtomicWaker, ".wake()", Nothing, A_WAKER, waits "waits for", ties WakesRegistered);

static ATOMIC_WAKER_TAKE_WAKER: Form =
    on!(Kind::AtomicWaker, ".take_waker()", Nothing, A_WAKER, waits "waits for");

static ATOMIC_WAKER_DROP: Form = on!(Kind::AtomicWaker, ".drop()", Nothing, A_WAKER);

pub(crate) fn waker_form(op: WakerOp) -> (usize, &'static Form) {
    match op {
        WakerOp::New => (0, &WAKER_NEW),
        WakerOp::Wait(wakers) => (wakers, &WAKER_WAIT),
        WakerOp::Finish(wakers) => (wakers, &WAKER_FINISH),
        WakerOp::Clone(wakers) => (wakers, &WAKER_CLONE),
        WakerOp::Wake(wakers) => (wakers, &WAKER_WAKE),
        WakerOp::WakeByRef(wakers) => (wakers, &WAKER_WAKE_BY_REF),
        WakerOp::Drop(wakers) => (wakers, &WAKER_DROP),
    }
}

pub(crate) fn atomic_waker_form(op: AtomicWakerOp) -> (usize, &'static Form) {
    match op {
        AtomicWakerOp::New => (0, &ATOMIC_WAKER_NEW),
        AtomicWakerOp::Register(place, _) => (place, &ATOMIC_WAKER_REGISTER),
        AtomicWakerOp::RegisterByRef(place, _) => (place, &ATOMIC_WAKER_REGISTER_BY_REF),
        AtomicWakerOp::Wake(place) => (place, &ATOMIC_WAKER_WAKE),
        AtomicWakerOp::TakeWaker(place) => (place, &ATOMIC_WAKER_TAKE_WAKER),
        AtomicWakerOp::Drop(place) => (place, &ATOMIC_WAKER_DROP),
    }
}
