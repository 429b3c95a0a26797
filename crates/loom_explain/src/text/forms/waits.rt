//! Forms of operations of condition variables and of notifiers.
use crate::text::forms::{Form, Kind};
use loom_objects::operation::{CondvarOp, NotifyOp};

/// What is asked of who uses a condvar.
const CONDVAR_THERE: &str = "it is to be there";

/// What is asked of who sleeps.
const HELD: &str = "the thread is to hold the mutex";

/// What is asked of who uses a notifier.
const OWN: &str = "it is to be the body's own";

static CONDVAR_NEW: Form = makes!(Kind::Condvar, "Condvar::new", CONDVAR_THERE);

static CONDVAR_WAIT: Form = on!(Kind::Condvar, ".wait", Nothing, HELD, waits "asleep on");

static CONDVAR_WAIT_TIMEOUT: Form =
    on!(Kind::Condvar, ".wait_timeout", Nothing, HELD, waits "asleep on");

static CONDVAR_NOTIFY_ONE: Form =
    on!(Kind::Condvar, ".notify_one()", Nothing, CONDVAR_THERE, ties WakesOne);

static CONDVAR_NOTIFY_ALL: Form =
    on!(Kind::Condvar, ".notify_all()", Nothing, CONDVAR_THERE, ties WakesAll);

static NOTIFY_NEW: Form = makes!(Kind::Notify, "Notify::new", OWN);

static NOTIFY_NOTIFY: Form = on!(Kind::Notify, ".notify()", Nothing, OWN, ties Notifies);

static NOTIFY_WAIT: Form =
    on!(Kind::Notify, ".wait()", Nothing, OWN, waits "waits for a notification of", ties IsNotified);

pub(crate) fn condvar_form(op: &CondvarOp<()>) -> (usize, &'static Form) {
    match op {
        CondvarOp::New => (0, &CONDVAR_NEW),
        CondvarOp::Wait(condvar, ..) => (*condvar, &CONDVAR_WAIT),
        CondvarOp::WaitTimeout(condvar, ..) => (*condvar, &CONDVAR_WAIT_TIMEOUT),
        CondvarOp::NotifyOne(condvar) => (*condvar, &CONDVAR_NOTIFY_ONE),
        CondvarOp::NotifyAll(condvar) => (*condvar, &CONDVAR_NOTIFY_ALL),
    }
}

pub(crate) fn notify_form(op: NotifyOp) -> (usize, &'static Form) {
    match op {
        NotifyOp::New => (0, &NOTIFY_NEW),
        NotifyOp::Notify(notifier) => (notifier, &NOTIFY_NOTIFY),
        NotifyOp::Wait(notifier) => (notifier, &NOTIFY_WAIT),
    }
}

/// The data that the operation of a condvar hands over, if it does: those of the mutex.
pub(crate) fn condvar_data<D>(op: &CondvarOp<D>) -> Option<&D> {
    match op {
        CondvarOp::Wait(_, _, value) | CondvarOp::WaitTimeout(_, _, value) => Some(value),
        CondvarOp::New | CondvarOp::NotifyOne(_) | CondvarOp::NotifyAll(_) => None,
    }
}
