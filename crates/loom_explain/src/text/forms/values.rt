//! Forms of operations of a thread's own values, and of values that are made once a run.
use crate::text::forms::Form;
use loom_objects::operation::{LazyOp, LocalOp};

/// What is asked of who uses a value of its own.
const OF_ITS_KEY: &str = "the thread is to have a value of this key";

static LOCAL_WITH: Form = other!(Local, ".with()", OF_ITS_KEY);

static LOCAL_TRY_WITH: Form = other!(Local, ".try_with()", OF_ITS_KEY);

static LOCAL_INIT: Form = other!(Local, ".init()", OF_ITS_KEY);

static LOCAL_PUT: Form = other!(Local, ".put()", OF_ITS_KEY);

static LAZY_GET: Form = other!(Lazy, ".get()", "");

static LAZY_INIT: Form = other!(Lazy, ".init()", "");

pub(crate) fn local_form(op: &LocalOp<()>) -> (usize, &'static Form) {
    match op {
        LocalOp::With(key) => (*key, &LOCAL_WITH),
        LocalOp::TryWith(key) => (*key, &LOCAL_TRY_WITH),
        LocalOp::Init(key, _) => (*key, &LOCAL_INIT),
        LocalOp::Put(key, _) => (*key, &LOCAL_PUT),
    }
}

pub(crate) fn lazy_form(op: &LazyOp<()>) -> (usize, &'static Form) {
    match op {
        LazyOp::Get(key) => (*key, &LAZY_GET),
        LazyOp::Init(key, _) => (*key, &LAZY_INIT),
    }
}

/// The data that the operation of a thread's own value hands over, if it does.
pub(crate) fn local_data<D>(op: &LocalOp<D>) -> Option<&D> {
    match op {
        LocalOp::Init(_, value) | LocalOp::Put(_, value) => Some(value),
        LocalOp::With(_) | LocalOp::TryWith(_) => None,
    }
}

/// The data that the operation of a value that is made once hands over, if it does.
pub(crate) fn lazy_data<D>(op: &LazyOp<D>) -> Option<&D> {
    match op {
        LazyOp::Init(_, value) => Some(value),
        LazyOp::Get(_) => None,
    }
}
