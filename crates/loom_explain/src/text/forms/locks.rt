//! Forms of operations of mutexes and of read-write locks.
use crate::text::forms::{DATA_OUT, Form, Kind};
use loom_objects::operation::{MutexOp, RwLockOp};

/// What is asked of who uses a lock.
const DATA_IN: &str = "its data isn't to be out, by `get_mut`";

/// What is asked of who takes data out of a lock, or takes it apart.
const FREE: &str = "nobody is to hold it, or have its data out";

static MUTEX_NEW: Form = makes!(Kind::Mutex, "Mutex::new", DATA_IN);

static MUTEX_LOCK: Form = on!(Kind::Mutex, ".lock()", Nothing, DATA_IN, waits "waits for");

static MUTEX_TRY_LOCK: Form = on!(Kind::Mutex, ".try_lock()", Nothing, DATA_IN, waits "waits for");

static MUTEX_RELEASE: Form =
    on!(Kind::Mutex, ".release()", Gives, "the thread is to hold it", ties Frees);

static MUTEX_GET_MUT: Form = on!(Kind::Mutex, ".get_mut()", Takes, FREE);

static MUTEX_PUT: Form = on!(Kind::Mutex, ".put()", Gives, DATA_OUT);

static MUTEX_INTO_INNER: Form = on!(Kind::Mutex, ".into_inner()", TakesApart, FREE);

static RWLOCK_NEW: Form = makes!(Kind::RwLock, "RwLock::new", DATA_IN);

static RWLOCK_READ: Form = on!(Kind::RwLock, ".read()", Nothing, DATA_IN, waits "waits to read");

static RWLOCK_TRY_READ: Form =
    on!(Kind::RwLock, ".try_read()", Nothing, DATA_IN, waits "waits to read");

static RWLOCK_RELEASE: Form = on!(
    Kind::RwLock,
    ".release()",
    Gives,
    "the thread is to hold it so",
    ties Frees
);

static RWLOCK_WRITE: Form = on!(Kind::RwLock, ".write()", Nothing, DATA_IN, waits "waits to write");

static RWLOCK_TRY_WRITE: Form =
    on!(Kind::RwLock, ".try_write()", Nothing, DATA_IN, waits "waits to write");

static RWLOCK_GET_MUT: Form = on!(Kind::RwLock, ".get_mut()", Takes, FREE);

static RWLOCK_PUT: Form = on!(Kind::RwLock, ".put()", Gives, DATA_OUT);

static RWLOCK_INTO_INNER: Form = on!(Kind::RwLock, ".into_inner()", TakesApart, FREE);

pub(crate) fn mutex_form(op: &MutexOp<()>) -> (usize, &'static Form) {
    match op {
        MutexOp::New(_) => (0, &MUTEX_NEW),
        MutexOp::Lock(mutex) => (*mutex, &MUTEX_LOCK),
        MutexOp::TryLock(mutex) => (*mutex, &MUTEX_TRY_LOCK),
        MutexOp::Release(mutex, _) => (*mutex, &MUTEX_RELEASE),
        MutexOp::GetMut(mutex) => (*mutex, &MUTEX_GET_MUT),
        MutexOp::Put(mutex, _) => (*mutex, &MUTEX_PUT),
        MutexOp::IntoInner(mutex) => (*mutex, &MUTEX_INTO_INNER),
    }
}

pub(crate) fn rwlock_form(op: &RwLockOp<()>) -> (usize, &'static Form) {
    match op {
        RwLockOp::New(_) => (0, &RWLOCK_NEW),
        RwLockOp::Read(lock) => (*lock, &RWLOCK_READ),
        RwLockOp::TryRead(lock) => (*lock, &RWLOCK_TRY_READ),
        RwLockOp::ReadRelease(lock) => (*lock, &RWLOCK_RELEASE),
        RwLockOp::Write(lock) => (*lock, &RWLOCK_WRITE),
        RwLockOp::TryWrite(lock) => (*lock, &RWLOCK_TRY_WRITE),
        RwLockOp::WriteRelease(lock, _) => (*lock, &RWLOCK_RELEASE),
        RwLockOp::GetMut(lock) => (*lock, &RWLOCK_GET_MUT),
        RwLockOp::Put(lock, _) => (*lock, &RWLOCK_PUT),
        RwLockOp::IntoInner(lock) => (*lock, &RWLOCK_INTO_INNER),
    }
}

/// The data that the operation of a mutex hands over, if it does.
pub(crate) fn mutex_data<D>(op: &MutexOp<D>) -> Option<&D> {
    match op {
        MutexOp::New(value) | MutexOp::Release(_, value) | MutexOp::Put(_, value) => Some(value),
        MutexOp::Lock(_) | MutexOp::TryLock(_) | MutexOp::GetMut(_) | MutexOp::IntoInner(_) => None,
    }
}

/// The data that the operation of a read-write lock hands over, if it does.
pub(crate) fn rwlock_data<D>(op: &RwLockOp<D>) -> Option<&D> {
    match op {
        RwLockOp::New(value) | RwLockOp::WriteRelease(_, value) | RwLockOp::Put(_, value) => {
            Some(value)
        }
        RwLockOp::Read(_)
        | RwLockOp::TryRead(_)
        | RwLockOp::ReadRelease(_)
        | RwLockOp::Write(_)
        | RwLockOp::TryWrite(_)
        | RwLockOp::GetMut(_)
        | RwLockOp::IntoInner(_) => None,
    }
}
