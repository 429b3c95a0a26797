//! The scripts of the rows about locks, condition variables, notifiers and threads that wait for one another.
ghost use Rattle.std.specs.Prelude.{◌≡◌, map};
ghost use Rattle.loom_examples.specs.Rows.Meanings.{named};
ghost use Rattle.loom_examples.specs.Rows.Table.{condvar_rows, mutex_rows, other_rows, rwlock_rows, waking_rows};

use crate::row;
use crate::rows::{LONG_RUNS, Row};
use crate::scripts::step::{END, EXIT, FAIL, PARK, Step, Value, YIELD};
use loom_objects::operation::{
    AtomicOp, CondvarOp, MutexOp, Name, NotifyOp, Request, RwLockOp, ThreadOp,
};
use loom_objects::text_literal;
use loom_views::rt::num::Numbers;
use std::sync::atomic::Ordering::Relaxed;

const FINISH: Step = Step::Do(0, Request::Thread(ThreadOp::Finish(Value::Plain(7))));

const FOOBAR: Option<Name> = Some(Name {
    text: text_literal!(b"foobar"),
});

/// Main releases a mutex that it never locked.
pub const RELEASE_UNLOCKED: &[Step] = &[
    Step::Do(0, Request::Mutex(MutexOp::New(Value::Plain(0)))),
    Step::Do(0, Request::Mutex(MutexOp::Release(0, Value::Plain(0)))),
];

/// Main takes the data of a mutex out, and then locks the mutex.
pub const LOCK_WHILE_OUT: &[Step] = &[
    Step::Do(0, Request::Mutex(MutexOp::New(Value::Plain(0)))),
    Step::Do(0, Request::Mutex(MutexOp::GetMut(0))),
    Step::Do(0, Request::Mutex(MutexOp::Lock(0))),
];

/// Two threads each add 1 to what a mutex holds. Main joins them, takes the mutex apart, and asserts that it held 2 (loom's
/// `tests/mutex.rs`).
pub const MUTEX_INTO_INNER: &[Step] = &[
    Step::Do(0, Request::Mutex(MutexOp::New(Value::Plain(0)))),
    Step::SpawnAt(1, "child"),
    Step::SpawnAt(2, "child"),
    Step::Do(1, Request::Thread(ThreadOp::Join(1, 1))),
    Step::Do(1, Request::Thread(ThreadOp::Join(2, 2))),
    Step::Do(0, Request::Mutex(MutexOp::IntoInner(0))),
    Step::UnlessTo(0, 2, "wrong"),
    Step::Do(0, Request::Thread(ThreadOp::Finish(Value::Held(0)))),
    EXIT,
    END,
    Step::Label("wrong"),
    FAIL,
    Step::Label("child"),
    Step::Do(0, Request::Mutex(MutexOp::Lock(0))),
    Step::Do(0, Request::Mutex(MutexOp::Release(0, Value::Next(0)))),
    FINISH,
    EXIT,
    END,
];

/// Main locks and releases a mutex 65,534 times, which is as often as a thread may use objects. It counts that in the mutex.
pub const MANY_LOCKS: &[Step] = &[
    Step::Do(0, Request::Mutex(MutexOp::New(Value::Plain(0)))),
    Step::Label("again"),
    Step::Do(0, Request::Mutex(MutexOp::Lock(0))),
    Step::Do(0, Request::Mutex(MutexOp::Release(0, Value::Next(0)))),
    Step::UnlessTo(0, 65_533, "again"),
    FINISH,
    EXIT,
    END,
];

/// Main locks and releases a mutex 65,535 times, which is once too often.
pub const TOO_MANY_LOCKS: &[Step] = &[
    Step::Do(0, Request::Mutex(MutexOp::New(Value::Plain(0)))),
    Step::Label("again"),
    Step::Do(0, Request::Mutex(MutexOp::Lock(0))),
    Step::Do(0, Request::Mutex(MutexOp::Release(0, Value::Next(0)))),
    Step::UnlessTo(0, 65_534, "again"),
    FINISH,
    EXIT,
    END,
];

/// Main takes two guards for reading of a lock, and ends both.
pub const RWLOCK_READ_TWICE: &[Step] = &[
    Step::Do(0, Request::RwLock(RwLockOp::New(Value::Plain(1)))),
    Step::Do(0, Request::RwLock(RwLockOp::Read(0))),
    Step::Do(0, Request::RwLock(RwLockOp::Read(0))),
    Step::Do(0, Request::RwLock(RwLockOp::ReadRelease(0))),
    Step::Do(0, Request::RwLock(RwLockOp::ReadRelease(0))),
    FINISH,
    EXIT,
    END,
];

/// Main writes a lock, and asserts that it can't be written a second time (loom's `tests/rwlock.rs`).
pub const RWLOCK_WRITE_THEN_TRY_WRITE: &[Step] = &[
    Step::Do(0, Request::RwLock(RwLockOp::New(Value::Plain(1)))),
    Step::Do(0, Request::RwLock(RwLockOp::Write(0))),
    Step::Do(0, Request::RwLock(RwLockOp::TryWrite(0))),
    Step::UnlessTo(3, 1, "wrong"),
    Step::Do(
        0,
        Request::RwLock(RwLockOp::WriteRelease(0, Value::Held(0))),
    ),
    FINISH,
    EXIT,
    END,
    Step::Label("wrong"),
    FAIL,
];

/// A thread ends a guard for reading that main has.
pub const READ_GUARD_OF_ANOTHER: &[Step] = &[
    Step::Do(0, Request::RwLock(RwLockOp::New(Value::Plain(0)))),
    Step::Do(0, Request::RwLock(RwLockOp::Read(0))),
    Step::SpawnAt(1, "child"),
    Step::Do(0, Request::Thread(ThreadOp::Join(1, 1))),
    Step::Label("child"),
    Step::Do(0, Request::RwLock(RwLockOp::ReadRelease(0))),
];

/// Main writes a lock, and stores 1 into an atomic before it leaves 1 in the lock. Two threads read both under the lock, and assert
/// that both are 0 or both 1.
pub const RWLOCK_WRITER_AND_READERS: &[Step] = &[
    Step::Do(0, Request::RwLock(RwLockOp::New(Value::Plain(0)))),
    Step::Do(1, Request::Atomic(AtomicOp::New(Numbers::U64, 0))),
    Step::SpawnAt(2, "child"),
    Step::SpawnAt(3, "child"),
    Step::Do(0, Request::RwLock(RwLockOp::Write(0))),
    Step::Do(0, Request::Atomic(AtomicOp::Store(1, 1, Relaxed))),
    Step::Do(
        0,
        Request::RwLock(RwLockOp::WriteRelease(0, Value::Plain(1))),
    ),
    FINISH,
    EXIT,
    END,
    Step::Label("wrong"),
    FAIL,
    Step::Label("child"),
    Step::Do(0, Request::RwLock(RwLockOp::Read(0))),
    Step::Do(1, Request::Atomic(AtomicOp::Load(1, Relaxed))),
    Step::UnlessTo(1, 1, "read release"),
    Step::Do(2, Request::RwLock(RwLockOp::ReadRelease(0))),
    Step::UnlessTo(0, 1, "wrong"),
    FINISH,
    EXIT,
    END,
    Step::Label("read release"),
    Step::Do(2, Request::RwLock(RwLockOp::ReadRelease(0))),
    Step::UnlessTo(0, 0, "wrong"),
    FINISH,
    EXIT,
    END,
];

/// Main waits on a condition variable that nobody notifies.
pub const CONDVAR_ALONE: &[Step] = &[
    Step::Do(0, Request::Mutex(MutexOp::New(Value::Plain(0)))),
    Step::Do(1, Request::Condvar(CondvarOp::New)),
    Step::Do(0, Request::Mutex(MutexOp::Lock(0))),
    Step::Do(0, Request::Condvar(CondvarOp::Wait(1, 0, Value::Plain(0)))),
];

/// The one before, where main has a token: that is for `park` alone.
pub const CONDVAR_WITH_TOKEN: &[Step] = &[
    Step::Do(0, Request::Thread(ThreadOp::Current)),
    Step::Do(0, Request::Thread(ThreadOp::Unpark(0))),
    Step::Do(1, Request::Mutex(MutexOp::New(Value::Plain(0)))),
    Step::Do(2, Request::Condvar(CondvarOp::New)),
    Step::Do(0, Request::Mutex(MutexOp::Lock(1))),
    Step::Do(0, Request::Condvar(CondvarOp::Wait(2, 1, Value::Plain(0)))),
];

/// A thread leaves 7 in a mutex and notifies. Main waits for that unless the 7 is there, and asserts that it finds it.
pub const CONDVAR_HANDS_OVER: &[Step] = &[
    Step::Do(0, Request::Mutex(MutexOp::New(Value::Plain(0)))),
    Step::Do(1, Request::Condvar(CondvarOp::New)),
    Step::SpawnAt(2, "child"),
    Step::Do(0, Request::Mutex(MutexOp::Lock(0))),
    Step::UnlessTo(0, 0, "release"),
    Step::Do(0, Request::Condvar(CondvarOp::Wait(1, 0, Value::Plain(0)))),
    Step::Label("release"),
    Step::Do(1, Request::Mutex(MutexOp::Release(0, Value::Held(0)))),
    Step::Do(1, Request::Thread(ThreadOp::Join(2, 2))),
    Step::UnlessTo(0, 7, "wrong"),
    Step::Do(0, Request::Thread(ThreadOp::Finish(Value::Held(0)))),
    EXIT,
    END,
    Step::Label("wrong"),
    FAIL,
    Step::Label("child"),
    Step::Do(0, Request::Mutex(MutexOp::Lock(0))),
    Step::Do(0, Request::Mutex(MutexOp::Release(0, Value::Plain(7)))),
    Step::Do(0, Request::Condvar(CondvarOp::NotifyOne(1))),
    FINISH,
    EXIT,
    END,
];

/// Main and a thread wait on a condition variable, unless they find 7 in the mutex. Another thread leaves that there and
/// notifies both. Each asserts that it finds the 7.
pub const NOTIFY_ALL: &[Step] = &[
    Step::Do(0, Request::Mutex(MutexOp::New(Value::Plain(0)))),
    Step::Do(1, Request::Condvar(CondvarOp::New)),
    Step::SpawnAt(2, "first"),
    Step::SpawnAt(3, "second"),
    Step::Label("first"),
    Step::Do(0, Request::Mutex(MutexOp::Lock(0))),
    Step::UnlessTo(0, 0, "release"),
    Step::Do(0, Request::Condvar(CondvarOp::Wait(1, 0, Value::Plain(0)))),
    Step::Label("release"),
    Step::Do(1, Request::Mutex(MutexOp::Release(0, Value::Held(0)))),
    Step::UnlessTo(0, 7, "wrong"),
    Step::Do(0, Request::Thread(ThreadOp::Finish(Value::Held(0)))),
    EXIT,
    END,
    Step::Label("wrong"),
    FAIL,
    Step::Label("second"),
    Step::Do(0, Request::Mutex(MutexOp::Lock(0))),
    Step::Do(0, Request::Mutex(MutexOp::Release(0, Value::Plain(7)))),
    Step::Do(0, Request::Condvar(CondvarOp::NotifyAll(1))),
    FINISH,
    EXIT,
    END,
];

/// Main notifies its own notifier, and then waits on it.
pub const NOTIFY_WAIT: &[Step] = &[
    Step::Do(0, Request::Notify(NotifyOp::New)),
    Step::Do(0, Request::Notify(NotifyOp::Notify(0))),
    Step::Do(0, Request::Notify(NotifyOp::Wait(0))),
    FINISH,
    EXIT,
    END,
];

/// Main and a thread wait on one notifier.
pub const SECOND_WAITER: &[Step] = &[
    Step::Do(0, Request::Notify(NotifyOp::New)),
    Step::SpawnAt(1, "child"),
    Step::Do(0, Request::Notify(NotifyOp::Wait(0))),
    Step::Label("child"),
    Step::Do(0, Request::Notify(NotifyOp::Wait(0))),
];

/// Main gives itself a token, and then parks.
pub const UNPARK_THEN_PARK: &[Step] = &[
    Step::Do(0, Request::Thread(ThreadOp::Current)),
    Step::Do(0, Request::Thread(ThreadOp::Unpark(0))),
    PARK,
    FINISH,
    EXIT,
    END,
];

/// Main parks without a token, and nobody wakes it.
pub const PARK_ALONE: &[Step] = &[PARK];

/// Main parks, before or after a thread unparks it, which stored 7 into an atomic first. Main asserts that it loads the 7 then.
pub const UNPARK_WAKES: &[Step] = &[
    Step::Do(0, Request::Atomic(AtomicOp::New(Numbers::U64, 0))),
    Step::Do(1, Request::Thread(ThreadOp::Current)),
    Step::SpawnAt(2, "child"),
    Step::Do(1, Request::Atomic(AtomicOp::Load(0, Relaxed))),
    PARK,
    Step::Do(0, Request::Atomic(AtomicOp::Load(0, Relaxed))),
    Step::UnlessTo(0, 7, "wrong"),
    Step::Do(0, Request::Thread(ThreadOp::Finish(Value::Held(0)))),
    EXIT,
    END,
    Step::Label("wrong"),
    FAIL,
    Step::Label("child"),
    Step::Do(0, Request::Atomic(AtomicOp::Store(0, 7, Relaxed))),
    Step::Do(0, Request::Thread(ThreadOp::Unpark(1))),
    FINISH,
    EXIT,
    END,
];

/// Main yields beside a thread that does nothing but end.
pub const YIELD_BESIDE: &[Step] = &[
    Step::SpawnAt(0, "child"),
    YIELD,
    FINISH,
    EXIT,
    END,
    Step::Label("child"),
    FINISH,
    EXIT,
    END,
];

/// Main spawns a thread with a name, which asks who it is.
pub const NAMED_CHILD: &[Step] = &[
    Step::Do(0, Request::Thread(ThreadOp::Spawn(4, FOOBAR))),
    FINISH,
    EXIT,
    END,
    Step::Do(0, Request::Thread(ThreadOp::Current)),
    FINISH,
    EXIT,
    END,
];

/// Main comes to code that is never to be reached.
pub const UNREACHABLE: &[Step] = &[Step::Do(0, Request::Unreachable)];

static MUTEXES: [Row; 5] = [
    row!("release_unlocked", RELEASE_UNLOCKED),
    row!("lock_while_out", LOCK_WHILE_OUT),
    row!("mutex_into_inner", MUTEX_INTO_INNER),
    row!("many_locks", MANY_LOCKS, LONG_RUNS),
    row!("too_many_locks", TOO_MANY_LOCKS, LONG_RUNS),
];

/// The rows of mutexes.
pub fn mutexes() -> &'static [Row]
    ensures { map named result.now ≡ mutex_rows }
{
    &MUTEXES
}

static RWLOCKS: [Row; 4] = [
    row!("rwlock_read_twice", RWLOCK_READ_TWICE),
    row!("rwlock_write_then_try_write", RWLOCK_WRITE_THEN_TRY_WRITE),
    row!("read_guard_of_another", READ_GUARD_OF_ANOTHER),
    row!("rwlock_writer_and_readers", RWLOCK_WRITER_AND_READERS),
];

/// The rows of read-write locks.
pub fn rwlocks() -> &'static [Row]
    ensures { map named result.now ≡ rwlock_rows }
{
    &RWLOCKS
}

static CONDVARS: [Row; 4] = [
    row!("condvar_alone", CONDVAR_ALONE),
    row!("condvar_with_token", CONDVAR_WITH_TOKEN),
    row!("condvar_hands_over", CONDVAR_HANDS_OVER),
    row!("notify_all", NOTIFY_ALL),
];

/// The rows of condition variables.
pub fn condvars() -> &'static [Row]
    ensures { map named result.now ≡ condvar_rows }
{
    &CONDVARS
}

static WAKINGS: [Row; 5] = [
    row!("notify_wait", NOTIFY_WAIT),
    row!("second_waiter", SECOND_WAITER),
    row!("unpark_then_park", UNPARK_THEN_PARK),
    row!("park_alone", PARK_ALONE),
    row!("unpark_wakes", UNPARK_WAKES),
];

/// The rows of notifiers and tokens.
pub fn wakings() -> &'static [Row]
    ensures { map named result.now ≡ waking_rows }
{
    &WAKINGS
}

static OTHERS: [Row; 3] = [
    row!("yield_beside", YIELD_BESIDE),
    row!("named_child", NAMED_CHILD),
    row!("unreachable", UNREACHABLE),
];

/// The rows of a yield, of a thread with a name, and of code that is never reached.
pub fn others() -> &'static [Row]
    ensures { map named result.now ≡ other_rows }
{
    &OTHERS
}
