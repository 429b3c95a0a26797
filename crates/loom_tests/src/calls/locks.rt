//! Locks, condition variables and notifiers.
use crate::calls::run::{Kind, Row, make};
use loom::sync::{Condvar, Mutex, MutexGuard, Notify, RwLock, RwLockReadGuard, RwLockWriteGuard};
use loom::{Op, thread};
use std::process::Abort;

/// The calls of these tables, by their numbers there.
pub fn call(number: usize) -> Op<u64, ()> {
    let (mutex, guard) = (Mutex { number: 0 }, MutexGuard { number: 0 });
    let (lock, reader) = (RwLock { number: 0 }, RwLockReadGuard { number: 0 });
    let writer = RwLockWriteGuard { number: 0 };
    let (condvar, notifier) = (Condvar { number: 1 }, Notify { number: 0 });
    match number {
        0 => Mutex::new(1),
        1 => mutex.lock(),
        2 => mutex.try_lock(),
        3 => guard.release(2),
        4 => guard.release(3),
        5 => mutex.get_mut(),
        6 => mutex.put(4),
        7 => mutex.into_inner(),
        8 => RwLock::new(1),
        9 => lock.read(),
        10 => lock.try_read(),
        11 => lock.try_write(),
        12 => reader.release(),
        13 => lock.write(),
        14 => writer.release(2),
        15 => writer.release(3),
        16 => lock.get_mut(),
        17 => lock.put(4),
        18 => lock.into_inner(),
        19 => Condvar::new(),
        20 => thread::spawn(()),
        21 => condvar.wait(guard, 2),
        22 => condvar.notify_one(),
        23 => condvar.wait(guard, 4),
        24 => condvar.notify_all(),
        25 => condvar.wait_timeout(guard, 5),
        26 => guard.release(6),
        27 => thread::park(),
        28 => Notify::new(),
        29 => notifier.notify(),
        _ => notifier.wait(),
    }
}

// Main locks a mutex by each call, takes it apart, and finds that it is no more.
static USE_MUTEX: [Row; 10] = [
    (0, "Mutex::new", "Reply(0, Mutex(0)); Mutex { number: 0 }"),
    (
        1,
        "mutex.lock",
        "Reply(0, Locked(0, 1)); MutexGuard { number: 0 }; (MutexGuard { number: 0 }, 1)",
    ),
    (2, "mutex.try_lock", "Reply(0, WouldBlock); WouldBlock"),
    (3, "guard.release", "Reply(0, Done)"),
    (
        2,
        "mutex.try_lock",
        "Reply(0, Locked(0, 2)); MutexGuard { number: 0 }; (MutexGuard { number: 0 }, 2)",
    ),
    (4, "guard.release", "Reply(0, Done)"),
    (5, "mutex.get_mut", "Reply(0, Data(3))"),
    (6, "mutex.put", "Reply(0, Done)"),
    (7, "mutex.into_inner", "Reply(0, Data(4))"),
    (1, "mutex.lock", "Misuse"),
];

// Main reads and writes a lock by each call, takes it apart, and finds that it is no more.
static USE_LOCK: [Row; 15] = [
    (
        8,
        "RwLock::new",
        "Reply(0, RwLock(0)); RwLock { number: 0 }",
    ),
    (
        9,
        "lock.read",
        "Reply(0, ReadLocked(0, 1)); RwLockReadGuard { number: 0 }; (RwLockReadGuard { number: 0 }, 1)",
    ),
    (
        10,
        "lock.try_read",
        "Reply(0, ReadLocked(0, 1)); RwLockReadGuard { number: 0 }; (RwLockReadGuard { number: 0 }, 1)",
    ),
    (11, "lock.try_write", "Reply(0, WouldBlock); WouldBlock"),
    (12, "reader.release", "Reply(0, Done)"),
    (12, "reader.release", "Reply(0, Done)"),
    (
        13,
        "lock.write",
        "Reply(0, WriteLocked(0, 1)); RwLockWriteGuard { number: 0 }; (RwLockWriteGuard { number: 0 }, 1)",
    ),
    (10, "lock.try_read", "Reply(0, WouldBlock); WouldBlock"),
    (14, "writer.release", "Reply(0, Done)"),
    (
        11,
        "lock.try_write",
        "Reply(0, WriteLocked(0, 2)); RwLockWriteGuard { number: 0 }; (RwLockWriteGuard { number: 0 }, 2)",
    ),
    (15, "writer.release", "Reply(0, Done)"),
    (16, "lock.get_mut", "Reply(0, Data(3))"),
    (17, "lock.put", "Reply(0, Done)"),
    (18, "lock.into_inner", "Reply(0, Data(4))"),
    (9, "lock.read", "Misuse"),
];

// Main sleeps on a condition variable, and the thread that it spawned starts, changes the number, wakes main and sleeps too.
// Main sleeps again, by the call with a time, and the other thread goes on, wakes main and parks.
static WAIT_IN_TURN: [Row; 15] = [
    (0, "Mutex::new", "Reply(0, Mutex(0)); Mutex { number: 0 }"),
    (
        19,
        "Condvar::new",
        "Reply(0, Condvar(1)); Condvar { number: 1 }",
    ),
    (
        20,
        "thread::spawn",
        "Reply(0, Spawned(1, None, 2)); ThreadId(1); None",
    ),
    (
        1,
        "mutex.lock",
        "Reply(0, Locked(0, 1)); MutexGuard { number: 0 }; (MutexGuard { number: 0 }, 1)",
    ),
    (21, "condvar.wait", "Start(1)"),
    (
        1,
        "mutex.lock",
        "Reply(1, Locked(0, 2)); MutexGuard { number: 0 }; (MutexGuard { number: 0 }, 2)",
    ),
    (4, "guard.release", "Reply(1, Done)"),
    (22, "condvar.notify_one", "Reply(1, Done)"),
    (
        1,
        "mutex.lock",
        "Reply(1, Locked(0, 3)); MutexGuard { number: 0 }; (MutexGuard { number: 0 }, 3)",
    ),
    (
        23,
        "condvar.wait",
        "Reply(0, Locked(0, 4)); MutexGuard { number: 0 }; (MutexGuard { number: 0 }, 4)",
    ),
    (24, "condvar.notify_all", "Reply(0, Done)"),
    (
        25,
        "condvar.wait_timeout",
        "Reply(1, Locked(0, 5)); MutexGuard { number: 0 }; (MutexGuard { number: 0 }, 5)",
    ),
    (24, "condvar.notify_all", "Reply(1, Done)"),
    (26, "guard.release", "Reply(1, Done)"),
    (
        27,
        "thread::park",
        "Reply(0, Waited(0, 6, false)); MutexGuard { number: 0 }; false; (MutexGuard { number: 0 }, 6)",
    ),
];

// Main waits on a notifier that was notified before.
static WAIT_ON_NOTIFIER: [Row; 3] = [
    (
        28,
        "Notify::new",
        "Reply(0, Notify(0)); Notify { number: 0 }",
    ),
    (29, "notifier.notify", "Reply(0, Done)"),
    (30, "notifier.wait", "Reply(0, Done)"),
];

/// Makes these calls.
pub fn make_all(rt: &(impl Abort + AllocGlobal)) {
    make::<u64, _>(rt, Kind::Locks, &USE_MUTEX);
    make::<u64, _>(rt, Kind::Locks, &USE_LOCK);
    make::<u64, _>(rt, Kind::Locks, &WAIT_IN_TURN);
    make::<u64, _>(rt, Kind::Locks, &WAIT_ON_NOTIFIER);
}
