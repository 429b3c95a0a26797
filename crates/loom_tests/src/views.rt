//! Small histories of views: what may be read after what, and what races.
ghost use Rattle.std.specs.Prelude.{◌<◌};

use crate::asserting::{holds, same};
use crate::page::Page;
use crate::views::Call::{
    Acquire, AcquireFromStamp, AddAtomic, AddCell, AddPoint, AddStamp, Fence, JoinThread, Load,
    MarkYield, Raise, Read, Readable, Release, ReleaseFence, ReleaseToStamp, Spawn, Stamp, Store,
    UnsyncLoad, UpdateFail, UpdateRead, UpdateWrite, WithMut, WithMutEnd, Write,
};
use loom_views::rt::atomic::reader::Reader::{self, Load as Any, Update};
use loom_views::rt::num::change::Change;
use loom_views::rt::num::{Numbers, Numeric};
use loom_views::rt::views::Views;
use loom_views::rt::views::ranked::RankedViews;
use loom_views::rt::vv::VersionVec;
use loom_views::same::Same;
use std::process::Abort;
use std::sync::atomic::Ordering::{self, Relaxed};

/// A call of a method of views. The first number is the thread, where there is one, and the next one the object or the stamp.
#[derive(Clone, Copy)]
enum Call {
    AddPoint,
    AddAtomic(usize, u64),
    AddCell(usize),
    AddStamp,
    Spawn(usize),
    Raise(usize),
    Acquire(usize, usize),
    Release(usize, usize, Ordering),
    Stamp(usize, usize),
    ReleaseToStamp(usize, usize, Ordering),
    AcquireFromStamp(usize, usize),
    ReleaseFence(usize),
    Fence(usize, Ordering),
    JoinThread(usize, usize),
    MarkYield(usize),
    Readable(usize, usize, Reader),
    Load(usize, usize, usize, Ordering),
    Store(usize, usize, u64, Ordering),
    UpdateRead(usize, usize, usize),
    UpdateWrite(usize, usize, usize, u64, Ordering),
    UpdateFail(usize, usize, usize, Ordering),
    UnsyncLoad(usize, usize),
    WithMut(usize, usize),
    WithMutEnd(usize, usize, u64),
    Read(usize, usize),
    Write(usize, usize),
}

impl Call {
    // Makes the call, and writes what it returns, if that is anything.
    fn make(self, views: &mut Views, page: &mut Page) {
        match self {
            AddPoint => page.add_debug(&views.add_point()),
            AddAtomic(thread, value) => page.add_debug(&views.add_atomic(thread, value)),
            AddCell(thread) => page.add_debug(&views.add_cell(thread)),
            AddStamp => page.add_debug(&views.add_stamp()),
            Spawn(parent) => page.add_debug(&views.spawn(parent)),
            Raise(thread) => page.add_debug(&views.raise(thread)),
            Acquire(thread, at) => views.acquire(thread, at),
            Release(thread, at, order) => views.release(thread, at, order),
            Stamp(thread, stamp) => views.stamp(thread, stamp),
            ReleaseToStamp(thread, stamp, order) => views.release_to_stamp(thread, stamp, order),
            AcquireFromStamp(thread, stamp) => views.acquire_from_stamp(thread, stamp),
            ReleaseFence(thread) => views.release_fence(thread),
            Fence(thread, order) => views.fence(thread, order),
            JoinThread(thread, other) => views.join_thread(thread, other),
            MarkYield(thread) => views.mark_yield(thread),
            Readable(thread, at, reader) => page.add_debug(&views.readable(thread, at, reader)),
            Load(thread, at, slot, order) => page.add_debug(&views.load(thread, at, slot, order)),
            Store(thread, at, value, order) => page.add_debug(&views.store(
                thread, at, value, order,
            )),
            UpdateRead(thread, at, slot) => page.add_debug(&views.update_read(thread, at, slot)),
            UpdateWrite(thread, at, slot, value, order) => {
                page.add_debug(&views.update_write(thread, at, slot, value, order))
            }
            UpdateFail(thread, at, slot, order) => { views.update_fail(thread, at, slot, order) }
            UnsyncLoad(thread, at) => page.add_debug(&views.unsync_load(thread, at)),
            WithMut(thread, at) => page.add_debug(&views.with_mut(thread, at)),
            WithMutEnd(thread, at, value) => page.add_debug(&views.with_mut_end(thread, at, value)),
            Read(thread, at) => page.add_debug(&views.read(thread, at)),
            Write(thread, at) => page.add_debug(&views.write(thread, at)),
        }
    }
}

/// A call, and what it returns, as a text.
type Row = (Call, &'static str);

const ANY: Reader = Any(Relaxed);

const DONE: &str = "Ok(())";

const RACE: &str = "Err(Race)";

const MISUSE: &str = "Err(Misuse)";

// The slots that may be read.
const FIRST_TWO: &str = "Ok([true, true, false, false, false, false, false])";

const SECOND: &str = "Ok([false, true, false, false, false, false, false])";

const LAST_TWO: &str = "Ok([false, true, true, false, false, false, false])";

const THIRD: &str = "Ok([false, false, true, false, false, false, false])";

/// Calls that come after some first ones.
struct History {
    name: &'static str,
    first: &'static [Row],
    then: &'static [Row],
}

// Main has a notifier, 0, and an atomic, 1, which begins with 5; it spawns a child, and stores 7.
const STORED: &[Row] = &[
    (AddPoint, DONE),
    (AddAtomic(0, 5), DONE),
    (Spawn(0), DONE),
    (Raise(0), DONE),
    (Store(0, 1, 7, Relaxed), DONE),
    (Raise(1), DONE),
];

// Main has a notifier, 0, and a cell, 1; it spawns a child. Each is about to access the cell.
const WITH_CELL: &[Row] = &[
    (AddPoint, DONE),
    (AddCell(0), DONE),
    (Spawn(0), DONE),
    (Raise(0), DONE),
    (Raise(1), DONE),
];

static OF_STORES: [History; 4] = [
    History {
        name: "a store may be missed",
        first: STORED,
        then: &[
            (Release(0, 0, Relaxed), ""),
            (Acquire(1, 0), ""),
            (Readable(1, 1, ANY), FIRST_TWO),
            (Load(1, 1, 0, Relaxed), "Ok(5)"),
        ],
    },
    History {
        name: "a store is seen once it was released",
        first: STORED,
        then: &[
            (Release(0, 0, Ordering::Release), ""),
            (Acquire(1, 0), ""),
            (Readable(1, 1, ANY), SECOND),
            (Load(1, 1, 1, Relaxed), "Ok(7)"),
        ],
    },
    // The sender stores 9 and releases that after the message was stamped.
    History {
        name: "a message brings what was released before it",
        first: STORED,
        then: &[
            (AddStamp, "Ok(0)"),
            (AddStamp, "Ok(1)"),
            (AcquireFromStamp(1, 0), ""),
            (Readable(1, 1, ANY), FIRST_TWO),
            (Release(0, 0, Ordering::Release), ""),
            (Stamp(0, 0), ""),
            (Raise(0), DONE),
            (Store(0, 1, 9, Relaxed), DONE),
            (Release(0, 0, Ordering::Release), ""),
            (ReleaseToStamp(0, 1, Ordering::Release), ""),
            (AcquireFromStamp(1, 0), ""),
            (Readable(1, 1, ANY), LAST_TWO),
            (AcquireFromStamp(1, 1), ""),
            (Readable(1, 1, ANY), THIRD),
        ],
    },
    History {
        name: "a fence releases what came before it",
        first: STORED,
        then: &[
            (ReleaseFence(0), ""),
            (Release(0, 0, Relaxed), ""),
            (Acquire(1, 0), ""),
            (Readable(1, 1, ANY), SECOND),
        ],
    },
];

static OF_READS: [History; 4] = [
    History {
        name: "a join brings what the other did",
        first: STORED,
        then: &[(JoinThread(1, 0), ""), (Readable(1, 1, ANY), SECOND)],
    },
    History {
        name: "a yield leaves what was read",
        first: STORED,
        then: &[
            (Load(1, 1, 0, Relaxed), "Ok(5)"),
            (Readable(1, 1, ANY), FIRST_TWO),
            (MarkYield(1), ""),
            (Readable(1, 1, ANY), SECOND),
        ],
    },
    History {
        name: "a read-modify-write reads the newest",
        first: STORED,
        then: &[
            (Readable(1, 1, Update), SECOND),
            (UpdateRead(1, 1, 1), "Ok(7)"),
            (UpdateWrite(1, 1, 1, 8, Ordering::Release), DONE),
            (Raise(0), DONE),
            (Readable(0, 1, Update), THIRD),
            (UpdateRead(0, 1, 2), "Ok(8)"),
            (UnsyncLoad(0, 1), RACE),
            (UpdateFail(0, 1, 2, Ordering::Acquire), ""),
            (UnsyncLoad(0, 1), "Ok(8)"),
        ],
    },
    History {
        name: "a mutation leaves its value",
        first: STORED,
        then: &[
            (WithMut(1, 1), RACE),
            (WithMut(0, 1), "Ok(7)"),
            (UnsyncLoad(0, 1), "Err(OpenAccess)"),
            (WithMutEnd(0, 1, 9), DONE),
            (UnsyncLoad(0, 1), "Ok(9)"),
        ],
    },
];

// Main has two atomics, which begin with 0; it spawns a child.
const WITH_ATOMICS: &[Row] = &[
    (AddAtomic(0, 0), DONE),
    (AddAtomic(0, 0), DONE),
    (Spawn(0), DONE),
];

static OF_FENCES: [History; 3] = [
    // Each thread stores 1 to the atomic of its number, passes a fence, and is about to load from the other's.
    History {
        name: "one of two sees the other past SeqCst fences",
        first: WITH_ATOMICS,
        then: &[
            (Raise(0), DONE),
            (Store(0, 0, 1, Relaxed), DONE),
            (Raise(0), DONE),
            (Fence(0, Ordering::SeqCst), ""),
            (Raise(0), DONE),
            (Raise(1), DONE),
            (Store(1, 1, 1, Relaxed), DONE),
            (Raise(1), DONE),
            (Fence(1, Ordering::SeqCst), ""),
            (Raise(1), DONE),
            (Readable(0, 1, ANY), FIRST_TWO),
            (Readable(1, 0, ANY), SECOND),
        ],
    },
    History {
        name: "neither needs to see the other past AcqRel fences",
        first: WITH_ATOMICS,
        then: &[
            (Raise(0), DONE),
            (Store(0, 0, 1, Relaxed), DONE),
            (Raise(0), DONE),
            (Fence(0, Ordering::AcqRel), ""),
            (Raise(0), DONE),
            (Raise(1), DONE),
            (Store(1, 1, 1, Relaxed), DONE),
            (Raise(1), DONE),
            (Fence(1, Ordering::AcqRel), ""),
            (Raise(1), DONE),
            (Readable(0, 1, ANY), FIRST_TWO),
            (Readable(1, 0, ANY), FIRST_TWO),
        ],
    },
    History {
        name: "an acquire fence takes in what was read before",
        first: WITH_ATOMICS,
        then: &[
            (Raise(0), DONE),
            (Store(0, 0, 7, Relaxed), DONE),
            (Raise(0), DONE),
            (Fence(0, Ordering::Release), ""),
            (Raise(0), DONE),
            (Store(0, 1, 1, Relaxed), DONE),
            (Raise(1), DONE),
            (Load(1, 1, 1, Relaxed), "Ok(1)"),
            (Readable(1, 0, ANY), FIRST_TWO),
            (Raise(1), DONE),
            (Fence(1, Ordering::Acquire), ""),
            (Readable(1, 0, ANY), SECOND),
        ],
    },
];

static OF_CELLS: [History; 4] = [
    History {
        name: "two may read a cell and neither may write then",
        first: WITH_CELL,
        then: &[
            (Read(0, 1), DONE),
            (Read(1, 1), DONE),
            (Write(0, 1), RACE),
            (Write(1, 1), RACE),
            (JoinThread(0, 1), ""),
            (Write(0, 1), DONE),
            (Read(1, 1), RACE),
        ],
    },
    History {
        name: "a release brings the write of a cell",
        first: WITH_CELL,
        then: &[
            (Write(0, 1), DONE),
            (Release(0, 0, Ordering::Release), ""),
            (Read(1, 1), RACE),
            (Acquire(1, 0), ""),
            (Read(1, 1), DONE),
            (Write(1, 1), DONE),
            (Read(1, 0), MISUSE),
        ],
    },
    History {
        name: "a notifier holds no value",
        first: STORED,
        then: &[
            (Readable(1, 0, ANY), MISUSE),
            (Store(1, 0, 7, Relaxed), MISUSE),
            (Raise(2), MISUSE),
        ],
    },
    History {
        name: "five threads are the most",
        first: &[],
        then: &[
            (Spawn(0), DONE),
            (Spawn(0), DONE),
            (Spawn(0), DONE),
            (Spawn(0), DONE),
            (Spawn(0), "Err(TooManyThreads)"),
        ],
    },
];

// Each call returns what its row says.
fn all_return(rt: &(impl Abort + AllocGlobal), views: &mut Views, rows: &[Row], name: &str) {
    let mut page = Page::new(rt.alloc());
    for (call, text) in rows {
        page.text.clear();
        call.make(views, &mut page);
        same(rt, page.text.as_str(), *text, name);
    }
}

fn come_about(rt: &(impl Abort + AllocGlobal), histories: &'static [History]) {
    for history in histories {
        let mut views = Views::new(rt.alloc());
        all_return(rt, &mut views, history.first, history.name);
        all_return(rt, &mut views, history.then, history.name);
    }
}

#[test]
fn histories_come_about(rt: HostRuntime) {
    come_about(&rt, &OF_STORES);
    come_about(&rt, &OF_READS);
    come_about(&rt, &OF_FENCES);
    come_about(&rt, &OF_CELLS);
}

// Puts on the page how two vectors compare, and what they come to when the one joins the other.
fn put_vectors(page: &mut Page) {
    let mut one = VersionVec::new();
    let mut other = VersionVec::new();
    let are_raised = one.inc(0) && other.inc(3);
    let (order, ahead) = (one.partial_cmp(&other), one.ahead(&other));
    one.join(&other);
    let (joined, is_behind) = (one.versions(), other < one);
    let _ = write!(
        page.text,
        "{are_raised} {order:?} {ahead:?} {joined:?} {is_behind}; "
    );
}

// Puts on the page numbers that were made bits and are numbers again.
fn put_numbers(page: &mut Page) {
    let signed = i8::from_u64((-3i8).into_u64());
    let highest = u64::from_u64(u64::MAX.into_u64());
    let flag = bool::from_u64(true.into_u64());
    let _ = write!(page.text, "{signed} {highest} {flag}");
}

// A change, the type of its number, the number that is changed, and what it comes to.
static CHANGES: [(Change, Numbers, u64, u64); 7] = [
    (Change::Max(256 + 3), Numbers::U8, 5, 5),
    (Change::Max(256 + 7), Numbers::U8, 5, 7),
    (Change::Min(256 + 3), Numbers::U8, 5, 3),
    (Change::Max(128), Numbers::I8, 5, 5),
    (Change::Min(2), Numbers::Bool, 1, 1),
    (Change::And(2), Numbers::Bool, 1, 1),
    (Change::Xor(2), Numbers::Bool, 1, 0),
];

// Whether each change is by a number of the type.
fn are_changed(rt: &impl Abort) {
    for (change, numbers, old, new) in &CHANGES {
        holds(rt, change.apply(*numbers, *old) == *new, "a change");
    }
}

#[test]
fn parts_of_views_are_as_they_are_told(rt: HostRuntime) {
    let mut page = Page::new(rt.alloc());
    put_vectors(&mut page);
    put_numbers(&mut page);
    let text = "true None Some(3) [1, 0, 0, 1, 0] true; -3 18446744073709551615 true";
    same(&rt, page.text.as_str(), text, "vectors and numbers");
    are_changed(&rt);
}

// A vector with these counts of threads 0 and 1.
fn counted(rt: &impl Abort, zero: usize, one: usize) -> VersionVec {
    let mut vector = VersionVec::new();
    raise_often(rt, &mut vector, 0, zero);
    raise_often(rt, &mut vector, 1, one);
    vector
}

// Raises the thread's version so many times.
fn raise_often(rt: &impl Abort, vector: &mut VersionVec, thread: usize, times: usize)
    requires { thread < 5 }
{
    for _ in 0..times {
        holds(rt, vector.inc(thread), "a raise of a version");
    }
}

// A thread that waits for another value of the atomic.
fn spin(views: &mut Views) {
    let _ = views.raise(0);
    let _ = views.load(0, 0, 0, Ordering::Acquire);
}

// These views by ranks.
fn by_ranks<R: AllocGlobal + Abort>(rt: &R, views: &Views) -> RankedViews {
    let spare = RankedViews::new(rt.alloc());
    views
        .ranked(rt.alloc(), spare)
        .expect(rt, "no memory for views")
}

#[test]
fn spinning_comes_back(rt: HostRuntime) {
    let mut views = Views::new(rt.alloc());
    let _ = views.add_atomic(0, 0);
    spin(&mut views);
    let once = by_ranks(&rt, &views);
    spin(&mut views);
    let again = by_ranks(&rt, &views);
    holds(&rt, once.is_same(&again), "by ranks they are the same");
    let _ = views.store(0, 0, 1, Ordering::Release);
    let stored = by_ranks(&rt, &views);
    holds(&rt, !once.is_same(&stored), "after a store they aren't");
}

#[test]
fn view_words(rt: HostRuntime) {
    let first = counted(&rt, 1, 2);
    let second = counted(&rt, 3, 0);
    holds(&rt, first.word() == 131_073, "the word of two counts");
    let mut both = first;
    both.join(&second);
    holds(&rt, both.word() == 131_075, "the word of a join");
    holds(&rt, first.ahead(&second) == Some(0), "the second is ahead");
    holds(&rt, second.ahead(&first) == Some(1), "the first is ahead");
}
