//! The runs in which the calls of the tables are made.
use crate::asserting::same;
use crate::calls::answer::put_answer;
use crate::calls::{atomics, cells, channels, counts, exchanges, locks, threads, values, wakers};
use crate::page::Page;
use loom::rt::execution::{Execution, Limits};
use loom::rt::path::{Path, Search};
use loom::{Numeric, Op};
use std::fmt::Debug;
use std::process::Abort;

// One run is made, so it doesn't matter what else is tried.
const SEARCH: Search = Search {
    reduce: true,
    bound: None,
    max_branches: 40,
    explores: true,
};

const LIMITS: Limits = Limits {
    max_threads: 2,
    max_steps: 40,
};

/// A call's number and name, and the answer to it, as `put_answer` writes it.
pub type Row = (usize, &'static str, &'static str);

/// The modules of calls.
#[derive(Clone, Copy)]
pub enum Kind {
    Atomics,
    Exchanges,
    Cells,
    Counts,
    Locks,
    Channels,
    Threads,
    Values,
    Wakers,
}

impl Kind {
    // The call of this number, where atomics hold a `T`.
    fn call<T: Numeric>(self, number: usize) -> Op<u64, ()> {
        match self {
            Kind::Atomics => atomics::call(number),
            Kind::Exchanges => exchanges::call::<T>(number),
            Kind::Cells => cells::call(number),
            Kind::Counts => counts::call(number),
            Kind::Locks => locks::call(number),
            Kind::Channels => channels::call(number),
            Kind::Threads => threads::call(number),
            Kind::Values => values::call(number),
            Kind::Wakers => wakers::call(number),
        }
    }
}

/// Makes the calls of a run of main, and of one thread more where main spawns it, where atomics hold a `T`. Each is answered
/// as its row says.
pub fn make<T: Numeric + Debug + Drop, R: Abort + AllocGlobal>(rt: &R, kind: Kind, rows: &[Row]) {
    let mut execution = Execution::new(rt.alloc(), LIMITS).expect(rt, "no memory for a run");
    make_in::<T, R>(rt, &mut execution, kind, rows);
    let_go(execution);
}

// Drops the run, with all that it holds.
fn let_go(_execution: Execution<u64>) {}

// Makes the calls of these rows in this run.
fn make_in<T: Numeric + Debug + Drop, R: Abort + AllocGlobal>(
    rt: &R,
    execution: &mut Execution<u64>,
    kind: Kind,
    rows: &[Row],
) {
    let mut path = Path::new(rt.alloc(), SEARCH);
    let mut page = Page::new(rt.alloc());
    make_each::<T, R>(rt, execution, &mut path, &mut page, kind, rows);
}

fn make_each<T: Numeric + Debug + Drop, R: Abort + AllocGlobal>(
    rt: &R,
    execution: &mut Execution<u64>,
    path: &mut Path,
    page: &mut Page,
    kind: Kind,
    rows: &[Row],
) {
    for (number, name, text) in rows {
        page.text.clear();
        put_answer::<T>(
            page,
            execution.submit(path, kind.call::<T>(*number).request),
        );
        same(rt, page.text.as_str(), *text, *name);
    }
}
