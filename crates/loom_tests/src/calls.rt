//! Each call of the handles once: a function of each module has its calls by their numbers, and tables say in which order they
//! are made, and what each is to be answered.
mod answer;
mod atomics;
mod cells;
mod channels;
mod counts;
mod exchanges;
mod locks;
mod run;
mod threads;
mod values;
mod wakers;

use crate::asserting::same;
use crate::page::Page;
use loom::cell::MutPtr;
use loom::lazy_static::Lazy;
use loom::sync::Arc;
use loom::thread::{AccessError, JoinHandle, LocalKey, ThreadId};
use loom_views::rt::num::Numeric;
use std::mem;
use std::process::Abort;

#[test]
fn each_call_comes_to_what_its_row_says(rt: HostRuntime) {
    atomics::make_all(&rt);
    exchanges::make_all(&rt);
    cells::make_all(&rt);
    counts::make_all(&rt);
    locks::make_all(&rt);
    channels::make_all(&rt);
    threads::make_all(&rt);
    values::make_all(&rt);
    wakers::make_all(&rt);
    others_are_printed(&rt);
}

// What is no operation, as it is printed.
fn others_are_printed(rt: &(impl Abort + AllocGlobal)) {
    let mut page = Page::new(rt.alloc());
    put_others(&mut page);
    put_written(&mut page);
    let text =
        "true false 18446744073709551517 ThreadId(1) LocalKey { .. } Lazy { .. } AccessError already destroyed JoinHandle 6 7";
    same(rt, page.text.as_str(), text, "what is no operation");
}

fn put_others(page: &mut Page) {
    let (one, other) = (Arc { number: 0 }, Arc { number: 1 });
    let (is_same, is_other) = (one.ptr_eq(one), one.ptr_eq(other));
    // A sign is extended.
    let number = (-99i8).into_u64();
    let (id, key, lazy, error) = (ThreadId(1), LocalKey::new(1), Lazy::new(2), AccessError);
    let _ = write!(
        page.text,
        "{is_same} {is_other} {number} {id:?} {key:?} {lazy:?} {error:?} {error}"
    );
}

// A thread's handle, and what a write's data is by its pointer: the first change of it, and the second.
fn put_written(page: &mut Page) {
    let handle = JoinHandle {
        thread: 1,
        name: None,
        notifier: 0,
    };
    let (pointer, mut data) = (MutPtr { number: 0 }, 5u64);
    *pointer.deref(&mut data) = 6;
    let before = pointer.with(&mut data, |data| mem::replace(data, 7));
    let _ = write!(page.text, " {handle:?} {before} {data}");
}
