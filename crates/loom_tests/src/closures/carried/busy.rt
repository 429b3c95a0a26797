//! Checks beside loops that keep all processors busy: they end, and find the same.
use crate::closures::carried::orders::{FENCES, VALID};
use crate::closures::carried::threads::{INTO_INNER, SENDERS, SPURIOUS_POLL};
use crate::closures::carried::{Test, is_found};
use loom::runner::Host;
use std::alloc::{AllocError, Global};
use std::process::Abort;
use std::sync::atomic::{AtomicBool, Ordering};
use std::sync::{Arc, Wait};
use std::test::Fail;
use std::thread::{self, JoinHandle};

/// Loops until it is told that this is over.
fn loop_until<R: Wait>(rt: &R, is_over: &AtomicBool) {
    for _ in rt.forever() {
        if is_over.load(Ordering::SeqCst) {
            return;
        }
    }
}

/// Starts so many threads that loop, as far as the host lets it.
fn start_loops<R: Host>(
    rt: &R,
    alloc: Global,
    count: usize,
    is_over: &Arc<AtomicBool, Global>,
) -> Result<Vec<JoinHandle<()>>, AllocError> {
    let mut loops = Vec::new(alloc);
    for _ in 0..count {
        let (again, theirs) = (rt.clone()?, Arc::try_clone(is_over)?);
        if let Ok(started) = thread::spawn(rt, move || loop_until(&again, &*theirs)) {
            loops.push(started)?;
        }
    }
    Ok(loops)
}

fn is_found_often<R: Abort + Host>(rt: &R, test: &Test, checks: u32) -> Result<(), Fail> {
    for _ in 0..checks {
        is_found(rt, test)?;
    }
    Ok(())
}

/// So many checks of the test find what one finds, beside twice as many loops as there are processors.
fn is_found_beside_loops<R: Abort + Host>(rt: &R, test: &Test, checks: u32) -> Result<(), Fail> {
    let processors = match thread::available_parallelism(rt) {
        Ok(count) => count.get(),
        Err(_) => 1,
    };
    let is_over = Arc::new(rt.alloc(), AtomicBool::new(false))?;
    let loops = start_loops(rt, rt.alloc(), processors.saturating_mul(2), &is_over)?;
    let found = is_found_often(rt, test, checks);
    is_over.store(true, Ordering::SeqCst);
    for each in loops {
        each.join(rt);
    }
    found
}

// Each of these tests makes two thousand runs.

#[test]
fn messages_beside_busy_loops(rt: HostRuntime) -> Result<(), Fail> {
    is_found_beside_loops(&rt, &VALID, 500)
}

#[test]
fn fences_beside_busy_loops(rt: HostRuntime) -> Result<(), Fail> {
    is_found_beside_loops(&rt, &FENCES, 134)
}

#[test]
fn channels_beside_busy_loops(rt: HostRuntime) -> Result<(), Fail> {
    is_found_beside_loops(&rt, &SENDERS, 667)
}

#[test]
fn locks_beside_busy_loops(rt: HostRuntime) -> Result<(), Fail> {
    is_found_beside_loops(&rt, &INTO_INNER, 223)
}

#[test]
fn futures_beside_busy_loops(rt: HostRuntime) -> Result<(), Fail> {
    is_found_beside_loops(&rt, &SPURIOUS_POLL, 58)
}
