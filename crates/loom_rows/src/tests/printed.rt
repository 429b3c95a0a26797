//! What the rows print.
use super::rows::program_rows;
use super::words::says;
use crate::tests::asserting::holds;
use crate::tests::pens::{Pen, Printed};
use loom_examples::rows::{Row, run_row};
use loom_tests::page::Page;
use std::alloc::Global;
use std::process::Abort;
use std::rt::{Clock, Files};

// A row, its line and its status.
type Line = (&'static str, &'static str, u8);

// Each row but those of runs as long as they may be.
static FIRST: [Line; 16] = [
    ("finish_only", "complete 1\n", 0),
    ("spawn_only", "complete 1\n", 0),
    ("lock_beside", "complete 3\n", 0),
    ("lock_beside_reduced", "complete 1\n", 0),
    ("lock_beside_two", "stopped 2\n", 0),
    ("mutex_forever", "failed 12 0\n", 1),
    ("fail_at_once", "failed 1 0\n", 1),
    ("two_mutexes_deadlock", "failed 2 3 t1 t1 t2 t2 t-\n", 1),
    ("load_beside", "complete 6\n", 0),
    ("load_beside_reduced", "complete 4\n", 0),
    ("store_seven", "complete 1\n", 0),
    ("store_buffering", "complete 30\n", 0),
    ("load_buffering", "complete 15\n", 0),
    ("check_ordering_valid", "complete 4\n", 0),
    (
        "check_ordering_invalid_1",
        "failed 1 2 t1 t1 t1 t1 t0 l1 t0 l0\n",
        1,
    ),
    (
        "checks_fail",
        "failed 1 0 t1 t1 l0 t1 t1 t0 t2 t2 l0 t2 t2 t0 t0 l1\n",
        1,
    ),
];

static ATOMICS: [Line; 18] = [
    ("u8_functions", "complete 1\n", 0),
    ("i8_functions", "complete 1\n", 0),
    ("bool_nand", "complete 1\n", 0),
    ("compare_exchange", "complete 1\n", 0),
    ("unsync_race", "failed 3 0 t0 t1\n", 1),
    ("load_in_with_mut", "failed 4 0 t0 l0\n", 1),
    ("relaxed_fence", "failed 16 0\n", 1),
    ("fences_then_relaxed", "failed 10 0\n", 1),
    ("unsync_load_forever", "failed 12 0\n", 1),
    ("sb_fences", "complete 15\n", 0),
    ("fetch_add_atomic", "complete 4\n", 0),
    ("two_rmw", "complete 115\n", 0),
    ("orders_equal", "complete 3216\n", 0),
    ("three_adds", "complete 1981\n", 0),
    ("fetch_update_once", "complete 1\n", 0),
    ("acq_rel", "complete 412\n", 0),
    ("atomic_causality_success", "complete 6\n", 0),
    ("atomic_causality_fail", "failed 1 0\n", 1),
];

static CELLS: [Line; 17] = [
    ("unsafe_cell_race_mut_mut_1", "failed 3 0 t1\n", 1),
    ("unsafe_cell_race_mut_mut_2", "failed 3 0 t1 t1 t0 t2\n", 1),
    ("unsafe_cell_race_mut_immut_1", "failed 3 0 t1\n", 1),
    ("unsafe_cell_race_mut_immut_2", "failed 3 0 t1\n", 1),
    (
        "unsafe_cell_race_mut_immut_3",
        "failed 3 0 t1 t1 t0 t2\n",
        1,
    ),
    (
        "unsafe_cell_race_mut_immut_4",
        "failed 3 0 t1 t1 t0 t2\n",
        1,
    ),
    (
        "unsafe_cell_race_mut_immut_5",
        "failed 3 0 t1 t1 t0 t2\n",
        1,
    ),
    ("unsafe_cell_ok_1", "complete 1\n", 0),
    ("unsafe_cell_ok_2", "complete 1\n", 0),
    ("unsafe_cell_ok_3", "complete 1\n", 0),
    (
        "unsafe_cell_access_after_sync",
        "failed 3 2 t1 t1 t1 t0 l1\n",
        1,
    ),
    ("read_in_write", "failed 4 0\n", 1),
    ("detect_mem_leak", "failed 5 0 t-\n", 1),
    ("arc_count", "complete 1\n", 0),
    ("arc_unwrap", "complete 1\n", 0),
    ("track_then_arc", "failed 6 0 t-\n", 1),
    ("arc_then_track", "failed 5 0 t-\n", 1),
];

static LOCKS: [Line; 14] = [
    ("release_unlocked", "failed 14 0\n", 1),
    ("lock_while_out", "failed 14 0 t0\n", 1),
    ("mutex_into_inner", "complete 9\n", 0),
    ("many_locks", "complete 1\n", 0),
    ("rwlock_read_twice", "complete 1\n", 0),
    ("rwlock_write_then_try_write", "complete 1\n", 0),
    ("read_guard_of_another", "failed 14 0 t0 t1\n", 1),
    ("rwlock_writer_and_readers", "complete 51\n", 0),
    ("condvar_alone", "failed 2 0 t0 t0 t-\n", 1),
    ("condvar_with_token", "failed 2 0 t0 t0 t-\n", 1),
    ("condvar_hands_over", "complete 8\n", 0),
    ("notify_all", "complete 110\n", 0),
    ("notify_wait", "complete 2\n", 0),
    ("second_waiter", "failed 21 0 s0 t1\n", 1),
];

static WAITS: [Line; 21] = [
    ("unpark_then_park", "complete 1\n", 0),
    ("park_alone", "failed 2 0 t-\n", 1),
    ("unpark_wakes", "complete 3\n", 0),
    ("yield_beside", "complete 1\n", 0),
    ("named_child", "complete 1\n", 0),
    ("unreachable", "failed 15 0\n", 1),
    ("send_then_recv", "complete 1\n", 0),
    ("recv_after_drop", "complete 1\n", 0),
    ("commutative_senders", "complete 3\n", 0),
    ("non_commutative_senders1", "failed 1 1 t1 t2 t2 t2 t0\n", 1),
    ("try_recv_empty", "complete 1\n", 0),
    ("drop_receiver", "complete 1\n", 0),
    ("message_left", "failed 7 0 t0 t-\n", 1),
    ("send_late", "complete 1\n", 0),
    ("name_sent", "complete 2\n", 0),
    ("ready_at_once", "complete 1\n", 0),
    ("waker_leak", "failed 5 0 t0 t0 t-\n", 1),
    ("waker_round", "complete 1\n", 0),
    ("wait_taken", "failed 14 0 s0 t1 t1 t1 t1 t0\n", 1),
    ("wake_dropped", "failed 14 0 t0 t0 t0 t0\n", 1),
    ("spurious_poll", "complete 35\n", 0),
];

static OTHERS: [Line; 16] = [
    ("lazy_once", "complete 1\n", 0),
    ("lazy_late", "failed 17 0 t1\n", 1),
    ("local_twice", "failed 22 0\n", 1),
    ("local_gone", "failed 18 0\n", 1),
    ("local_access_error", "complete 1\n", 0),
    ("local_order", "complete 1\n", 0),
    ("stop_exploring", "complete 1\n", 0),
    ("stop_exploring_twice", "failed 19 0\n", 1),
    ("skip_branch", "complete 1\n", 0),
    ("never_explore", "complete 1\n", 0),
    ("explore_first", "complete 3\n", 0),
    ("spin_alone", "failed 9 0 t0 t0 t0\n", 1),
    ("finish_twice", "failed 14 0\n", 1),
    ("exit_first", "failed 14 0\n", 1),
    ("put_absent", "failed 14 0\n", 1),
    ("guard_left", "failed 2 0 t0 t1 t-\n", 1),
];

static FENCES: [Line; 2] = [
    ("fences", "complete 1\n", 0),
    ("too_many_fences", "failed 10 0\n", 1),
];

// The rows print these lines, and nothing on standard error.
fn print(rt: &(impl Abort + AllocGlobal + Clock + Files), lines: &'static [Line]) {
    for (name, line, status) in lines {
        prints(rt, *name, *line, *status);
    }
}

fn prints(rt: &(impl Abort + AllocGlobal + Clock + Files), name: &str, line: &str, status: u8) {
    let printed = Printed {
        out: line,
        goes_on: false,
        err: "",
        status,
    };
    says(rt, &[name], &printed);
}

#[test]
fn rows_print_their_lines(rt: HostRuntime) {
    print(&rt, &FIRST);
    print(&rt, &ATOMICS);
    print(&rt, &CELLS);
    print(&rt, &LOCKS);
    print(&rt, &WAITS);
    print(&rt, &OTHERS);
    print(&rt, &FENCES);
}

/// A line that begins so, goes on with these choices of main and of the other thread, and ends.
pub fn long_line(alloc: Global, begins: &str, main: usize, other: usize, ends: &str) -> Page {
    let mut line = Page::new(alloc);
    line.add(begins);
    line.add_often(" t0", main);
    line.add_often(" t1", other);
    line.add(ends);
    line
}

// The row fails, and prints so many choices of main and of the other thread.
fn fails_late(
    rt: &(impl Abort + AllocGlobal + Clock + Files),
    name: &str,
    begins: &str,
    main: usize,
    other: usize,
) {
    let line = long_line(rt.alloc(), begins, main, other, "\n");
    prints(rt, name, line.text.as_str(), 1);
}

#[test]
fn accesses_and_stores_are_counted(rt: HostRuntime) {
    fails_late(&rt, "too_many_locks", "failed 10 0", 65_535, 0);
    fails_late(&rt, "many_stores", "failed 11 0", 40_000, 25_536);
}

// Whether the status is 2 where a pen takes nothing that the row is to print, and the other one was given nothing.
fn is_refused(
    rt: &(impl AllocGlobal + Clock + Files),
    rows: &[Row],
    name: &str,
    breaks_out: bool,
) -> bool {
    let mut out = Pen::new(rt.alloc());
    let mut err = Pen::new(rt.alloc());
    out.is_broken = breaks_out;
    err.is_broken = !breaks_out;
    let status = run_row(rt, rows, &[name], &mut out, &mut err);
    status == 2 && out.text.is_empty() && err.text.is_empty()
}

fn are_refused(rt: &(impl Abort + AllocGlobal + Clock + Files), rows: &[Row]) {
    holds(rt, is_refused(rt, rows, "lock_beside", true), "lock_beside");
    holds(
        rt,
        is_refused(rt, rows, "no_such_row", false),
        "no_such_row",
    );
}

#[test]
fn a_writer_that_fails_gives_status_2(rt: HostRuntime) {
    are_refused(&rt, program_rows(&rt).as_slice());
}
