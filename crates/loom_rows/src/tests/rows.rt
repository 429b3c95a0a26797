//! The rows of the program, and the bodies of tests behind them.
use super::{bodies, each_operation, late, others, searches, shared};
use crate::tests::asserting::holds;
use loom_examples::rows::Row;
use loom_examples::rows::tables::all_rows;
use std::process::Abort;

/// The rows of the program.
pub fn program_rows(rt: &(impl Abort + AllocGlobal)) -> Vec<Row> {
    all_rows(rt.alloc()).expect(rt, "no memory for the rows")
}

// Puts the table behind the rows.
fn add(rt: &impl Abort, rows: &mut Vec<Row>, table: &[Row]) {
    let is_so = rows.extend_from_slice(table).is_ok();
    holds(rt, is_so, "no memory for the rows");
}

/// All bodies with their names.
pub fn rows_of(rt: &(impl Abort + AllocGlobal)) -> Vec<Row> {
    let mut rows = program_rows(rt);
    add(rt, &mut rows, bodies::atomic_rows());
    add(rt, &mut rows, bodies::store_rows());
    add(rt, &mut rows, bodies::lock_rows());
    add(rt, &mut rows, bodies::other_rows());
    add(rt, &mut rows, each_operation::object_rows());
    add(rt, &mut rows, each_operation::other_rows());
    add(rt, &mut rows, others::rows());
    add(rt, &mut rows, others::large_rows());
    add(rt, &mut rows, searches::rows());
    add(rt, &mut rows, shared::channel_rows());
    add(rt, &mut rows, shared::waker_rows());
    add(rt, &mut rows, shared::value_rows());
    rows
}

// Puts the rows of the table behind the others.
fn add_late(rt: &impl Abort, rows: &mut Vec<Row>, table: &[(Row, &str)]) {
    for (row, _) in table {
        holds(rt, rows.push(*row).is_ok(), "no memory for the rows");
    }
}

/// All bodies, and those of late misuse.
pub fn compared_rows(rt: &(impl Abort + AllocGlobal)) -> Vec<Row> {
    let mut rows = rows_of(rt);
    for table in &late::tables() {
        add_late(rt, &mut rows, *table);
    }
    rows
}
