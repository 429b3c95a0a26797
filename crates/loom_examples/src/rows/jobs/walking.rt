//! What the program does with a row that several workers walk through.
use crate::bodies::updates::Updater;
use crate::measured::row_or_body;
use crate::rows::jobs::workers;
use crate::rows::options::RowAsked;
use crate::rows::settings::Builds;
use crate::rows::walks::{failing_in, print_walked, tell};
use crate::rows::words::refuse_name;
use crate::rows::{Checked, all_rows, refuse_check};
use crate::scripts::script::Script;
use log::Log;
use loom::model::Walk;
use loom::model::builder::Builder;
use loom::model::different::MOST_DIFFERENT;
use loom::runner::{Apart, Host, NoVisitor, walk_parallel};
use loom::{Body, HostClock};
use std::io::{self, Write};
use std::rt::Clock as HostTime;

/// Walks through runs of the row by as many workers as are asked for, or as the host has processors, and prints the line. Where a run
/// failed it is shortened, explained and drawn as is asked for. Answers the exit status. The log hears of the walk.
pub fn walk_row<R: Host + HostTime + Sync, L: Log, O: Write, E: Write>(
    rt: &R,
    log: &L,
    walk: Walk,
    asked: RowAsked,
    out: &mut O,
    err: &mut E,
) -> io::Result<u8> {
    let Some(row) = row_or_body(rt.alloc(), asked.name)? else {
        let rows = all_rows(rt.alloc())?;
        return refuse_name(rt.alloc(), rows.as_slice(), asked.name, err);
    };
    let settings = row.settings.builder_with(rt.alloc(), asked.file)?;
    let mut builder = asked.changes.change(settings);
    builder.max_different = Some(MOST_DIFFERENT);
    match row.checked {
        Checked::Script(steps) => {
            let script = Script::new(rt.alloc(), steps)?;
            walk_body(rt, log, &builder, &script, walk, asked, out, err)
        }
        Checked::Updater(one, other) => {
            let updater = Updater::main(one, other);
            walk_body(rt, log, &builder, &updater, walk, asked, out, err)
        }
    }
}

// So through runs of a body.
fn walk_body<
    R: Host + HostTime + Sync,
    L: Log,
    B: Body<Data = u64> + Apart + Sync,
    O: Write,
    E: Write,
>(
    rt: &R,
    log: &L,
    builder: &Builder,
    body: &B,
    walk: Walk,
    asked: RowAsked,
    out: &mut O,
    err: &mut E,
) -> io::Result<u8> {
    let mut clock = HostClock::start(rt);
    let count = workers(rt, asked.jobs.unwrap_or(0));
    let walked = walk_parallel(
        rt,
        rt.alloc(),
        builder,
        body,
        count,
        walk,
        &mut NoVisitor,
        &mut clock,
        log,
    );
    match walked {
        Ok(walked) => {
            let status = print_walked(&walked, out)?;
            if let Some(choices) = failing_in(&walked) {
                tell(rt, builder, body, choices, asked, out)?;
            }
            Ok(status)
        }
        Err(error) => refuse_check(err, builder, error),
    }
}
