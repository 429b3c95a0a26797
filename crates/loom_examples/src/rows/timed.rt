//! A check that makes no further run once its time is over.
use crate::bodies::updates::Updater;
use crate::rows::changes::Changes;
use crate::rows::settings::Builds;
use crate::rows::tasks::explain_report;
use crate::rows::{Checked, Row, print_report, refuse_check};
use crate::scripts::script::Script;
use loom::checkpoint::file::file_store;
use loom::model::Report;
use loom::model::builder::Builder;
use loom::model::error::CheckError;
use loom::runner::NoVisitor;
use loom::{Body, HostClock};
use std::io::{self, Write};
use std::rt::{Clock, Files};

/// Checks the body by this builder, and by the host's clock.
pub(crate) fn check<R: AllocGlobal + Clock + Files, B: Body<Data = u64>>(
    rt: &R,
    builder: &Builder,
    body: &B,
) -> Result<Report, CheckError> {
    let mut clock = HostClock::start(rt);
    let mut store = file_store(rt, rt.alloc(), &builder.checkpoint_file);
    let log = None::<HostRuntime>;
    builder.check_with(
        rt.alloc(),
        body,
        &mut NoVisitor,
        &mut clock,
        &mut store,
        &log,
    )
}

/// Checks the row with these settings in place of its own and by the host's clock, prints the line of the report, with the
/// explanation of a failure below it if that is asked for, and answers the exit status.
pub(crate) fn check_row<R: AllocGlobal + Clock + Files, O: Write, E: Write>(
    rt: &R,
    row: &Row,
    changes: Changes,
    explains: bool,
    file: Option<&str>,
    out: &mut O,
    err: &mut E,
) -> io::Result<u8> {
    let builder = changes.change(row.settings.builder_with(rt.alloc(), file)?);
    match row.checked {
        Checked::Script(steps) => {
            let script = Script::new(rt.alloc(), steps)?;
            check_body(rt, &builder, &script, explains, out, err)
        }
        Checked::Updater(one, other) => {
            check_body(rt, &builder, &Updater::main(one, other), explains, out, err)
        }
    }
}

fn check_body<R: AllocGlobal + Clock + Files, B: Body<Data = u64>, O: Write, E: Write>(
    rt: &R,
    builder: &Builder,
    body: &B,
    explains: bool,
    out: &mut O,
    err: &mut E,
) -> io::Result<u8> {
    match check(rt, builder, body) {
        Ok(report) => {
            let status = print_report(out, &report)?;
            explain_report(rt, builder, body, &report, explains, out)?;
            Ok(status)
        }
        Err(error) => refuse_check(err, builder, error),
    }
}
