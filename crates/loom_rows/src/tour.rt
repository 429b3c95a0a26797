//! A first look: checks of the four bodies of `loom_examples`, each right and wrong. Of a failure the story of the run is printed. The
//! ring and the queue are checked with few preemptions, since the whole reduced search of them is long.
use loom::Body;
use loom::model::Report;
use loom::model::builder::Builder;
use loom::sync::atomic::Ordering::{Relaxed, Release};
use loom_examples::bodies::spin::Spin;
use loom_examples::bodies::{peterson, queue, ring};
use loom_examples::scripts::script::Script;
use loom_examples::scripts::step::Step;
use std::io::Write;
use std::rt::Files;

/// Checks the bodies, and prints what each check finds.
pub fn tour<R: AllocGlobal + Files, O: Write>(rt: &R, out: &mut O) -> anyhow::Result<()> {
    check(rt, out, "spin lock, right", &Spin::main(Release))?;
    check(rt, out, "spin lock, wrong", &Spin::main(Relaxed))?;
    check_script(rt, out, "Peterson's lock, right", peterson::RIGHT)?;
    check_script(rt, out, "Peterson's lock, wrong", peterson::WRONG)?;
    rise(rt, out, "ring, right", ring::RIGHT, 2)?;
    rise(rt, out, "ring, wrong", ring::WRONG, 2)?;
    rise(rt, out, "queue, right", queue::RIGHT, 1)?;
    rise(rt, out, "queue, wrong", queue::WRONG, 1)
}

/// Checks the body by the defaults, and prints what was found.
fn check<R: AllocGlobal + Files, O: Write, B: Body>(
    rt: &R,
    out: &mut O,
    name: &str,
    body: &B,
) -> anyhow::Result<()> {
    let report = Builder::new().check(rt, rt.alloc(), body)?;
    writeln!(out, "{name}: {report}")?;
    tell(rt, out, body, &report)
}

fn check_script<R: AllocGlobal + Files, O: Write>(
    rt: &R,
    out: &mut O,
    name: &str,
    steps: &'static [Step],
) -> anyhow::Result<()> {
    check(rt, out, name, &Script::new(rt.alloc(), steps)?)
}

/// Checks the script with no preemptions, with one, and so on up to this bound, and prints what was found.
fn rise<R: AllocGlobal, O: Write>(
    rt: &R,
    out: &mut O,
    name: &str,
    steps: &'static [Step],
    up_to: usize,
) -> anyhow::Result<()> {
    let body = Script::new(rt.alloc(), steps)?;
    let risen = Builder::new().check_rising(rt.alloc(), &body, up_to)?;
    let bound = risen.bound;
    let report = &risen.report;
    writeln!(out, "{name}, with at most {bound} preemptions: {report}")?;
    tell(rt, out, &body, report)
}

/// Prints the story of the run that failed, if one did.
fn tell<R: AllocGlobal, O: Write, B: Body>(
    rt: &R,
    out: &mut O,
    body: &B,
    report: &Report,
) -> anyhow::Result<()> {
    if let Report::Failed { choices, .. } = report {
        let story = Builder::new().explain(rt.alloc(), body, choices.as_slice())?;
        writeln!(out, "{story}")?;
    }
    Ok(())
}
