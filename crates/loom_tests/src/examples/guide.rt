//! What docs/GUIDE.md shows of bodies: a stub of a meaning, an explanation, rising bounds, a long check, and a script of one's own.
ghost use Rattle.std.specs.Prelude.{◌≡◌, ⊤, IfOk};
ghost use Rattle.loom_objects.specs.Operation.Labelled.{bare};
ghost use Rattle.loom_objects.specs.declared.operation.Request.TheVariants.{Fail};

mod script;

use loom::model::{Builder, Report};
use loom::runner::NoVisitor;
use loom::{Body, Choices, Clock, FileStore, Op, Reply, fail};
use loom_examples::bodies::guide::Counter;
use std::alloc::AllocError;
use std::test;
use std::time::{Duration, Instant};

/// A thread whose first operation fails, whatever it is told.
#[derive(Clone, Copy, Debug)]
struct Stub;

impl Body for Stub {
    type Data = u64;

    ghost next = { λ body reply. (body, bare Fail) };

    fn resume(&mut self, _reply: Reply<u64>) -> Result<Op<u64, Stub>, AllocError>
        ensures { IfOk result (λ op. (self.new ≡ self.old) × (op ≡ bare Fail)) }
    {
        Ok(fail())
    }

    fn try_clone(&self) -> Result<Stub, AllocError>
        ensures { IfOk result (λ copy. copy ≡ self.now) }
    {
        Ok(*self)
    }
}

#[test]
fn a_stub_fails_at_once(rt: HostRuntime) -> Result<(), test::Fail> {
    let report = Builder::new().check(&rt, rt.alloc(), &Stub)?;
    assert!(rt;
        matches!(&report, Report::Failed { runs: 0, .. }),
        "{report}"
    );
    Ok(())
}

/// The run of some choices is explained.
#[test]
fn a_run_is_told(rt: HostRuntime) -> Result<(), test::Fail> {
    let choices = Choices::parse(rt.alloc(), "t1 t1 t1 t0")?;
    let story = Builder::new().explain(rt.alloc(), &Counter::main(1), choices.as_slice())?;
    println!(rt; "{story}")?;
    Ok(())
}

/// Few preemptions come first.
#[test]
fn bounds_rise(rt: HostRuntime) -> Result<(), test::Fail> {
    let risen = Builder::new().check_rising(rt.alloc(), &Counter::main(2), 3)?;
    println!(rt; "with {} preemptions: {}", risen.bound, risen.report)?;
    assert!(rt; risen.report.is_complete());
    Ok(())
}

/// Tells the time since it was started, by the machine's clock.
#[derive(Drop)]
struct Watch {
    rt: HostRuntime,
    start: Instant,
}

impl Clock for Watch {
    ghost answered = { λ _ _. ⊤ };

    fn elapsed(&mut self) -> Duration {
        self.start.elapsed(&self.rt).unwrap_or(Duration::MAX)
    }
}

/// A check that may take an hour.
#[test]
fn a_long_check(rt: HostRuntime) -> Result<(), test::Fail> {
    let mut builder = Builder::new();
    builder.max_permutations = Some(1_000_000); // a million runs at most
    builder.max_duration = Some(Duration::from_secs(3600)); // or an hour, by the clock
    builder.checkpoint_interval = 10_000; // save before each ten-thousandth run, too
    let mut store = FileStore::new(&rt, rt.alloc(), "search.json");
    let mut clock = Watch {
        rt,
        start: Instant::now(&rt)?,
    };
    let body = Counter::main(2);
    let report = builder.check_with(
        rt.alloc(),
        &body,
        &mut NoVisitor,
        &mut clock,
        &mut store,
        &rt,
    )?;
    assert!(rt; report.is_complete(), "{report}");
    Ok(())
}
