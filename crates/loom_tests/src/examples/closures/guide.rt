//! What docs/GUIDE.md shows of closures, behind its first test: tests of loom's own as closures.
use crate::closures::holds;
use loom::model::builder::Builder;
use loom::model::{Replay, Report};
use loom::runner::{Handle, Host, Job, NoVisitor, Pool, RunnerError, Stop, check, model, replay};
use loom::sync::Mutex;
use loom::sync::atomic::AtomicU64;
use loom::sync::atomic::Ordering::{self, AcqRel, Acquire, Relaxed, Release};
use loom::{Choice, Choices, Failure, FailureKind};
use loom_examples::closures::stack::through_stack;
use std::process::Abort;
use std::sync::Wait;
use std::test::Fail;

/// A mutex keeps two threads apart: each finds in it what it finds in an atomic.
#[test]
fn mutex_enforces_mutual_exclusion(rt: HostRuntime) -> Result<(), Fail> {
    let report = model(&rt, rt.alloc(), |handle: &mut Handle<u64, HostRuntime>| {
        let mutex = handle.mutex(0)?;
        let atomic = handle.atomic(0u64)?;
        let first = handle.spawn(move |handle| count_up(handle, &mutex, &atomic))?;
        let second = handle.spawn(move |handle| count_up(handle, &mutex, &atomic))?;
        handle.join(&first)?;
        handle.join(&second)?;
        let count = handle.with_lock(&mutex, |data| *data)?;
        let total = handle.load(&atomic, Acquire)?;
        handle.assert(total == 2 && count == 2)?;
        Ok(count)
    })?;
    assert!(rt; report.is_complete(), "{report}");
    Ok(())
}

/// Adds one to both, and asserts that they were the same.
fn count_up<R: Wait>(
    handle: &mut Handle<u64, R>,
    mutex: &Mutex,
    atomic: &AtomicU64,
) -> Result<u64, Stop> {
    let (guard, count) = handle.lock(mutex)?;
    let before = handle.fetch_add(atomic, 1, AcqRel)?;
    handle.assert(count == before)?;
    handle.release(guard, count.wrapping_add(1))?;
    Ok(count)
}

/// What a thread that is kept does: it adds one to both.
#[derive(Clone, Copy)]
struct CountUp(Mutex, AtomicU64);

impl<R: Wait> Job<u64, R> for CountUp {
    fn run(self, handle: &mut Handle<u64, R>) -> Result<u64, Stop> {
        let CountUp(mutex, atomic) = self;
        count_up(handle, &mutex, &atomic)
    }
}

/// One thread of the host runs the jobs of all runs.
#[test]
fn a_thread_is_kept(rt: HostRuntime) -> Result<(), Fail> {
    let mut pool = Pool::new(rt.alloc());
    let report = model(&rt, rt.alloc(), |handle: &mut Handle<u64, HostRuntime>| {
        let mutex = handle.mutex(0)?;
        let atomic = handle.atomic(0u64)?;
        let child = handle.spawn_on(&mut pool, CountUp(mutex, atomic))?;
        count_up(handle, &mutex, &atomic)?;
        handle.join(&child)
    })?;
    assert!(rt; report.is_complete() && pool.threads() == 1, "{report}");
    pool.end(&rt);
    Ok(())
}

/// A closure may print what it sees: here once in each run.
#[test]
fn a_closure_prints(rt: HostRuntime) -> Result<(), Fail> {
    let report = model(&rt, rt.alloc(), |handle: &mut Handle<(), HostRuntime>| {
        let flag = handle.atomic(false)?;
        let child = handle.spawn(move |handle| handle.store(&flag, true, Release))?;
        let seen = handle.load(&flag, Acquire)?;
        let _ = println!(rt; "main loads {seen}");
        handle.join(&child)
    })?;
    assert!(rt; report.is_complete(), "{report}");
    Ok(())
}

/// Three threads put a node each on Treiber's stack, and take one off. With few preemptions there are few runs.
#[test]
fn few_preemptions_make_few_runs(rt: HostRuntime) -> Result<(), Fail> {
    has_runs(&rt, 0, 13)?;
    has_runs(&rt, 1, 168)?;
    has_runs(&rt, 2, 1_143)
}

/// With so many preemptions at most the stack has so many runs, and none fails.
fn has_runs<R: Abort + Host>(rt: &R, bound: usize, wanted: u64) -> Result<(), Fail> {
    let report = check_stack(rt, bound, Release)?;
    let has_runs = matches!(&report, Report::Complete { runs } if *runs == wanted);
    assert!(rt; has_runs, "{report}");
    Ok(())
}

/// Where the nodes are put on by `Relaxed` two preemptions show a race, and one doesn't.
#[test]
fn few_preemptions_hide_a_race(rt: HostRuntime) -> Result<(), Fail> {
    let report = check_stack(&rt, 1, Relaxed)?;
    assert!(rt; report.is_complete(), "{report}");
    let report = check_stack(&rt, 2, Relaxed)?;
    let is_race =
        matches!(&report, Report::Failed { failure, .. } if failure.kind == FailureKind::Race);
    assert!(rt; is_race, "{report}");
    Ok(())
}

/// A check of the stack with so many preemptions at most.
fn check_stack<R: Host>(rt: &R, bound: usize, publish: Ordering) -> Result<Report, RunnerError> {
    let mut builder = Builder::new();
    builder.preemption_bound = Some(bound);
    let main = |handle: &mut Handle<u64, R>| through_stack(handle, publish);
    check(rt, rt.alloc(), &builder, main, &mut NoVisitor)
}

/// Two threads lock two mutexes in opposite order.
fn opposite_order<R: Host>(handle: &mut Handle<(), R>) -> Result<(), Stop> {
    let one = handle.mutex(())?;
    let other = handle.mutex(())?;
    let child = handle.spawn(move |handle| lock_both(handle, &one, &other))?;
    lock_both(handle, &other, &one)?;
    handle.join(&child)
}

/// Holds the one while it locks the other.
fn lock_both<R: Wait>(
    handle: &mut Handle<(), R>,
    outer: &Mutex,
    inner: &Mutex,
) -> Result<(), Stop> {
    let (outer, ()) = handle.lock(outer)?;
    let (inner, ()) = handle.lock(inner)?;
    handle.release(inner, ())?;
    handle.release(outer, ())
}

/// A check of that by these settings.
fn check_locks<R: Host>(rt: &R, builder: &Builder) -> Result<Report, RunnerError> {
    let main = |handle: &mut Handle<(), R>| opposite_order(handle);
    check(rt, rt.alloc(), builder, main, &mut NoVisitor)
}

/// A check that records finds what one by calls finds.
#[test]
fn a_recorded_check_finds_the_same(rt: HostRuntime) -> Result<(), Fail> {
    let mut builder = Builder::new();
    let called = check_locks(&rt, &builder)?;
    builder.recorded = true;
    let recorded = check_locks(&rt, &builder)?;
    assert!(rt; recorded == called, "{recorded}");
    Ok(())
}

/// One run of that by these choices, and then by defaults.
fn follow<R: Host>(rt: &R, choices: &[Choice]) -> Result<Replay<()>, RunnerError> {
    let main = |handle: &mut Handle<(), R>| opposite_order(handle);
    replay(rt, rt.alloc(), &Builder::new(), choices, main)
}

/// Whether the run failed by this kind.
fn fails_by(run: &Replay<()>, kind: FailureKind) -> bool {
    matches!(run, Replay::Failed { failure, .. } if failure.kind == kind)
}

/// Whether the run failed so, under these choices.
fn is_again(run: &Replay<()>, wanted: &Failure, list: &[Choice]) -> bool {
    match run {
        Replay::Failed { failure, choices } => failure == wanted && choices.as_slice() == list,
        Replay::Ended { .. } => false,
    }
}

/// Whether the check has found a failure of this kind, and its choices make it again.
fn comes_again<R: Host>(rt: &R, report: &Report, kind: FailureKind) -> Result<bool, RunnerError> {
    match report {
        Report::Failed {
            failure,
            choices,
            ..
        } => {
            let again = follow(rt, choices.as_slice())?;
            Ok(failure.kind == kind && is_again(&again, failure, choices.as_slice()))
        }
        Report::Complete { .. } | Report::Stopped { .. } => Ok(false),
    }
}

/// The choices of a failure make it again.
#[test]
fn a_failure_comes_again(rt: HostRuntime) -> Result<(), Fail> {
    let main = |handle: &mut Handle<(), HostRuntime>| opposite_order(handle);
    let report = model(&rt, rt.alloc(), main)?;
    holds(&rt, comes_again(&rt, &report, FailureKind::Deadlock)?);
    Ok(())
}

/// Without a preemption no thread is left that could go on, so each has both locks in turn.
#[test]
fn no_preemption_makes_no_deadlock(rt: HostRuntime) -> Result<(), Fail> {
    let mut builder = Builder::new();
    builder.preemption_bound = Some(0);
    let report = check_locks(&rt, &builder)?;
    assert!(rt; report.is_complete(), "{report}");
    Ok(())
}

/// Without choices the first run is made, which ends here; a choice that is no option ends it otherwise.
#[test]
fn choices_that_are_none(rt: HostRuntime) -> Result<(), Fail> {
    let first = follow(&rt, &[])?;
    let wrong = follow(&rt, &[Choice::Thread(Some(4))])?;
    holds(&rt, matches!(first, Replay::Ended { .. }));
    holds(&rt, fails_by(&wrong, FailureKind::NotDeterministic));
    Ok(())
}

/// The choices of a report are a text, by which the run is made again.
#[test]
fn a_failure_comes_again_by_its_text(rt: HostRuntime) -> Result<(), Fail> {
    let choices = Choices::parse(rt.alloc(), "t0 t1 t1 t-")?;
    let main = |handle: &mut Handle<(), HostRuntime>| opposite_order(handle);
    let again = replay(&rt, rt.alloc(), &Builder::new(), choices.as_slice(), main)?;
    holds(&rt, fails_by(&again, FailureKind::Deadlock));
    Ok(())
}
