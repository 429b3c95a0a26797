//! A run of a closure that fails as another one does, but is shorter (own).
ghost use Rattle.std.specs.Prelude.{◌≡◌, ◌↔◌, ◌≤◌, ◌<◌, ◌^◌, Err, IfErr, IfOk, IfSome, IsTrue, is_some, true, ◌+◌, ◌-◌};
ghost use Rattle.std.specs.Fn.{CalledAtMut};
ghost use Rattle.loom_engine.specs.Path.Drawn.{IsDrawn};
ghost use Rattle.loom_engine.specs.Path.Route.{IsAtStart, chosen};
ghost use Rattle.loom.specs.declared.runner.error.RunnerError.TheVariants.{Settings};
ghost use Rattle.loom.specs.Model.Settings.{tested};
ghost use Rattle.loom.specs.Runner.Check.{limits_of};
ghost use Rattle.loom.specs.Runner.Explained.{IsEndOf};
ghost use Rattle.loom.specs.Runner.Replay.{following};
ghost use Rattle.loom.specs.Runner.Shortening.{BreaksOff, IsFound, IsNotShortened, IsNotShortenedBy, Shortens};
ghost use Rattle.loom.specs.Runner.Trying.{EndsAs, IsBetter, IsNoTry, IsNotTried, IsTried, IsUnderWay, SettlesBy, Tries};

use crate::explain::End;
use crate::model::builder::Builder;
use crate::model::follower::Follower;
use crate::model::shorten::Shortened;
use crate::runner::error::{RunnerError, error_by};
use crate::runner::exact::Exact;
use crate::runner::explanations::end_of;
use crate::runner::handle::Handle;
use crate::runner::history::told::Told;
use crate::runner::last_run::LastRun;
use crate::runner::run::call_closure;
use crate::runner::shared::{Shared, share, share_drawn};
use crate::runner::stop::Stop;
use crate::runner::turns::Turns;
use crate::runner::turns::drawing::Drawing;
use loom_engine::rt::execution::Limits;
use loom_engine::rt::path::Path;
use loom_objects::choice::Choice;
use loom_objects::failure::Failure;
use std::alloc::{AllocError, Global};
use std::sync::{Arc, Wait};
use std::thread::Threads;

/// A run that failed: the shortest so far, or one that was tried.
#[derive(Drop)]
pub(crate) struct Failing {
    pub(crate) failure: Failure,
    pub(crate) choices: Vec<Choice>,
    pub(crate) preemptions: u32,
}

/// A run by a change.
#[derive(Drop)]
struct Tried {
    // how it failed, if it did
    failing: Option<Failing>,
    // the number behind that of the change
    next: usize,
}

/// The shorter one of two runs.
#[derive(Drop)]
struct Better {
    shortest: Failing,
    is_new: bool,
}

/// Looks for a run of the closure that fails by the same kind as the one that `replay` makes of these choices, but has fewer
/// preemptions, or as many and fewer choices (own; for bodies it is `Builder::shorten`). Switches from one thread to another are put
/// off or made earlier one after another, and what isn't needed is left out, as long as that shortens the run, or until so many runs
/// were made, with the given one. The closure is called once for each run. It answers the shortest that was found, which may be the
/// given one, or `None` where that one doesn't fail. Its choices make it again, by `replay`, where the closure does the same.
///
/// Errors are those of `replay`. Besides, `Changed` comes where a thread hands over another operation than in the run before, after the
/// same choices.
pub fn shorten<
    D: Exact + 'static,
    R: Threads + Wait + Clone + Send + 'static,
    F: FnMut(&mut Handle<D, R>) -> Result<D, Stop>,
>(
    rt: &R,
    alloc: Global,
    builder: &Builder,
    choices: &[Choice],
    most_runs: u64,
    mut closure: F,
) -> Result<Option<Shortened>, RunnerError>
    requires { F.IsAlwaysCallable closure }
    ensures shortens { IfOk result (Shortens (CalledAtMut F.FnMut) builder.now closure choices.now most_runs) }
    ensures refused { IfErr (tested builder.now) (λ e. result ≡ Err (Settings e)) }
    ensures errors { IfErr result (IsNotShortened (CalledAtMut F.FnMut) builder.now choices.now closure) }
{
    builder.test()?;
    let explores = !builder.expect_explicit_explore;
    let branches = builder.max_branches as u32;
    let Ok(path) = Path::following(alloc, explores, branches, choices) else {
        return Err(RunnerError::Memory);
    };
    shorten_along(rt, alloc, builder, &path, choices, most_runs, &mut closure)
}

/// What is found from the run along this path on, which follows these choices. The settings were tested.
fn shorten_along<
    D: Exact + 'static,
    R: Threads + Wait + Clone + Send + 'static,
    F: FnMut(&mut Handle<D, R>) -> Result<D, Stop>,
>(
    rt: &R,
    alloc: Global,
    builder: &Builder,
    path: &Path,
    choices: &[Choice],
    most_runs: u64,
    closure: &mut F,
) -> Result<Option<Shortened>, RunnerError>
    requires some { 1 ≤ builder.now.max_threads }
    requires few { builder.now.max_threads ≤ 5 }
    requires branches { builder.now.max_branches ≤ 1000000 }
    requires follows { path.now ≡ following builder.now choices.now }
    requires callable { F.IsAlwaysCallable closure.old }
    ensures shortens { IfOk result (Shortens (CalledAtMut F.FnMut) builder.now closure.old choices.now most_runs) }
    ensures errors { IfErr result (IsNotShortenedBy (CalledAtMut F.FnMut) builder.now choices.now closure.old) }
{
    let mut last = LastRun::none(alloc);
    let end = try_run(rt, alloc, builder, path, None, 1, &mut last, closure)?;
    let Some(mut first) = end else {
        return Ok(None);
    };
    let Ok(given) = choices.to_vec(alloc) else {
        return Err(RunnerError::Memory);
    };
    first.choices = given;
    match shorten_from(rt, alloc, builder, first, most_runs, &mut last, closure) {
        Ok(found) => Ok(Some(found)),
        Err(error) => Err(error),
    }
}

/// The shortest run that fails so which is found from this one on, which was the last one.
fn shorten_from<
    D: Exact + 'static,
    R: Threads + Wait + Clone + Send + 'static,
    F: FnMut(&mut Handle<D, R>) -> Result<D, Stop>,
>(
    rt: &R,
    alloc: Global,
    builder: &Builder,
    given: Failing,
    most_runs: u64,
    last: &mut LastRun<D>,
    closure: &mut F,
) -> Result<Shortened, RunnerError>
    requires some { 1 ≤ builder.now.max_threads }
    requires few { builder.now.max_threads ≤ 5 }
    requires branches { builder.now.max_branches ≤ 1000000 }
    requires callable { F.IsAlwaysCallable closure.old }
    ensures kind { IfOk result (λ found. found.failure.kind ≡ given.failure.kind) }
    ensures found { (first : F) → IsUnderWay (CalledAtMut F.FnMut) builder.now first closure.old 1 given last.old → IfOk result (IsFound (CalledAtMut F.FnMut) builder.now first most_runs) }
    ensures errors { (first : F) → IsUnderWay (CalledAtMut F.FnMut) builder.now first closure.old 1 given last.old → IfErr result (BreaksOff (CalledAtMut F.FnMut) builder.now first) }
{
    let path = Path::new(alloc, builder.drawn_search());
    let mut shortest = given;
    let mut number = 0;
    let more = most_runs.saturating_sub(1);
    'runs: for behind in 0..more {
        let runs = behind + 1;
        let change = try_change(
            rt, alloc, builder, &path, &shortest, number, runs, last, closure,
        )?;
        let Some(tried) = change else {
            return Ok(shortest.found(runs));
        };
        let better = better_of(shortest, tried.failing);
        shortest = better.shortest;
        number = if better.is_new { 0 } else { tried.next };
    }
    Ok(shortest.found(more + 1))
}

/// Makes the run by the change of this number or the next one that makes a difference, behind so many runs. None where no change is left.
fn try_change<
    D: Exact + 'static,
    R: Threads + Wait + Clone + Send + 'static,
    F: FnMut(&mut Handle<D, R>) -> Result<D, Stop>,
>(
    rt: &R,
    alloc: Global,
    builder: &Builder,
    path: &Path,
    shortest: &Failing,
    number: usize,
    runs: u64,
    last: &mut LastRun<D>,
    closure: &mut F,
) -> Result<Option<Tried>, RunnerError>
    requires some { 1 ≤ builder.now.max_threads }
    requires few { builder.now.max_threads ≤ 5 }
    requires starts { IsAtStart path.now.explores path.now }
    requires empty { IsDrawn path.now }
    requires runs { runs < 2 ^ 64 - 1 }
    requires callable { F.IsAlwaysCallable closure.old }
    ensures again { F.IsAlwaysCallable closure.new }
    ensures tried { IfOk result (λ change. IfSome change (λ tried. Tries (CalledAtMut F.FnMut) (limits_of builder.now) true path.now closure.old tried.failing closure.new last.new)) }
    ensures errors { IfErr result (IsNoTry (CalledAtMut F.FnMut) (limits_of builder.now) true path.now closure.old last.old (runs + 1)) }
{
    let Ok(change) = Follower::next(alloc, shortest.choices.as_slice(), number) else {
        return Err(RunnerError::Memory);
    };
    let Some((follower, next)) = change else {
        return Ok(None);
    };
    let follower = Some(follower);
    let failing = try_run(rt, alloc, builder, path, follower, runs + 1, last, closure)?;
    Ok(Some(Tried { failing, next }))
}

/// Makes the run of this number along the path, whose choices this draws, if it is there. It is compared with the last one, and is the
/// last one then. Answers how it failed, if it did.
fn try_run<
    D: Exact + 'static,
    R: Threads + Wait + Clone + Send + 'static,
    F: FnMut(&mut Handle<D, R>) -> Result<D, Stop>,
>(
    rt: &R,
    alloc: Global,
    builder: &Builder,
    path: &Path,
    follower: Option<Follower>,
    number: u64,
    last: &mut LastRun<D>,
    closure: &mut F,
) -> Result<Option<Failing>, RunnerError>
    requires some { 1 ≤ builder.now.max_threads }
    requires few { builder.now.max_threads ≤ 5 }
    requires starts { IsAtStart path.now.explores path.now }
    requires empty { is_some follower ≡ true → IsDrawn path.now }
    requires callable { F.IsAlwaysCallable closure.old }
    ensures again { F.IsAlwaysCallable closure.new }
    ensures tries { IfOk result (λ end. Tries (CalledAtMut F.FnMut) (limits_of builder.now) (is_some follower) path.now closure.old end closure.new last.new) }
    ensures errors { IfErr result (IsNoTry (CalledAtMut F.FnMut) (limits_of builder.now) (is_some follower) path.now closure.old last.old number) }
{
    let limits = Limits {
        max_threads: builder.max_threads,
        max_steps: builder.max_steps,
    };
    let is_drawn = follower.is_some();
    let shared = share_by(alloc, limits, path, follower)?;
    let told = call_closure(rt, alloc, &shared, closure)?;
    let mut turns = shared.turns.lock(rt);
    let told = told.as_slice();
    judge(
        alloc,
        limits,
        path,
        is_drawn,
        number,
        &mut *turns,
        told,
        last,
    )
}

/// What the threads of a run share, whose choices this draws, if it is there.
fn share_by<D: Exact + 'static>(
    alloc: Global,
    limits: Limits,
    path: &Path,
    follower: Option<Follower>,
) -> Result<Arc<Shared<D>, Global>, RunnerError>
    requires some { 1 ≤ limits.max_threads }
    requires few { limits.max_threads ≤ 5 }
    requires starts { IsAtStart path.now.explores path.now }
    requires empty { is_some follower ≡ true → IsDrawn path.now }
    ensures { IfErr result (λ e. e ≡ RunnerError.Memory) }
{
    match follower {
        Some(follower) => share_drawn(alloc, limits, path, Drawing::Change(follower)),
        None => share(alloc, limits, path),
    }
}

/// How the run failed, if it did. It is to be settled, and like the last one.
fn judge<D: Exact>(
    alloc: Global,
    limits: Limits,
    path: &Path,
    is_drawn: bool,
    number: u64,
    turns: &mut Turns<D>,
    told: &[Told<D>],
    last: &mut LastRun<D>,
) -> Result<Option<Failing>, RunnerError>
    ensures tried { IfOk result (λ end. IsTried limits is_drawn path.now turns.old told.now end last.new) }
    ensures errors { IfErr result (IsNotTried limits is_drawn path.now turns.old told.now last.old number) }
{
    if let Some(stop) = turns.spoiled() {
        return Err(error_by(stop));
    }
    if !is_settled(&*turns, is_drawn, path, limits, told) {
        return Err(RunnerError::NotSettled);
    }
    let Ok(choices) = turns.choices() else {
        return Err(RunnerError::Memory);
    };
    last.compare(alloc, number, choices.as_slice(), &*turns)?;
    let end = end_of(&*turns)?;
    let Ok(failing) = failing_of(alloc, &*turns, end, choices.as_slice()) else {
        return Err(RunnerError::Memory);
    };
    let Ok(events) = turns.take_events() else {
        return Err(RunnerError::Memory);
    };
    *last = LastRun::new(choices, events);
    Ok(failing)
}

/// Whether the run began with this path and these limits, and followed it or drew its choices, as is said, and each thread's
/// operations and replies are its part of the history.
fn is_settled<D: Exact>(
    turns: &Turns<D>,
    is_drawn: bool,
    path: &Path,
    limits: Limits,
    told: &[Told<D>],
) -> bool
    ensures { IsTrue result ↔ SettlesBy is_drawn turns.now path.now limits told.now }
{
    if is_drawn {
        turns.settle_drawn(path, limits, told)
    } else {
        turns.settle(path, limits, told)
    }
}

/// The run, which ended so by these choices, if it failed.
fn failing_of<D: Exact>(
    alloc: Global,
    turns: &Turns<D>,
    end: End,
    choices: &[Choice],
) -> Result<Option<Failing>, AllocError>
    requires end { IsEndOf turns.now.history end }
    requires choices { choices.now ≡ chosen turns.now.now.route }
    ensures { IfOk result (EndsAs turns.now) }
{
    match end {
        End::Ended => Ok(None),
        End::Failed(failure) => Ok(Some(Failing {
            failure,
            choices: choices.to_vec(alloc)?,
            preemptions: turns.preemptions(),
        })),
    }
}

impl Failing {
    /// It is what was found in so many runs.
    fn found(self, runs: u64) -> Shortened
        ensures failure { result.failure ≡ self.failure }
        ensures choices { result.choices ≡ self.choices }
        ensures runs { result.runs ≡ runs }
    {
        Shortened {
            failure: self.failure,
            choices: self.choices,
            runs,
        }
    }

    /// Whether it failed by the same kind as the other one, but has fewer preemptions, or as many and fewer choices.
    fn is_shorter_than(&self, other: &Failing) -> bool
        ensures { IsTrue result → self.now.failure.kind ≡ other.now.failure.kind }
    {
        self.failure.kind == other.failure.kind
            && (self.preemptions, self.choices.len()) < (other.preemptions, other.choices.len())
    }
}

/// The shortest run so far, or the one that was tried, where that failed by the same kind, and is shorter.
fn better_of(shortest: Failing, tried: Option<Failing>) -> Better
    ensures { IsBetter shortest tried result.shortest }
{
    match tried {
        Some(other) if other.is_shorter_than(&shortest) => Better {
            shortest: other,
            is_new: true,
        },
        _ => Better {
            shortest,
            is_new: false,
        },
    }
}
