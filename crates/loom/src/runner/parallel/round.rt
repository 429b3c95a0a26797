//! A turn of several workers: each works on a part for a while, and then the parts are given back.
ghost use Rattle.std.specs.Prelude.{◌≡◌, ◌≤◌, ◌<◌, ◌*◌, ◌^◌, ◌⊎◌, ℕ, IfOk, Some, length, max};
ghost use Rattle.loom_engine.specs.Covering.Spread.{SpreadsOn};
ghost use Rattle.loom_engine.specs.Parts.Keeping.{Cuts};
ghost use Rattle.loom_engine.specs.Runs.Body.{runs as runs_of};
ghost use Rattle.loom.specs.Model.Settings.{explores};
ghost use Rattle.loom.specs.Runner.Workers.{AreAtMost, AreHandedOut, AreWorkedOn, HasRoom, IsAtMost, IsTaken, IsWorkedOn, TakesBack, TakesTurn};

use crate::model::builder::Builder;
use crate::model::error::CheckError;
use crate::model::parts::{Slice, Worked};
use crate::model::visitor::Visitor;
use crate::runner::last_run::shared_choices;
use crate::runner::parallel::Workers;
use crate::runner::parallel::apart::Apart;
use crate::runner::parallel::turn_clock::TurnClock;
use crate::runner::parallel::visitors::Visitors;
use loom_engine::rt::parts::{Part, Parts};
use loom_engine::rt::path::node::Node;
use loom_objects::body::Body;
use loom_objects::choice::Choice;
use loom_objects::failure::Failure;
use std::alloc::{AllocError, Global};
use std::rt::Clock as HostTime;
use std::sync::atomic::{AtomicBool, Ordering};
use std::thread::{self, Threads};
use std::time::Duration;

/// A part that is to be worked on, with its visitor.
#[derive(Drop)]
pub struct Job<V> {
    /// The part.
    pub part: Part,
    /// It is given the runs.
    pub visitor: V,
}

/// A part that was worked on, with its visitor, and what came of it.
#[derive(Drop)]
pub struct Done<V> {
    /// What is left of it.
    pub part: Part,
    /// It was given the runs.
    pub visitor: V,
    /// How the work went.
    pub worked: Result<Worked, CheckError>,
}

/// A run of a part that failed, under these choices.
#[derive(Drop)]
pub struct Lost {
    /// The part, as it was before that run.
    pub part: Part,
    /// Why the run failed.
    pub failure: Failure,
    /// The choices that lead there.
    pub choices: Vec<Choice>,
}

/// How a turn went: how many runs were made of the parts that were given back, and a run of another one that failed, if one did.
#[derive(Drop)]
pub struct Turn {
    /// How many runs were made.
    pub runs: u64,
    /// The run that failed.
    pub lost: Option<Lost>,
}

// There are to be so many parts for each worker.
const PARTS_FOR_EACH: usize = 3;

// So many cuts are made at a time at most.
const MOST_CUTS: usize = 1000;

// A turn has so many milliseconds at most where there are fewer parts than workers: some are cut behind it.
const FEW_PARTS_MILLIS: u64 = 20;

impl Workers {
    /// The workers, and the runs of each, of whom all together make no more than so many runs in a turn.
    pub(crate) fn within(self, room: u64) -> Workers
        requires { 0 < room }
        ensures some { 0 < result.count }
        ensures fits { result.count * max 1 result.slice.runs ≤ room }
    {
        let count = self.count.max(1).min(room as usize);
        let runs = self.slice.runs.max(1).min(room / count as u64);
        Workers {
            count,
            slice: Slice { runs, ..self.slice },
        }
    }

    /// How much time a turn has with so many parts, if that is limited.
    pub(crate) fn time_with(self, parts: usize) -> Option<Duration> {
        let until = self.slice.until?;
        let few = Duration::from_millis(FEW_PARTS_MILLIS);
        if parts < self.count && few < until {
            return Some(few);
        }
        Some(until)
    }
}

/// Each worker works on one of the first parts for a while, and then they are given back.
pub(crate) fn make_turn<
    R: Threads + HostTime + Sync,
    B: Body + Apart + Sync,
    V: Visitor<B::Data> + Send + Drop,
    G: Visitors<V>,
>(
    rt: &R,
    alloc: Global,
    builder: &Builder,
    body: &B,
    workers: Workers,
    parts: &mut Parts,
    visitors: &mut G,
) -> Result<Turn, CheckError>
where
    B::Data: Send,
    requires fits { workers.count * max 1 workers.slice.runs < 2 ^ 64 }
    ensures takes { IfOk result (TakesTurn V.takes G.is_new G.joins builder.now (runs_of B.next (explores builder.now) builder.now.max_threads builder.now.max_steps body.now) parts.old parts.new visitors.old visitors.new) }
    ensures within { IfOk result (λ turn. turn.runs ≤ workers.count * max 1 workers.slice.runs) }
{
    let jobs = hand_out(alloc, parts, visitors, workers.count)?;
    let slice = Slice {
        until: workers.time_with(jobs.len()),
        ..workers.slice
    };
    let done = work_on_each(rt, alloc, builder, body, slice, jobs)?;
    take_back::<B::Data, V, G>(alloc, parts, visitors, done)
}

/// The first parts, so many at most, each with a new visitor.
pub(crate) fn hand_out<V: Drop, G: Visitors<V>>(
    alloc: Global,
    parts: &Parts,
    visitors: &G,
    count: usize,
) -> Result<Vec<Job<V>>, AllocError>
    ensures jobs { IfOk result (λ jobs. AreHandedOut G.is_new parts.now.list.items 0 jobs.items) }
    ensures few { IfOk result (λ jobs. length jobs.items ≤ count) }
{
    let mut jobs = Vec::new(alloc);
    for number in 0..count {
        let Some(part) = parts.take(alloc, number)? else {
            return Ok(jobs);
        };
        let visitor = visitors.make()?;
        jobs.push(Job { part, visitor })?;
    }
    Ok(jobs)
}

/// Each part is worked on by a thread of the host, where one can be made.
fn work_on_each<
    R: Threads + HostTime + Sync,
    B: Body + Apart + Sync,
    V: Visitor<B::Data> + Send + Drop,
>(
    rt: &R,
    alloc: Global,
    builder: &Builder,
    body: &B,
    slice: Slice,
    jobs: Vec<Job<V>>,
) -> Result<Vec<Done<V>>, AllocError>
where
    B::Data: Send,
    ensures worked { IfOk result (λ done. AreWorkedOn V.takes builder.now (runs_of B.next (explores builder.now) builder.now.max_threads builder.now.max_steps body.now) jobs.items done.items) }
    ensures within { IfOk result (λ done. AreAtMost (max 1 slice.runs) done.items) }
    ensures len { IfOk result (λ done. length done.items ≡ length jobs.items) }
{
    let is_over = AtomicBool::new(false);
    let is_over = &is_over;
    thread::map_vec(
        rt,
        jobs,
        &|job| { work(rt, alloc, builder, body, is_over, slice, job) },
    )
}

/// The part is worked on for a while, with a body of its own. The turn is over once nothing is left of it.
fn work<R: HostTime, B: Body + Apart, V: Visitor<B::Data>>(
    rt: &R,
    alloc: Global,
    builder: &Builder,
    body: &B,
    is_over: &AtomicBool,
    slice: Slice,
    job: Job<V>,
) -> Done<V>
    ensures worked { IsWorkedOn V.takes builder.now (runs_of B.next (explores builder.now) builder.now.max_threads builder.now.max_steps body.now) job result }
    ensures within { IsAtMost (max 1 slice.runs) result.worked }
{
    let Job {
        mut part,
        mut visitor,
    } = job;
    let mut clock = TurnClock::start(rt, is_over);
    let worked = match body.apart() {
        Ok(own) => builder.check_part(alloc, &own, &mut part, slice, &mut visitor, &mut clock),
        Err(refused) => Err(CheckError::from(refused)),
    };
    if part.is_done {
        is_over.store(true, Ordering::SeqCst);
    }
    Done {
        part,
        visitor,
        worked,
    }
}

/// Each part is given back, but those of which a run failed, and its visitor is joined.
pub(crate) fn take_back<D, V: Visitor<D> + Drop, G: Visitors<V>>(
    alloc: Global,
    parts: &mut Parts,
    visitors: &mut G,
    mut done: Vec<Done<V>>,
) -> Result<Turn, CheckError>
    requires fits { (most : ℕ) × AreAtMost most done.items × (length done.items * most < 2 ^ 64) }
    ensures takes { IfOk result (TakesBack V.takes G.is_new G.joins parts.old parts.new visitors.old visitors.new done.items) }
    ensures within { IfOk result (λ turn. (most : ℕ) → AreAtMost most done.items → turn.runs ≤ length done.items * most) }
{
    let mut turn = Turn {
        runs: 0,
        lost: None,
    };
    'back: while let Some(one) = done.pop() {
        take_one(alloc, parts, visitors, one, &mut turn)?;
    }
    Ok(turn)
}

/// The part is given back, and its visitor joined, but where a run of it failed, or nothing was left of it.
fn take_one<V: Drop, G: Visitors<V>>(
    alloc: Global,
    parts: &mut Parts,
    visitors: &mut G,
    done: Done<V>,
    turn: &mut Turn,
) -> Result<(), CheckError>
    requires fits { HasRoom turn.old.runs done.worked }
    ensures { IfOk result (λ _. IsTaken G.joins parts.old parts.new visitors.old visitors.new done turn.old turn.new done.worked) }
{
    let Done {
        part,
        visitor,
        worked,
    } = done;
    match worked? {
        Worked::Made { runs: 0 } => Ok(()),
        Worked::Made { runs } => {
            visitors.join(visitor)?;
            parts.give_back(alloc, part)?;
            turn.runs += runs;
            Ok(())
        }
        Worked::Failed {
            failure,
            choices,
            ..
        } => {
            turn.lose(Lost {
                part,
                failure,
                choices,
            });
            Ok(())
        }
    }
}

impl Turn {
    /// A run failed. Of two the one is kept that comes first in the order of the walk.
    fn lose(&mut self, lost: Lost)
        ensures runs { self.new.runs ≡ self.old.runs }
        ensures lost { (self.new.lost ≡ self.old.lost) ⊎ (self.new.lost ≡ Some lost) }
    {
        if is_first_of(&lost, &self.lost) {
            self.lost = Some(lost);
        }
    }
}

/// Whether it comes first in the order of the walk, if there is another one.
pub(crate) fn is_first_of(lost: &Lost, other: &Option<Lost>) -> bool {
    match other {
        Some(other) => comes_before(lost, other),
        None => true,
    }
}

/// Whether the one run comes before the other in the order of the walk. Where they go apart one of their parts has its base.
fn comes_before(one: &Lost, other: &Lost) -> bool {
    let place = shared_choices(one.choices.as_slice(), other.choices.as_slice());
    let part = if place < one.part.base.len() {
        &one.part
    } else {
        &other.part
    };
    let default = default_at(part, place);
    match (one.choices.get(place), other.choices.get(place)) {
        (Some(first), Some(second)) => rank(default, *first) < rank(default, *second),
        _ => false,
    }
}

/// The thread that goes on by itself at the node of this place, if a thread is chosen there.
fn default_at(part: &Part, place: usize) -> Option<u8> {
    match part.path.node(place) {
        Some(Node::Schedule(schedule)) => schedule.first,
        Some(Node::Load(_) | Node::Spurious(_)) | None => None,
    }
}

/// The option's place among those of a node: the default first, then rising threads, rising slots, false before true.
fn rank(default: Option<u8>, option: Choice) -> u8 {
    match option {
        Choice::Thread(None) => 0,
        Choice::Thread(Some(thread)) if default == Some(thread) => 0,
        Choice::Thread(Some(thread)) => thread.saturating_add(1),
        Choice::Load(slot) => slot,
        Choice::Spurious(false) => 0,
        Choice::Spurious(true) => 1,
    }
}

/// Cuts parts, the largest ones first, while there are fewer than three for each worker.
pub(crate) fn cut_up(alloc: Global, parts: &mut Parts, workers: usize) -> Result<(), AllocError>
    ensures cuts { IfOk result (λ _. Cuts parts.old parts.new) }
    ensures spreads { IfOk result (λ _. SpreadsOn parts.old parts.new) }
{
    let wanted = workers.saturating_mul(PARTS_FOR_EACH);
    for _ in 0..MOST_CUTS {
        if parts.len() >= wanted {
            return Ok(());
        }
        let Some(number) = largest(parts) else {
            return Ok(());
        };
        parts.cut(alloc, number)?;
    }
    Ok(())
}

/// The number of a part that can be cut, of which as few choices are fixed as of any other: mostly it is the largest one.
fn largest(parts: &Parts) -> Option<usize> {
    let mut found = None;
    let mut least = usize::MAX;
    for (number, part) in parts.list.iter().enumerate() {
        let fixed = part.base.len();
        if fixed < part.path.len() && fixed < least {
            found = Some(number);
            least = fixed;
        }
    }
    found
}
