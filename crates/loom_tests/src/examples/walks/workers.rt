//! Walks by several workers find what a walk by one finds, in the same runs.
use crate::asserting::holds;
use crate::examples::walks::{Keeper, walk_of, walked};
use loom::model::error::CheckError;
use loom::model::{Builder, Walk, Walked};
use loom::runner::{Visitors, walk_parallel};
use loom::{Choice, NoClock};
use loom_examples::rows::tables::first::STORE_BUFFERING;
use loom_examples::rows::tables::limits::SPIN_ALONE;
use loom_examples::rows::tables::walks::{FIVE_COUNTING, THREE_PLANTED};
use loom_examples::scripts::script::Script;
use loom_examples::scripts::step::Step;
use std::alloc::{AllocError, Global};
use std::process::Abort;
use std::thread::Threads;
use std::time::Duration;

/// Keeps the choices of all runs that its visitors were given, one behind another.
#[derive(Drop)]
struct Keepers {
    alloc: Global,
    choices: Vec<Choice>,
}

impl Visitors<Keeper> for Keepers {
    ghost is_new = { λ keeper. Unit {0} };

    ghost joins = { λ old keeper new. Unit {0} };

    fn make(&self) -> Result<Keeper, AllocError> {
        Ok(Keeper {
            choices: Vec::new(self.alloc),
        })
    }

    fn join(&mut self, keeper: Keeper) -> Result<(), AllocError> {
        Ok(self.choices.extend_from_slice(keeper.choices.as_slice())?)
    }
}

/// What a walk through runs of the script by so many workers finds, and the choices of the runs that were joined.
fn shared<R: AllocGlobal + Threads + Sync>(
    rt: &R,
    builder: &Builder,
    steps: &'static [Step],
    walk: Walk,
    count: usize,
) -> Result<(Walked, Vec<Choice>), CheckError> {
    let alloc = rt.alloc();
    let script = Script::new(alloc, steps)?;
    let mut keepers = Keepers {
        alloc,
        choices: Vec::new(alloc),
    };
    let log = None::<HostRuntime>;
    let found = walk_parallel(
        rt,
        alloc,
        builder,
        &script,
        count,
        walk,
        &mut keepers,
        &mut NoClock,
        &log,
    )?;
    Ok((found, keepers.choices))
}

/// Whether so many workers find what one walk finds, in the same runs, in the same order.
fn find_the_same<R: AllocGlobal + Threads + Sync>(
    rt: &R,
    builder: &Builder,
    steps: &'static [Step],
    walk: Walk,
    count: usize,
) -> bool {
    let alone = walked(rt.alloc(), builder, steps, walk);
    alone.is_some() && alone == shared(rt, builder, steps, walk, count).ok()
}

/// A builder that tells so many runs apart.
fn apart(most: usize) -> Builder {
    let mut builder = Builder::new();
    builder.max_different = Some(most);
    builder
}

/// Up to eight workers find by walks of this depth what one finds.
fn few_and_many_find_the_same<R: Abort + AllocGlobal + Threads + Sync>(rt: &R, depth: Option<u32>) {
    let builder = apart(100_000);
    let walk = walk_of(5, depth, 2_500);
    for count in [0, 1, 2, 3, 8] {
        let is_so = find_the_same(rt, &builder, STORE_BUFFERING, walk, count);
        holds(rt, is_so, "store buffering");
        let is_so = find_the_same(rt, &builder, FIVE_COUNTING, walk, count);
        holds(rt, is_so, "five that count");
    }
}

#[test]
fn workers_find_what_one_finds(rt: HostRuntime) {
    few_and_many_find_the_same(&rt, None);
    few_and_many_find_the_same(&rt, Some(3));
}

/// Up to three workers find by this walk what one finds where a failure is planted.
fn find_what_is_planted<R: Abort + AllocGlobal + Threads + Sync>(rt: &R, walk: Walk) {
    for count in [1, 2, 3] {
        let is_so = find_the_same(rt, &apart(100_000), THREE_PLANTED, walk, count);
        holds(rt, is_so, "three planted");
    }
}

#[test]
fn workers_find_what_is_planted(rt: HostRuntime) {
    for seed in [1, 2] {
        find_what_is_planted(&rt, walk_of(seed, None, 20_000));
        find_what_is_planted(&rt, walk_of(seed, Some(3), 20_000));
    }
}

#[test]
fn workers_make_few_runs(rt: HostRuntime) {
    for runs in [0, 1, 999, 1_000, 1_001] {
        let walk = walk_of(1, None, runs);
        let is_so = find_the_same(&rt, &apart(48), STORE_BUFFERING, walk, 3);
        holds(&rt, is_so, "as many as are told apart");
        let is_so = find_the_same(&rt, &apart(20), STORE_BUFFERING, walk, 3);
        holds(&rt, is_so, "more than are told apart");
    }
    let walk = walk_of(1, None, 10);
    let is_so = find_the_same(&rt, &Builder::new(), SPIN_ALONE, walk, 3);
    holds(&rt, is_so, "runs without an end");
}

#[test]
fn workers_make_no_run(rt: HostRuntime) {
    let walk = walk_of(1, None, 2_000);
    let mut builder = Builder::new();
    builder.max_duration = Some(Duration::ZERO);
    let is_so = find_the_same(&rt, &builder, STORE_BUFFERING, walk, 2);
    holds(&rt, is_so, "the time is up");
    builder.max_threads = 0;
    let found = shared(&rt, &builder, STORE_BUFFERING, walk, 2);
    let is_so = found.err() == Some(CheckError::MaxThreads(0));
    holds(&rt, is_so, "a setting out of range");
}
