//! Walks, and shorter failures.
mod closures;
mod workers;

use crate::asserting::holds;
use loom::model::visitor::Visitor;
use loom::model::{Builder, Replay, Walk, Walked};
use loom::{Choice, FailureKind, NoClock};
use loom_examples::rows::tables::first::STORE_BUFFERING;
use loom_examples::rows::tables::limits::SPIN_ALONE;
use loom_examples::rows::tables::walks::{FIVE_COUNTING, THREE_PLANTED};
use loom_examples::scripts::script::Script;
use loom_examples::scripts::step::Step;
use std::alloc::{AllocError, Global};
use std::process::Abort;

// Keeps the choices of all runs, one behind another.
#[derive(Drop)]
pub(crate) struct Keeper {
    pub(crate) choices: Vec<Choice>,
}

impl Visitor<u64> for Keeper {
    ghost use Rattle.std.specs.Prelude.{⊤};

    ghost takes = { λ _ _ _ _. ⊤ };

    fn run(&mut self, choices: &[Choice], _value: u64) -> Result<(), AllocError> {
        Ok(self.choices.extend_from_slice(choices)?)
    }
}

// What a walk through runs of the script finds, and the choices of its runs. None where it gives no report.
fn walked(
    alloc: Global,
    builder: &Builder,
    steps: &'static [Step],
    walk: Walk,
) -> Option<(Walked, Vec<Choice>)> {
    let script = Script::new(alloc, steps).ok()?;
    let mut keeper = Keeper {
        choices: Vec::new(alloc),
    };
    let log = None::<HostRuntime>;
    let found = builder
        .walk(alloc, &script, walk, &mut keeper, &mut NoClock, &log)
        .ok()?;
    Some((found, keeper.choices))
}

// The choices of the run that the walk finds to fail, if it finds one.
fn failing(alloc: Global, steps: &'static [Step], walk: Walk) -> Option<Vec<Choice>> {
    let (found, _choices) = walked(alloc, &Builder::new(), steps, walk)?;
    match found {
        Walked::Failed { choices, .. } => Some(choices),
        Walked::Made { .. } => None,
    }
}

// The walk of this seed, by priorities of this depth if there is one.
pub(crate) fn walk_of(seed: u64, depth: Option<u32>, runs: u64) -> Walk {
    match depth {
        Some(depth) => Walk::Priorities { seed, runs, depth },
        None => Walk::Random { seed, runs },
    }
}

// Of ten seeds so many find the failure within 20,000 runs.
fn seeds_that_find(alloc: Global, depth: Option<u32>) -> u32 {
    let mut found = 0u32;
    for seed in 0..10 {
        if failing(alloc, THREE_PLANTED, walk_of(seed, depth, 20_000)).is_some() {
            found = found.saturating_add(1);
        }
    }
    found
}

// Whether two walks by this seed find the same, in the same runs.
fn are_same(alloc: Global, depth: Option<u32>) -> bool {
    let walk = walk_of(7, depth, 100);
    let one = walked(alloc, &Builder::new(), FIVE_COUNTING, walk);
    one.is_some() && one == walked(alloc, &Builder::new(), FIVE_COUNTING, walk)
}

// Whether two walks by other seeds make other runs.
fn are_others(alloc: Global, depth: Option<u32>) -> bool {
    let one = walked(
        alloc,
        &Builder::new(),
        FIVE_COUNTING,
        walk_of(7, depth, 100),
    );
    one != walked(
        alloc,
        &Builder::new(),
        FIVE_COUNTING,
        walk_of(8, depth, 100),
    )
}

// What a walk through store buffering finds that tells so many runs apart at most.
fn found_apart(alloc: Global, most: usize) -> Option<Walked> {
    let mut builder = Builder::new();
    builder.max_different = Some(most);
    let (found, _choices) = walked(alloc, &builder, STORE_BUFFERING, walk_of(1, None, 5_000))?;
    Some(found)
}

// The report of that walk, if so many of its runs are told to differ.
fn apart(different: Option<u64>) -> Option<Walked> {
    Some(Walked::Made {
        runs: 5_000,
        cut: 0,
        different,
    })
}

// Whether the failure that a walk finds is shortened, to one that fails too.
fn is_shortened(alloc: Global, depth: Option<u32>) -> Option<bool> {
    let builder = Builder::new();
    let script = Script::new(alloc, THREE_PLANTED).ok()?;
    let choices = failing(alloc, THREE_PLANTED, walk_of(1, depth, 20_000))?;
    let found = builder
        .shorten(alloc, &script, choices.as_slice(), 10_000)
        .ok()??;
    let again = builder
        .replay(alloc, &script, found.choices.as_slice())
        .ok()?;
    let fails = match again {
        Replay::Failed { failure, .. } => failure.kind == FailureKind::Assertion,
        Replay::Ended { .. } => false,
    };
    Some(fails && found.runs <= 10_000 && found.choices.len() <= choices.len())
}

#[test]
fn finds_what_is_planted(rt: HostRuntime) {
    holds(&rt, seeds_that_find(rt.alloc(), None) >= 9, "random");
    holds(&rt, seeds_that_find(rt.alloc(), Some(3)) >= 9, "priorities");
}

#[test]
fn walks_as_its_seed_says(rt: HostRuntime) {
    holds(&rt, are_same(rt.alloc(), None), "random, the same seed");
    holds(
        &rt,
        are_same(rt.alloc(), Some(3)),
        "priorities, the same seed",
    );
    holds(&rt, are_others(rt.alloc(), None), "random, another seed");
    holds(
        &rt,
        are_others(rt.alloc(), Some(3)),
        "priorities, another seed",
    );
}

#[test]
fn counts_what_is_cut(rt: HostRuntime) {
    let walk = walk_of(1, None, 10);
    let found = walked(rt.alloc(), &Builder::new(), SPIN_ALONE, walk);
    let is_so = match found {
        Some((found, choices)) => {
            found
                == Walked::Made {
                    runs: 0,
                    cut: 10,
                    different: None,
                }
                && choices.is_empty()
        }
        None => false,
    };
    holds(&rt, is_so, "runs without an end");
}

#[test]
fn tells_how_many_differ(rt: HostRuntime) {
    // There are 48 runs, and in so many draws each of them comes.
    let found = found_apart(rt.alloc(), 48);
    holds(&rt, found == apart(Some(48)), "as many as there are");
    let found = found_apart(rt.alloc(), 47);
    holds(&rt, found == apart(None), "more than are told apart");
}

#[test]
fn shortens_what_fails(rt: HostRuntime) {
    holds(&rt, is_shortened(rt.alloc(), None) == Some(true), "random");
    holds(
        &rt,
        is_shortened(rt.alloc(), Some(3)) == Some(true),
        "priorities",
    );
}
