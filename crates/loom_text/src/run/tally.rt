//! The final states of a test's runs, each with the number of runs that ended with it.
ghost use Rattle.std.specs.Prelude.{◌≡◌, ◌+◌, IfOk, cond};
ghost use Rattle.loom_text.specs.Run.States.{counts, is_before, is_same, more_often, nothing_told, place_in, put, tallied, told_each, told_more};

use crate::run::counting::Counting;
use crate::run::layout::Layout;
use crate::run::operators::is_less;
use crate::run::values::Values;
use crate::test::Test;
use loom::model::visitor::Visitor;
use loom::rt::path::Path;
use loom::runner::Visitors;
use loom_objects::choice::Choice;
use std::alloc::{AllocError, Global};
use std::marker::Model;

/// A final state, as far as it is shown, and how many runs ended with it (own).
#[derive(Drop)]
pub struct FinalState {
    numbers: Vec<u32>,
    runs: u64,
}

impl Model for FinalState {
    ghost use Rattle.loom_text.specs.Run.Counted.{Counted};

    ghost Value = { Counted };

    ghost view = { λ state. record { numbers = state.numbers.items; runs = state.runs } };
}

impl FinalState {
    // The state, with so many runs.
    fn new(alloc: Global, numbers: &[u32], runs: u64) -> Result<FinalState, AllocError>
        ensures { IfOk result (λ state. state ≡ record { numbers = numbers.now; runs = runs }) }
    {
        let numbers = Vec::from_slice(alloc, numbers)?;
        Ok(FinalState { numbers, runs })
    }

    /// The numbers that are shown, each the 32 bits of an `int` (own).
    pub fn numbers(&self) -> &[u32]
        ensures { result.now ≡ self.now.numbers }
    {
        self.numbers.as_slice()
    }

    // So many runs more. It fails where the count has no room.
    fn count(&mut self, runs: u64) -> Result<(), AllocError>
        ensures { IfOk result (λ _. self.new ≡ more_often runs self.old) }
    {
        match self.runs.checked_add(runs) {
            Some(runs) => {
                self.runs = runs;
                Ok(())
            }
            None => Err(AllocError),
        }
    }

    /// How many runs ended with it (own).
    pub fn runs(&self) -> u64
        ensures { result ≡ self.now.runs }
    {
        self.runs
    }
}

/// What was counted of a test's runs (own).
#[derive(Drop)]
pub struct Counts {
    /// The final states of the runs that the filter lets through, in order.
    pub states: Vec<FinalState>,
    /// How many of these runs ended with a state that meets the test's condition.
    pub positive: u64,
    /// How many ended with another one.
    pub negative: u64,
}

impl Counts {
    // So many runs more ended with this result of main. It fails where a growth is refused, and where a count has no room.
    fn tell(
        &mut self,
        alloc: Global,
        test: &Test,
        layout: &Layout,
        numbers: &[u32],
        runs: u64,
    ) -> Result<(), AllocError>
        ensures { IfOk result (λ _. tallied test.now layout.now self.new.states.items self.new.positive self.new.negative
            ≡ told_more (tallied test.now layout.now self.old.states.items self.old.positive self.old.negative) (record { numbers = numbers.now; runs = runs })) }
    {
        if !is_counted(test, layout, numbers) {
            return Ok(());
        }
        let is_met = test.condition.is_met(layout.terms.as_slice(), numbers);
        let positive = plus(self.positive, is_met, runs)?;
        let negative = plus(self.negative, !is_met, runs)?;
        let shown = numbers.len().min(layout.shown);
        add(alloc, &mut self.states, &numbers[..shown], runs)?;
        self.positive = positive;
        self.negative = negative;
        Ok(())
    }
}

/// Is given the runs of a test, and counts its final states. Of a search in parts it is given what the visitors of the parts have
/// counted (own).
#[derive(Drop)]
pub struct Tally<'a, C> {
    alloc: Global,
    test: &'a Test,
    layout: &'a Layout,
    counts: Counts,
    // How many runs it was given, and who hears of them.
    made: u64,
    counting: &'a mut C,
}

impl<'a, C> Tally<'a, C> {
    /// No states of the test (own).
    pub fn new(
        alloc: Global,
        test: &'a Test,
        layout: &'a Layout,
        counting: &'a mut C,
    ) -> Tally<'a, C>
        ensures { tallied result.test.now result.layout.now result.counts.states.items result.counts.positive result.counts.negative ≡ nothing_told test.entry.now layout.entry.now }
    {
        Tally {
            alloc,
            test,
            layout,
            counts: Counts {
                states: Vec::new(alloc),
                positive: 0,
                negative: 0,
            },
            made: 0,
            counting,
        }
    }

    /// What it has counted (own).
    pub fn into_counts(self) -> Counts
        ensures states { result.states.items ≡ self.entry.counts.states.items }
        ensures positive { result.positive ≡ self.entry.counts.positive }
        ensures negative { result.negative ≡ self.entry.counts.negative }
    {
        self.counts
    }
}

impl<'a, C: Counting> Visitor<Values> for Tally<'a, C> {
    ghost use Rattle.std.specs.Prelude.{◌≡◌};
    ghost use Rattle.loom_text.specs.Run.States.{tallied, told};

    ghost takes = { λ old choices numbers new. tallied new.test.now new.layout.now new.counts.states.items new.counts.positive new.counts.negative
        ≡ told (tallied old.test.now old.layout.now old.counts.states.items old.counts.positive old.counts.negative) numbers };

    fn run(&mut self, _choices: &[Choice], value: Values) -> Result<(), AllocError> {
        self.made = self.made.saturating_add(1);
        self.counting.made(self.made);
        self.counts
            .tell(self.alloc, self.test, self.layout, value.as_slice(), 1)
    }

    // It doesn't look at the choices.
    fn run_along(&mut self, _alloc: Global, _path: &Path, value: Values) -> Result<(), AllocError> {
        self.run(&[], value)
    }
}

/// Is given the runs of a part of a search, and counts their results, each with all its numbers (own).
#[derive(Drop)]
pub struct PartTally {
    alloc: Global,
    results: Vec<FinalState>,
}

impl Visitor<Values> for PartTally {
    ghost use Rattle.std.specs.Prelude.{◌≡◌};
    ghost use Rattle.loom_text.specs.Run.States.{added};

    ghost takes = { λ old choices numbers new. new.results.items ≡ added numbers old.results.items };

    fn run(&mut self, _choices: &[Choice], value: Values) -> Result<(), AllocError> {
        add(self.alloc, &mut self.results, value.as_slice(), 1)
    }

    // It doesn't look at the choices.
    fn run_along(&mut self, _alloc: Global, _path: &Path, value: Values) -> Result<(), AllocError> {
        self.run(&[], value)
    }
}

impl<'a, C: Counting> Visitors<PartTally> for Tally<'a, C> {
    ghost use Rattle.std.specs.Prelude.{◌≡◌, []};
    ghost use Rattle.loom_text.specs.Run.States.{tallied, told_each};

    ghost is_new = { λ part. part.results.items ≡ [] };

    ghost joins = { λ old part new. tallied new.test.now new.layout.now new.counts.states.items new.counts.positive new.counts.negative
        ≡ told_each (tallied old.test.now old.layout.now old.counts.states.items old.counts.positive old.counts.negative) part.results.items };

    fn make(&self) -> Result<PartTally, AllocError> {
        Ok(PartTally {
            alloc: self.alloc,
            results: Vec::new(self.alloc),
        })
    }

    fn join(&mut self, part: PartTally) -> Result<(), AllocError> {
        for result in &part.results {
            let (numbers, runs) = (result.numbers(), result.runs());
            self.counts
                .tell(self.alloc, self.test, self.layout, numbers, runs)?;
            self.made = self.made.saturating_add(runs);
        }
        self.counting.made(self.made);
        Ok(())
    }
}

// So many more, if it is so. It fails where a word has no room.
fn plus(count: u64, is_so: bool, runs: u64) -> Result<u64, AllocError>
    ensures { IfOk result (λ sum. sum ≡ count + cond is_so runs 0) }
{
    if is_so {
        count.checked_add(runs).ok_or(AllocError)
    } else {
        Ok(count)
    }
}

// Whether a final state with these numbers counts: the filter, if there is one, lets it through.
fn is_counted(test: &Test, layout: &Layout, numbers: &[u32]) -> bool
    ensures { result ≡ counts test.now layout.now numbers.now }
{
    match &test.filter {
        Some(filter) => filter.is_met(layout.terms.as_slice(), numbers),
        None => true,
    }
}

// So many runs more ended with this state. It fails where a growth is refused, and where more runs than a word holds ended with it.
#[tactic(auto, using(crate::proofs::TallyLemmas::put_behind, crate::proofs::TallyLemmas::put_same, crate::proofs::TallyLemmas::put_new))]
fn add(
    alloc: Global,
    states: &mut Vec<FinalState>,
    numbers: &[u32],
    runs: u64,
) -> Result<(), AllocError>
    ensures { IfOk result (λ _. states.new.items ≡ put (record { numbers = numbers.now; runs = runs }) states.old.items) }
{
    let place = place_in(states.as_slice(), numbers);
    if place >= states.len() {
        states.push(FinalState::new(alloc, numbers, runs)?)?;
        return Ok(());
    }
    if is_same(states[place].numbers(), numbers) {
        return states[place].count(runs);
    }
    states.insert(place, FinalState::new(alloc, numbers, runs)?)?;
    Ok(())
}

// How many states are shown before one with these numbers.
#[tactic(auto, using(crate::proofs::TallyLemmas::place_more, crate::proofs::TallyLemmas::place_end))]
fn place_in(states: &[FinalState], numbers: &[u32]) -> usize
    ensures { result ≡ place_in numbers.now states.now }
{
    for (place, state) in states.iter().enumerate() {
        if !is_before(state.numbers(), numbers) {
            return place;
        }
    }
    states.len()
}

// Whether these are the same numbers.
fn is_same(one: &[u32], other: &[u32]) -> bool
    ensures { result ≡ is_same one.now other.now }
{
    match one {
        [] => match other {
            [] => true,
            [_, ..] => false,
        },
        [first, one @ ..] => match other {
            [] => false,
            [second, other @ ..] => *first == *second && is_same(one, other),
        },
    }
}

// Whether the one state is shown before the other: by their first numbers that differ, as ints.
fn is_before(one: &[u32], other: &[u32]) -> bool
    ensures { result ≡ is_before one.now other.now }
{
    match other {
        [] => false,
        [second, other @ ..] => match one {
            [] => true,
            [first, one @ ..] => {
                if *first == *second {
                    is_before(one, other)
                } else {
                    is_less(*first, *second)
                }
            }
        },
    }
}
