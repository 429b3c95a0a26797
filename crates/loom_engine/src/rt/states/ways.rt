//! Ways between the states that a search remembers: a state from which none leads to a run's end is one from which no run ends.
ghost use Rattle.std.specs.Prelude.{ℕ, ◌≡◌, ◌<◌, ◌↔◌, [], IfOk, IsFalse, IsTrue, List, length, slice_get, Some, true};
ghost use Rattle.loom_objects.specs.declared.choice.Choice.{Choice as Chosen};
ghost use Rattle.loom_engine.specs.Covering.Between.{AddsRun, AddsWithin, AreClosed, AreReaching, IsClosed, IsFirstLost, IsFirstUnset, IsLastPassed, IsReady, IsSetBy, IsWhole, LeavesOthers, PassesOn, unset};

use crate::rt::states::trails::Trails;
use loom_objects::choice::Choice;
use std::alloc::{AllocError, Global};
use std::marker::Model;

/// A way that a run went from a state, to a later one or to its end. States go by the numbers under which they were noted,
/// from 0 (own).
#[derive(Clone, Copy, Debug, PartialEq, Eq)]
pub struct Way {
    /// The state where it begins.
    pub from: usize,
    /// The state where it ends, or None for a run's end.
    pub to: Option<usize>,
}

/// The ways that runs went, and the states that the last run passed (own).
#[derive(Drop)]
pub struct Ways {
    list: Vec<Way>,
    passed: Vec<usize>,
}

impl Model for Ways {
    ghost use Rattle.loom_engine.specs.Covering.Between.{Tracks};

    ghost Value = { Tracks };

    ghost view = { λ w. record { ways = w.list.items; passed = w.passed.items } };
}

impl Ways {
    /// None yet (own).
    pub fn new(alloc: Global) -> Ways
        ensures { result ≡ record { ways = []; passed = [] } }
    {
        Ways {
            list: Vec::new(alloc),
            passed: Vec::new(alloc),
        }
    }

    /// Adds the ways of a run that made these choices and reached the state of this number, or its end: from each state that it passed
    /// to the next one, and from the last one to there. The choices are those that led a run to each state; this run noted those from
    /// `first` on. An error where memory is refused (own).
    pub fn add_run(
        &mut self,
        led_by: &Trails,
        first: usize,
        made: &[Choice],
        to: Option<usize>,
    ) -> Result<(), AllocError>
        ensures adds { IfOk result (λ _. AddsRun led_by.now made.now to self.old.ways self.new.ways) }
        ensures whole { IfOk result (λ _. IsReady led_by.now made.now first self.old → IsWhole led_by.now made.now first to self.old self.new) }
    {
        self.leave(led_by, made);
        let count = led_by.len();
        for number in first..count {
            self.pass(led_by, made, number)?;
        }
        match self.last_passed(led_by, made) {
            Some(from) => {
                self.list.push(Way { from, to })?;
                Ok(())
            }
            None => Ok(()),
        }
    }

    /// Leaves the states that such a run hasn't passed, from the last one back.
    fn leave(&mut self, led_by: &Trails, made: &[Choice])
        ensures { LeavesOthers led_by.now made.now self.old self.new }
    {
        'leaving: loop {
            if self.last_passed(led_by, made).is_some() {
                return;
            }
            match self.passed.pop() {
                Some(_) => {}
                None => return,
            }
        }
    }

    /// Such a run has passed the state of this number, if it has, with a way from the last one before it.
    fn pass(&mut self, led_by: &Trails, made: &[Choice], number: usize) -> Result<(), AllocError>
        requires { number < length led_by.now }
        ensures adds { IfOk result (λ _. AddsWithin led_by.now made.now self.old.ways self.new.ways) }
        ensures on { IfOk result (λ _. PassesOn led_by.now made.now number self.old self.new) }
    {
        if !led_by.passes(made, number) {
            return Ok(());
        }
        if let Some(from) = self.last_on_way(led_by, number) {
            let to = Some(number);
            self.list.push(Way { from, to })?;
        }
        self.passed.push(number)?;
        Ok(())
    }

    /// The last state that was passed, if such a run passes it.
    fn last_passed(&self, led_by: &Trails, made: &[Choice]) -> Option<usize>
        ensures { IsLastPassed led_by.now made.now self.now.passed result }
    {
        match self.passed.last() {
            Some(last) => {
                if led_by.passes(made, *last) {
                    return Some(*last);
                }
                None
            }
            None => None,
        }
    }

    /// The last state that was passed, if a run passes it that comes to the state of this number.
    fn last_on_way(&self, led_by: &Trails, number: usize) -> Option<usize>
        requires { number < length led_by.now }
        ensures { (there : List Chosen) → slice_get led_by.now number ≡ Some there → IsLastPassed led_by.now there self.now.passed result }
    {
        match self.passed.last() {
            Some(last) => {
                if led_by.is_on_way(*last, number) {
                    return Some(*last);
                }
                None
            }
            None => None,
        }
    }

    /// The first of so many states from which no way leads to a run's end, if there is one. An error where memory is refused (own).
    pub fn first_lost(&self, alloc: Global, count: usize) -> Result<Option<usize>, AllocError>
        ensures { IfOk result (IsFirstLost self.now.ways count) }
    {
        let mut set = Vec::new(alloc);
        set.resize(count, false)?;
        'spreading: loop {
            if !spread(self.list.as_slice(), &mut set) {
                break;
            }
        }
        Ok(first_unset(&set))
    }
}

/// Goes over the ways once, from the last one back, and sets each state from which one leads to an end, or to a state that is set. Whether
/// one was set.
fn spread(ways: &[Way], set: &mut [bool]) -> bool
    ensures length { length set.new ≡ length set.old }
    ensures reaching { (count : ℕ) → length set.old ≡ count → AreReaching ways.now count set.old → AreReaching ways.now count set.new }
    ensures fewer { IsTrue result → unset set.new < unset set.old }
    ensures closed { IsFalse result → AreClosed set.new ways.now }
{
    let mut left = ways.len();
    let mut changed = false;
    while 0 < left {
        left -= 1;
        if set_by(ways[left], set) {
            changed = true;
        }
    }
    changed
}

/// Sets the state from which the way leads, if that is to an end or to a state that is set. Whether it was unset.
fn set_by(way: Way, set: &mut [bool]) -> bool
    ensures sets { IsTrue result → IsSetBy way set.old set.new }
    ensures stays { IsFalse result → set.new ≡ set.old }
    ensures closed { IsFalse result → IsClosed set.old way }
{
    let leads = match way.to {
        Some(next) => is_set(set, next),
        None => true,
    };
    if !leads || way.from >= set.len() || set[way.from] {
        return false;
    }
    set[way.from] = true;
    true
}

/// Whether the state of this number is set.
fn is_set(set: &[bool], number: usize) -> bool
    ensures { IsTrue result ↔ (slice_get set.now number ≡ Some true) }
{
    match set.get(number) {
        Some(is) => *is,
        None => false,
    }
}

/// The first state that is unset, if there is one.
fn first_unset(set: &[bool]) -> Option<usize>
    ensures { IsFirstUnset set.now result }
{
    for number in 0..set.len() {
        if !set[number] {
            return Some(number);
        }
    }
    None
}
