//! The choices that led to states, as a tree: those with which a list begins as the one before it does are kept once.
ghost use Rattle.std.specs.Prelude.{◌≡◌, ◌<◌, ◌≤◌, ◌↔◌, ◌++◌, ◌∷◌, [], IfOk, IsFalse, IsTrue, List, length, OnErr, OnOk, reverse, slice_get, Some, take};
ghost use Rattle.loom_objects.specs.declared.choice.Choice.{Choice as Chosen};
ghost use Rattle.loom_engine.specs.Covering.Between.{Passes};
ghost use Rattle.loom_engine.specs.Covering.Trails.{AreGrafted, AreMoved, AreSteps, AreTrails, BeginsWith, IsCut, IsLast, IsLead, IsOneOrNone, KeepsLists, choices_to, lists_of, moved, moved_leads};

use loom_objects::choice::Choice;
use loom_views::sequence::Sequence;
use std::alloc::{AllocError, Global};
use std::marker::Model;

/// A choice behind those up to an earlier step, whose number is counted from 1, or behind none.
#[derive(Clone, Copy)]
struct Step {
    before: usize,
    choice: Choice,
}

/// So many choices, up to the step of this number, counted from 1. For no choices that is 0.
#[derive(Clone, Copy)]
struct Lead {
    last: usize,
    len: usize,
}

/// The last one of some choices, and those before it.
#[derive(Clone, Copy)]
struct Last {
    choice: Choice,
    before: Lead,
}

/// Lists of choices, in the order in which they were added. A contract sees the list of them, whichever choices they share (own).
#[derive(Drop)]
pub struct Trails {
    steps: Sequence<Step>,
    leads: Sequence<Lead>,
}

impl Model for Trails {
    ghost use Rattle.std.specs.Prelude.{List};
    ghost use Rattle.loom_objects.specs.declared.choice.Choice.{Choice};
    ghost use Rattle.loom_engine.specs.Covering.Trails.{AreTrails, lists_of};

    ghost Value = { List (List Choice) };

    ghost view = { λ t. lists_of t.steps t.leads };

    ghost invariant = { λ t. AreTrails t.steps t.leads };
}

impl Trails {
    /// None yet (own).
    pub fn new(alloc: Global) -> Trails
        ensures { result ≡ [] }
    {
        Trails {
            steps: Sequence::new(alloc),
            leads: Sequence::new(alloc),
        }
    }

    /// How many there are (own).
    pub fn len(&self) -> usize
        ensures { result ≡ length self.now }
    {
        self.leads.len()
    }

    /// One more, at the end. What it begins with as the last one does isn't kept again. An error where memory is refused; then nothing
    /// changes (own).
    pub fn push(&mut self, made: &[Choice]) -> Result<(), AllocError>
        ensures ok { OnOk result (self.new ≡ self.old ++ made.now ∷ []) }
        ensures err { OnErr result (self.new ≡ self.old) }
    {
        let before = last_lead(self.leads.as_slice());
        let from = shared(&self.steps, before, made);
        let lead = walk_on(&mut self.steps, from, made)?;
        self.leads.push(lead)?;
        Ok(())
    }

    /// The first so many of other ones too, at the end. An error where memory is refused; then some of them may be there (own).
    pub fn append(&mut self, other: &Trails, count: usize) -> Result<(), AllocError>
        ensures { IfOk result (λ _. self.new ≡ self.old ++ take count other.now) }
    {
        let offset = self.steps.len();
        graft(&mut self.steps, &other.steps)?;
        put_leads(&self.steps, &mut self.leads, &other.leads, offset, count)?;
        Ok(())
    }

    /// Whether these choices begin with those of this number (own).
    pub fn passes(&self, made: &[Choice], number: usize) -> bool
        ensures { IsTrue result ↔ Passes self.now made.now number }
    {
        if number >= self.leads.len() {
            return false;
        }
        let lead = self.leads.at(number);
        begins_with(&self.steps, *lead, made)
    }

    /// Whether those of the second number begin with those of the first one (own).
    pub fn is_on_way(&self, number: usize, later: usize) -> bool
        requires { later < length self.now }
        ensures { (there : List Chosen) → slice_get self.now later ≡ Some there → IsTrue result ↔ Passes self.now there number }
    {
        if number >= self.leads.len() {
            return false;
        }
        let one = self.leads.at(number);
        let other = self.leads.at(later);
        is_front(&self.steps, *one, *other)
    }

    /// Those of this number. An error where memory is refused (own).
    pub fn choices(&self, alloc: Global, number: usize) -> Result<Vec<Choice>, AllocError>
        requires { number < length self.now }
        ensures { IfOk result (λ choices. slice_get self.now number ≡ Some choices.items) }
    {
        let lead = self.leads.at(number);
        let choices = gathered(alloc, &self.steps, *lead)?;
        Ok(choices)
    }
}

// ---- where a list leads

/// Where the last one of these leads, or where no choices do.
fn last_lead(leads: &[Lead]) -> Lead
    ensures { IsOneOrNone leads.now result }
{
    match leads.last() {
        Some(lead) => *lead,
        None => Lead { last: 0, len: 0 },
    }
}

/// The last one of the choices that lead there, of which there are some, and those before it.
fn last_of(steps: &Sequence<Step>, lead: Lead) -> Last
    requires steps { AreSteps steps.now }
    requires lead { IsLead steps.now lead }
    requires some { 0 < lead.len }
    ensures { IsLast steps.now lead result }
{
    let number = lead.last - 1;
    let step = steps.at(number);
    Last {
        choice: step.choice,
        before: Lead {
            last: step.before,
            len: lead.len - 1,
        },
    }
}

/// So many of the first of the choices that lead there.
fn cut_to(steps: &Sequence<Step>, lead: Lead, len: usize) -> Lead
    requires steps { AreSteps steps.now }
    requires lead { IsLead steps.now lead }
    requires within { len ≤ lead.len }
    ensures { IsCut steps.now lead len result }
{
    let mut at = lead;
    'back: while len < at.len {
        let last = last_of(steps, at);
        at = last.before;
    }
    at
}

/// The choices that lead there, in order. An error where memory is refused.
fn gathered(alloc: Global, steps: &Sequence<Step>, lead: Lead) -> Result<Vec<Choice>, AllocError>
    requires steps { AreSteps steps.now }
    requires lead { IsLead steps.now lead }
    ensures { IfOk result (λ choices. choices.items ≡ choices_to steps.now lead.last) }
{
    let mut list = Vec::with_capacity(alloc, lead.len)?;
    let mut at = lead;
    'back: while 0 < at.len {
        let last = last_of(steps, at);
        list.push(last.choice)?;
        at = last.before;
    }
    let choices = turned_round(alloc, list.as_slice())?;
    Ok(choices)
}

/// The choices from the last one to the first. An error where memory is refused.
fn turned_round(alloc: Global, list: &[Choice]) -> Result<Vec<Choice>, AllocError>
    ensures { IfOk result (λ turned. turned.items ≡ reverse list.now) }
{
    list.iter().rev().copied().collect(alloc)
}

// ---- how lists begin

/// Whether these choices begin with those that lead there.
fn begins_with(steps: &Sequence<Step>, lead: Lead, made: &[Choice]) -> bool
    requires steps { AreSteps steps.now }
    requires lead { IsLead steps.now lead }
    ensures { IsTrue result ↔ BeginsWith steps.now lead.last made.now }
{
    let mut at = lead;
    'back: while 0 < at.len {
        let last = last_of(steps, at);
        if !has_at(made, last.before.len, last.choice) {
            return false;
        }
        at = last.before;
    }
    true
}

/// Whether the choices that lead to the second begin with those that lead to the first.
fn is_front(steps: &Sequence<Step>, one: Lead, other: Lead) -> bool
    requires steps { AreSteps steps.now }
    requires one { IsLead steps.now one }
    requires other { IsLead steps.now other }
    ensures { IsTrue result ↔ BeginsWith steps.now one.last (choices_to steps.now other.last) }
{
    if other.len < one.len {
        return false;
    }
    let cut = cut_to(steps, other, one.len);
    are_equal(steps, one, cut)
}

/// Whether the same choices lead to both, of which there are as many. Where they come to one step the rest is the same.
fn are_equal(steps: &Sequence<Step>, one: Lead, other: Lead) -> bool
    requires steps { AreSteps steps.now }
    requires one { IsLead steps.now one }
    requires other { IsLead steps.now other }
    requires same { one.len ≡ other.len }
    ensures { IsTrue result ↔ (choices_to steps.now one.last ≡ choices_to steps.now other.last) }
{
    let mut at = one;
    let mut beside = other;
    'back: while 0 < at.len {
        if at.last == beside.last {
            return true;
        }
        let last = last_of(steps, at);
        let other_last = last_of(steps, beside);
        if !are_alike(last.choice, other_last.choice) {
            return false;
        }
        at = last.before;
        beside = other_last.before;
    }
    true
}

/// How far these choices begin as those that lead there do.
fn shared(steps: &Sequence<Step>, lead: Lead, made: &[Choice]) -> Lead
    requires steps { AreSteps steps.now }
    requires lead { IsLead steps.now lead }
    ensures lead { IsLead steps.now result }
    ensures begins { BeginsWith steps.now result.last made.now }
{
    let mut found = lead;
    let mut at = lead;
    'back: while 0 < at.len {
        let last = last_of(steps, at);
        let stays = has_at(made, last.before.len, last.choice);
        let next = kept(stays, found, last.before);
        found = next;
        at = last.before;
    }
    found
}

/// What was found, if it stays, or else those before it.
fn kept(stays: bool, found: Lead, before: Lead) -> Lead
    ensures found { IsTrue stays → result ≡ found }
    ensures before { IsFalse stays → result ≡ before }
{
    if stays {
        return found;
    }
    before
}

/// Steps for the choices behind those that lead there, with which these begin. Where memory is refused some of the steps may be there.
fn walk_on(steps: &mut Sequence<Step>, from: Lead, made: &[Choice]) -> Result<Lead, AllocError>
    requires steps { AreSteps steps.old }
    requires lead { IsLead steps.old from }
    requires begins { BeginsWith steps.old from.last made.now }
    ensures well { AreSteps steps.new }
    ensures keeps { KeepsLists steps.old steps.new }
    ensures lead { IfOk result (IsLead steps.new) }
    ensures whole { IfOk result (λ lead. choices_to steps.new lead.last ≡ made.now) }
{
    let mut last = from.last;
    for place in from.len..made.len() {
        let choice = choice_at(made, place);
        steps.push(Step {
            before: last,
            choice,
        })?;
        last = steps.len();
    }
    Ok(Lead {
        last,
        len: made.len(),
    })
}

// ---- steps behind others

/// Puts these steps behind those, where they lead to the same. Where memory is refused some of them may be there.
fn graft(steps: &mut Sequence<Step>, other: &Sequence<Step>) -> Result<(), AllocError>
    requires steps { AreSteps steps.old }
    requires other { AreSteps other.now }
    ensures well { AreSteps steps.new }
    ensures keeps { KeepsLists steps.old steps.new }
    ensures grafted { IfOk result (λ _. AreGrafted steps.old other.now steps.new) }
{
    let offset = steps.len();
    let count = other.len();
    for number in 0..count {
        let step = other.at(number);
        let before = moved(step.before, offset)?;
        let choice = step.choice;
        steps.push(Step { before, choice })?;
    }
    Ok(())
}

/// The first so many of these lead there too, behind so many other steps. Where memory is refused some of them may.
fn put_leads(
    steps: &Sequence<Step>,
    leads: &mut Sequence<Lead>,
    other: &Sequence<Lead>,
    offset: usize,
    count: usize,
) -> Result<(), AllocError>
    requires well { AreTrails steps.now leads.old }
    requires moved { AreMoved steps.now offset other.now }
    ensures well { AreTrails steps.now leads.new }
    ensures puts { IfOk result (λ _. lists_of steps.now leads.new ≡ lists_of steps.now leads.old ++ take count (lists_of steps.now (moved_leads offset other.now))) }
{
    let most = other.len();
    for number in 0..count.min(most) {
        let lead = other.at(number);
        let last = moved(lead.last, offset)?;
        let len = lead.len;
        leads.push(Lead { last, len })?;
    }
    Ok(())
}

/// The number of a step behind so many others. An error where it is too large, as no step's is.
fn moved(number: usize, offset: usize) -> Result<usize, AllocError>
    ensures { IfOk result (λ behind. behind ≡ moved offset number) }
{
    if number == 0 {
        return Ok(0);
    }
    match number.checked_add(offset) {
        Some(behind) => Ok(behind),
        None => Err(AllocError),
    }
}

// ---- single choices

/// Whether this choice is at the place.
fn has_at(made: &[Choice], place: usize, choice: Choice) -> bool
    ensures { IsTrue result ↔ (slice_get made.now place ≡ Some choice) }
{
    if place >= made.len() {
        return false;
    }
    let there = choice_at(made, place);
    are_alike(there, choice)
}

/// The choice at the place.
fn choice_at(made: &[Choice], place: usize) -> Choice
    requires { place < length made.now }
    ensures { slice_get made.now place ≡ Some result }
{
    made[place]
}

/// Whether the choices are the same.
fn are_alike(one: Choice, other: Choice) -> bool
    ensures { IsTrue result ↔ (one ≡ other) }
{
    one == other
}
