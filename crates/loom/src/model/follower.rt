//! Choices that follow those of a run, but for one change (own).
ghost use Rattle.std.specs.Prelude.{◌≤◌, ◌<◌, IfSome, length};

use loom_engine::rt::path::drawing::Chooser;
use loom_objects::choice::Choice;
use loom_objects::rt::schedule::{Ability, Offers};
use loom_views::rt::MAX_ATOMIC_HISTORY;
use std::alloc::{AllocError, Global};

/// A step of a run: a thread goes on. What it chooses then are the values at these places of the run's choices, without the last one.
#[derive(Clone, Copy)]
struct Step {
    thread: u8,
    first: usize,
    end: usize,
}

/// Chooses as a run did, one step after another. A step whose thread can't go on waits, and where none can go on that is left, the
/// default does.
#[derive(Drop)]
pub(crate) struct Follower {
    choices: Vec<Choice>,
    // the steps that are left
    steps: Vec<Step>,
    // the values that the present step has left
    at: usize,
    end: usize,
}

/// How a run is changed.
#[derive(Clone, Copy)]
enum Change {
    /// The step's thread goes on at once with the next steps that it has later: a switch away from it is put off.
    GoesOn,
    /// The steps of the thread up to this one come later, just before its next ones.
    Waits,
    /// The steps from this one on are dropped.
    Ends,
    /// The step is dropped.
    Skips,
    /// The step has no values: what it chooses are defaults.
    Forgets,
}

const CHANGES: [Change; 5] = [
    Change::GoesOn,
    Change::Waits,
    Change::Ends,
    Change::Skips,
    Change::Forgets,
];

impl Follower {
    /// Follows the run by these choices with a change of this number or the next one that makes a difference, and says the number
    /// behind that. None where there is no further one.
    pub(crate) fn next(
        alloc: Global,
        choices: &[Choice],
        number: usize,
    ) -> Result<Option<(Follower, usize)>, AllocError> {
        let mut steps = steps_of(alloc, choices)?;
        let count = steps.len();
        let at = first_step(choices);
        if count == 0 {
            return Ok(None);
        }
        for number in number..count.saturating_mul(CHANGES.len()) {
            let Some(kind) = CHANGES.get(number / count) else {
                return Ok(None);
            };
            if make_change(&mut steps, *kind, number % count) {
                let follower = Follower {
                    choices: choices.to_vec(alloc)?,
                    steps,
                    at: 0,
                    end: at,
                };
                return Ok(Some((follower, number + 1)));
            }
        }
        Ok(None)
    }

    /// The next value of the present step, if it has one left.
    fn value(&mut self) -> Option<Choice> {
        if self.at >= self.end {
            return None;
        }
        let value = self.choices.get(self.at).copied();
        self.at += 1;
        value
    }
}

impl Chooser for Follower {
    fn thread(&mut self, offers: &Offers) -> Option<u8> {
        let next = self
            .steps
            .iter()
            .position(|step| is_able(offers, step.thread));
        match next {
            Some(place) => {
                let step = self.steps.remove(place);
                self.at = step.first;
                self.end = step.end;
                Some(step.thread)
            }
            None => {
                self.at = self.end;
                offers.default
            }
        }
    }

    fn slot(&mut self, _readable: &[bool; MAX_ATOMIC_HISTORY]) -> u8 {
        match self.value() {
            Some(Choice::Load(slot)) => slot,
            // which is no slot
            _ => u8::MAX,
        }
    }

    fn is_spurious(&mut self) -> bool {
        matches!(self.value(), Some(Choice::Spurious(true)))
    }
}

/// Whether the thread can go on.
fn is_able(offers: &Offers, thread: u8) -> bool {
    matches!(offers.abilities.get(thread as usize), Some(Ability::Able))
}

/// The place of the first choice of a thread, or of the end.
fn first_step(choices: &[Choice]) -> usize
    ensures { result ≤ length choices.now }
{
    choices
        .iter()
        .position(|choice| matches!(choice, Choice::Thread(_)))
        .unwrap_or(choices.len())
}

/// The steps of a run by these choices.
fn steps_of(alloc: Global, choices: &[Choice]) -> Result<Vec<Step>, AllocError> {
    let mut steps = Vec::new(alloc);
    for (place, choice) in choices.iter().enumerate() {
        if let Choice::Thread(Some(thread)) = choice {
            let first = place + 1;
            steps.push(Step {
                thread: *thread,
                first,
                end: first + first_step(&choices[first..]),
            })?;
        }
    }
    Ok(steps)
}

/// Makes the change at the step of this place, and says whether that makes a difference.
fn make_change(steps: &mut Vec<Step>, change: Change, place: usize) -> bool {
    match change {
        Change::GoesOn => goes_on(steps, place),
        Change::Waits => waits(steps, place),
        Change::Ends => {
            steps.truncate(place);
            true
        }
        Change::Skips if place < steps.len() => {
            steps.remove(place);
            true
        }
        Change::Skips => false,
        Change::Forgets => forgets(steps, place),
    }
}

/// The thread of the step before this one goes on at once with its next steps. It makes no difference where this step is its own, or
/// where it has no further one.
fn goes_on(steps: &mut [Step], place: usize) -> bool {
    let Some(thread) = left_thread(steps, place) else {
        return false;
    };
    let Some(next) = next_of(steps, thread, place) else {
        return false;
    };
    let end = next + length_of_turn(&steps[next..], thread);
    steps[place..end].rotate_left(next - place);
    true
}

/// The steps of the thread before this one, up to there, come just before its next ones. It makes no difference where this step is its
/// own, or where it has no further one.
fn waits(steps: &mut [Step], place: usize) -> bool {
    let Some(thread) = left_thread(steps, place) else {
        return false;
    };
    let Some(next) = next_of(steps, thread, place) else {
        return false;
    };
    let start = start_of_turn(steps, place, thread);
    steps[start..next].rotate_left(place - start);
    true
}

/// The step chooses defaults. It makes no difference where it chooses nothing.
fn forgets(steps: &mut [Step], place: usize) -> bool {
    match steps.get_mut(place) {
        Some(step) if step.first < step.end => {
            step.end = step.first;
            true
        }
        _ => false,
    }
}

/// The thread of the step before this one, if this one is of another thread.
fn left_thread(steps: &[Step], place: usize) -> Option<u8>
    ensures { IfSome result (λ _. place < length steps.now) }
{
    let step = steps.get(place)?;
    let before = steps.get(place.checked_sub(1)?)?;
    if before.thread == step.thread {
        return None;
    }
    Some(before.thread)
}

/// The place of the thread's next step, from this place on.
fn next_of(steps: &[Step], thread: u8, from: usize) -> Option<usize>
    requires { from ≤ length steps.now }
    ensures from { IfSome result (λ place. from ≤ place) }
    ensures within { IfSome result (λ place. place < length steps.now) }
{
    for place in from..steps.len() {
        if steps[place].thread == thread {
            return Some(place);
        }
    }
    None
}

/// How many of the first steps are the thread's, one after another.
fn length_of_turn(steps: &[Step], thread: u8) -> usize
    ensures { result ≤ length steps.now }
{
    for place in 0..steps.len() {
        if steps[place].thread != thread {
            return place;
        }
    }
    steps.len()
}

/// The place of the first of the thread's steps that end just before this place, one after another.
fn start_of_turn(steps: &[Step], place: usize, thread: u8) -> usize
    requires { place ≤ length steps.now }
    ensures { result ≤ place }
{
    for back in 0..place {
        let start = place - back;
        if steps[start - 1].thread != thread {
            return start;
        }
    }
    0
}
