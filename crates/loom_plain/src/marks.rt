//! Which runs a run calls for: marks and alternatives.
use crate::choices::{MAX_OPTIONS, Made};
use crate::halt::Halt;
use crate::memory::push;
use crate::run::{PlainRun, Reversal, Settings};
use loom_objects::choice::Choice;
use std::alloc::Global;

impl Made {
    // The thread of this number is marked, or each option but the default where it was disabled.
    fn mark(&mut self, number: usize) {
        if self.disabled.get(number).copied().unwrap_or(false) {
            self.marks = [true; MAX_OPTIONS];
            self.marks[0] = false;
        } else if let Some(mark) = self.marks.get_mut(number.saturating_add(1)) {
            *mark = true;
        }
    }

    // The option at this place among all, if another one was chosen here and it is to be tried: because each is, or it is marked.
    fn tried(&self, number: usize, tries_each: bool) -> Option<Choice> {
        let is_marked = self.marks.get(number).copied().unwrap_or(false);
        let option = self.options.get(number).copied().flatten();
        if (tries_each || is_marked) && option != Some(self.choice) {
            option
        } else {
            None
        }
    }
}

// The thread is marked at the schedule of this place, unless the schedule's count is the bound.
fn mark(bound: Option<usize>, made: &mut Vec<Made>, place: usize, thread: u8) {
    if let Some(here) = made.get_mut(place)
        && bound != Some(here.past.preemptions)
    {
        here.mark(usize::from(thread));
    }
}

// The thread is marked for one access: at the nearest schedule from its place down, and under a bound before that one too.
fn mark_for(bound: Option<usize>, made: &mut Vec<Made>, reversal: Reversal) {
    let Reversal { thread, place } = reversal;
    let Some(here) = made.get(place) else {
        return;
    };
    let nearest = if here.is_exploring {
        Some(place)
    } else {
        here.past.nearest
    };
    let Some(nearest) = nearest else {
        return;
    };
    mark(bound, made, nearest, thread);
    if let Some(here) = made.get(nearest)
        && let Some(switch) = here.past.switch
        && bound.is_some()
    {
        mark(bound, made, switch, thread);
    }
}

/// Marks what the run calls for.
pub fn mark_all(bound: Option<usize>, run: &mut PlainRun) {
    for reversal in &run.reversals {
        mark_for(bound, &mut run.made, *reversal);
    }
}

// Whether each option of this choice is to be tried: where no thread was chosen, and below the bound where the search isn't
// reduced.
fn tries_each(settings: Settings, here: &Made) -> bool {
    let is_below = match settings.bound {
        Some(bound) => here.past.preemptions < bound,
        None => true,
    };
    !here.is_schedule || (is_below && !settings.reduce)
}

// Adds the choices before this place, and the option.
fn push_list(
    alloc: Global,
    choices: &[Choice],
    place: usize,
    option: Choice,
    lists: &mut Vec<Vec<Choice>>,
    halt: &mut Option<Halt>,
) {
    let before = choices.get(..place).unwrap_or(choices);
    match before.to_vec(alloc) {
        Ok(mut list) => {
            push(&mut list, option, halt);
            push(lists, list, halt);
        }
        Err(_) => *halt = Some(Halt::Memory),
    }
}

/// For each other option of this place that is to be tried, the last one first: the choices before, and the option. Where the
/// search doesn't explore there is none.
pub fn push_alternatives(
    alloc: Global,
    settings: Settings,
    run: &PlainRun,
    place: usize,
    lists: &mut Vec<Vec<Choice>>,
    halt: &mut Option<Halt>,
) {
    let Some(here) = run.made.get(place) else {
        return;
    };
    if !here.is_exploring {
        return;
    }
    let tries_each = tries_each(settings, here);
    for number in (0..MAX_OPTIONS).rev() {
        if let Some(option) = here.tried(number, tries_each) {
            push_list(alloc, run.choices.as_slice(), place, option, lists, halt);
        }
    }
}
