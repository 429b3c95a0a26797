//! The choices of one run: those that are given, and then defaults.
use crate::halt::NextReply;
use crate::machine::Machine;
use crate::memory::push;
use loom_objects::choice::Choice;
use loom_objects::operation::{ExploreOp, Reply};
use loom_views::rt::failure::FailureKind;
use loom_views::rt::{MAX_ATOMIC_HISTORY, MAX_THREADS};

/// The most options of a choice: of a load, one for each store that is kept. A choice of a thread has fewer.
pub const MAX_OPTIONS: usize = MAX_ATOMIC_HISTORY;

/// What could be chosen: the default is the first that is there. Where a thread is chosen, the first is the default, and the
/// option of a thread of this number, if it isn't the default, has the place behind its number.
pub type Options = [Option<Choice>; MAX_OPTIONS];

/// The default of these options.
pub fn default_of(options: &Options) -> Option<Choice> {
    options.iter().find_map(|option| *option)
}

/// What is known of the schedules before a choice.
#[derive(Clone, Copy)]
pub struct Past {
    /// How many preemptions they count.
    pub preemptions: usize,
    /// What was chosen at the last one.
    pub last: Option<Choice>,
    /// The last one that explores.
    pub nearest: Option<usize>,
    /// The last one that explores and chose another thread than the one before it, which the first one has not.
    pub switch: Option<usize>,
}

/// A choice that was made, and what else could have been chosen.
#[derive(Clone, Copy)]
pub struct Made {
    /// What was chosen.
    pub choice: Choice,
    /// All that could be chosen.
    pub options: Options,
    /// Whether a thread was chosen.
    pub is_schedule: bool,
    /// Of each thread whether it could neither go on nor yielded.
    pub disabled: [bool; MAX_THREADS],
    /// Whether another option may be tried.
    pub is_exploring: bool,
    /// What was known of the schedules before it.
    pub past: Past,
    /// Of each option whether the run calls for it.
    pub marks: [bool; MAX_OPTIONS],
}

impl Made {
    // What is known of the schedules with this choice, made at this place, if a thread was chosen. That counts as a preemption
    // where it passes over the default, which is the thread that was chosen before, or there was no schedule before.
    fn and_past(&self, place: usize) -> Past {
        let mut past = self.past;
        if !self.is_schedule {
            return past;
        }
        let default = default_of(&self.options);
        let chosen = Some(self.choice);
        if default != chosen && (past.last.is_none() || past.last == default) {
            past.preemptions = past.preemptions.saturating_add(1);
        }
        if self.is_exploring {
            past.nearest = Some(place);
            if past.last != chosen {
                past.switch = Some(place);
            }
        }
        past.last = chosen;
        past
    }
}

impl Machine {
    /// Makes the choice that is given here, or else the default. Nothing is chosen once the run has halted.
    pub fn choose(&mut self, options: Options, is_schedule: bool) -> Option<Choice> {
        let rest = &*self.rest;
        let (place, most) = (rest.run.made.len(), rest.settings.max_branches);
        let choice = rest.given.get(place).copied();
        let choice = choice.or(default_of(&options));
        self.check(place < most, FailureKind::TooManyBranches);
        self.check(options.contains(&choice), FailureKind::NotDeterministic);
        if self.has_halted() {
            return None;
        }
        if let Some(choice) = choice {
            self.keeps_choice(place, choice, options, is_schedule);
        }
        choice
    }

    // The choice is made at this place.
    fn keeps_choice(&mut self, place: usize, choice: Choice, options: Options, is_schedule: bool) {
        if is_schedule {
            self.finds_reversals();
        }
        let disabled = self.disabled();
        let rest = &mut *self.rest;
        let made = Made {
            choice,
            options,
            is_schedule,
            disabled,
            is_exploring: rest.is_exploring,
            past: rest.past,
            marks: [false; MAX_OPTIONS],
        };
        rest.past = made.and_past(place);
        push(&mut rest.run.made, made, &mut self.halt);
        push(&mut rest.run.choices, choice, &mut self.halt);
    }

    /// Whether other options are tried changes, unless that is settled.
    pub fn switches(&mut self, op: ExploreOp) -> NextReply {
        let explores = matches!(op, ExploreOp::Explore);
        let settles = matches!(op, ExploreOp::SkipBranch);
        let rest = &mut *self.rest;
        if !rest.is_settled {
            let changes = rest.is_exploring != explores;
            rest.is_exploring = explores;
            rest.is_settled = settles;
            self.check(settles || changes, FailureKind::ExploreSwitch);
        }
        Some(Reply::Done)
    }
}
