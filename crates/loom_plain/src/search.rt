//! The least set of runs that holds the default run, and with each run its alternatives.
use crate::choices::{Made, default_of};
use crate::halt::Halt;
use crate::marks::{mark_all, push_alternatives};
use crate::memory::push;
use crate::run::{Ending, PlainRun, Settings, run};
use loom_objects::body::Body;
use loom_objects::choice::Choice;
use std::alloc::Global;

/// A run of the set.
#[derive(Drop)]
pub struct Found {
    /// Its choices, in order.
    pub choices: Vec<Choice>,
    /// How it ended.
    pub ending: Ending,
}

// The runs that were made, and those that they call for.
#[derive(Drop)]
struct Search {
    alloc: Global,
    settings: Settings,
    // Whether runs are made in the order of a search that isn't reduced, up to the first that fails.
    is_in_order: bool,
    // What a run that is called for chooses before defaults. The next one is the last.
    lists: Vec<Vec<Choice>>,
    found: Vec<Found>,
    // What each run has chosen.
    made: Vec<Vec<Made>>,
    is_over: bool,
    halt: Option<Halt>,
}

// Whether the run makes these choices, and then defaults.
fn is_run_of(made: &Vec<Made>, list: &Vec<Choice>) -> bool {
    for (place, each) in made.iter().enumerate() {
        let wanted = list.get(place).copied().or(default_of(&each.options));
        if wanted != Some(each.choice) {
            return false;
        }
    }
    made.len() >= list.len()
}

impl Search {
    // The default run is called for.
    fn new(alloc: Global, settings: Settings, is_in_order: bool) -> Search {
        let mut search = Search {
            alloc,
            settings,
            is_in_order,
            lists: Vec::new(alloc),
            found: Vec::new(alloc),
            made: Vec::new(alloc),
            is_over: false,
            halt: None,
        };
        push(&mut search.lists, Vec::new(alloc), &mut search.halt);
        search
    }

    // Whether one of the runs makes these choices, and then defaults.
    fn has(&self, list: &Vec<Choice>) -> bool {
        for made in &self.made {
            if is_run_of(made, list) {
                return true;
            }
        }
        false
    }

    // The next list that is called for, unless the search is over.
    fn next(&mut self, most: usize) -> Option<Vec<Choice>> {
        if self.is_over || self.halt.is_some() {
            return None;
        }
        if self.found.len() >= most {
            self.halt = Some(Halt::TooManyRuns);
            return None;
        }
        self.lists.pop()
    }

    // Adds the run that makes these choices, and then defaults. In a search in order no run makes the choices of two lists.
    fn adds<B: Body<Data = u64>>(&mut self, body: &B, list: Vec<Choice>) {
        if !self.is_in_order && self.has(&list) {
            return;
        }
        let length = if self.is_in_order { list.len() } else { 0 };
        match run(self.alloc, self.settings, body, list) {
            Ok(run) => self.keeps(run, length),
            Err(halt) => self.halt = Some(halt),
        }
    }

    // Adds the run, and what it calls for past so many choices.
    fn keeps(&mut self, mut run: PlainRun, length: usize) {
        if self.settings.reduce {
            mark_all(self.settings.bound, &mut run);
        }
        for place in length..run.made.len() {
            push_alternatives(
                self.alloc,
                self.settings,
                &run,
                place,
                &mut self.lists,
                &mut self.halt,
            );
        }
        let PlainRun {
            choices,
            made,
            reversals: _,
            ending,
        } = run;
        self.is_over = self.is_in_order && matches!(ending, Ending::Failed(_));
        push(&mut self.found, Found { choices, ending }, &mut self.halt);
        push(&mut self.made, made, &mut self.halt);
    }
}

// The runs of the search, unless there are so many.
fn found_by<B: Body<Data = u64>>(
    mut search: Search,
    body: &B,
    most: usize,
) -> Result<Vec<Found>, Halt> {
    for _ in 0..u64::MAX {
        match search.next(most) {
            Some(list) => search.adds(body, list),
            None => break,
        }
    }
    match search.halt {
        Some(halt) => Err(halt),
        None => Ok(search.found),
    }
}

/// The set, unless it has so many runs. The default run is the first of it.
pub fn least_set<B: Body<Data = u64>>(
    alloc: Global,
    settings: Settings,
    body: &B,
    most: usize,
) -> Result<Vec<Found>, Halt> {
    found_by(Search::new(alloc, settings, false), body, most)
}

/// The runs of a search that isn't reduced, those that share a beginning together, the default first, up to the first that
/// fails, unless there are so many.
pub fn runs_in_order<B: Body<Data = u64>>(
    alloc: Global,
    settings: Settings,
    body: &B,
    most: usize,
) -> Result<Vec<Found>, Halt> {
    found_by(Search::new(alloc, settings, true), body, most)
}
