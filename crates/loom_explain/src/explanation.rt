//! What happened in a run.
pub use crate::event::{End, Event};
pub use crate::values::Values;
use loom_objects::choice::Choice;
use std::fmt;

/// What could be chosen where a choice was made, in the order of choices.
#[derive(Debug, Drop)]
pub enum Options {
    /// The threads that could go on; none where no thread could.
    Threads(Vec<u8>),
    /// The slots of the stores that could be read.
    Slots(Vec<u8>),
    /// Whether the thread wakes without a notification: false or true.
    Wakes,
}

/// A run as its events, with its choices and its end.
#[derive(Debug, Drop)]
pub struct Explanation {
    /// What the threads handed over, in order, each with the reply before it.
    pub events: Vec<Event>,
    /// The data of the events as texts, as many as there are events; none where data aren't shown.
    pub values: Vec<Values>,
    /// The choices of the run, in order.
    pub choices: Vec<Choice>,
    /// What could be chosen where each choice was made; as many as there are choices.
    pub options: Vec<Options>,
    /// How the run ended.
    pub end: End,
    /// How many threads the run could have.
    pub max_threads: usize,
    /// How many choices the run could make.
    pub max_branches: usize,
    /// How many operations its threads could hand over.
    pub max_steps: usize,
    /// All this in words, as `Display` prints it: why the run failed, the choices, and the events in columns.
    pub text: String,
}

impl Explanation {
    /// The event of this number, from 1, if there is one.
    pub(crate) fn event(&self, number: usize) -> Option<&Event> {
        self.events.get(number.wrapping_sub(1))
    }

    /// The text of the data that the thread was told before the event of this number.
    pub(crate) fn data_told(&self, number: usize) -> Option<&str> {
        let values = self.values.get(number.wrapping_sub(1))?;
        let text = values.told.as_ref()?;
        Some(text.as_str())
    }

    /// The text of the data that were handed over at the event of this number.
    pub(crate) fn data_handed_over(&self, number: usize) -> Option<&str> {
        let values = self.values.get(number.wrapping_sub(1))?;
        let text = values.handed_over.as_ref()?;
        Some(text.as_str())
    }
}

impl fmt::Display for Explanation {
    fn fmt<W: fmt::Write>(&self, f: &mut fmt::Formatter<W>) -> fmt::Result {
        write!(f, "{}", self.text)
    }
}
