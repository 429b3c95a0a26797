//! A told run as a picture: a lane for each thread, a row for each event in order, and an arrow from what comes first to what comes
//! of it. `making` makes one of an explanation, and the writers beside it write it as SVG, as a Mermaid diagram and as JSON.
//! `specs/Pictures.antt` says which events the rows tell, and `specs/Marks.antt` how they stand in a text; what the texts say besides
//! is only tested.
mod escapes;
mod frame;
mod json;
mod making;
mod mermaid;
mod style;
mod svg;
mod writing;

ghost use Rattle.std.specs.Prelude.{◌≤◌, length, string_bytes, IfOk};
ghost use Rattle.loom_explain.specs.Marks.{Draws};
ghost use Rattle.loom_explain.specs.Pictures.{IsWhole, Tells};

use crate::event::End;
use crate::explanation::Explanation;
use std::alloc::{AllocError, Global};

/// How many events an SVG draws, and more where they are marked.
pub const MOST_IN_SVG: usize = 200;

/// How many events a Mermaid diagram has, and more where they are marked: a page takes at most 50,000 characters of one.
pub const MOST_IN_MERMAID: usize = 120;

/// How a picture is written (own).
#[derive(Clone, Copy, Debug, PartialEq, Eq)]
pub enum Form {
    /// As SVG.
    Svg,
    /// As a sequence diagram of Mermaid.
    Mermaid,
    /// As a JSON object.
    Json,
}

/// A run as a picture (own).
#[derive(Debug, Drop)]
pub struct Picture {
    /// How the run ended and why, in lines of at most 100 columns, as far as names allow.
    pub head: String,
    /// The choices, as a replay takes them.
    pub choices: String,
    /// How the run ended.
    pub end: End,
    /// The threads, by their numbers.
    pub lanes: Vec<Lane>,
    /// What happened, in order.
    pub rows: Vec<Row>,
    /// What comes of what.
    pub arrows: Vec<Arrow>,
}

/// A thread.
#[derive(Debug, Drop)]
pub struct Lane {
    /// Its number and its name.
    pub title: String,
    /// Where a deadlock left it: that it has ended, or what it waits for, since which event, and who has that; else nothing.
    pub left: String,
    /// Whether it waits in a deadlock.
    pub waits: bool,
}

/// A row of a picture.
#[derive(Debug, Drop)]
pub enum Row {
    /// An event: a thread hands over an operation.
    Told(Shown),
    /// What came of an event's operation, where that isn't told beside it.
    Came(Shown),
    /// So many events in a row that aren't shown.
    Folded(usize),
}

/// What a row shows of an event.
#[derive(Debug, Drop)]
pub struct Shown {
    /// The event's number, from 1.
    pub event: usize,
    /// Whose event it is; 0 is main.
    pub thread: u8,
    /// The operation as it is written in code, and the name of what it makes, or what came of it.
    pub words: String,
    /// Its place in the source, that the thread waits, and what it was told at once.
    pub note: String,
    /// The choice that was made here, and of what.
    pub choice: String,
    /// Whether it is marked.
    pub mark: Mark,
}

/// How a row is marked.
#[derive(Clone, Copy, Debug, PartialEq, Eq)]
pub enum Mark {
    /// It isn't.
    Plain,
    /// Its thread waits here in a deadlock.
    Waits,
    /// A race is with it.
    Raced,
    /// The run failed by it.
    Failed,
}

/// From what comes first to what comes of it.
#[derive(Clone, Copy, Debug)]
pub struct Arrow {
    /// What it says.
    pub tie: Tie,
    /// Where it begins.
    pub from: Spot,
    /// Where it ends.
    pub to: Spot,
}

/// What an arrow says.
#[derive(Clone, Copy, Debug, PartialEq, Eq)]
pub enum Tie {
    /// From a store to what reads it.
    Read,
    /// From who gives a lock free to the next thread that has it.
    Lock,
    /// From a spawn to the thread's first event.
    Spawn,
    /// From a thread's last event to who joins it.
    Join,
    /// From a notification or an `unpark` to the thread that it wakes.
    Wake,
    /// From who sends a message to who receives it.
    Message,
}

/// A row of a thread.
#[derive(Clone, Copy, Debug)]
pub struct Spot {
    /// The thread's number.
    pub thread: usize,
    /// The row's number, from 0.
    pub row: usize,
}

impl Explanation {
    /// The run as a picture. Where it has more events than `most`, those in the middle are folded, but for some that are marked,
    /// or since when a thread has something at the end. An error where memory is refused.
    pub fn picture(&self, alloc: Global, most: usize) -> Result<Picture, AllocError>
        ensures told { IfOk result (λ picture. Tells 1 picture.rows.items self.now.events.items) }
        ensures whole { length self.now.events.items ≤ most → IfOk result (λ picture. IsWhole picture.rows.items) }
    {
        making::picture_of(alloc, self, most)
    }

    /// The picture as an SVG that stands alone: it has no script and no font of its own, and is legible on light and on dark. An
    /// error where memory is refused.
    pub fn to_svg(&self, alloc: Global) -> Result<String, AllocError>
        ensures { IfOk result (λ text. Draws Form.Svg self.now.events.items (string_bytes text)) }
    {
        let picture = self.picture(alloc, MOST_IN_SVG)?;
        let text = svg::svg_of(alloc, &picture)?;
        Ok(text)
    }

    /// The picture as a sequence diagram of Mermaid. An error where memory is refused.
    pub fn to_mermaid(&self, alloc: Global) -> Result<String, AllocError>
        ensures { IfOk result (λ text. Draws Form.Mermaid self.now.events.items (string_bytes text)) }
    {
        let picture = self.picture(alloc, MOST_IN_MERMAID)?;
        let text = mermaid::mermaid_of(alloc, &picture)?;
        Ok(text)
    }

    /// The picture as a JSON object, with each event. An error where memory is refused.
    pub fn to_json(&self, alloc: Global) -> Result<String, AllocError>
        ensures { IfOk result (λ text. Draws Form.Json self.now.events.items (string_bytes text)) }
    {
        let picture = self.picture(alloc, usize::MAX)?;
        let text = json::json_of(alloc, &picture)?;
        Ok(text)
    }
}
