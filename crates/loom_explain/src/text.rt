//! The text of an explanation: why the run failed, the choices that make it again, and its events in columns.
pub(crate) mod answers;
mod calls;
pub mod changes;
pub(crate) mod forms;
mod layout;
pub(crate) mod lines;
pub(crate) mod links;
mod names;
mod objects;
pub(crate) mod page;
pub(crate) mod reasons;
pub(crate) mod world;

use crate::explanation::Explanation;
use crate::text::lines::Lines;
use crate::text::page::Page;
use crate::text::reasons::Scene;
use crate::text::world::World;
use std::alloc::{AllocError, Global};

/// The text of an explanation: a line that says how the run ended, one to five lines why, the line `replay:` with its choices,
/// an empty line, and the events, with the choices in the last column. It is at most 100 columns wide, as far as names allow.
/// An error where memory is refused.
pub fn text_of(alloc: Global, explanation: &Explanation) -> Result<String, AllocError> {
    let mut world = World::new(alloc);
    let mut lines = Lines::new(alloc);
    lines::tell_events(explanation, &mut world, &mut lines);
    let mut page = Page::new(alloc);
    page.is_refused = world.is_refused || lines.is_refused;
    let scene = Scene::new(explanation, &world);
    put_head(alloc, &mut page, &scene);
    put_replay(alloc, &mut page, explanation);
    layout::put_rows(alloc, &mut page, &scene, lines.list.as_slice());
    page.finish()
}

/// How the run ended, and why, a line each.
pub(crate) fn put_head(alloc: Global, page: &mut Page, scene: &Scene<'_>) {
    let mut head = Page::new(alloc);
    reasons::put_reasons(&mut head, scene);
    page.wrapped(&head, 4);
}

/// The choices, as a replay takes them.
fn put_replay(alloc: Global, page: &mut Page, explanation: &Explanation) {
    let mut replay = Page::new(alloc);
    replay.words("replay:");
    put_choices(&mut replay, explanation);
    page.wrapped(&replay, 8);
    page.words("\n");
}

fn put_choices(replay: &mut Page, explanation: &Explanation) {
    for choice in &explanation.choices {
        replay.choice(" ", *choice);
    }
}
