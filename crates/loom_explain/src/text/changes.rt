//! The text of a change: a thread hands over another operation than in a run before.
use crate::event::Event;
use crate::text::forms::call_of;
use crate::text::objects::At;
use crate::text::page::Page;
use crate::text::world::World;
use loom_objects::operation::Request;
use std::alloc::{AllocError, Global};

/// What to do against it.
const ADVICE: &str =
    "; what a thread does is to depend on its handle's answers alone, so let each run begin with new values";

/// When a thread has handed over the other operation.
#[derive(Clone, Copy)]
enum Earlier {
    /// In the run before, under the same choices.
    InTheRunBefore,
    /// In a run before, after the same replies.
    ToldTheSame,
}

/// The text of a change: after these events of the run of this number, counted from 1, the thread has handed over the second
/// operation, and in the run before the first one, under the same choices. An error where memory is refused.
pub fn change_text(
    alloc: Global,
    run: u64,
    events: &[Event],
    thread: u8,
    before: &Request<(), ()>,
    now: &Request<(), ()>,
) -> Result<String, AllocError> {
    let earlier = Earlier::InTheRunBefore;
    text_of(alloc, run, events, thread, before, now, earlier)
}

/// `change_text` of a thread that has handed over the first operation in a run before, after the same replies.
pub fn recorded_change_text(
    alloc: Global,
    run: u64,
    events: &[Event],
    thread: u8,
    before: &Request<(), ()>,
    now: &Request<(), ()>,
) -> Result<String, AllocError> {
    let earlier = Earlier::ToldTheSame;
    text_of(alloc, run, events, thread, before, now, earlier)
}

/// The text of a change of an operation that was handed over then.
fn text_of(
    alloc: Global,
    run: u64,
    events: &[Event],
    thread: u8,
    before: &Request<(), ()>,
    now: &Request<(), ()>,
    earlier: Earlier,
) -> Result<String, AllocError> {
    let mut world = World::new(alloc);
    for (place, event) in events.iter().enumerate() {
        let at = At {
            event: place.saturating_add(1),
            thread: usize::from(event.thread),
        };
        let call = call_of(&event.op.request, &world);
        world.hand_over(at, 0, call, &event.op);
    }
    let mut page = Page::new(alloc);
    page.is_refused = world.is_refused;
    let thread = usize::from(thread);
    put_change(&mut page, &world, run, thread, before, now, earlier);
    page.finish()
}

/// Both operations as calls, and what to do.
fn put_change(
    page: &mut Page,
    world: &World,
    run: u64,
    thread: usize,
    before: &Request<(), ()>,
    now: &Request<(), ()>,
    earlier: Earlier,
) {
    let name = world.threads.get(thread).and_then(|member| member.name);
    page.bits("run ", run);
    page.titled(": ", thread, name);
    page.call(" hands over `", now, world);
    match earlier {
        Earlier::InTheRunBefore => {
            page.bits("`, where in run ", run.saturating_sub(1));
            page.call(", under the same choices, it handed over `", before, world);
        }
        Earlier::ToldTheSame => {
            let told = "`, where in a run before, when it was told the same, it handed over `";
            page.call(told, before, world);
        }
    }
    page.words(if before == now {
        "` with other data"
    } else {
        "`"
    });
    page.words(ADVICE);
}
