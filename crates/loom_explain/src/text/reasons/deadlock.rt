//! Deadlocks: what each thread waits for, since when, and who has it.
use crate::text::forms::{Call, On, argument_of, call_of};
use crate::text::objects::Member;
use crate::text::page::Page;
use crate::text::reasons::{Scene, is_end};
use crate::text::world::World;
use loom_objects::operation::Request;

/// Each thread with what it waits for.
pub(crate) fn put_deadlock(out: &mut Page, scene: &Scene<'_>) {
    for (thread, member) in scene.world.threads.iter().enumerate() {
        out.titled("  ", thread, member.name);
        out.words(": ");
        put_left(out, scene, thread, member);
        out.words("\n");
    }
}

/// Where the run left the thread: what it waits for, since when, and who has that.
pub(crate) fn put_left(out: &mut Page, scene: &Scene<'_>, thread: usize, member: &Member) {
    match scene.explanation.event(member.pending) {
        None => out.words("has not begun"),
        Some(event) if is_end(&event.op.request) => out.words("has ended"),
        Some(event) => {
            let waited_for = put_wait(out, scene.world, &event.op.request, member.stage);
            out.number(" since event ", member.pending);
            put_holder(out, scene.world, thread, waited_for);
        }
    }
}

/// What the thread waits for by this request, in a second stage a mutex: which object it is, if it's one.
fn put_wait(out: &mut Page, world: &World, request: &Request<(), ()>, stage: u8) -> Option<usize> {
    match argument_of(request) {
        Some(mutex) if stage > 1 => {
            out.thing("was woken, and waits for ", world.thing(mutex));
            Some(mutex)
        }
        _ => {
            let call = call_of(request, world);
            put_waited_for(out, world, call);
            call.object()
        }
    }
}

/// What a thread does that waits at the call, and for which object or thread.
fn put_waited_for(out: &mut Page, world: &World, call: Call) {
    out.words(call.form.waits.unwrap_or("waits"));
    match call.form.on {
        On::Object => out.thing(" ", world.thing(call.number)),
        On::Thread => out.number(" thread ", call.number),
        On::Nothing | On::Local | On::Lazy => {}
    }
}

/// Who has the object, if there is one and a thread has it.
fn put_holder(out: &mut Page, world: &World, thread: usize, object: Option<usize>) {
    match object.and_then(|object| world.holder(object)) {
        Some(hold) if hold.thread == thread => {
            out.number("; it holds it itself since event ", hold.event);
        }
        Some(hold) => out.put(
            "; thread $ holds it since event $",
            &[hold.thread, hold.event],
        ),
        None => {}
    }
}
