//! Misuse: which object it is, and what is asked of who uses it so.
use crate::text::forms::{Form, Kind, call_of};
use crate::text::names::Thing;
use crate::text::objects::At;
use crate::text::page::Page;
use crate::text::reasons::Scene;
use crate::text::world::World;
use loom_objects::operation::Request;

/// Which object, who has it, and what is asked.
pub(crate) fn put_misuse(out: &mut Page, scene: &Scene<'_>) {
    match scene.request {
        Some(request) => {
            out.number("  thread ", scene.at.thread);
            put_request(out, scene.world, request);
        }
        None => out.words("  the run is over\n"),
    }
}

fn put_request(out: &mut Page, world: &World, request: &Request<(), ()>) {
    let call = call_of(request, world);
    match (call.object(), call.form.kind) {
        (Some(number), Some(kind)) => {
            let thing = world.thing(number);
            match thing.object {
                Some(object) if object.kind.is_like(kind) => {
                    out.thing(" uses ", thing);
                    put_state(out, call.form, object.apart, world.holder(number));
                }
                _ => {
                    out.call("'s ", request, world);
                    put_kind(out, thing, kind);
                }
            }
        }
        _ => {
            out.call("'s ", request, world);
            put_asked(out, call.form);
        }
    }
}

fn put_asked(out: &mut Page, form: &Form) {
    out.words(": ");
    out.words(form.asks);
    out.words("\n");
}

/// What kind of object is asked for, and what there is.
fn put_kind(out: &mut Page, thing: Thing, kind: Kind) {
    out.words(" asks for one of kind ");
    out.words(kind.name());
    if thing.object.is_some() {
        out.thing(", and this is ", thing);
        out.words("\n");
    } else {
        out.words(", and there is none of this number\n");
    }
}

/// An object that is of the right kind: whether it was taken apart, who has it, and what is asked.
fn put_state(out: &mut Page, form: &Form, apart: Option<usize>, holder: Option<At>) {
    if let Some(event) = apart {
        out.between(", which was taken apart at event ", event, "\n");
        return;
    }
    put_asked(out, form);
    match holder {
        Some(hold) => out.put(
            "  thread $ has it since event $\n",
            &[hold.thread, hold.event],
        ),
        None => out.words("  no thread has it\n"),
    }
}
