//! Leaks: what was left, and where it was made.
use crate::text::forms::Kind;
use crate::text::objects::Object;
use crate::text::page::Page;
use crate::text::world::World;

/// What may be left of an object of a kind.
struct Leak {
    kind: Kind,
    /// What is counted; nothing of what is given back as a whole.
    noun: Option<&'static str>,
    /// What is asked for.
    asks: &'static str,
    /// What is said where no such object is left.
    otherwise: &'static str,
}

static REFERENCES: Leak = Leak {
    kind: Kind::Arc,
    noun: Some(" reference"),
    asks: "  each `Arc::new` and each `clone` wants a `drop`, before main's end\n",
    otherwise: "  a waker wasn't dropped\n",
};

static WAKERS: Leak = Leak {
    kind: Kind::Wakers,
    noun: Some(" waker"),
    asks: "  each waker wants a `drop` or a `wake`, and the future its `finish`\n",
    otherwise: "  a waker wasn't dropped\n",
};

static VALUES: Leak = Leak {
    kind: Kind::Track,
    noun: None,
    asks: "  each `Track::new` wants an `into_inner` or a `drop`\n",
    otherwise: "  a tracked value wasn't given back\n",
};

static MESSAGES: Leak = Leak {
    kind: Kind::Channel,
    noun: Some(" message"),
    asks: "  receive what was sent, or drop the receiver\n",
    otherwise: "  a channel was left with messages\n",
};

/// A counted reference, or a future whose wakers weren't all dropped.
pub(crate) fn put_references(out: &mut Page, world: &World) {
    let leak = if is_left(world, Kind::Arc) {
        &REFERENCES
    } else {
        &WAKERS
    };
    put_first(out, world, leak);
}

/// A tracked value.
pub(crate) fn put_values(out: &mut Page, world: &World) {
    put_first(out, world, &VALUES);
}

/// A channel's messages.
pub(crate) fn put_messages(out: &mut Page, world: &World) {
    put_first(out, world, &MESSAGES);
}

/// Whether an object of this kind is left.
fn is_left(world: &World, kind: Kind) -> bool {
    world
        .objects
        .iter()
        .any(|object| object.kind.is_like(kind) && object.count > 0)
}

/// The first object of which something is left, where it was made, what is left of it and what is asked for.
fn put_first(out: &mut Page, world: &World, leak: &Leak) {
    for (number, object) in world.objects.iter().enumerate() {
        if object.kind.is_like(leak.kind) && object.count > 0 {
            out.thing("  ", world.thing(number));
            put_left(out, object, leak);
            return;
        }
    }
    out.words(leak.otherwise);
}

/// Where the object was made, what is left of it and what is asked for.
fn put_left(out: &mut Page, object: &Object, leak: &Leak) {
    out.put(
        ", made by thread $ at event $,",
        &[object.made.thread, object.made.event],
    );
    match leak.noun {
        Some(noun) => {
            out.number(" has ", object.count);
            out.words(noun);
            out.words(if object.count == 1 {
                " left\n"
            } else {
                "s left\n"
            });
        }
        None => out.words(" wasn't given back\n"),
    }
    out.words(leak.asks);
}
