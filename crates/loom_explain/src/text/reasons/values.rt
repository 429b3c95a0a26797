//! A thread's own values, values that are made once a run, and second waiters.
use crate::text::page::Page;
use crate::text::reasons::{Scene, Sought};
use loom_objects::operation::{LazyOp, LocalOp, NotifyOp, Request, WakerOp};

/// What is said of a value that was used.
struct Said {
    /// With the thread and the key.
    words: &'static str,
    /// What comes before an earlier event, if there is one.
    earlier: &'static str,
    /// What helps.
    helps: &'static str,
}

static SHUT_DOWN: Said = Said {
    words: "  thread $ uses lazy value $, and main has given these values back",
    earlier: ", when it finished at event ",
    helps: "  main is to join the threads that use them before it finishes\n",
};

static GONE: Said = Said {
    words: "  thread $ uses its local $, and has given its own values back",
    earlier: ", by `exit` at event ",
    helps: "  `try_with` tells whether the value is still there\n",
};

static TAKEN: Said = Said {
    words: "  thread $ makes its local $ a second time",
    earlier: ", after event ",
    helps: "  `put` gives another value to a key that has one\n",
};

/// What is said of the value of a key, with the earlier event that is sought.
fn put_said(out: &mut Page, scene: &Scene<'_>, said: &Said, key: usize, sought: Sought) {
    out.put(said.words, &[scene.at.thread, key]);
    if let Some(number) = scene.earlier(sought) {
        out.number(said.earlier, number);
    }
    out.words("\n");
    out.words(said.helps);
}

/// A value that is made once was used after main had finished.
pub(crate) fn put_shutdown(out: &mut Page, scene: &Scene<'_>) {
    let key = match scene.request {
        Some(Request::Lazy(LazyOp::Get(key) | LazyOp::Init(key, _))) => *key,
        _ => 0,
    };
    put_said(out, scene, &SHUT_DOWN, key, Sought::Finish);
}

fn local_key(request: Option<&Request<(), ()>>) -> usize {
    match request {
        Some(
            Request::Local(
                LocalOp::With(key)
                | LocalOp::TryWith(key)
                | LocalOp::Init(key, _)
                | LocalOp::Put(key, _),
            ),
        ) => *key,
        _ => 0,
    }
}

/// A thread's own value was used after the thread had given it back.
pub(crate) fn put_gone(out: &mut Page, scene: &Scene<'_>) {
    let key = local_key(scene.request);
    put_said(out, scene, &GONE, key, Sought::Exit(scene.at.thread));
}

/// A key has a value already.
pub(crate) fn put_taken(out: &mut Page, scene: &Scene<'_>) {
    let key = local_key(scene.request);
    put_said(out, scene, &TAKEN, key, Sought::Init(scene.at.thread, key));
}

/// Which notifier the operation waits on.
fn waited_on(request: &Request<(), ()>) -> Option<usize> {
    if let Request::Notify(NotifyOp::Wait(number))
    | Request::Waker(WakerOp::Wait(number)) = request
    {
        Some(*number)
    } else {
        None
    }
}

/// A second thread waits on a notifier.
pub(crate) fn put_second_waiter(out: &mut Page, scene: &Scene<'_>) {
    let number = match scene.request {
        Some(request) => waited_on(request).unwrap_or(0),
        None => 0,
    };
    out.number("  thread ", scene.at.thread);
    out.thing(" is to wait on ", scene.world.thing(number));
    out.words(", and one thread may at a time\n");
    put_first_waiter(out, scene, number);
}

/// The other thread that waits on the notifier, and since when.
fn put_first_waiter(out: &mut Page, scene: &Scene<'_>, number: usize) {
    for (thread, member) in scene.world.threads.iter().enumerate() {
        if member.pending != scene.at.event && waits_at(scene, member.pending, number) {
            out.put(
                "  thread $ waits on it since event $\n",
                &[thread, member.pending],
            );
            return;
        }
    }
}

/// Whether the operation of this event waits on the notifier.
fn waits_at(scene: &Scene<'_>, event: usize, number: usize) -> bool {
    match scene.explanation.event(event) {
        Some(event) => waited_on(&event.op.request) == Some(number),
        None => false,
    }
}
