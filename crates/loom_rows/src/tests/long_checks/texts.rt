//! What a check makes of a text that it is to begin with.
use super::{HEAD, Shelf, TWO_NODES, WHOLE_END, gives, lock_beside};
use loom_examples::rows::settings::{Builds, Settings};
use loom_examples::rows::tables::few_threads::{FINISH_ONLY, LOCK_BESIDE};
use loom_examples::rows::tables::first::STORE_SEVEN;
use loom_examples::rows::{DEFAULTS, WHOLE};
use loom_examples::scripts::step::Step;
use loom_tests::page::Page;
use std::process::Abort;

// A check of the script that begins with the text gives this.
fn begins(
    rt: &(impl Abort + AllocGlobal),
    settings: Settings,
    steps: &'static [Step],
    text: &[u8],
    line: &str,
) {
    let mut shelf = Shelf::holding(rt.alloc(), text);
    gives(rt, &settings.builder(), steps, &mut shelf, line);
}

fn begins_with(rt: &(impl Abort + AllocGlobal), begun: &'static Begun) {
    let page = Page::of(rt.alloc(), begun.parts);
    let text = page.text.as_str().as_bytes();
    begins(rt, begun.settings, begun.steps, text, begun.gives);
}

static TEXTS: [(&[u8], &str); 9] = [
    (b"\xff", "error 7\n"),
    (b"{\"version\":\"\xff\"}", "error 7\n"),
    (b"{\"version\":1", "error 7\n"),
    (b"[]", "error 8\n"),
    (b"{}", "error 8\n"),
    (b"{\"version\":\"1\"}", "error 8\n"),
    (b"{\"version\":1}", "error 9\n"),
    (b"{\"version\":2}", "error 8\n"),
    (b"{\"version\":7}", "error 9\n"),
];

// Each proper beginning of the text is refused.
fn beginnings_are_refused(rt: &(impl Abort + AllocGlobal), bytes: &[u8]) {
    for end in 0..bytes.len() {
        begins(rt, WHOLE, lock_beside(), &bytes[..end], "error 7\n");
    }
}

fn whole_texts(rt: &(impl Abort + AllocGlobal)) {
    for (text, line) in &TEXTS {
        begins(rt, WHOLE, lock_beside(), *text, *line);
    }
}

// A part of the text of two nodes, what stands in its place, and what a check gives.
static CHANGES: [(&str, &str, &str); 26] = [
    (
        "{\"exploring\":true,\"nodes\"",
        "{\"exploring\":\"true\",\"nodes\"",
        "error 8\n",
    ),
    ("\"reduce\"", "\"seventh\":0,\"reduce\"", "error 8\n"),
    ("\"order\":\"all\",", "", "error 8\n"),
    ("\"all\"", "1", "error 8\n"),
    ("\"all\"", "\"one\"", "error 10\n"),
    ("\"version\":2", "\"version\":1", "error 9\n"),
    // Such a check's text in version 1.
    (
        "\"order\":\"all\",\"preemption_bound\":null,\"reduce\":false,\"version\":2",
        "\"preemption_bound\":null,\"reduce\":false,\"version\":1",
        "error 9\n",
    ),
    ("\"reduce\":false", "\"reduce\":true", "error 10\n"),
    ("null", "1", "error 10\n"),
    (
        "{\"exploring\":true,\"nodes\"",
        "{\"exploring\":false,\"nodes\"",
        "error 10\n",
    ),
    (
        "\"Visited\",\"Active\"",
        "\"Active\",\"Active\"",
        "error 12\n",
    ),
    (
        "\"Visited\",\"Active\"",
        "\"Visited\",\"Visited\"",
        "error 12\n",
    ),
    ("\"first\":0", "\"first\":5", "error 12\n"),
    ("\"first\":0", "\"first\":2", "error 12\n"),
    ("\"first\":0", "\"first\":-1", "error 12\n"),
    (
        "\"Disabled\",\"Disabled\",\"Disabled\"]}",
        "\"Disabled\",\"Disabled\"]}",
        "error 12\n",
    ),
    (
        "\"Visited\",\"Active\"",
        "\"Seen\",\"Active\"",
        "error 12\n",
    ),
    (
        "{\"exploring\":true,\"first\":0",
        "{\"exploring\":false,\"first\":0",
        "error 12\n",
    ),
    (
        "}],",
        "},{\"at\":1,\"exploring\":true,\"load\":[0]}],",
        "error 12\n",
    ),
    (
        "}],",
        "},{\"at\":0,\"exploring\":true,\"load\":[1,0]}],",
        "error 12\n",
    ),
    (
        "}],",
        "},{\"at\":0,\"exploring\":true,\"load\":[7]}],",
        "error 12\n",
    ),
    (
        "}],",
        "},{\"at\":0,\"exploring\":true,\"load\":[]}],",
        "error 12\n",
    ),
    (
        "}],",
        "},{\"exploring\":false,\"spurious\":true}],",
        "error 12\n",
    ),
    // These nodes are well formed, but no run of this body meets them.
    (
        "}],",
        "},{\"at\":0,\"exploring\":true,\"load\":[0]}],",
        "failed 20 0 t1 t0\n",
    ),
    (
        "}],",
        "},{\"exploring\":false,\"spurious\":false}],",
        "failed 20 0 t1 t0\n",
    ),
    (
        "\"Visited\",\"Active\"",
        "\"Active\",\"Visited\"",
        "failed 20 0 t0\n",
    ),
];

// A check that begins with the text of two nodes, with another part in place of this one, gives this.
fn begins_changed(rt: &(impl Abort + AllocGlobal), part: &str, other: &str, line: &str) {
    let page = Page::changed(rt.alloc(), TWO_NODES, part, other);
    let text = page.text.as_str().as_bytes();
    begins(rt, WHOLE, lock_beside(), text, line);
}

fn changed_texts(rt: &(impl Abort + AllocGlobal)) {
    for (part, other, line) in &CHANGES {
        begins_changed(rt, *part, *other, *line);
    }
}

// A schedule at which the one thread could go on.
pub(super) const ZERO: &str =
    "{\"exploring\":true,\"first\":0,\"schedule\":[\"Active\",\"Disabled\",\"Disabled\",\"Disabled\",\"Disabled\"]}";

// Such a schedule, before other nodes.
const FIRST: &str =
    "{\"exploring\":true,\"first\":0,\"schedule\":[\"Active\",\"Disabled\",\"Disabled\",\"Disabled\",\"Disabled\"]},";

// One at which thread 1 is still to be tried.
const ONE_PENDING: &str =
    "{\"exploring\":true,\"first\":0,\"schedule\":[\"Active\",\"Pending\",\"Disabled\",\"Disabled\",\"Disabled\"]}";

// A load that reads from one of two stores.
const LOAD: &str = "{\"at\":0,\"exploring\":true,\"load\":[0,1]}";

// What stands behind the nodes where the search is reduced.
const REDUCED_END: &str =
    "],\"order\":\"all\",\"preemption_bound\":null,\"reduce\":true,\"version\":2}";

// A script, how it is checked, the parts of the text with which that begins, and what it gives.
struct Begun {
    steps: &'static [Step],
    settings: Settings,
    parts: &'static [&'static str],
    gives: &'static str,
}

static OTHERS: [Begun; 5] = [
    Begun {
        steps: LOCK_BESIDE,
        settings: Settings {
            max_branches: 1,
            ..WHOLE
        },
        parts: &[TWO_NODES],
        gives: "error 11\n",
    },
    Begun {
        steps: FINISH_ONLY,
        settings: WHOLE,
        parts: &[TWO_NODES],
        gives: "failed 20 0\n",
    },
    Begun {
        steps: LOCK_BESIDE,
        settings: WHOLE,
        parts: &[HEAD, ZERO, WHOLE_END],
        gives: "failed 20 0\n",
    },
    Begun {
        steps: STORE_SEVEN,
        settings: DEFAULTS,
        parts: &[
            HEAD,
            FIRST,
            FIRST,
            FIRST,
            FIRST,
            FIRST,
            FIRST,
            FIRST,
            FIRST,
            LOAD,
            REDUCED_END,
        ],
        gives: "failed 20 0 t0 t0 t0 t0 t0 t0 t0 t0\n",
    },
    Begun {
        steps: LOCK_BESIDE,
        settings: DEFAULTS,
        parts: &[HEAD, ONE_PENDING, REDUCED_END],
        gives: " t0 t1 t1 t-\n t1 t1 t0 t-\ncomplete 2\n",
    },
];

fn texts_of_other_bodies(rt: &(impl Abort + AllocGlobal)) {
    for begun in &OTHERS {
        begins_with(rt, begun);
    }
}

#[test]
fn checks_begin_with_texts(rt: HostRuntime) {
    beginnings_are_refused(&rt, TWO_NODES.as_bytes());
    whole_texts(&rt);
    changed_texts(&rt);
    texts_of_other_bodies(&rt);
}
