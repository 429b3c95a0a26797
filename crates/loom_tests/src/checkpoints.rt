//! Texts of paths, good and bad: which are read, and why others are refused. Each is given to the reader, and what comes is
//! compared.
use crate::asserting::{holds, same};
use crate::page::Page;
use loom_engine::rt::path::checkpoint::error::PathError;
use loom_engine::rt::path::checkpoint::text::{from_text, to_text};
use loom_engine::rt::path::{Path, Search};
use std::alloc::Global;
use std::process::Abort;

const TWO_NODES: &str =
    "{\"exploring\":true,\"nodes\":[{\"exploring\":true,\"first\":0,\"schedule\":[\"Visited\",\"Active\",\"Disabled\",\"Disabled\",\"Disabled\"]},{\"exploring\":true,\"first\":1,\"schedule\":[\"Active\",\"Visited\",\"Disabled\",\"Disabled\",\"Disabled\"]}],\"order\":\"all\",\"preemption_bound\":null,\"reduce\":false,\"version\":2}";

const NO_NODES: &str =
    "{\"exploring\":true,\"nodes\":[],\"order\":\"all\",\"preemption_bound\":null,\"reduce\":false,\"version\":2}";

const WHOLE: Search = Search {
    reduce: false,
    bound: None,
    max_branches: 1000,
    explores: true,
};

// The number of the error that a text gives, or 0.
fn refusal(alloc: Global, text: &[u8], search: Search) -> u8 {
    match from_text(alloc, text, search) {
        Ok(_) => 0,
        Err(PathError::NotJson) => 7,
        Err(PathError::WrongShape) => 8,
        Err(PathError::WrongVersion(_)) => 9,
        Err(PathError::OtherSettings(_)) => 10,
        Err(PathError::TooManyNodes(_)) => 11,
        Err(PathError::BadNode) => 12,
        Err(PathError::Memory(_)) => 14,
    }
}

// The bytes give this number.
fn bytes_give(
    rt: &(impl Abort + AllocGlobal),
    bytes: &[u8],
    search: Search,
    number: u8,
    name: &str,
) {
    let is_so = refusal(rt.alloc(), bytes, search) == number;
    holds(rt, is_so, name);
}

// The text gives this number.
fn gives(rt: &(impl Abort + AllocGlobal), text: &str, search: Search, number: u8) {
    bytes_give(rt, text.as_bytes(), search, number, text);
}

// The path has this text.
fn has_text(rt: &(impl Abort + AllocGlobal), path: &Path, text: &str) {
    match &to_text(rt.alloc(), path) {
        Ok(found) => same(rt, found.as_str(), text, "a path's text"),
        Err(_) => holds(rt, false, "no memory for a path's text"),
    }
}

// The text is read, and written again as it was.
fn is_rewritten(rt: &(impl Abort + AllocGlobal), text: &str) {
    match &from_text(rt.alloc(), text.as_bytes(), WHOLE) {
        Ok(path) => has_text(rt, path, text),
        Err(_) => holds(rt, false, text),
    }
}

fn begins_without_nodes(rt: &(impl Abort + AllocGlobal)) {
    let path = Path::new(rt.alloc(), WHOLE);
    has_text(rt, &path, NO_NODES);
}

// A beginning is no text.
fn beginnings_are_refused(rt: &(impl Abort + AllocGlobal), text: &[u8]) {
    for len in 0..text.len() {
        bytes_give(rt, &text[..len], WHOLE, 7, "a beginning");
    }
}

#[test]
fn texts_are_read_and_written_again(rt: HostRuntime) {
    is_rewritten(&rt, NO_NODES);
    is_rewritten(&rt, TWO_NODES);
    begins_without_nodes(&rt);
    beginnings_are_refused(&rt, TWO_NODES.as_bytes());
    bytes_give(&rt, b"\xff", WHOLE, 7, "bytes that are no text");
}

// The members may come in any order, and of two with one key the last stays.
static WHOLE_VALUES: [(&str, u8); 19] = [
    ("[]", 8),
    ("{}", 8),
    ("{\"version\":\"1\"}", 8),
    ("{\"version\":1.0}", 8),
    ("{\"version\":-1}", 8),
    ("{\"version\":-0}", 8),
    ("{\"version\":1e999}", 7),
    ("{\"version\":1}", 9),
    ("{\"version\":2}", 8),
    ("{\"version\":7}", 9),
    ("{\"version\":1", 7),
    (
        "{\"exploring\":true,\"nodes\":[],\"preemption_bound\":null,\"reduce\":false,\"version\":1}",
        9,
    ),
    (
        "{\"exploring\":true,\"nodes\":[],\"preemption_bound\":null,\"reduce\":false,\"version\":2}",
        8,
    ),
    (
        "{\"exploring\":true,\"nodes\":[],\"order\":\"one\",\"preemption_bound\":null,\"reduce\":false,\"version\":2}",
        10,
    ),
    (
        "{\"exploring\":true,\"nodes\":[],\"order\":1,\"preemption_bound\":null,\"reduce\":false,\"version\":2}",
        8,
    ),
    (
        "{\"exploring\":\"true\",\"nodes\":[],\"order\":\"all\",\"preemption_bound\":null,\"reduce\":false,\"version\":2}",
        8,
    ),
    (
        "{\"exploring\":true,\"nodes\":[],\"order\":\"all\",\"preemption_bound\":null,\"reduce\":false,\"seventh\":0,\"version\":2}",
        8,
    ),
    (
        "{\"exploring\":true,\"nodes\":[7],\"order\":\"all\",\"preemption_bound\":null,\"reduce\":false,\"version\":2}",
        12,
    ),
    (
        " {\"version\":7,\"version\":2,\"nodes\":[],\"reduce\":false,\"preemption_bound\":null,\"order\":\"all\",\"exploring\":true}\n",
        0,
    ),
];

fn whole_values(rt: &(impl Abort + AllocGlobal)) {
    for (text, number) in &WHOLE_VALUES {
        gives(rt, *text, WHOLE, *number);
    }
}

static SETTINGS: [(Search, u8); 6] = [
    (
        Search {
            reduce: true,
            ..WHOLE
        },
        10,
    ),
    (
        Search {
            bound: Some(1),
            ..WHOLE
        },
        10,
    ),
    (
        Search {
            explores: false,
            ..WHOLE
        },
        10,
    ),
    (
        Search {
            reduce: true,
            max_branches: 1,
            ..WHOLE
        },
        10,
    ),
    (
        Search {
            max_branches: 1,
            ..WHOLE
        },
        11,
    ),
    (
        Search {
            max_branches: 2,
            ..WHOLE
        },
        0,
    ),
];

fn other_settings(rt: &(impl Abort + AllocGlobal)) {
    for (search, number) in &SETTINGS {
        gives(rt, TWO_NODES, *search, *number);
    }
}

const OTHER_ORDER: &str =
    "{\"exploring\":true,\"nodes\":[],\"order\":\"one\",\"preemption_bound\":1,\"reduce\":true,\"version\":2}";

const OTHER_SEARCH: &str =
    "{\"exploring\":false,\"nodes\":[],\"order\":\"all\",\"preemption_bound\":1,\"reduce\":false,\"version\":2}";

// Why these are no paths of such a search.
static REASONS: [(&str, &str); 3] = [
    (OTHER_ORDER, "the checkpoint was made with another `order`"),
    (
        OTHER_SEARCH,
        "the checkpoint was made with another `preemption_bound`",
    ),
    ("{\"version\":1}", "the checkpoint has version 1, and not 2"),
];

// The text is no path for this reason.
fn is_refused_for(rt: &(impl Abort + AllocGlobal), text: &str, reason: &str) {
    let mut page = Page::new(rt.alloc());
    if let Err(error) = &from_text(rt.alloc(), text.as_bytes(), WHOLE) {
        page.put("", error);
    }
    let told = page.text.as_str().trim_end();
    same(rt, told, reason, "why a text is no path");
}

#[test]
fn the_first_other_setting_is_named(rt: HostRuntime) {
    for (text, reason) in &REASONS {
        is_refused_for(&rt, *text, *reason);
    }
}

// The path that is read from the text of a path.
fn read_back(rt: &(impl Abort + AllocGlobal), path: &Path) -> Path {
    let text = to_text(rt.alloc(), path).expect(rt, "no memory for the text");
    from_text(rt.alloc(), text.as_str().as_bytes(), path.search()).expect(rt, "no path")
}

// Drops the path, with all its nodes.
fn let_go(_path: Path) {}

#[test]
fn paths_are_told_apart(rt: HostRuntime) {
    let mut path = Path::new(rt.alloc(), WHOLE);
    let same_search = Path::new(rt.alloc(), WHOLE);
    let other_search = Path::new(
        rt.alloc(),
        Search {
            max_branches: 999,
            ..WHOLE
        },
    );
    holds(&rt, path == same_search, "another path of the same search");
    holds(&rt, path != other_search, "the same path of another search");
    let_go(same_search);
    let_go(other_search);
    holds(&rt, path.branch_spurious().is_ok(), "no node is made");
    // What is read back has passed no node yet.
    let read = read_back(&rt, &path);
    holds(&rt, read != path, "a node was passed");
    // The node takes its other answer, and the path is at its start too.
    holds(&rt, path.step(), "no other answer");
    holds(&rt, read != path, "the answer is the first one");
    let_go(read);
    let read = read_back(&rt, &path);
    holds(&rt, read == path, "another path is read back");
    let_go(read);
    let_go(path);
}

// What stands before a node that comes after the first of the two, and what stands behind it.
const BEFORE: &str =
    "{\"exploring\":true,\"nodes\":[{\"exploring\":true,\"first\":0,\"schedule\":[\"Visited\",\"Active\",\"Disabled\",\"Disabled\",\"Disabled\"]},";

const BEHIND: &str =
    "],\"order\":\"all\",\"preemption_bound\":null,\"reduce\":false,\"version\":2}";

static NODES: [(&str, u8); 19] = [
    (
        "{\"exploring\":true,\"first\":1,\"schedule\":[\"Active\",\"Active\",\"Disabled\",\"Disabled\",\"Disabled\"]}",
        12,
    ),
    (
        "{\"exploring\":true,\"first\":1,\"schedule\":[\"Visited\",\"Visited\",\"Disabled\",\"Disabled\",\"Disabled\"]}",
        12,
    ),
    (
        "{\"exploring\":true,\"first\":5,\"schedule\":[\"Active\",\"Visited\",\"Disabled\",\"Disabled\",\"Disabled\"]}",
        12,
    ),
    (
        "{\"exploring\":true,\"first\":2,\"schedule\":[\"Active\",\"Visited\",\"Disabled\",\"Disabled\",\"Disabled\"]}",
        12,
    ),
    (
        "{\"exploring\":true,\"first\":1,\"schedule\":[\"Active\",\"Visited\",\"Disabled\",\"Disabled\"]}",
        12,
    ),
    (
        "{\"exploring\":true,\"first\":1,\"schedule\":[\"Active\",\"Visited\",\"Off\",\"Disabled\",\"Disabled\"]}",
        12,
    ),
    (
        "{\"exploring\":true,\"first\":null,\"schedule\":[\"Active\",\"Disabled\",\"Disabled\",\"Disabled\",\"Disabled\"]}",
        12,
    ),
    (
        "{\"exploring\":false,\"first\":0,\"schedule\":[\"Active\",\"Pending\",\"Disabled\",\"Disabled\",\"Disabled\"]}",
        12,
    ),
    (
        "{\"exploring\":true,\"first\":0,\"schedule\":[\"Active\",\"Pending\",\"Skip\",\"Yield\",\"Disabled\"]}",
        0,
    ),
    ("{\"at\":1,\"exploring\":true,\"load\":[0]}", 12),
    ("{\"at\":0,\"exploring\":true,\"load\":[1,0]}", 12),
    ("{\"at\":0,\"exploring\":true,\"load\":[0,0]}", 12),
    ("{\"at\":0,\"exploring\":true,\"load\":[7]}", 12),
    ("{\"at\":0,\"exploring\":true,\"load\":[]}", 12),
    ("{\"at\":1,\"exploring\":false,\"load\":[0,6]}", 12),
    ("{\"at\":1,\"exploring\":true,\"load\":[0,6]}", 0),
    ("{\"exploring\":false,\"spurious\":true}", 12),
    ("{\"exploring\":true,\"spurious\":true}", 0),
    ("{\"exploring\":true,\"spurious\":true,\"x\":0}", 12),
];

fn nodes(rt: &(impl Abort + AllocGlobal)) {
    for (node, number) in &NODES {
        let text = Page::of(rt.alloc(), &[BEFORE, *node, BEHIND]);
        gives(rt, text.text.as_str(), WHOLE, *number);
    }
}

#[test]
fn texts_give_what_their_tables_say(rt: HostRuntime) {
    whole_values(&rt);
    other_settings(&rt);
    nodes(&rt);
}
