//! Texts that are changed at random: each is refused by name, or a check that begins with it ends.
use super::limits::check_alone;
use super::texts::ZERO;
use super::{HEAD, Shelf, WHOLE_END, check, lock_beside};
use crate::tests::asserting::{holds, same, script};
use crate::tests::checking::{Keeper, report_of};
use crate::tests::parts::{ONE_RUN, make_round};
use crate::tests::searches::THREE_STORES;
use loom::model::Report;
use loom::model::builder::Builder;
use loom::model::error::CheckError;
use loom::runner::NoVisitor;
use loom::{FailureKind, MemoryStore, NoClock};
use loom_engine::rt::parts::{Part, Parts};
use loom_examples::rows::settings::{Builds, Settings};
use loom_examples::rows::tables::first::LOAD_BESIDE;
use loom_examples::rows::tables::locks::NOTIFY_WAIT;
use loom_examples::rows::{DEFAULTS, WHOLE};
use loom_examples::scripts::script::Script;
use loom_examples::scripts::step::Step;
use loom_tests::page::Page;
use std::alloc::Global;
use std::io::Write;
use std::process::Abort;
use std::rt::Files;

// How many texts are changed by the numbers from each state on.
const MUTATIONS: u64 = 10_000;

// How many runs the search of a body makes that isn't reduced, what that gives, and the nodes of the text with which it goes on
// after its first run.
struct Searched {
    runs: u64,
    report: &'static str,
    nodes: &'static [&'static str],
}

// A schedule that tries thread 1 next.
const LOCKING: &str =
    "{\"exploring\":true,\"first\":0,\"schedule\":[\"Visited\",\"Active\",\"Disabled\",\"Disabled\",\"Disabled\"]}";

// A wait that is tried without a notification next.
const WAITING: &str = "{\"exploring\":true,\"spurious\":true}";

static SEARCHES: [Searched; 3] = [
    Searched {
        runs: 3,
        report: "complete 3\n",
        nodes: &[LOCKING],
    },
    Searched {
        runs: 6,
        report: "complete 6\n",
        nodes: &[LOCKING],
    },
    Searched {
        runs: 2,
        report: "complete 2\n",
        nodes: &[ZERO, WAITING],
    },
];

// The steps of the bodies.
fn steps_of(search: usize) -> &'static [Step] {
    match search {
        0 => lock_beside(),
        1 => LOAD_BESIDE,
        _ => NOTIFY_WAIT,
    }
}

// The nodes of all three.
static POOL: [&str; 4] = [LOCKING, LOCKING, ZERO, WAITING];

// Puts the text behind the bytes. Where memory is refused it is missing.
fn put(bytes: &mut Vec<u8>, text: &str) {
    let _ = bytes.extend_from_slice(text.as_bytes());
}

fn put_nodes(text: &mut Vec<u8>, nodes: &[&str], many: usize, at: usize, node: &str) {
    for place in 0..many {
        if place > 0 {
            put(text, ",");
        }
        match nodes.get(place) {
            Some(kept) if place != at => put(text, *kept),
            _ => put(text, node),
        }
    }
}

// The text of the first so many of these nodes, with this one at the place of another, or behind them.
fn text_of(alloc: Global, nodes: &[&str], many: usize, at: usize, node: &str) -> Vec<u8> {
    let mut text = Vec::new(alloc);
    put(&mut text, HEAD);
    put_nodes(&mut text, nodes, many, at, node);
    put(&mut text, WHOLE_END);
    text
}

// The text of a search.
fn text_at_first(alloc: Global, searched: &Searched) -> Vec<u8> {
    let many = searched.nodes.len();
    text_of(alloc, searched.nodes, many, many, "")
}

// The whole search gives this.
fn is_complete(rt: &(impl Abort + AllocGlobal + Files), steps: &'static [Step], report: &str) {
    let mut page = Page::new(rt.alloc());
    check_alone(rt, &WHOLE.builder(), steps, &mut page);
    same(rt, page.text.as_str(), report, "a whole search");
}

// Saves where a check stops behind its first run.
fn check_first(rt: &(impl Abort + AllocGlobal), steps: &'static [Step], shelf: &mut Shelf) {
    let first = Settings {
        max_permutations: Some(1),
        ..WHOLE
    };
    let mut page = Page::new(rt.alloc());
    check(rt, &first.builder(), steps, &mut page, shelf);
}

// It goes on after its first run with this text.
fn goes_on(rt: &(impl Abort + AllocGlobal), steps: &'static [Step], searched: &Searched) {
    let mut shelf = Shelf::new(rt.alloc(), 0);
    check_first(rt, steps, &mut shelf);
    let text = text_at_first(rt.alloc(), searched);
    holds(rt, shelf.held() == text.as_slice(), "the first text");
}

#[test]
fn searches_go_on_with_their_texts(rt: HostRuntime) {
    for search in 0..SEARCHES.len() {
        let searched = &SEARCHES[search];
        is_complete(&rt, steps_of(search), searched.report);
        goes_on(&rt, steps_of(search), searched);
    }
}

// Numbers in a fixed order that looks random (Marsaglia's xorshift).
#[derive(Drop)]
struct Numbers {
    state: u64,
}

impl Numbers {
    fn next(&mut self) -> u64 {
        let mut x = self.state;
        x ^= x << 13;
        x ^= x >> 7;
        x ^= x << 17;
        self.state = x;
        x
    }

    // One of so many numbers from 0 on, or 0.
    fn below(&mut self, many: usize) -> usize {
        self.next().checked_rem(many as u64).unwrap_or(0) as usize
    }
}

// The text with another node in place of one, with one more, or with one fewer.
fn with_other_nodes(alloc: Global, numbers: &mut Numbers, nodes: &[&str]) -> Vec<u8> {
    let node = POOL.get(numbers.below(POOL.len())).copied().unwrap_or("");
    let many = nodes.len();
    let kind = numbers.below(3);
    let at = if kind == 0 { numbers.below(many) } else { many };
    let count = match kind {
        0 => many,
        1 => many.saturating_add(1),
        _ => many.saturating_sub(1),
    };
    text_of(alloc, nodes, count, at, node)
}

// Puts another byte in place of one.
fn change_byte(numbers: &mut Numbers, text: &mut [u8]) {
    let at = numbers.below(text.len());
    if let Some(place) = text.get_mut(at) {
        *place = (numbers.next() % 256) as u8;
    }
}

// How many digits a text has, and the text with the number in place of the digit before which so many stand.
fn with_number(text: &[u8], before: usize, number: u64, changed: &mut Vec<u8>) -> usize {
    let mut digits = 0usize;
    for byte in text {
        let is_digit = byte.is_ascii_digit();
        if is_digit && digits == before {
            let _ = write!(changed, "{number}");
        } else {
            let _ = changed.push(*byte);
        }
        if is_digit {
            digits = digits.saturating_add(1);
        }
    }
    digits
}

// The text with a number in place of a digit.
fn with_other_number(alloc: Global, numbers: &mut Numbers, text: &[u8]) -> Vec<u8> {
    let digits = with_number(text, text.len(), 0, &mut Vec::new(alloc));
    let before = numbers.below(digits);
    let bits = numbers.next() % 64;
    let number = numbers.next() >> bits;
    let mut changed = Vec::new(alloc);
    let _ = with_number(text, before, number, &mut changed);
    changed
}

fn mutation(alloc: Global, numbers: &mut Numbers, searched: &Searched) -> Vec<u8> {
    let mut text = text_at_first(alloc, searched);
    match numbers.below(3) {
        0 => change_byte(numbers, text.as_mut_slice()),
        1 => text = with_other_nodes(alloc, numbers, searched.nodes),
        _ => text = with_other_number(alloc, numbers, text.as_slice()),
    }
    text
}

// Whether a check is refused by name, meets nodes that aren't the body's in its first run, or makes no more runs than the whole
// search, each of which is given.
fn is_sound(found: &Result<Report, CheckError>, given: u64, most: u64) -> bool {
    match found {
        Ok(Report::Complete { runs }) => *runs == given && 0 < *runs && *runs <= most,
        Ok(Report::Failed { runs, failure, .. }) => *runs == 0
            && failure.kind == FailureKind::NotDeterministic,
        Ok(Report::Stopped { .. }) => false,
        Err(error) => matches!(error.number(), 7..=12),
    }
}

// Whether a check of the body is sound that begins with the text.
fn finds_sound(alloc: Global, body: &Script, text: &[u8], most: u64) -> bool {
    let mut keeper = Keeper::new(alloc);
    let mut held = MemoryStore::new(alloc);
    held.text = Vec::from_slice(alloc, text).ok();
    let found = report_of(alloc, WHOLE, body, &mut keeper, &mut Some(held));
    is_sound(&found, keeper.found.len() as u64, most)
}

// Whether a check of the script with these steps is sound from this text.
fn is_sound_from(alloc: Global, steps: &'static [Step], text: &[u8], most: u64) -> bool {
    match &Script::new(alloc, steps) {
        Ok(body) => finds_sound(alloc, body, text, most),
        Err(_) => false,
    }
}

// Whether the next text of these searches is sound, which is changed by the next numbers.
fn next_is_sound(alloc: Global, numbers: &mut Numbers) -> bool {
    let search = numbers.below(3);
    let searched = SEARCHES.get(search).unwrap_or(&SEARCHES[0]);
    let text = mutation(alloc, numbers, searched);
    is_sound_from(alloc, steps_of(search), text.as_slice(), searched.runs)
}

// How many texts are sound before one that isn't, where they are changed by the numbers from this state on. None is 0.
fn sound_texts(alloc: Global, state: u64) -> u64 {
    let mut numbers = Numbers { state };
    for at in 0..MUTATIONS {
        if !next_is_sound(alloc, &mut numbers) {
            return at;
        }
    }
    MUTATIONS
}

fn mutations_end(rt: &(impl Abort + AllocGlobal), state: u64) {
    let mut page = Page::new(rt.alloc());
    page.put("", &sound_texts(rt.alloc(), state));
    same(
        rt,
        page.text.as_str(),
        "10000\n",
        "texts before the first bad one",
    );
}

// Where the numbers begin.
static FIRST: [u64; 5] = [
    0x9e37_79b9_7f4a_7c15,
    0x6e78_9e6a_a1b9_65f4,
    0x06c4_5d18_8009_454f,
    0xf88b_b8a8_724c_81ec,
    0x1b39_896a_51a8_749b,
];

static SECOND: [u64; 5] = [
    0x53cb_9f0c_747e_a2ea,
    0x2c82_9abe_1f45_32e1,
    0xc584_133a_c916_ab3c,
    0x3ee5_7890_41c9_8ac3,
    0xf3b8_488c_368c_b0a6,
];

fn all_mutations_end(rt: &(impl Abort + AllocGlobal), states: &[u64]) {
    for state in states {
        mutations_end(rt, *state);
    }
}

#[test]
fn first_mutations_end(rt: HostRuntime) {
    all_mutations_end(&rt, &FIRST);
}

#[test]
fn second_mutations_end(rt: HostRuntime) {
    all_mutations_end(&rt, &SECOND);
}

// What a text of parts is of.
#[derive(Clone, Copy)]
enum Kind {
    List,
    Part,
}

// A list that isn't at its beginning: some parts, of which one has made a run, and what was handed out.
fn list_of(alloc: Global, builder: &Builder, body: &Script) -> Option<Parts> {
    let mut parts = builder.parts(alloc).ok()?;
    let mut keeper = Keeper::new(alloc);
    for _ in 0..3 {
        make_round(alloc, builder, body, 2, &mut parts, &mut keeper).ok()?;
    }
    Some(parts)
}

// The text of the list's first part.
fn text_of_part(alloc: Global, parts: &Parts) -> Option<String> {
    let part = parts.take(alloc, 0).ok()??;
    part.to_text(alloc).ok()
}

// The text with another byte, or with another number.
fn spoilt(alloc: Global, numbers: &mut Numbers, text: &[u8]) -> Vec<u8> {
    if numbers.below(2) == 0 {
        return with_other_number(alloc, numbers, text);
    }
    let mut copy = Vec::new(alloc);
    let _ = copy.extend_from_slice(text);
    change_byte(numbers, copy.as_mut_slice());
    copy
}

// Whether a run is made of the part, and its text then read.
fn is_part(alloc: Global, builder: &Builder, body: &Script, mut part: Part) -> bool {
    let worked = builder.check_part(
        alloc,
        body,
        &mut part,
        ONE_RUN,
        &mut NoVisitor,
        &mut NoClock,
    );
    match part.to_text(alloc) {
        Ok(text) => worked.is_ok() && builder.part_from(alloc, text.as_bytes()).is_ok(),
        Err(_) => false,
    }
}

// Whether the list's text is read, and its first part goes on, if there is one.
fn is_list(alloc: Global, builder: &Builder, body: &Script, parts: &Parts) -> bool {
    let is_read = match parts.to_text(alloc) {
        Ok(text) => builder.parts_from(alloc, text.as_bytes()).is_ok(),
        Err(_) => false,
    };
    match parts.take(alloc, 0) {
        Ok(Some(part)) => is_read && is_part(alloc, builder, body, part),
        Ok(None) => is_read,
        Err(_) => false,
    }
}

fn is_refusal(error: CheckError) -> bool {
    matches!(error.number(), 7..=12)
}

// Whether the text is refused by name, or is one of such parts, which go on.
fn is_answered(alloc: Global, builder: &Builder, body: &Script, kind: Kind, text: &[u8]) -> bool {
    match kind {
        Kind::List => match builder.parts_from(alloc, text) {
            Ok(parts) => is_list(alloc, builder, body, &parts),
            Err(error) => is_refusal(error),
        },
        Kind::Part => match builder.part_from(alloc, text) {
            Ok(part) => is_part(alloc, builder, body, part),
            Err(error) => is_refusal(error),
        },
    }
}

// How many spoilt copies are answered before one that isn't.
fn answered(alloc: Global, builder: &Builder, body: &Script, kind: Kind, text: &[u8]) -> u64 {
    let mut numbers = Numbers { state: FIRST[0] };
    for at in 0..MUTATIONS {
        let copy = spoilt(alloc, &mut numbers, text);
        if !is_answered(alloc, builder, body, kind, copy.as_slice()) {
            return at;
        }
    }
    MUTATIONS
}

#[test]
fn spoilt_texts_of_parts_are_refused_or_go_on(rt: HostRuntime) {
    let alloc = rt.alloc();
    let builder = DEFAULTS.builder();
    let body = script(&rt, THREE_STORES);
    let list = list_of(alloc, &builder, &body).expect(&rt, "no list");
    let text = list.to_text(alloc).expect(&rt, "no text");
    let part = text_of_part(alloc, &list).expect(&rt, "no part");
    let mut page = Page::new(alloc);
    let lists = answered(alloc, &builder, &body, Kind::List, text.as_bytes());
    page.put("lists ", &lists);
    let parts = answered(alloc, &builder, &body, Kind::Part, part.as_bytes());
    page.put("parts ", &parts);
    let all = "lists 10000\nparts 10000\n";
    same(
        &rt,
        page.text.as_str(),
        all,
        "texts before the first bad one",
    );
    let again = builder
        .parts_from(alloc, text.as_bytes())
        .expect(&rt, "not read");
    let copy = again.to_text(alloc).expect(&rt, "no text");
    same(&rt, copy.as_str(), text.as_str(), "the list is read back");
}
