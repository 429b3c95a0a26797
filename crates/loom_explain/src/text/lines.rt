//! The events of a run as lines, each of one thread.
use crate::event::Event;
use crate::explanation::{Explanation, Options};
use crate::picture::Spot;
use crate::text::answers::Answer;
use crate::text::forms::{Call, Kind, argument_of, call_of};
use crate::text::links::{Effect, Links};
use crate::text::objects::{At, Store};
use crate::text::page::Page;
use crate::text::world::World;
use loom_objects::choice::Choice;
use loom_objects::label::{Label, location_in, name_in};
use loom_objects::operation::{Op, Request};
use std::alloc::Global;

/// A line of one thread: an operation, or what came of one.
#[derive(Drop)]
pub(crate) struct Line {
    /// The event's number, where an operation is handed over.
    pub(crate) event: Option<usize>,
    /// The number of the event that it tells of.
    pub(crate) of: usize,
    pub(crate) thread: usize,
    pub(crate) text: Page,
    /// What follows the text where there is room.
    pub(crate) tail: Page,
    /// A choice, and of what, or nothing.
    pub(crate) choice: Page,
}

/// The lines of a run.
#[derive(Drop)]
pub(crate) struct Lines {
    alloc: Global,
    pub(crate) list: Vec<Line>,
    /// What comes of what.
    pub(crate) links: Links,
    /// Whether memory was refused for a line.
    pub(crate) is_refused: bool,
}

impl Line {
    /// Whether the line says the same as another, whatever their events' numbers and tails are.
    pub(crate) fn is_like(&self, other: &Line) -> bool {
        self.thread == other.thread
            && self.event.is_some() == other.event.is_some()
            && self.text.as_str() == other.text.as_str()
            && self.choice.as_str() == other.choice.as_str()
    }
}

impl Lines {
    pub(crate) fn new(alloc: Global) -> Lines {
        Lines {
            alloc,
            list: Vec::new(alloc),
            links: Links::new(alloc),
            is_refused: false,
        }
    }

    /// A line without text, of the event and its thread.
    fn line(&self, event: Option<usize>, of: At) -> Line {
        Line {
            event,
            of: of.event,
            thread: of.thread,
            text: Page::new(self.alloc),
            tail: Page::new(self.alloc),
            choice: Page::new(self.alloc),
        }
    }

    fn push(&mut self, line: Line) {
        if line.text.is_refused || line.tail.is_refused || line.choice.is_refused {
            self.is_refused = true;
        }
        if self.list.push(line).is_err() {
            self.is_refused = true;
        }
    }

    /// The spot of the thread in the line that comes next.
    fn next_spot(&self, thread: usize) -> Spot {
        Spot {
            thread,
            row: self.list.len(),
        }
    }

    /// The spot at which what is pending takes effect: in the line that comes next, or in its own where that is the last one and
    /// has room for what comes of it.
    fn effect_spot(&self, pending: &Pending<'_>, answer: Answer) -> Spot {
        let next = self.next_spot(pending.at.thread);
        if pending.before.is_some() || matches!(answer, Answer::Read(..)) {
            return next;
        }
        Spot {
            row: next.row.saturating_sub(1),
            ..next
        }
    }

    /// The number in front of what comes of an operation: none where it comes next to its line.
    fn number_before(&self, line: usize, event: usize) -> Option<usize> {
        if self.list.len() == line.saturating_add(1) {
            None
        } else {
            Some(event)
        }
    }
}

/// Tells the run's events. The world is the one after them then.
pub(crate) fn tell_events(explanation: &Explanation, world: &mut World, lines: &mut Lines) {
    for (index, event) in explanation.events.iter().enumerate() {
        let at = At {
            event: index.saturating_add(1),
            thread: usize::from(event.thread),
        };
        tell_reply(explanation, at, event, world, lines);
        tell_call(explanation, at, event, world, lines);
        tell_choices(explanation, at, event, world, lines);
    }
}

/// How many choices the run had made after the event of this number.
fn choices_after(explanation: &Explanation, number: usize) -> usize {
    match explanation.events.get(number) {
        Some(next) => next.choices_before,
        None => explanation.choices.len(),
    }
}

/// The choice of this place, if there is one, and of what: `t0 of t0 t1`.
fn put_chosen(page: &mut Page, explanation: &Explanation, place: usize) {
    if let Some(choice) = explanation.choices.get(place) {
        page.choice("", *choice);
        match explanation.options.get(place) {
            Some(Options::Threads(threads)) => put_listed(page, "t", threads.as_slice()),
            Some(Options::Slots(slots)) => put_listed(page, "l", slots.as_slice()),
            Some(Options::Wakes) => page.words(" of s0 s1"),
            None => {}
        }
    }
}

/// Numbers after a letter, each after a space; of more than four how many, the first and the last.
fn put_listed(page: &mut Page, letter: &str, numbers: &[u8]) {
    page.words(" of");
    match (numbers.first(), numbers.last()) {
        (Some(first), Some(last)) if numbers.len() > 4 => {
            page.number(" ", numbers.len());
            put_lettered(page, " (", letter, *first);
            put_lettered(page, " .. ", letter, *last);
            page.words(")");
        }
        (Some(_), Some(_)) => put_each(page, letter, numbers),
        _ => {
            page.words(" ");
            page.words(letter);
            page.words("-");
        }
    }
}

fn put_each(page: &mut Page, letter: &str, numbers: &[u8]) {
    for number in numbers {
        put_lettered(page, " ", letter, *number);
    }
}

/// A number after words and a letter.
fn put_lettered(page: &mut Page, words: &str, letter: &str, number: u8) {
    page.words(words);
    page.number(letter, usize::from(number));
}

/// The slot of the choice of this place, if it is of a slot.
fn slot_at(explanation: &Explanation, place: usize) -> Option<u8> {
    match explanation.choices.get(place) {
        Some(Choice::Load(slot)) => Some(*slot),
        _ => None,
    }
}

/// What a thread has pending.
#[derive(Clone, Copy)]
struct Pending<'a> {
    at: At,
    /// The number of the event to stand in front of what comes of it: none where that comes next to its line.
    before: Option<usize>,
    op: &'a Op<(), ()>,
}

/// What a thread is told: the answer, and the text of the data in it, if they are shown.
#[derive(Clone, Copy)]
struct Told<'a> {
    answer: Answer,
    data: Option<&'a str>,
}

impl Told<'_> {
    /// Whether something is shown of it, by whether the thread waited for it.
    fn is_shown(self, has_waited: bool) -> bool {
        self.data.is_some() || self.answer.is_shown(has_waited)
    }

    /// Puts what is shown of it, by whether the thread waited for it.
    fn put(self, page: &mut Page, has_waited: bool) {
        let has_words = self.answer.is_shown(has_waited);
        if has_words {
            page.answer(self.answer);
        }
        if let Some(data) = self.data {
            page.data(if has_words { ": " } else { "" }, data);
        }
    }
}

/// What the thread has pending, if it has something.
fn pending_of<'a>(
    explanation: &'a Explanation,
    world: &World,
    lines: &Lines,
    thread: usize,
) -> Option<Pending<'a>> {
    let member = world.threads.get(thread)?;
    let event = explanation.event(member.pending)?;
    Some(Pending {
        at: At {
            event: member.pending,
            thread,
        },
        before: lines.number_before(member.line, member.pending),
        op: &event.op,
    })
}

/// What came of the thread's last operation.
fn tell_reply(
    explanation: &Explanation,
    at: At,
    event: &Event,
    world: &mut World,
    lines: &mut Lines,
) {
    if let Some(pending) = pending_of(explanation, world, lines, at.thread) {
        // the choice just before the event, if there is one
        let place = event.choices_before.wrapping_sub(1);
        let slot = slot_at(explanation, place);
        let call = call_of(&pending.op.request, world);
        let answer = world.settle(pending.at, pending.op, &event.told, slot);
        let told = Told {
            answer,
            data: explanation.data_told(at.event),
        };
        let effect = Effect {
            event: pending.at.event,
            spot: lines.effect_spot(&pending, answer),
            is_told: pending.before.is_none() || told.is_shown(true),
            by_itself: wakes_by_itself(explanation, pending.at.event),
        };
        let argument = argument_of(&pending.op.request);
        let links = &mut lines.links;
        links.settle(effect, call, argument, &event.told, answer);
        if let Answer::Read(store, _) = answer {
            tell_read(explanation, place, &pending, store, answer, lines);
        } else if told.is_shown(pending.before.is_some()) {
            tell_answer(&pending, told, lines);
        }
    }
}

/// Whether the thread of this event wakes from its wait without a notification, by the first choice at the event.
fn wakes_by_itself(explanation: &Explanation, number: usize) -> bool {
    let Some(event) = explanation.event(number) else {
        return false;
    };
    matches!(
        explanation.choices.get(event.choices_before),
        Some(Choice::Spurious(true))
    )
}

/// The event of an operation before what came of it, if its line isn't the one above.
fn put_before(page: &mut Page, before: Option<usize>, sign: &str) {
    page.words("  ");
    if let Some(event) = before {
        page.number("event ", event);
        page.words(sign);
    }
}

/// A store that was read, by the choice of this place.
fn tell_read(
    explanation: &Explanation,
    place: usize,
    pending: &Pending<'_>,
    store: Store,
    answer: Answer,
    lines: &mut Lines,
) {
    let mut line = lines.line(None, pending.at);
    put_before(&mut line.text, pending.before, " ");
    line.text.number("reads store ", store.number);
    if store.order.is_some() {
        line.text.between(" (event ", store.at.event, ")");
    } else {
        line.text.words(" (initial)");
    }
    line.tail.answer(answer);
    put_chosen(&mut line.choice, explanation, place);
    lines.push(line);
}

fn tell_answer(pending: &Pending<'_>, told: Told<'_>, lines: &mut Lines) {
    if pending.before.is_some() {
        let mut line = lines.line(None, pending.at);
        put_before(&mut line.text, pending.before, ": ");
        told.put(&mut line.text, true);
        lines.push(line);
    } else if let Some(line) = lines.list.last_mut() {
        line.tail.words(": ");
        told.put(&mut line.tail, false);
    }
}

/// The operation that is handed over, with the first choice that was made then.
fn tell_call(
    explanation: &Explanation,
    at: At,
    event: &Event,
    world: &mut World,
    lines: &mut Lines,
) {
    let bound = choices_after(explanation, at.event);
    let call = call_of(&event.op.request, world);
    let mut line = lines.line(Some(at.event), at);
    let data = explanation.data_handed_over(at.event);
    line.text.call_with(&event.op.request, world, data);
    let spot = lines.next_spot(at.thread);
    lines.links.hand_over(event, spawned_by(call), spot);
    world.hand_over(at, spot.row, call, &event.op);
    put_made(&mut line.text, call, world);
    put_label(&mut line, event.op.label);
    if call.form.waits.is_some() && !is_offered(explanation, event, bound) {
        line.tail.words(": waits");
    }
    if event.choices_before < bound {
        put_chosen(&mut line.choice, explanation, event.choices_before);
    }
    lines.push(line);
}

/// The thread that the call spawns, if it does.
fn spawned_by(call: Call) -> Option<usize> {
    match call.made() {
        Some(Kind::Joining) => Some(call.number),
        _ => None,
    }
}

/// The number of what was made just now.
fn put_made(text: &mut Page, call: Call, world: &World) {
    match call.made() {
        None | Some(Kind::Joining) => {}
        Some(_) => text.number(" = #", world.objects.len().saturating_sub(1)),
    }
}

fn put_label(line: &mut Line, label: Option<Label>) {
    if let Some(name) = name_in(label) {
        line.text.named(" \"", name, "\"");
    }
    if let Some(place) = location_in(label) {
        line.tail.place(" at ", place, "");
    }
}

/// Whether the event's thread could be chosen at the first schedule of the event; so it is where there is none.
fn is_offered(explanation: &Explanation, event: &Event, bound: usize) -> bool {
    let made = explanation.options.get(event.choices_before..bound);
    for options in made.unwrap_or(&[]) {
        if let Options::Threads(threads) = options {
            return threads.as_slice().contains(&event.thread);
        }
    }
    true
}

/// The further choices that were made at the event, but for those that a reply's line has.
fn tell_choices(
    explanation: &Explanation,
    at: At,
    event: &Event,
    world: &mut World,
    lines: &mut Lines,
) {
    let bound = choices_after(explanation, at.event);
    for place in event.choices_before.saturating_add(1)..bound {
        tell_choice(explanation, at, place, world, lines);
    }
}

/// A further choice, beside what came of the one before it.
fn tell_choice(
    explanation: &Explanation,
    at: At,
    place: usize,
    world: &mut World,
    lines: &mut Lines,
) {
    let slot = slot_at(explanation, place);
    if slot.is_some() && !is_last(explanation, at, place) {
        return;
    }
    match (explanation.choices.get(place.saturating_sub(1)), slot) {
        (Some(Choice::Thread(Some(thread))), Some(slot)) => {
            tell_open_read(explanation, place, usize::from(*thread), slot, world, lines);
        }
        (Some(Choice::Thread(Some(thread))), None) => {
            tell_stage(explanation, place, usize::from(*thread), world, lines);
        }
        (Some(Choice::Spurious(true)), _) => {
            tell_alone(explanation, place, at, "  wakes by itself", lines);
        }
        _ => tell_alone(explanation, place, at, "", lines),
    }
}

/// Whether the choice of this place is the run's last one, at its last event.
fn is_last(explanation: &Explanation, at: At, place: usize) -> bool {
    explanation.choices.len() == place.saturating_add(1) && explanation.events.len() == at.event
}

/// A choice beside these words.
fn tell_alone(explanation: &Explanation, place: usize, at: At, words: &str, lines: &mut Lines) {
    let mut line = lines.line(None, at);
    line.text.words(words);
    put_chosen(&mut line.choice, explanation, place);
    lines.push(line);
}

/// A read that isn't answered, since the run fails.
fn tell_open_read(
    explanation: &Explanation,
    place: usize,
    thread: usize,
    slot: u8,
    world: &World,
    lines: &mut Lines,
) {
    if let Some(pending) = pending_of(explanation, world, lines, thread) {
        if let Some(store) = world.store_of(call_of(&pending.op.request, world), slot) {
            let spot = lines.next_spot(thread);
            lines.links.read(store, spot);
            tell_read(explanation, place, &pending, store, Answer::Nothing, lines);
        }
    }
}

/// A stage of the thread's operation, after which it came to another branch point.
fn tell_stage(
    explanation: &Explanation,
    place: usize,
    thread: usize,
    world: &mut World,
    lines: &mut Lines,
) {
    if let Some(pending) = pending_of(explanation, world, lines, thread) {
        let passes = call_of(&pending.op.request, world).form.passes;
        let stage = world.pass(thread, pending.op);
        let spot = lines.next_spot(thread);
        lines.links.pass(pending.op, stage, spot);
        let words = stage_words(pending.op, passes, stage);
        let mut line = lines.line(None, pending.at);
        put_before(&mut line.text, pending.before, ": ");
        line.text.words(words);
        put_chosen(&mut line.choice, explanation, place);
        lines.push(line);
    }
}

/// What the thread does by a stage of its operation.
fn stage_words(op: &Op<(), ()>, passes: &'static str, stage: u8) -> &'static str {
    if !matches!(op.request, Request::Condvar(..)) {
        passes
    } else if stage == 0 {
        "sleeps, and gives the mutex free"
    } else {
        "is woken, and wants the mutex"
    }
}
