//! Lines in columns.
use crate::text::lines::Line;
use crate::text::page::{Page, WIDTH};
use crate::text::reasons::Scene;
use crate::text::world::World;
use std::alloc::Global;

/// How many lines a turn may have that is shown once where it is repeated.
const LONGEST_TURN: usize = 12;

/// Where the columns begin.
#[derive(Clone, Copy)]
struct Frame {
    /// How wide the numbers of events are.
    margin: usize,
    /// Whether each thread has a column of its own.
    has_columns: bool,
    /// Where the choices begin.
    choice: usize,
}

impl Frame {
    fn new(events: usize, threads: usize) -> Frame {
        let margin = match events {
            0..=999 => 3,
            1000..=99_999 => 5,
            _ => 7,
        };
        Frame {
            margin,
            has_columns: threads <= 2,
            choice: margin + if threads <= 1 { 44 } else { 79 },
        }
    }

    /// Where the marks of the thread's lines are.
    fn mark(&self, thread: usize) -> usize {
        if self.has_columns && thread > 0 {
            self.margin.saturating_add(42)
        } else {
            self.margin.saturating_add(1)
        }
    }

    /// Where the text of the thread's lines begins.
    fn start(&self, thread: usize) -> usize {
        let start = self.mark(thread).saturating_add(2);
        if self.has_columns {
            start
        } else {
            start.saturating_add(8)
        }
    }
}

/// The lines in columns. A turn that is repeated is shown once.
pub(crate) fn put_rows(alloc: Global, out: &mut Page, scene: &Scene<'_>, lines: &[Line]) {
    let events = scene.explanation.events.len();
    let frame = Frame::new(events, scene.world.threads.len());
    let mut row = Page::new(alloc);
    put_titles(&mut row, frame, scene.world);
    out.page(&row);
    row.clear();
    put_turns(out, &mut row, frame, scene, lines);
    if row.is_refused {
        out.is_refused = true;
    }
}

/// The titles of the columns.
fn put_titles(row: &mut Page, frame: Frame, world: &World) {
    if frame.has_columns {
        put_names(row, frame, world);
    } else {
        row.pad(frame.mark(0).saturating_add(2));
        row.words("thread  operation");
    }
    row.pad(frame.choice);
    row.words("choice\n");
}

/// The threads' names, each over its column.
fn put_names(row: &mut Page, frame: Frame, world: &World) {
    for (thread, member) in world.threads.iter().enumerate() {
        row.pad(frame.start(thread));
        row.titled("", thread, member.name);
    }
}

fn put_turns(out: &mut Page, row: &mut Page, frame: Frame, scene: &Scene<'_>, lines: &[Line]) {
    let mut next = 0usize;
    for place in 0..lines.len() {
        if place >= next {
            let (turn, times) = turn_at(scene, lines, place);
            next = place.saturating_add(turn);
            let shown = lines.get(place..next).unwrap_or(&[]);
            put_turn(out, row, frame, scene, shown);
            if times > 1 {
                put_same(row, frame, shown, times);
                out.page(row);
                row.clear();
                next = next.saturating_add(turn.saturating_mul(times));
            }
        }
    }
}

fn put_turn(out: &mut Page, row: &mut Page, frame: Frame, scene: &Scene<'_>, turn: &[Line]) {
    for line in turn {
        put_line(out, row, frame, scene, line);
    }
}

/// How many lines from this place on make a turn that is repeated, and how many times more it comes: at least twice, or else
/// it is a line that comes no more.
fn turn_at(scene: &Scene<'_>, lines: &[Line], place: usize) -> (usize, usize) {
    for turn in 1..=LONGEST_TURN {
        let times = same_from(scene, lines, place, turn) / turn;
        if times > 1 {
            return (turn, times);
        }
    }
    (1, 0)
}

/// How many lines from this place on are like the line so many lines after it.
fn same_from(scene: &Scene<'_>, lines: &[Line], place: usize, turn: usize) -> usize {
    let mut count = 0usize;
    for here in place..lines.len() {
        match (lines.get(here), lines.get(here.saturating_add(turn))) {
            (Some(one), Some(other)) if !scene.is_marked(other.event) && one.is_like(other) => {}
            _ => return count,
        }
        count = count.saturating_add(1);
    }
    count
}

/// How many events hand an operation over in these lines.
fn events_in(turn: &[Line]) -> usize {
    turn.iter().filter(|line| line.event.is_some()).count()
}

/// The row of a turn that is repeated.
fn put_same(row: &mut Page, frame: Frame, turn: &[Line], times: usize) {
    if let Some(first) = turn.first() {
        row.pad(frame.start(first.thread));
    }
    let events = events_in(turn);
    if events > 1 {
        row.put("(these $ events the same $ times more)\n", &[events, times]);
    } else {
        row.between("(the same ", times, " times more)\n");
    }
}

/// The row of a line: its number, its mark, its text in its thread's column, and its choice, which has a row of its own where
/// the text leaves no room.
fn put_line(out: &mut Page, row: &mut Page, frame: Frame, scene: &Scene<'_>, line: &Line) {
    start_row(row, frame, scene, line);
    row.page(&line.text);
    let has_choice = !line.choice.is_empty();
    let room = if has_choice {
        frame.choice.saturating_sub(1)
    } else {
        WIDTH
    };
    if row.len().saturating_add(line.tail.len()) <= room {
        row.page(&line.tail);
    }
    if scene.is_failing(line.event) {
        scene.put_end(row);
    }
    if has_choice && row.len() > room {
        end_row(out, row, frame, line.thread);
    }
    if has_choice {
        row.pad(frame.choice);
        row.page(&line.choice);
    }
    end_row(out, row, frame, line.thread);
}

/// Puts the row, with what goes past the width below its beginning, and begins another one.
fn end_row(out: &mut Page, row: &mut Page, frame: Frame, thread: usize) {
    out.wrapped_line(row.as_str(), frame.start(thread).saturating_add(4));
    row.clear();
}

/// How many digits an event's number has.
fn digits_of(event: usize) -> usize {
    match event.checked_ilog10() {
        Some(power) => (power as usize).saturating_add(1),
        None => 1,
    }
}

/// What is before a line's text.
fn start_row(row: &mut Page, frame: Frame, scene: &Scene<'_>, line: &Line) {
    let mark = frame.mark(line.thread);
    if let Some(event) = line.event {
        row.pad(frame.margin.saturating_sub(digits_of(event)));
        row.number("", event);
    }
    if scene.is_marked(line.event) {
        row.pad(mark);
        row.words("!");
    }
    if !frame.has_columns && !line.text.is_empty() {
        row.pad(mark.saturating_add(2));
        row.number("t", line.thread);
    }
    row.pad(frame.start(line.thread));
}
