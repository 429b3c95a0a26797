//! Makes a picture of an explanation: its rows, of the lines that its text has, its lanes and its arrows.
ghost use Rattle.std.specs.Prelude.{◌≡◌, ◌-◌, ◌<◌, ◌≤◌, [], length, take, IfOk, OnOk};
ghost use Rattle.loom_explain.specs.Pictures.{IsWhole, Tells};
ghost use Rattle.loom_explain.specs.Rows.{FoldsOn, StaysWhole, TellsOn, TellsSame};

use crate::event::Event;
use crate::explanation::Explanation;
use crate::picture::{Arrow, Lane, Mark, Picture, Row, Shown, Spot};
use crate::text::lines::{Line, Lines, tell_events};
use crate::text::links::Link;
use crate::text::page::Page;
use crate::text::put_head;
use crate::text::reasons::Scene;
use crate::text::reasons::deadlock::put_left;
use crate::text::world::World;
use loom_views::rt::failure::FailureKind;
use std::alloc::{AllocError, Global};

/// How many of the last holds keep their events from being folded.
const LAST_HOLDS: usize = 20;

/// What rows are made of.
#[derive(Clone, Copy)]
struct Source<'a> {
    scene: Scene<'a>,
    lines: &'a [Line],
    /// Which events are shown.
    told: &'a [bool],
}

/// Rows that are made one after the other.
#[derive(Drop)]
struct Rows {
    list: Vec<Row>,
    /// In which row each line is that was passed.
    rows: Vec<usize>,
}

/// The run as a picture, of which the events in the middle are folded where there are more than so many.
pub(crate) fn picture_of(
    alloc: Global,
    explanation: &Explanation,
    most: usize,
) -> Result<Picture, AllocError>
    ensures told { IfOk result (λ picture. Tells 1 picture.rows.items explanation.now.events.items) }
    ensures whole { length explanation.now.events.items ≤ most → IfOk result (λ picture. IsWhole picture.rows.items) }
{
    let mut world = World::new(alloc);
    let mut lines = Lines::new(alloc);
    tell_events(explanation, &mut world, &mut lines);
    if world.is_refused || lines.is_refused || lines.links.is_refused {
        return Err(AllocError);
    }
    let scene = Scene::new(explanation, &world);
    let told = told_events(alloc, &scene, most)?;
    let source = Source {
        scene,
        lines: lines.list.as_slice(),
        told: told.as_slice(),
    };
    let mut rows = Rows {
        list: Vec::new(alloc),
        rows: Vec::new(alloc),
    };
    put_rows(
        alloc,
        explanation.events.as_slice(),
        most,
        &source,
        &mut rows,
    )?;
    Ok(Picture {
        head: head_of(alloc, &scene)?,
        choices: choices_of(alloc, explanation)?,
        end: explanation.end,
        lanes: lanes_of(alloc, &scene)?,
        arrows: arrows_of(alloc, lines.links.list.as_slice(), &rows)?,
        rows: rows.list,
    })
}

/// Which events are shown: all, or where there are more than so many the first third of that and the last two, and besides those
/// that are marked, and since when a thread has something at the end.
fn told_events(alloc: Global, scene: &Scene<'_>, most: usize) -> Result<Vec<bool>, AllocError> {
    let count = scene.explanation.events.len();
    let first = most / 3;
    let last = count.saturating_sub(most.saturating_sub(first));
    let mut told = Vec::new(alloc);
    for place in 0..count {
        let number = place.saturating_add(1);
        told.push(
            place < first
                || place >= last
                || scene.is_marked(Some(number))
                || is_held_since(scene.world, number),
        )?;
    }
    Ok(told)
}

/// Whether a thread has something since this event, as far as the last holds go.
fn is_held_since(world: &World, event: usize) -> bool {
    let mut holds = world.holds.iter().rev().take(LAST_HOLDS);
    holds.any(|hold| hold.at.event == event)
}

/// Puts a row for each event, with what came of others before it, or one for several that are folded.
fn put_rows(
    alloc: Global,
    events: &[Event],
    most: usize,
    source: &Source<'_>,
    rows: &mut Rows,
) -> Result<(), AllocError>
    requires { rows.old.list.items ≡ [] }
    ensures told { OnOk result (Tells 1 rows.new.list.items events.now) }
    ensures whole { length events.now ≤ most → OnOk result (IsWhole rows.new.list.items) }
{
    let mut place = 0usize;
    while place < events.len() {
        place = rows.put_next(alloc, events, most, source, place)?;
    }
    rows.put_came(alloc, source)
}

impl Source<'_> {
    /// How many of so many events aren't shown from this place on; none where there are at most this many.
    fn folded_from(&self, events: usize, most: usize, place: usize) -> usize
        ensures within { result ≤ events - place }
        ensures whole { events ≤ most → result ≡ 0 }
    {
        if events <= most {
            return 0;
        }
        let told = self.told.get(place..).unwrap_or(&[]);
        let folded = match told.iter().position(|is_told| *is_told) {
            Some(count) => count,
            None => told.len(),
        };
        folded.min(events.saturating_sub(place))
    }

    /// The number of the event of the line of this place, where an operation is handed over.
    fn event_at(&self, place: usize) -> Option<usize> {
        self.lines.get(place)?.event
    }

    /// The line of this place, if it tells what came of an event.
    fn came_at(&self, place: usize) -> Option<&Line> {
        self.lines.get(place).filter(|line| line.event.is_none())
    }

    fn mark(&self, event: Option<usize>) -> Mark {
        if self.scene.is_failing(event) {
            Mark::Failed
        } else if !self.scene.is_marked(event) {
            Mark::Plain
        } else if matches!(self.scene.kind, Some(FailureKind::Deadlock)) {
            Mark::Waits
        } else {
            Mark::Raced
        }
    }

    /// What a row shows of this event and thread, by the line of this place.
    fn shown(
        &self,
        alloc: Global,
        place: usize,
        event: usize,
        thread: u8,
    ) -> Result<Shown, AllocError>
        ensures { IfOk result (λ shown. (shown.event ≡ event) × (shown.thread ≡ thread)) }
    {
        let mut words = Page::new(alloc);
        let mut note = Page::new(alloc);
        let mut choice = Page::new(alloc);
        let mut mark = Mark::Plain;
        if let Some(line) = self.lines.get(place) {
            self.put_line(line, &mut words, &mut note);
            choice.page(&line.choice);
            mark = self.mark(line.event);
        }
        Ok(Shown {
            event,
            thread,
            words: words.finish()?,
            note: note.finish()?,
            choice: choice.finish()?,
            mark,
        })
    }

    /// What is in a line, and what is below that: an answer is in it, and a place and what comes after it below.
    fn put_line(&self, line: &Line, words: &mut Page, note: &mut Page) {
        words.words(line.text.as_str().trim_start());
        if line.tail.as_str().starts_with(": ") {
            words.page(&line.tail);
        } else {
            note.words(line.tail.as_str().trim_start());
        }
        if self.scene.is_failing(line.event) {
            self.scene.put_end(words);
        }
    }
}

impl Rows {
    /// The line that comes next is in the row that comes next.
    fn pass(&mut self) -> Result<(), AllocError>
        ensures { self.new.list.items ≡ self.old.list.items }
    {
        let row = self.list.len();
        self.rows.push(row)?;
        Ok(())
    }

    /// A row for each line that comes next and tells what came of an event.
    fn put_came(&mut self, alloc: Global, source: &Source<'_>) -> Result<(), AllocError>
        ensures told { OnOk result (TellsSame self.old.list.items self.new.list.items) }
        ensures whole { OnOk result (StaysWhole self.old.list.items self.new.list.items) }
    {
        for place in self.rows.len()..source.lines.len() {
            let Some(line) = source.came_at(place) else {
                return Ok(());
            };
            self.pass()?;
            let thread = u8::try_from(line.thread).unwrap_or(0);
            let shown = source.shown(alloc, place, line.of, thread)?;
            self.list.push(Row::Came(shown))?;
        }
        Ok(())
    }

    /// A row for the event of this place, or one for several from there on that are folded. Answers the place of the next event.
    fn put_next(
        &mut self,
        alloc: Global,
        events: &[Event],
        most: usize,
        source: &Source<'_>,
        place: usize,
    ) -> Result<usize, AllocError>
        requires { place < length events.now }
        ensures next { IfOk result (λ next. (place < next) × (next ≤ length events.now)) }
        ensures told { IfOk result (λ next. Tells 1 self.old.list.items (take place events.now) → Tells 1 self.new.list.items (take next events.now)) }
        ensures whole { length events.now ≤ most → OnOk result (StaysWhole self.old.list.items self.new.list.items) }
    {
        let folded = source.folded_from(events.len(), most, place);
        if folded > 0 {
            self.fold(source, place + folded, folded)?;
            return Ok(place + folded);
        }
        self.tell(alloc, source, place + 1, &events[place])?;
        Ok(place + 1)
    }

    /// A row for the event of this number.
    fn tell(
        &mut self,
        alloc: Global,
        source: &Source<'_>,
        number: usize,
        event: &Event,
    ) -> Result<(), AllocError>
        ensures told { OnOk result (TellsOn number event.now self.old.list.items self.new.list.items) }
        ensures whole { OnOk result (StaysWhole self.old.list.items self.new.list.items) }
    {
        self.put_came(alloc, source)?;
        let place = self.rows.len();
        self.pass()?;
        let shown = source.shown(alloc, place, number, event.thread)?;
        self.list.push(Row::Told(shown))?;
        Ok(())
    }

    /// The lines that come next are in the row that comes next, up to that of the event of this number.
    fn pass_to(&mut self, source: &Source<'_>, number: usize) -> Result<(), AllocError>
        ensures { self.new.list.items ≡ self.old.list.items }
    {
        for place in self.rows.len()..source.lines.len() {
            self.pass()?;
            if source.event_at(place) == Some(number) {
                return Ok(());
            }
        }
        Ok(())
    }

    /// One row for so many events that aren't shown, of which the last one has this number.
    fn fold(&mut self, source: &Source<'_>, number: usize, count: usize) -> Result<(), AllocError>
        ensures { OnOk result (FoldsOn count self.old.list.items self.new.list.items) }
    {
        self.pass_to(source, number)?;
        self.list.push(Row::Folded(count))?;
        Ok(())
    }
}

fn head_of(alloc: Global, scene: &Scene<'_>) -> Result<String, AllocError> {
    let mut head = Page::new(alloc);
    put_head(alloc, &mut head, scene);
    head.finish()
}

/// The choices, as a replay takes them.
fn choices_of(alloc: Global, explanation: &Explanation) -> Result<String, AllocError> {
    let mut choices = Page::new(alloc);
    for choice in &explanation.choices {
        let before = if choices.is_empty() { "" } else { " " };
        choices.choice(before, *choice);
    }
    choices.finish()
}

/// The threads, with where a deadlock left each.
fn lanes_of(alloc: Global, scene: &Scene<'_>) -> Result<Vec<Lane>, AllocError> {
    let mut lanes = Vec::new(alloc);
    for thread in 0..scene.world.threads.len() {
        lanes.push(lane_of(alloc, scene, thread)?)?;
    }
    Ok(lanes)
}

fn lane_of(alloc: Global, scene: &Scene<'_>, thread: usize) -> Result<Lane, AllocError> {
    let mut title = Page::new(alloc);
    let mut left = Page::new(alloc);
    let mut waits = false;
    if let Some(member) = scene.world.threads.get(thread) {
        title.titled("", thread, member.name);
        if matches!(scene.kind, Some(FailureKind::Deadlock)) {
            put_left(&mut left, scene, thread, member);
            waits = scene.is_marked(Some(member.pending));
        }
    }
    Ok(Lane {
        title: title.finish()?,
        left: left.finish()?,
        waits,
    })
}

/// The arrows between rows, but for those within a fold or from one to another.
fn arrows_of(alloc: Global, links: &[Link], rows: &Rows) -> Result<Vec<Arrow>, AllocError> {
    let mut arrows = Vec::new(alloc);
    for link in links {
        if let Some(arrow) = arrow_of(link, rows) {
            arrows.push(arrow)?;
        }
    }
    Ok(arrows)
}

fn arrow_of(link: &Link, rows: &Rows) -> Option<Arrow> {
    let from = rows.rows.get(link.from.row).copied()?;
    let to = rows.rows.get(link.to.row).copied()?;
    if from == to || is_folded(rows, from) && is_folded(rows, to) {
        return None;
    }
    Some(Arrow {
        tie: link.tie,
        from: Spot {
            thread: link.from.thread,
            row: from,
        },
        to: Spot {
            thread: link.to.thread,
            row: to,
        },
    })
}

fn is_folded(rows: &Rows, row: usize) -> bool {
    matches!(rows.list.get(row), Some(Row::Folded(_)))
}
