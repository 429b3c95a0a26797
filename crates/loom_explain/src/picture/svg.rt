//! A picture as an SVG that stands alone.
ghost use Rattle.std.specs.Prelude.{map, string_bytes, IfOk};
ghost use Rattle.loom_explain.specs.Marks.{StandIn, mark_of};

use crate::picture::frame::{
    BEHIND, BORDER, Frame, LINE, MOST_CHARACTERS, MOST_OF_CHOICE, ROW, has_lefts, width_of_text,
};
use crate::picture::style::{TIES, put_style, put_tips};
use crate::picture::writing::{Piece, write_rows};
use crate::picture::{Arrow, Form, Lane, Mark, Picture, Row, Shown, Tie};
use crate::text::page::Page;
use std::alloc::{AllocError, Global};

/// How many choices the head has.
const MOST_CHOICES: usize = 120;

/// How far before the first lane the numbers of events end.
const NUMBER: usize = 30;

/// How far from its lane an arrow goes that ends in the same one.
const BOW: usize = 24;

/// How many characters a line of the head has at most.
const MOST_IN_HEAD: usize = 160;

/// The picture as an SVG. An error where memory is refused.
pub(crate) fn svg_of(alloc: Global, picture: &Picture) -> Result<String, AllocError>
    ensures { IfOk result (λ text. StandIn (map (mark_of Form.Svg) picture.now.rows.items) (string_bytes text)) }
{
    let head = head_of(alloc, picture);
    let frame = Frame::new(picture, head.as_str().lines().count());
    let start = start_of(alloc, picture, frame, &head)?;
    let pieces = pieces_of(alloc, picture, frame)?;
    let end = end_of(alloc, picture, frame)?;
    write_rows(
        Form::Svg,
        start,
        picture.rows.as_slice(),
        pieces.as_slice(),
        end.as_str(),
    )
}

/// What is before the rows: they lie over it.
fn start_of(
    alloc: Global,
    picture: &Picture,
    frame: Frame,
    head: &Page,
) -> Result<String, AllocError> {
    let mut out = Page::new(alloc);
    out.is_refused = head.is_refused;
    put_start(&mut out, picture, frame);
    put_head(&mut out, head.as_str());
    put_lanes(&mut out, picture, frame);
    put_arrows(&mut out, picture, frame);
    out.finish()
}

/// What is behind the rows.
fn end_of(alloc: Global, picture: &Picture, frame: Frame) -> Result<String, AllocError> {
    let mut out = Page::new(alloc);
    put_lefts(&mut out, picture, frame);
    put_legend(&mut out, picture, frame);
    out.words("</svg>\n");
    out.finish()
}

/// How the run ended and why, and its first choices.
fn head_of(alloc: Global, picture: &Picture) -> Page {
    let mut replay = Page::new(alloc);
    replay.words("replay:");
    put_choices(&mut replay, picture.choices.as_str());
    let mut head = Page::new(alloc);
    head.words(picture.head.as_str());
    head.wrapped(&replay, 8);
    head
}

/// The first choices, and how many more there are.
fn put_choices(replay: &mut Page, choices: &str) {
    let mut count = 0usize;
    for choice in choices.split(' ') {
        if count < MOST_CHOICES {
            replay.words(" ");
            replay.words(choice);
        }
        count = count.saturating_add(1);
    }
    if count > MOST_CHOICES {
        replay.between(" .. and ", count.saturating_sub(MOST_CHOICES), " more");
    }
}

impl Page {
    /// A text of this class at this place.
    fn text_at(&mut self, class: &str, x: usize, y: usize, text: &str, most: usize) {
        self.words("<text class=\"");
        self.words(class);
        self.put("\" x=\"$\" y=\"$\">", &[x, y]);
        self.xml(text, most);
        self.words("</text>");
    }

    /// A text that ends at this place.
    fn text_before(&mut self, x: usize, y: usize, text: &str, most: usize) {
        self.put(
            "<text class=\"soft\" x=\"$\" y=\"$\" text-anchor=\"end\">",
            &[x, y],
        );
        self.xml(text, most);
        self.words("</text>");
    }
}

fn put_start(out: &mut Page, picture: &Picture, frame: Frame) {
    let (width, height) = (frame.width, frame.height());
    out.put(
        "<svg xmlns=\"http://www.w3.org/2000/svg\" viewBox=\"0 0 $ $\" width=\"$\" height=\"$\" ",
        &[width, height, width, height],
    );
    out.words("style=\"max-width:100%;height:auto\" role=\"img\">\n<title>");
    out.xml(
        picture.head.as_str().lines().next().unwrap_or(""),
        MOST_IN_HEAD,
    );
    out.words("</title>\n");
    put_style(out);
    put_tips(out);
    out.put(
        "<rect class=\"paper\" width=\"$\" height=\"$\"/>\n",
        &[width, height],
    );
}

fn put_head(out: &mut Page, head: &str) {
    for (place, line) in head.lines().enumerate() {
        let text = line.trim_start();
        let indent = line.len().saturating_sub(text.len());
        let x = BORDER.saturating_add(width_of_text(indent));
        let y = LINE.saturating_mul(place).saturating_add(BORDER + LINE / 2);
        let class = if place == 0 { "head" } else { "" };
        out.text_at(class, x, y, text, MOST_IN_HEAD);
        out.words("\n");
    }
}

/// The lanes, with the threads' names above them.
fn put_lanes(out: &mut Page, picture: &Picture, frame: Frame) {
    let last = picture.lanes.len().saturating_sub(1);
    let bottom = frame.row(picture.rows.len()).saturating_sub(ROW / 2);
    for (thread, lane) in picture.lanes.iter().enumerate() {
        let most = if thread == last {
            MOST_CHARACTERS
        } else {
            frame.between().saturating_sub(2)
        };
        let x = frame.lane(thread);
        out.put(
            "<line class=\"lane\" x1=\"$\" y1=\"$\" x2=\"$\" y2=\"$\"/>",
            &[x, frame.titles().saturating_add(LINE / 2), x, bottom],
        );
        let title = lane.title.as_str();
        out.text_at(
            "name",
            x.saturating_sub(BEHIND),
            frame.titles(),
            title,
            most,
        );
        out.words("\n");
    }
}

fn put_arrows(out: &mut Page, picture: &Picture, frame: Frame) {
    for arrow in &picture.arrows {
        put_arrow(out, arrow, frame);
    }
}

/// The beginning of a path of this kind.
fn put_path(out: &mut Page, tie: Tie) {
    out.words("<path class=\"arrow ");
    out.words(tie.name());
    out.words("\" marker-end=\"url(#");
    out.words(tie.name());
    out.words(")\" d=\"");
}

/// An arrow: a line from one lane to another, or a bow beside a lane.
fn put_arrow(out: &mut Page, arrow: &Arrow, frame: Frame) {
    let (x, y) = (frame.x(arrow.from), frame.y(arrow.from));
    let (to_x, to_y) = (frame.x(arrow.to), frame.y(arrow.to));
    put_path(out, arrow.tie);
    if x < to_x {
        out.put("M$ $L$ $", &[x, y, to_x.saturating_sub(7), to_y]);
    } else if x > to_x {
        out.put("M$ $L$ $", &[x, y, to_x.saturating_add(7), to_y]);
    } else {
        let bow = x.saturating_sub(BOW);
        let end = x.saturating_sub(6);
        out.put("M$ $C$ $ $ $ $ $", &[x, y, bow, y, bow, to_y, end, to_y]);
    }
    out.words("\"/>\n");
}

/// What is around the mark of each row.
fn pieces_of(alloc: Global, picture: &Picture, frame: Frame) -> Result<Vec<Piece>, AllocError> {
    let mut pieces = Vec::new(alloc);
    for (place, row) in picture.rows.iter().enumerate() {
        pieces.push(piece_of(alloc, frame, place, row)?)?;
    }
    Ok(pieces)
}

/// A group with what is drawn of the row.
fn piece_of(alloc: Global, frame: Frame, place: usize, row: &Row) -> Result<Piece, AllocError> {
    let mut piece = Piece::new(alloc);
    piece.before.words("<g class=\"row\" ");
    piece.after.words(">");
    put_row(&mut piece.after, row, place, frame);
    piece.after.words("</g>\n");
    piece.finish()
}

fn put_row(out: &mut Page, row: &Row, place: usize, frame: Frame) {
    let y = frame.row(place);
    match row {
        Row::Told(told) => {
            put_told(out, told, y, frame);
            if let Mark::Waits = told.mark {
                put_wait(out, usize::from(told.thread), y, frame);
            }
        }
        Row::Came(told) => put_came(out, told, y, frame),
        Row::Folded(count) => put_folded(out, *count, y, frame),
    }
}

/// An event: its number, its dot, what is handed over and what is told of it.
fn put_told(out: &mut Page, told: &Shown, y: usize, frame: Frame) {
    let x = frame.lane(usize::from(told.thread));
    let below = y.saturating_add(LINE - 1);
    if !matches!(told.mark, Mark::Plain) {
        put_band(out, y, frame);
    }
    out.put(
        "<text class=\"soft\" x=\"$\" y=\"$\" text-anchor=\"end\">$</text>",
        &[
            frame.lane(0).saturating_sub(NUMBER),
            y.saturating_add(4),
            told.event,
        ],
    );
    out.words(if let Mark::Plain = told.mark {
        "<circle class=\"dot\""
    } else {
        "<circle class=\"bad\""
    });
    out.put(" cx=\"$\" cy=\"$\" r=\"5\"/>", &[x, y]);
    let class = class_of(told.mark);
    let start = x.saturating_add(BEHIND);
    out.text_at(
        class,
        start,
        y.saturating_add(4),
        told.words.as_str(),
        MOST_CHARACTERS,
    );
    if !told.note.is_empty() {
        out.text_at("soft", start, below, told.note.as_str(), MOST_CHARACTERS);
    }
    put_choice(out, told, y, frame);
}

/// The class of the text of a row that is marked so.
fn class_of(mark: Mark) -> &'static str {
    match mark {
        Mark::Plain => "",
        Mark::Waits | Mark::Raced | Mark::Failed => "bad",
    }
}

/// A band across the picture behind a row that is marked.
fn put_band(out: &mut Page, y: usize, frame: Frame) {
    out.put(
        "<rect class=\"band\" x=\"0\" y=\"$\" width=\"$\" height=\"$\"/>",
        &[y.saturating_sub(ROW / 2 - 3), frame.width, ROW],
    );
}

fn put_choice(out: &mut Page, told: &Shown, y: usize, frame: Frame) {
    if !told.choice.is_empty() {
        let x = frame.width.saturating_sub(BORDER);
        out.text_before(x, y.saturating_add(4), told.choice.as_str(), MOST_OF_CHOICE);
    }
}

/// What came of an event.
fn put_came(out: &mut Page, told: &Shown, y: usize, frame: Frame) {
    let x = frame.lane(usize::from(told.thread));
    let start = x.saturating_add(BEHIND);
    if !told.words.is_empty() {
        out.put(
            "<circle class=\"came\" cx=\"$\" cy=\"$\" r=\"4\"/>",
            &[x, y],
        );
        out.text_at(
            "soft",
            start,
            y.saturating_add(4),
            told.words.as_str(),
            MOST_CHARACTERS,
        );
    }
    put_choice(out, told, y, frame);
}

fn put_folded(out: &mut Page, count: usize, y: usize, frame: Frame) {
    out.put(
        "<rect class=\"fold\" x=\"$\" y=\"$\" width=\"$\" height=\"24\" rx=\"4\"/>",
        &[
            BORDER,
            y.saturating_sub(12),
            frame.width.saturating_sub(BORDER * 2),
        ],
    );
    out.put(
        "<text class=\"soft\" x=\"$\" y=\"$\">events not drawn: $</text>",
        &[
            frame.lane(0).saturating_add(BEHIND),
            y.saturating_add(4),
            count,
        ],
    );
}

/// How long a thread waits that a deadlock left: from its row to the line that says for what.
fn put_wait(out: &mut Page, thread: usize, y: usize, frame: Frame) {
    let x = frame.lane(thread);
    out.put(
        "<line class=\"wait\" x1=\"$\" y1=\"$\" x2=\"$\" y2=\"$\"/>",
        &[x, y.saturating_add(6), x, frame.left(thread)],
    );
}

/// Where a deadlock left the threads, a line for each.
fn put_lefts(out: &mut Page, picture: &Picture, frame: Frame) {
    if has_lefts(picture) {
        for (thread, lane) in picture.lanes.iter().enumerate() {
            put_left(out, lane, thread, frame);
        }
    }
}

fn put_left(out: &mut Page, lane: &Lane, thread: usize, frame: Frame) {
    let x = frame.lane(thread);
    let y = frame.left(thread);
    out.words(if lane.waits {
        "<circle class=\"bad\""
    } else {
        "<circle class=\"came\""
    });
    out.put(" cx=\"$\" cy=\"$\" r=\"4\"/>", &[x, y]);
    let class = if lane.waits { "left bad" } else { "left soft" };
    out.text_at(
        class,
        x.saturating_add(BEHIND),
        y.saturating_add(4),
        lane.left.as_str(),
        MOST_IN_HEAD,
    );
    out.words("\n");
}

/// What the arrows say that there are.
fn put_legend(out: &mut Page, picture: &Picture, frame: Frame) {
    let mut x = BORDER;
    for tie in &TIES {
        if picture.arrows.iter().any(|arrow| arrow.tie == *tie) {
            put_path(out, *tie);
            out.put("M$ $h24\"/>", &[x, frame.legend]);
            let name = tie.name();
            out.text_at(
                "soft",
                x.saturating_add(30),
                frame.legend.saturating_add(4),
                name,
                MOST_CHARACTERS,
            );
            out.words("\n");
            x = x
                .saturating_add(54)
                .saturating_add(width_of_text(name.len()));
        }
    }
}
