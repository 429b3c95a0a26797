//! A picture as a sequence diagram of Mermaid.
ghost use Rattle.std.specs.Prelude.{map, string_bytes, IfOk};
ghost use Rattle.loom_explain.specs.Marks.{StandIn, mark_of};

use crate::picture::writing::{Piece, write_rows};
use crate::picture::{Arrow, Form, Lane, Mark, Picture, Row, Shown};
use crate::text::page::Page;
use std::alloc::{AllocError, Global};

/// The picture as a sequence diagram: a note for each row, and a message for each arrow. An error where memory is refused.
pub(crate) fn mermaid_of(alloc: Global, picture: &Picture) -> Result<String, AllocError>
    ensures { IfOk result (λ text. StandIn (map (mark_of Form.Mermaid) picture.now.rows.items) (string_bytes text)) }
{
    let start = start_of(alloc, picture)?;
    let pieces = pieces_of(alloc, picture)?;
    let end = end_of(alloc, picture)?;
    write_rows(
        Form::Mermaid,
        start,
        picture.rows.as_slice(),
        pieces.as_slice(),
        end.as_str(),
    )
}

fn start_of(alloc: Global, picture: &Picture) -> Result<String, AllocError> {
    let mut out = Page::new(alloc);
    out.words("sequenceDiagram\n");
    put_participants(&mut out, picture);
    put_over_all(&mut out, picture);
    out.words(": ");
    put_lines(&mut out, picture.head.as_str());
    out.finish()
}

fn end_of(alloc: Global, picture: &Picture) -> Result<String, AllocError> {
    let mut out = Page::new(alloc);
    put_lefts(&mut out, picture);
    out.finish()
}

/// What is around the mark of each row.
fn pieces_of(alloc: Global, picture: &Picture) -> Result<Vec<Piece>, AllocError> {
    let mut pieces = Vec::new(alloc);
    for (place, row) in picture.rows.iter().enumerate() {
        pieces.push(piece_of(alloc, picture, place, row)?)?;
    }
    Ok(pieces)
}

fn piece_of(
    alloc: Global,
    picture: &Picture,
    place: usize,
    row: &Row,
) -> Result<Piece, AllocError> {
    let mut piece = Piece::new(alloc);
    put_arrows(&mut piece.before, picture, place);
    put_row(&mut piece, picture, row);
    piece.finish()
}

fn put_participants(out: &mut Page, picture: &Picture) {
    for (thread, lane) in picture.lanes.iter().enumerate() {
        out.number("  participant t", thread);
        out.words(" as ");
        out.mermaid(lane.title.as_str());
        out.words("\n");
    }
}

/// The beginning of a note over all threads.
fn put_over_all(out: &mut Page, picture: &Picture) {
    out.words("  Note over t0");
    match picture.lanes.len() {
        0 | 1 => {}
        lanes => out.number(",t", lanes.saturating_sub(1)),
    }
}

/// Lines of a note, and its end.
fn put_lines(out: &mut Page, text: &str) {
    for (place, line) in text.lines().enumerate() {
        if place > 0 {
            out.words("<br/>");
        }
        out.mermaid(line.trim_start());
    }
    out.words("\n");
}

/// The arrows that end in this row.
fn put_arrows(out: &mut Page, picture: &Picture, row: usize) {
    for arrow in &picture.arrows {
        if arrow.to.row == row {
            put_arrow(out, arrow);
        }
    }
}

fn put_arrow(out: &mut Page, arrow: &Arrow) {
    out.put("  t$->>t$: ", &[arrow.from.thread, arrow.to.thread]);
    out.words(arrow.tie.name());
    out.words("\n");
}

/// A row: an event is on red where it is marked.
fn put_row(piece: &mut Piece, picture: &Picture, row: &Row) {
    match row {
        Row::Told(told) if matches!(told.mark, Mark::Plain) => {
            piece.before.words("  ");
            put_words(&mut piece.after, told);
        }
        Row::Told(told) => {
            piece.before.words("  rect rgba(255, 0, 0, 0.2)\n  ");
            put_words(&mut piece.after, told);
            piece.after.words("  end\n");
        }
        Row::Came(told) if told.words.is_empty() => {}
        Row::Came(told) => {
            let thread = usize::from(told.thread);
            piece.before.between("  Note over t", thread, ": ");
            put_words(&mut piece.after, told);
        }
        Row::Folded(_) => {
            put_over_all(&mut piece.before, picture);
            piece.after.words("\n");
        }
    }
}

/// What a row tells, and the line's end.
fn put_words(out: &mut Page, told: &Shown) {
    out.mermaid(told.words.as_str());
    if !told.note.is_empty() {
        out.words("<br/>");
        out.mermaid(told.note.as_str());
    }
    out.words("\n");
}

/// Where a deadlock left the threads.
fn put_lefts(out: &mut Page, picture: &Picture) {
    for (thread, lane) in picture.lanes.iter().enumerate() {
        put_left(out, lane, thread);
    }
}

fn put_left(out: &mut Page, lane: &Lane, thread: usize) {
    if !lane.left.is_empty() {
        out.between("  Note over t", thread, ": ");
        out.mermaid(lane.left.as_str());
        out.words("\n");
    }
}
