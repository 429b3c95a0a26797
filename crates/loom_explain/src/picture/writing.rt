//! Writes the rows of a picture: each with its mark, and with the pieces of text around that.
ghost use Rattle.std.specs.Prelude.{◌≡◌, ◌++◌, map, string_bytes, IfOk, OnOk};
ghost use Rattle.loom_explain.specs.Marks.{StandIn, folded_mark, mark_of, told_mark};
ghost use Rattle.loom_explain.specs.Rows.{GoesOnWith};

use crate::picture::{Form, Row};
use crate::text::page::Page;
use std::alloc::{AllocError, Global};

/// What is before the mark of a row, and behind it.
#[derive(Drop)]
pub(crate) struct Piece {
    pub(crate) before: Page,
    pub(crate) after: Page,
}

impl Piece {
    pub(crate) fn new(alloc: Global) -> Piece {
        Piece {
            before: Page::new(alloc),
            after: Page::new(alloc),
        }
    }

    /// The piece; an error where memory was refused for something of it.
    pub(crate) fn finish(self) -> Result<Piece, AllocError> {
        if self.before.is_refused || self.after.is_refused {
            Err(AllocError)
        } else {
            Ok(self)
        }
    }
}

/// The text before all rows, the rows with these pieces, and the text behind them.
pub(crate) fn write_rows(
    form: Form,
    start: String,
    rows: &[Row],
    pieces: &[Piece],
    end: &str,
) -> Result<String, AllocError>
    ensures { IfOk result (λ text. StandIn (map (mark_of form) rows.now) (string_bytes text)) }
{
    let mut out = start;
    for place in 0..rows.len() {
        put_row(form, &rows[place], pieces.get(place), &mut out)?;
    }
    out.push_str(end)?;
    Ok(out)
}

/// A row, with its piece.
fn put_row(form: Form, row: &Row, piece: Option<&Piece>, out: &mut String) -> Result<(), AllocError>
    ensures { OnOk result (GoesOnWith (mark_of form row.now) (string_bytes out.old) (string_bytes out.new)) }
{
    match piece {
        Some(piece) => put_between(form, row, piece.before.as_str(), piece.after.as_str(), out),
        None => put_between(form, row, "", "", out),
    }
}

fn put_between(
    form: Form,
    row: &Row,
    before: &str,
    after: &str,
    out: &mut String,
) -> Result<(), AllocError>
    ensures { OnOk result (string_bytes out.new ≡ string_bytes out.old ++ (before.now ++ (mark_of form row.now ++ after.now))) }
{
    out.push_str(before)?;
    put_mark(form, row, out)?;
    out.push_str(after)
}

/// The mark of a row.
fn put_mark(form: Form, row: &Row, out: &mut String) -> Result<(), AllocError>
    ensures { OnOk result (string_bytes out.new ≡ string_bytes out.old ++ mark_of form row.now) }
{
    match row {
        Row::Told(shown) => put_told(form, shown.event, shown.thread, out),
        Row::Came(_) => Ok(()),
        Row::Folded(count) => put_folded(form, *count, out),
    }
}

fn put_told(form: Form, event: usize, thread: u8, out: &mut String) -> Result<(), AllocError>
    ensures { OnOk result (string_bytes out.new ≡ string_bytes out.old ++ told_mark form event thread) }
{
    match form {
        Form::Svg => write!(out, "data-event=\"{event}\""),
        Form::Mermaid => write!(out, "Note over t{thread}: {event} "),
        Form::Json => write!(out, "\"event\":{event},\"thread\":{thread}"),
    }
}

fn put_folded(form: Form, count: usize, out: &mut String) -> Result<(), AllocError>
    ensures { OnOk result (string_bytes out.new ≡ string_bytes out.old ++ folded_mark form count) }
{
    match form {
        Form::Svg => write!(out, "data-folded=\"{count}\""),
        Form::Mermaid => write!(out, ": events not drawn: {count}"),
        Form::Json => write!(out, "\"folded\":{count}"),
    }
}
