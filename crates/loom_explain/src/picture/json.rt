//! A picture as a JSON object.
ghost use Rattle.std.specs.Prelude.{map, string_bytes, IfOk};
ghost use Rattle.loom_explain.specs.Marks.{StandIn, mark_of};

use crate::event::End;
use crate::picture::writing::{Piece, write_rows};
use crate::picture::{Arrow, Form, Lane, Mark, Picture, Row, Shown, Spot};
use crate::text::page::Page;
use crate::text::reasons::title_of;
use serde_json::{Value, json};
use std::alloc::{AllocError, Global};

/// The picture as a JSON object. Its member `rows` has each row, and `run` the rest: `failure`, `why`, `choices`, `threads` and
/// `arrows`. An error where memory is refused.
pub(crate) fn json_of(alloc: Global, picture: &Picture) -> Result<String, AllocError>
    ensures { IfOk result (λ text. StandIn (map (mark_of Form.Json) picture.now.rows.items) (string_bytes text)) }
{
    let start = start_of(alloc, picture)?;
    let pieces = pieces_of(alloc, picture)?;
    write_rows(
        Form::Json,
        start,
        picture.rows.as_slice(),
        pieces.as_slice(),
        "\n]}",
    )
}

fn start_of(alloc: Global, picture: &Picture) -> Result<String, AllocError> {
    let run = run_of(alloc, picture)?.to_string(alloc)?;
    let mut out = Page::new(alloc);
    out.words("{\"run\":");
    out.words(run.as_str());
    out.words(",\n\"rows\":[");
    out.finish()
}

fn run_of(alloc: Global, picture: &Picture) -> Result<Value, AllocError> {
    let failure = failure_of(alloc, picture.end)?;
    let threads = threads_of(alloc, picture)?;
    let arrows = arrows_of(alloc, picture.arrows.as_slice())?;
    json!(in alloc; {
        "failure": failure,
        "why": picture.head.as_str(),
        "choices": picture.choices.as_str(),
        "threads": threads,
        "arrows": arrows
    })
}

/// What the failure is called, or null where the run ended.
fn failure_of(alloc: Global, end: End) -> Result<Value, AllocError> {
    match end {
        End::Ended => Ok(Value::Null),
        End::Failed(failure) => Value::try_from_str(alloc, title_of(failure.kind)),
    }
}

fn threads_of(alloc: Global, picture: &Picture) -> Result<Value, AllocError> {
    let mut threads = Vec::new(alloc);
    for lane in &picture.lanes {
        threads.push(thread_of(alloc, lane)?)?;
    }
    Ok(Value::Array(threads))
}

fn thread_of(alloc: Global, lane: &Lane) -> Result<Value, AllocError> {
    json!(in alloc; {
        "title": lane.title.as_str(),
        "left": lane.left.as_str(),
        "waits": lane.waits
    })
}

fn arrows_of(alloc: Global, arrows: &[Arrow]) -> Result<Value, AllocError> {
    let mut values = Vec::new(alloc);
    for arrow in arrows {
        values.push(arrow_of(alloc, arrow)?)?;
    }
    Ok(Value::Array(values))
}

fn arrow_of(alloc: Global, arrow: &Arrow) -> Result<Value, AllocError> {
    let from = spot_of(alloc, arrow.from)?;
    let to = spot_of(alloc, arrow.to)?;
    json!(in alloc; { "tie": arrow.tie.name(), "from": from, "to": to })
}

/// A row's number, from 0, and its thread.
fn spot_of(alloc: Global, spot: Spot) -> Result<Value, AllocError> {
    json!(in alloc; { "row": spot.row, "thread": spot.thread })
}

/// What is around the mark of each row.
fn pieces_of(alloc: Global, picture: &Picture) -> Result<Vec<Piece>, AllocError> {
    let mut pieces = Vec::new(alloc);
    for (place, row) in picture.rows.iter().enumerate() {
        pieces.push(piece_of(alloc, place, row)?)?;
    }
    Ok(pieces)
}

/// A row: an event has the members `event` and `thread`, what came of one `of` and `thread`, and a fold `folded`.
fn piece_of(alloc: Global, place: usize, row: &Row) -> Result<Piece, AllocError> {
    let mut piece = Piece::new(alloc);
    piece.before.words(if place == 0 { "\n{" } else { ",\n{" });
    match row {
        Row::Told(told) => put_shown(alloc, &mut piece.after, told)?,
        Row::Came(told) => {
            let numbers = [told.event, usize::from(told.thread)];
            piece.before.put("\"of\":$,\"thread\":$", &numbers);
            put_shown(alloc, &mut piece.after, told)?;
        }
        Row::Folded(_) => {}
    }
    piece.after.words("}");
    piece.finish()
}

fn put_shown(alloc: Global, out: &mut Page, told: &Shown) -> Result<(), AllocError> {
    let shown = json!(in alloc; {
        "words": told.words.as_str(),
        "note": told.note.as_str(),
        "choice": told.choice.as_str(),
        "mark": mark_name(told.mark)
    })?;
    let shown = shown.to_string(alloc)?;
    out.words(",\"shown\":");
    out.words(shown.as_str());
    Ok(())
}

fn mark_name(mark: Mark) -> &'static str {
    match mark {
        Mark::Plain => "",
        Mark::Waits => "waits",
        Mark::Raced => "raced",
        Mark::Failed => "failed",
    }
}
