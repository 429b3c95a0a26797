//! Where the parts of a picture are, in pixels.
use crate::picture::{Picture, Row, Shown, Spot};

/// How wide ten characters of a text are.
const TEN_CHARACTERS: usize = 73;

/// How many characters of a row are drawn.
pub(crate) const MOST_CHARACTERS: usize = 60;

/// How many characters of a choice are drawn.
pub(crate) const MOST_OF_CHOICE: usize = 24;

/// How wide a picture is at least: as its head may be.
const LEAST_WIDTH: usize = 780;

/// How high a line of the head is.
pub(crate) const LINE: usize = 18;

/// How high a row is.
pub(crate) const ROW: usize = 34;

/// How high a line below the rows is, which says where a thread was left.
const LEFT: usize = 24;

/// Where the first lane is; the events' numbers are before it.
const FIRST_LANE: usize = 76;

/// Where a row's text begins, behind its lane.
pub(crate) const BEHIND: usize = 16;

/// The space at the borders.
pub(crate) const BORDER: usize = 20;

/// Where the parts of a picture are.
#[derive(Clone, Copy)]
pub(crate) struct Frame {
    pub(crate) width: usize,
    /// From a lane to the next one.
    gap: usize,
    /// The middle of the first row.
    first: usize,
    /// The middle of the line below the rows of the first thread.
    left: usize,
    /// The middle of the legend.
    pub(crate) legend: usize,
}

impl Frame {
    /// The frame of a picture whose head has so many lines.
    pub(crate) fn new(picture: &Picture, head: usize) -> Frame {
        let gap = gap_of(picture.lanes.len());
        let first = LINE
            .saturating_mul(head)
            .saturating_add(BORDER + LINE * 2 + ROW);
        let rows = ROW.saturating_mul(picture.rows.len());
        let left = first.saturating_add(rows);
        let lefts = if has_lefts(picture) {
            LEFT.saturating_mul(picture.lanes.len())
        } else {
            0
        };
        Frame {
            width: width_of(picture, gap),
            gap,
            first,
            left,
            legend: left.saturating_add(lefts).saturating_add(LEFT),
        }
    }

    pub(crate) fn height(&self) -> usize {
        self.legend.saturating_add(BORDER)
    }

    /// Where a thread's lane is.
    pub(crate) fn lane(&self, thread: usize) -> usize {
        lane_at(self.gap, thread)
    }

    /// The middle of a row.
    pub(crate) fn row(&self, row: usize) -> usize {
        self.first.saturating_add(ROW.saturating_mul(row))
    }

    /// The middle of the titles of the lanes.
    pub(crate) fn titles(&self) -> usize {
        self.first.saturating_sub(ROW)
    }

    /// The middle of the line that says where the thread was left.
    pub(crate) fn left(&self, thread: usize) -> usize {
        self.left.saturating_add(LEFT.saturating_mul(thread))
    }

    /// How many characters fit between two lanes.
    pub(crate) fn between(&self) -> usize {
        self.gap.saturating_mul(10) / TEN_CHARACTERS
    }

    pub(crate) fn x(&self, spot: Spot) -> usize {
        self.lane(spot.thread)
    }

    pub(crate) fn y(&self, spot: Spot) -> usize {
        self.row(spot.row)
    }
}

/// Whether the picture says where its threads were left.
pub(crate) fn has_lefts(picture: &Picture) -> bool {
    picture.lanes.iter().any(|lane| !lane.left.is_empty())
}

fn lane_at(gap: usize, thread: usize) -> usize {
    FIRST_LANE.saturating_add(gap.saturating_mul(thread))
}

/// How far a lane is from the next one where there are so many.
fn gap_of(lanes: usize) -> usize {
    match lanes {
        0..=2 => 300,
        3 => 220,
        4 => 180,
        _ => 150,
    }
}

fn width_of(picture: &Picture, gap: usize) -> usize {
    LEAST_WIDTH
        .max(end_of_rows(picture, gap))
        .max(end_of_lefts(picture, gap))
}

fn end_of_rows(picture: &Picture, gap: usize) -> usize {
    let mut end = 0usize;
    for row in &picture.rows {
        if let Row::Told(told) | Row::Came(told) = row {
            end = end.max(end_of(told, gap));
        }
    }
    end
}

/// Where the lines end that say where the threads were left.
fn end_of_lefts(picture: &Picture, gap: usize) -> usize {
    let mut end = 0usize;
    for (thread, lane) in picture.lanes.iter().enumerate() {
        end = end.max(
            lane_at(gap, thread)
                .saturating_add(width_of_text(lane.left.len()))
                .saturating_add(BEHIND + BORDER),
        );
    }
    end
}

/// Where a row's text and its choice end.
fn end_of(told: &Shown, gap: usize) -> usize {
    let text = told.words.len().max(told.note.len()).min(MOST_CHARACTERS);
    let choice = told.choice.len().min(MOST_OF_CHOICE);
    let characters = text.saturating_add(choice).saturating_add(3);
    lane_at(gap, usize::from(told.thread))
        .saturating_add(width_of_text(characters))
        .saturating_add(BEHIND + BORDER)
}

/// How wide so many characters are.
pub(crate) fn width_of_text(characters: usize) -> usize {
    characters.saturating_mul(TEN_CHARACTERS) / 10
}
