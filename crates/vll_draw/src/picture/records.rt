//! The lane of a record: its value and its two counters over time.
ghost use Rattle.std.specs.Prelude.{◌≡◌};
ghost use Rattle.vll_draw.specs.Columns.{next_words};

use crate::picture::band::Band;
use crate::picture::column::{Column, RecordWords};
use crate::picture::drawing::{Drawing, Standing, id_of};
use crate::picture::markup::{
    Area, LABELS, STEP, close_mark, left_of, open_mark, push_area, push_escaped, push_words,
};
use std::alloc::{AllocError, Global};
use vll_record::RecordId;

// The height of a row, and of the lane of its three rows.
const ROW: usize = 19;

const LANE: usize = 62;

// The greatest width of a digit, and the least gap between two numbers.
const DIGIT: usize = 6;

// What a row of the lane shows.
#[derive(Clone, Copy)]
enum Row {
    Value,
    Writing,
    Reading,
}

impl Row {
    fn number(self, shown: RecordWords) -> u64 {
        match self {
            Row::Value => shown.value,
            Row::Writing => u64::from(shown.counters().cx),
            Row::Reading => u64::from(shown.counters().cs),
        }
    }

    fn class(self) -> &'static str {
        match self {
            Row::Value => "value",
            Row::Writing => "write",
            Row::Reading => "read",
        }
    }

    fn name(self) -> &'static str {
        match self {
            Row::Value => "value",
            Row::Writing => "CX",
            Row::Reading => "CS",
        }
    }

    // The height of a number's bar in the row; counters over four are as high as four.
    fn height(self, number: u64) -> usize {
        match (self, number) {
            (Row::Value, _) => ROW - 3,
            (_, 0) => 0,
            (_, 1) => 4,
            (_, 2) => 8,
            (_, 3) => 12,
            _ => ROW - 3,
        }
    }
}

/// Appends the lane of a record, and returns where the next lane begins.
pub(crate) fn push_record(
    body: &mut String,
    drawing: &Drawing<'_>,
    standing: &Standing,
    band: Band<'_>,
    record: usize,
    top: usize,
) -> Result<usize, AllocError> {
    let base = top.saturating_add(14);
    write!(
        body,
        "<text class=\"name\" x=\"4\" y=\"{base}\">record {record}</text>\n"
    )?;
    let mut next = top;
    for row in [Row::Value, Row::Writing, Row::Reading] {
        let base = next.saturating_add(14);
        push_words(body, "soft end", LABELS - 5, base, row.name())?;
        let lane = Lane {
            record,
            row,
            top: next,
        };
        let before = standing.record(id_of(record));
        push_row(body, drawing, band, before, lane)?;
        next = next.saturating_add(ROW);
    }
    Ok(top.saturating_add(LANE))
}

// A row of a record's lane.
#[derive(Clone, Copy)]
struct Lane {
    record: usize,
    row: Row,
    top: usize,
}

// Columns in which a number stays the same. If it is new, the event of the first column has made it.
#[derive(Clone, Copy)]
struct Stretch {
    since: usize,
    end: usize,
    number: u64,
    is_new: bool,
}

impl Stretch {
    // Its width.
    fn width(self) -> usize {
        self.end.saturating_sub(self.since).saturating_mul(STEP)
    }
}

// Appends a row, starting with what holds before the band.
fn push_row(
    body: &mut String,
    drawing: &Drawing<'_>,
    band: Band<'_>,
    before: RecordWords,
    lane: Lane,
) -> Result<(), AllocError> {
    let mut shown = before;
    let mut since: usize = 0;
    let mut is_new = false;
    let id = id_of(lane.record);
    for (index, column) in band.columns.iter().enumerate() {
        let after = words_after(shown, column, id);
        if lane.row.number(after) != lane.row.number(shown) {
            let stretch = Stretch {
                since,
                end: index,
                number: lane.row.number(shown),
                is_new,
            };
            push_stretch(body, drawing, band, lane, stretch)?;
            since = index;
            is_new = true;
        }
        shown = after;
    }
    let stretch = Stretch {
        since,
        end: band.len(),
        number: lane.row.number(shown),
        is_new,
    };
    push_stretch(body, drawing, band, lane, stretch)
}

// Returns the words of a record after a column, `before` which it has these.
fn words_after(before: RecordWords, column: &Column, id: RecordId) -> RecordWords
    ensures { result ≡ next_words id before column.now }
{
    match column.claim {
        Some(claim) if claim.id == id => column.words,
        _ => before,
    }
}

// Appends the columns in which a number stays the same.
fn push_stretch(
    body: &mut String,
    drawing: &Drawing<'_>,
    band: Band<'_>,
    lane: Lane,
    stretch: Stretch,
) -> Result<(), AllocError> {
    if stretch.width() == 0 {
        return Ok(());
    }
    let height = lane.row.height(stretch.number);
    let area = Area {
        left: left_of(stretch.since),
        top: lane.top.saturating_add(ROW - 1).saturating_sub(height),
        width: stretch.width(),
        height,
    };
    push_area(body, lane.row.class(), area)?;
    match band.columns.get(stretch.since) {
        Some(column) if stretch.is_new => {
            let number = drawing.number(band.start.saturating_add(stretch.since));
            open_mark(body, number, column)?;
            push_number(drawing.alloc, body, lane, stretch)?;
            push_cell(body, lane, stretch)?;
            close_mark(body)
        }
        _ => push_number(drawing.alloc, body, lane, stretch),
    }
}

// Appends the cell of the event that has made a number.
fn push_cell(body: &mut String, lane: Lane, stretch: Stretch) -> Result<(), AllocError> {
    let cell = Area {
        left: left_of(stretch.since),
        top: lane.top,
        width: STEP,
        height: ROW,
    };
    push_area(body, "cell", cell)
}

// Appends the number of a stretch, with as many digits as fit.
fn push_number(
    alloc: Global,
    body: &mut String,
    lane: Lane,
    stretch: Stretch,
) -> Result<(), AllocError> {
    let number = stretch.number;
    let height = lane.row.height(number);
    // A low bar has its number above it, and a high one inside it.
    let above = if height > 8 { 3 } else { height };
    let base = lane.top.saturating_add(ROW - 3).saturating_sub(above);
    let left = left_of(stretch.since).saturating_add(3);
    let most = (stretch.width() / DIGIT).max(2).saturating_sub(1);
    let digits = format!(in alloc; "{number}")?;
    write!(body, "<text x=\"{left}\" y=\"{base}\">")?;
    push_escaped(body, digits.as_str(), most)?;
    body.push_str("</text>")
}
