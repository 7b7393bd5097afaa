//! The page around the drawings.
use crate::one_by_one::Origin;
use crate::picture::style;
use std::alloc::AllocError;

/// What the page says about a replay above the drawings.
#[derive(Clone, Copy)]
pub(crate) struct Counts {
    pub(crate) calls: usize,
    pub(crate) records: usize,
    pub(crate) events: usize,
    /// The number of the first event that is drawn, and how many are drawn.
    pub(crate) first: usize,
    pub(crate) drawn: usize,
}

const LEGEND: &str = "<dl>
<dt>turn</dt><dd>the turn of a call opens, in which it claims its records</dd>
<dt>W3, R3</dt><dd>the call claims record 3 for writing, for reading: granted, or denied (with a dashed outline)</dd>
<dt>free, wait</dt><dd>it has entered, and may run or has to wait</dd>
<dt>front, scan</dt><dd>it waited, and begins to run: it is first in the queue, or the contention analysis found it</dd>
<dt>L3, S3, −3</dt><dd>it loads record 3, stores it, releases its claim on it</dd>
<dt>CX, CS</dt><dd>how many claims on the record are open for writing, and for reading</dd>
</dl>
<p>Each mark shows its event on hover, and links to the event's line below.</p>
";

// What the page says if the scenario has no schedule.
const ONE_BY_ONE: &str =
    "<p>The scenario has no schedule. Its calls are made one after the other, client by client: as many as its limit
allows, and 1048576 events at most.</p>
";

/// Appends the page up to its drawings. After `AllocError` a prefix of it may have been appended.
pub(crate) fn push_head(
    page: &mut String,
    counts: Counts,
    origin: Origin,
) -> Result<(), AllocError> {
    page.push_str("<!DOCTYPE html>\n<html lang=\"en\">\n<head>\n<meta charset=\"utf-8\"/>\n")?;
    page.push_str("<meta name=\"viewport\" content=\"width=device-width, initial-scale=1\"/>\n")?;
    page.push_str("<title>Replay: ")?;
    push_counts(page, counts)?;
    page.push_str("</title>\n")?;
    page.push_str(style::PAGE)?;
    page.push_str("</head>\n<body>\n<h1>Replay: ")?;
    push_counts(page, counts)?;
    page.push_str("</h1>\n")?;
    page.push_str(match origin {
        Origin::Scenario => "",
        Origin::OneByOne => ONE_BY_ONE,
    })?;
    push_window(page, counts)?;
    page.push_str(LEGEND)
}

fn push_counts(page: &mut String, counts: Counts) -> Result<(), AllocError> {
    push_count(page, counts.calls, "call")?;
    page.push_str(", ")?;
    push_count(page, counts.records, "record")?;
    page.push_str(", ")?;
    push_count(page, counts.events, "event")
}

fn push_count(page: &mut String, count: usize, word: &str) -> Result<(), AllocError> {
    write!(page, "{count} {word}")?;
    page.push_str(if count == 1 { "" } else { "s" })
}

// Appends which events are not drawn, if there are any.
fn push_window(page: &mut String, counts: Counts) -> Result<(), AllocError> {
    let left_out = counts.events.saturating_sub(counts.drawn);
    if left_out == 0 {
        return Ok(());
    }
    page.push_str("<p>")?;
    if counts.drawn == 0 {
        page.push_str("No event is drawn")?;
    } else {
        let first = counts.first;
        let last = first.saturating_add(counts.drawn).saturating_sub(1);
        write!(
            page,
            "Events {first} to {last} are drawn, and {left_out} others are not"
        )?;
    }
    page.push_str(
        "; <code>--from</code> and <code>--count</code> choose others. The lines of all are listed below.</p>\n",
    )
}

/// Appends what is between the drawings and the list. After `AllocError` a prefix of it may have been appended.
pub(crate) fn push_heading(page: &mut String) -> Result<(), AllocError> {
    page.push_str("<h2>Lines</h2>\n")
}
