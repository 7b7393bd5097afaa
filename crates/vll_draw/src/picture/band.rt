//! A band: some columns side by side, with the lanes that have a part in them.
use crate::picture::column::Column;
use crate::picture::drawing::{Drawing, Standing};
use crate::picture::markup::{
    Area, BAND, STEP, WIDTH, close_mark, left_of, open_mark, push_area, push_upright, push_words,
};
use crate::picture::records::push_record;
use crate::picture::tickets::push_ticket;
use crate::picture::{lanes, style};
use std::alloc::{AllocError, Global};
use vll_core::{Event, Seen, Ticket};
use vll_replay::refusal_words;

/// Some columns side by side, and the index of the first of them.
#[derive(Clone, Copy)]
pub(crate) struct Band<'a> {
    pub(crate) start: usize,
    pub(crate) columns: &'a [Column],
}

impl Band<'_> {
    /// Returns the number of columns.
    pub(crate) fn len(&self) -> usize {
        self.columns.len()
    }
}

/// Appends a band, drawn from the state before it and its events.
pub(crate) fn push_band(
    page: &mut String,
    drawing: &Drawing<'_>,
    standing: &Standing,
    band: Band<'_>,
) -> Result<(), AllocError> {
    let alloc = drawing.alloc;
    let mut body = String::new(alloc);
    let mut top = push_events(&mut body, drawing, band)?;
    top = push_told(&mut body, drawing, band, top, Told::Refused)?;
    top = push_told(&mut body, drawing, band, top, Told::Found)?;
    let tickets = lanes::tickets(alloc, standing, band.columns)?;
    for ticket in &tickets.shown {
        top = push_ticket(&mut body, drawing, standing, band, *ticket, top)?;
    }
    let records = lanes::records(alloc, standing, band.columns)?;
    for record in &records.shown {
        top = push_record(&mut body, drawing, standing, band, *record, top)?;
    }
    push_caption(page, drawing, band, tickets.left_out, records.left_out)?;
    write!(
        page,
        "<svg xmlns=\"http://www.w3.org/2000/svg\" width=\"{WIDTH}\" height=\"{top}\""
    )?;
    write!(page, " viewBox=\"0 0 {WIDTH} {top}\">\n")?;
    if band.start == 0 {
        page.push_str(style::DRAWING)?;
    }
    push_ground(page, band, top)?;
    page.push_str(body.as_str())?;
    page.push_str("</svg>\n</figure>\n")
}

// Appends which events the band shows, and how many calls and records have no lane in it.
fn push_caption(
    page: &mut String,
    drawing: &Drawing<'_>,
    band: Band<'_>,
    tickets: usize,
    records: usize,
) -> Result<(), AllocError> {
    let first = drawing.number(band.start);
    let last = drawing.number(band.start.saturating_add(band.len()).saturating_sub(1));
    write!(page, "<figure>\n<figcaption>Events {first} to {last}.")?;
    if tickets > 0 {
        write!(
            page,
            " {tickets} more running or waiting calls have no event here and are not drawn."
        )?;
    }
    if records > 0 {
        write!(
            page,
            " {records} more records with open claims have no event here and are not drawn."
        )?;
    }
    page.push_str("</figcaption>\n")
}

// Appends the background, with a line before each column.
fn push_ground(page: &mut String, band: Band<'_>, height: usize) -> Result<(), AllocError> {
    let all = Area {
        left: 0,
        top: 0,
        width: WIDTH,
        height,
    };
    push_area(page, "paper", all)?;
    page.push_str("<path class=\"grid\" d=\"")?;
    for column in 0..band.len().min(BAND) + 1 {
        let left = left_of(column);
        write!(page, "M{left} 0V{height}")?;
    }
    page.push_str("\"/>\n")
}

// Appends the number and the words of each event, and returns their height.
fn push_events(
    body: &mut String,
    drawing: &Drawing<'_>,
    band: Band<'_>,
) -> Result<usize, AllocError> {
    let alloc = drawing.alloc;
    let mut longest: usize = 0;
    for column in band.columns {
        longest = words_of(alloc, column.event)?.len().max(longest);
    }
    let height = upright_height(longest).saturating_add(16);
    for (index, column) in band.columns.iter().enumerate() {
        let cell = Area {
            left: left_of(index),
            top: 0,
            width: STEP,
            height,
        };
        let at = band.start.saturating_add(index);
        open_mark(body, drawing.number(at), column)?;
        push_event_number(body, cell.left, index, drawing.number(at))?;
        push_cell_words(body, "word", cell, words_of(alloc, column.event)?.as_str())?;
        close_mark(body)?;
    }
    Ok(height)
}

// Appends the number of an event. Every other long number is left out.
fn push_event_number(
    body: &mut String,
    left: usize,
    index: usize,
    number: usize,
) -> Result<(), AllocError> {
    if number >= 10000 && index % 2 == 1 {
        return Ok(());
    }
    let middle = left.saturating_add(STEP / 2);
    write!(
        body,
        "<text class=\"number\" x=\"{middle}\" y=\"11\">{number}</text>"
    )
}

// An event in words.
fn words_of(alloc: Global, event: Event) -> Result<String, AllocError> {
    match event {
        Event::Find(client) => format!(in alloc; "find {client}"),
        Event::Enter(client) => format!(in alloc; "enter {client}"),
        Event::Claim => String::from_str(alloc, "claim"),
        Event::Admit => String::from_str(alloc, "admit"),
        Event::Front => String::from_str(alloc, "front"),
        Event::Scan => String::from_str(alloc, "scan"),
        Event::Load(ticket) => worded(alloc, "load", ticket),
        Event::Store(ticket) => worded(alloc, "store", ticket),
        Event::Release(ticket) => worded(alloc, "release", ticket),
        Event::Finish(ticket) => worded(alloc, "finish", ticket),
    }
}

fn worded(alloc: Global, word: &str, ticket: Ticket) -> Result<String, AllocError> {
    let number = ticket.0;
    format!(in alloc; "{word} {number}")
}

// The room that `letters` letters take if they run upwards.
fn upright_height(letters: usize) -> usize {
    letters.saturating_mul(6).saturating_add(8)
}

// What is shown of an event in a lane of its own.
#[derive(Clone, Copy)]
enum Told {
    // Why it was refused.
    Refused,
    // The value that it has found.
    Found,
}

impl Told {
    fn name(self) -> &'static str {
        match self {
            Told::Refused => "refused",
            Told::Found => "found",
        }
    }

    // The words, if there are any.
    fn words(self, alloc: Global, column: &Column) -> Result<Option<String>, AllocError> {
        match (self, &column.answer) {
            (Told::Refused, Err(why)) => {
                let words = String::from_str(alloc, refusal_words(*why))?;
                Ok(Some(words))
            }
            (Told::Found, Ok(Seen::Found(value))) => {
                let words = format!(in alloc; "{value}")?;
                Ok(Some(words))
            }
            _ => Ok(None),
        }
    }
}

// Appends the lane of the events for which this is shown, if there are any, and returns where the next lane begins.
fn push_told(
    body: &mut String,
    drawing: &Drawing<'_>,
    band: Band<'_>,
    top: usize,
    told: Told,
) -> Result<usize, AllocError> {
    let Some(letters) = longest_told(drawing.alloc, band, told)? else {
        return Ok(top);
    };
    let height = upright_height(letters);
    push_words(body, "name", 4, top.saturating_add(14), told.name())?;
    for (index, column) in band.columns.iter().enumerate() {
        if let Some(words) = told.words(drawing.alloc, column)? {
            let cell = Area {
                left: left_of(index),
                top,
                width: STEP,
                height,
            };
            open_mark(
                body,
                drawing.number(band.start.saturating_add(index)),
                column,
            )?;
            push_cell_words(body, told.name(), cell, words.as_str())?;
            close_mark(body)?;
        }
    }
    Ok(top.saturating_add(height))
}

// The number of letters in the longest of these words, if there are any.
fn longest_told(alloc: Global, band: Band<'_>, told: Told) -> Result<Option<usize>, AllocError> {
    let mut longest: Option<usize> = None;
    for column in band.columns {
        if let Some(words) = told.words(alloc, column)? {
            longest = Some(longest.unwrap_or(0).max(words.len()));
        }
    }
    Ok(longest)
}

// Appends a cell, and words that run upwards in it.
fn push_cell_words(
    body: &mut String,
    class: &str,
    cell: Area,
    words: &str,
) -> Result<(), AllocError> {
    let base = cell.top.saturating_add(cell.height).saturating_sub(4);
    push_area(body, "cell", cell)?;
    push_upright(body, class, cell.left.saturating_add(16), base, words)
}
