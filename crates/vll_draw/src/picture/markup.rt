//! Pieces of markup. Each is appended to a text; after an error a prefix of it may have been appended.
use crate::picture::column::Column;
use std::alloc::AllocError;
use vll_replay::push_answer;

/// The width of the lanes' names, and the width of a column.
pub(crate) const LABELS: usize = 112;

pub(crate) const STEP: usize = 24;

/// The number of columns side by side.
pub(crate) const BAND: usize = 36;

/// The width of a band.
pub(crate) const WIDTH: usize = 980;

/// Returns the left edge of a column.
pub(crate) fn left_of(column: usize) -> usize {
    column.saturating_mul(STEP).saturating_add(LABELS)
}

/// Appends a text from outside, cut off after `most` characters. None of it becomes markup, and characters that could
/// change how the text around it is read become dots.
pub(crate) fn push_escaped(page: &mut String, text: &str, most: usize) -> Result<(), AllocError> {
    for (index, c) in text.chars().enumerate() {
        if index >= most {
            return page.push_str("…");
        }
        push_char(page, c)?;
    }
    Ok(())
}

fn push_char(page: &mut String, c: char) -> Result<(), AllocError> {
    match c {
        '&' => page.push_str("&amp;"),
        '<' => page.push_str("&lt;"),
        '>' => page.push_str("&gt;"),
        '"' => page.push_str("&quot;"),
        '\'' => page.push_str("&#39;"),
        _ if is_shown(c) => page.push(c),
        _ => page.push_str("·"),
    }
}

// Whether a character is shown as it is: it is not a control character, does not set a direction, and is not a
// noncharacter.
fn is_shown(c: char) -> bool {
    !matches!(
        c,
        '\u{0}'..='\u{1f}' | '\u{7f}'..='\u{9f}' | '\u{61c}' | '\u{200b}'..='\u{200f}' | '\u{2028}'..='\u{202e}'
            | '\u{2060}'..='\u{206f}' | '\u{feff}' | '\u{fff0}'..='\u{ffff}'
    )
}

/// Appends the opening of an event's mark: a link to its line, with that line as its title.
pub(crate) fn open_mark(
    page: &mut String,
    number: usize,
    column: &Column,
) -> Result<(), AllocError> {
    write!(page, "<a href=\"#l{number}\"><title>{number} ")?;
    push_answer(page, &column.answer)?;
    page.push_str("</title>")
}

pub(crate) fn close_mark(page: &mut String) -> Result<(), AllocError> {
    page.push_str("</a>\n")
}

/// A place in a band, and its size.
#[derive(Clone, Copy)]
pub(crate) struct Area {
    pub(crate) left: usize,
    pub(crate) top: usize,
    pub(crate) width: usize,
    pub(crate) height: usize,
}

/// Appends a rectangle.
pub(crate) fn push_area(page: &mut String, class: &str, area: Area) -> Result<(), AllocError> {
    let Area {
        left,
        top,
        width,
        height,
    } = area;
    write!(page, "<rect class=\"{class}\" x=\"{left}\" y=\"{top}\"")?;
    write!(page, " width=\"{width}\" height=\"{height}\"/>")
}

/// Appends words that begin at a place, are centred on it or end at it, as the class says.
pub(crate) fn push_words(
    page: &mut String,
    class: &str,
    left: usize,
    base: usize,
    words: &str,
) -> Result<(), AllocError> {
    write!(page, "<text class=\"{class}\" x=\"{left}\" y=\"{base}\">")?;
    push_escaped(page, words, MOST_SHOWN)?;
    page.push_str("</text>")
}

/// The greatest number of characters of words that are shown.
pub(crate) const MOST_SHOWN: usize = 40;

/// Appends words that run upwards from a place.
pub(crate) fn push_upright(
    page: &mut String,
    class: &str,
    left: usize,
    base: usize,
    words: &str,
) -> Result<(), AllocError> {
    write!(
        page,
        "<text class=\"{class}\" transform=\"translate({left} {base}) rotate(-90)\">"
    )?;
    push_escaped(page, words, MOST_SHOWN)?;
    page.push_str("</text>")
}
