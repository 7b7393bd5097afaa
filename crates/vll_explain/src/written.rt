//! Numbers as a text has them. A JSON tree has only their values.
ghost use Rattle.std.specs.Prelude.{◌<◌, length, OnOk};

use crate::inner::Inner;
use json::{Invalid, MAX_DEPTH, Reader, Scratch, Token};
use std::alloc::{AllocError, Global};
use std::str;
use vll_scenario::Shortened;

// The number at the end of a way into a JSON text, as it is written there, and cut if it is long; `None` if no number
// is there.
pub(crate) fn written_number(
    alloc: Global,
    bytes: &[u8],
    way: &[Inner],
) -> Result<Option<String>, AllocError> {
    let Ok(text) = str::from_utf8(bytes) else {
        return Ok(None);
    };
    let mut scratch = Scratch::new(alloc);
    let mut reader = Reader::new(text, &mut scratch)?;
    let Ok(Some(number)) = number_at(&mut reader, MAX_DEPTH, way) else {
        return Ok(None);
    };
    let Shortened { beginning, dots } = Shortened::new(number);
    let shown = format!(in alloc; "{beginning}{dots}")?;
    Ok(Some(shown))
}

// The number at the end of a way into the next value of a reader, which then stands behind that value. It may nest this
// deep.
#[cycle(number_at)]
fn number_at<'a>(
    reader: &mut Reader<'a>,
    depth: usize,
    way: &[Inner],
) -> Result<Option<&'a str>, Invalid>
    ensures shorter { OnOk result (length reader.new < length reader.old) }
{
    match reader.next() {
        Some(Token::Number(text)) if way.is_empty() => Ok(Some(text)),
        Some(Token::Number(_) | Token::String(_) | Token::Bool(_) | Token::Null) => Ok(None),
        Some(Token::BeginArray) if depth > 0 => number_in_list(reader, depth - 1, way),
        Some(Token::BeginObject) if depth > 0 => number_in_object(reader, depth - 1, way),
        _ => Err(Invalid),
    }
}

// The same in a list, after its bracket.
#[cycle(number_at)]
fn number_in_list<'a>(
    reader: &mut Reader<'a>,
    depth: usize,
    way: &[Inner],
) -> Result<Option<&'a str>, Invalid>
    ensures shorter { OnOk result (length reader.new < length reader.old) }
{
    let mut found = None;
    let mut index = 0usize;
    'items: while !reader.take_end_array() {
        found = number_or(reader, depth, item_way(way, index), found)?;
        index = index.checked_add(1).ok_or(Invalid)?;
    }
    Ok(found)
}

// The same in an object, after its brace. The last of several members with one name counts.
#[cycle(number_at)]
fn number_in_object<'a>(
    reader: &mut Reader<'a>,
    depth: usize,
    way: &[Inner],
) -> Result<Option<&'a str>, Invalid>
    ensures shorter { OnOk result (length reader.new < length reader.old) }
{
    let mut found = None;
    'members: while let Some(name) = reader.next_key()? {
        found = number_or(reader, depth, member_way(way, name), found)?;
    }
    Ok(found)
}

// The same if a way leads into the value, else what was found before.
#[cycle(number_at)]
fn number_or<'a>(
    reader: &mut Reader<'a>,
    depth: usize,
    way: Option<&[Inner]>,
    found: Option<&'a str>,
) -> Result<Option<&'a str>, Invalid>
    ensures shorter { OnOk result (length reader.new < length reader.old) }
{
    match way {
        Some(way) => number_at(reader, depth, way),
        None => {
            reader.skip_value(depth)?;
            Ok(found)
        }
    }
}

// The way on from the item at an index, if a way leads into that.
fn item_way(way: &[Inner], index: usize) -> Option<&[Inner]> {
    let [inner, rest @ ..] = way else {
        return None;
    };
    match *inner {
        Inner::Item(wanted) if wanted == index => Some(rest),
        _ => None,
    }
}

// The way on from the member with a name, if a way leads into that.
fn member_way<'w>(way: &'w [Inner], name: &str) -> Option<&'w [Inner]> {
    let [inner, rest @ ..] = way else {
        return None;
    };
    match *inner {
        Inner::Member(wanted) if name == wanted => Some(rest),
        _ => None,
    }
}
