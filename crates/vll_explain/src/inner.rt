//! Where the pieces of a way stand in a JSON text: in an object by their names, in a list by their indexes.
use serde_json::Value;
use std::alloc::{AllocError, Global};
use vll_fault_path::{Kind, Step, form_with, forms_of};

// Where a value stands in the object or the list around it.
#[derive(Clone, Copy)]
pub(crate) enum Inner {
    Member(&'static str),
    Item(usize),
}

// Where each piece stands to which some steps lead, from a scenario on; `None` if there is no such piece.
pub(crate) fn inner_way(
    alloc: Global,
    tree: &Value,
    steps: &[Step],
) -> Result<Option<Vec<Inner>>, AllocError> {
    let mut way = Vec::new(alloc);
    let mut value = tree;
    // a scenario itself is an object, in which no piece stands behind a word
    let mut kind = Kind::Expression;
    for step in steps {
        let Some(inner) = inner_at(kind, value, *step) else {
            return Ok(None);
        };
        let Some(piece) = value_at(value, inner) else {
            return Ok(None);
        };
        way.push(inner)?;
        value = piece;
        kind = kind_at(*step);
    }
    Ok(Some(way))
}

fn value_at(value: &Value, inner: Inner) -> Option<&Value> {
    match inner {
        Inner::Member(name) => value.get(name),
        Inner::Item(index) => value.get(index),
    }
}

// Where the piece stands to which a step leads from this value, which is of this kind.
fn inner_at(kind: Kind, value: &Value, step: Step) -> Option<Inner> {
    Some(match step {
        Step::Version => Inner::Member("version"),
        Step::Records => Inner::Member("records"),
        Step::Procs => Inner::Member("procs"),
        Step::Clients => Inner::Member("clients"),
        Step::Cap => Inner::Member("cap"),
        Step::Bits => Inner::Member("bits"),
        Step::Limit => Inner::Member("limit"),
        Step::Hash => Inner::Member("hash"),
        Step::Schedule => Inner::Member("schedule"),
        Step::Name => Inner::Member("name"),
        Step::Args => Inner::Member("args"),
        Step::Keys => Inner::Member("keys"),
        Step::Body => Inner::Member("body"),
        Step::Proc => Inner::Member("proc"),
        Step::Item(index)
        | Step::Key(index)
        | Step::Statement(index)
        | Step::Call(index)
        | Step::Argument(index) => Inner::Item(index),
        _ => Inner::Item(index_behind_word(kind, value, step)?),
    })
}

// The index of a piece behind the word of a form.
fn index_behind_word(kind: Kind, list: &Value, step: Step) -> Option<usize> {
    // the mode of a key comes before its word
    let before = if kind == Kind::Key { 1usize } else { 0 };
    let word = list.get(before)?.as_str()?;
    let form = form_with(forms_of(kind), word)?;
    let slot = form.slots.iter().position(|slot| slot.step == step)?;
    Some(slot.saturating_add(before).saturating_add(1))
}

// What a piece is to which this step leads, if it has a form.
fn kind_at(step: Step) -> Kind {
    match step {
        Step::Item(_) => Kind::Event,
        Step::Key(_) => Kind::Key,
        Step::Statement(_) => Kind::Statement,
        _ => Kind::Expression,
    }
}
