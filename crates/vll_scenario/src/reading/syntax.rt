//! Reading procedures and their keys from JSON, and the words and indexes of forms.
ghost use Rattle.std.specs.Prelude.{◌≡◌, ◌^◌, IfOk, IfErr, Some, None};
ghost use Rattle.serde_json.specs.Find.{as_str};
ghost use Rattle.serde_json.specs.View.{view};
ghost use Rattle.vll_scenario.specs.Syntax.{both_of, index_at, key_at, key_of, mode_at, place_at, proc_at};
ghost use Rattle.vll_scenario.specs.Tree.{Gives};
ghost use Rattle.vll_scenario.specs.declared.reading.tree.Misread.TheVariants as Misread;

pub(crate) mod expression;
pub(crate) mod statement;

use crate::reading::members::{has_exactly, member};
use crate::reading::tree::{Misread, Reads, u32_of};
use serde_json::Value;
use sqlite_items::Items;
use statement::stmts_of;
use std::alloc::Global;
use vll_proc::{Edition, KeyAt, KeyDecl, Proc, Text};
use vll_record::Mode;

impl Reads for KeyDecl {
    ghost reads = { λ edition. key_at };

    fn read(_alloc: Global, _edition: Edition, value: &Value) -> Result<KeyDecl, Misread> {
        key_of(value)
    }
}

impl Reads for Proc {
    ghost reads = { proc_at };

    fn read(alloc: Global, edition: Edition, value: &Value) -> Result<Proc, Misread> {
        proc_of(alloc, edition, value)
    }
}

fn proc_of(alloc: Global, edition: Edition, value: &Value) -> Result<Proc, Misread>
    ensures { Gives result (proc_at edition (view value.now)) }
{
    if !has_exactly(value, &["name", "args", "keys", "body"]) {
        return Err(Misread::Faulty);
    }
    let name = Text::read(alloc, edition, member(value, "name")?)?;
    let args = index_of(member(value, "args")?)?;
    let keys = Items::read(alloc, edition, member(value, "keys")?)?;
    let body = stmts_of(alloc, edition, member(value, "body")?)?;
    Ok(Proc {
        edition,
        name,
        args,
        keys,
        body,
    })
}

/// Reads a key position: its mode, its place, and an index or a record. `Faulty` means that the value is not one.
pub fn key_of(value: &Value) -> Result<KeyDecl, Misread>
    ensures { Gives result (key_at (view value.now)) }
{
    match value {
        Value::Array(list) => match list.len() {
            3 => declared(word_of(&list[0])?, word_of(&list[1])?, &list[2]),
            _ => Err(Misread::Faulty),
        },
        _ => Err(Misread::Faulty),
    }
}

// The key of a mode's word, a place's word, and an index or a record.
fn declared(mode: &str, place: &str, value: &Value) -> Result<KeyDecl, Misread>
    ensures { Gives result (both_of key_of (mode_at mode.now) (place_at place.now (view value.now))) }
{
    let mode = mode_of(mode)?;
    let at = place_of(place, value)?;
    Ok(KeyDecl { mode, at })
}

/// Reads the word of a key's mode, "read" or "write". `Faulty` means that it is another word.
pub fn mode_of(word: &str) -> Result<Mode, Misread>
    ensures { Gives result (mode_at word.now) }
{
    match word {
        "read" => Ok(Mode::Read),
        "write" => Ok(Mode::Write),
        _ => Err(Misread::Faulty),
    }
}

// The place of a key.
fn place_of(word: &str, value: &Value) -> Result<KeyAt, Misread>
    ensures { Gives result (place_at word.now (view value.now)) }
{
    match word {
        "arg" => Ok(KeyAt::Arg(index_of(value)?)),
        "through" => Ok(KeyAt::Through(index_of(value)?)),
        "fixed" => Ok(KeyAt::Fixed(u32_of(value)?)),
        _ => Err(Misread::Faulty),
    }
}

/// Reads the index of an argument, a key or a local, or a count of arguments or of turns: a whole number below 256.
/// `Faulty` means that the value is not one.
pub fn index_of(value: &Value) -> Result<u8, Misread>
    ensures { Gives result (index_at (view value.now)) }
{
    match value.as_u64() {
        Some(n) if n < 256 => Ok(n as u8),
        _ => Err(Misread::Faulty),
    }
}

// The word at the front of a form.
pub fn word_of(value: &Value) -> Result<&str, Misread>
    ensures ok { IfOk result (λ s. as_str (view value.now) ≡ Some s.now) }
    ensures err { IfErr result (λ e. (e ≡ Misread.Faulty) × (as_str (view value.now) ≡ None)) }
{
    value.as_str().ok_or(Misread::Faulty)
}
