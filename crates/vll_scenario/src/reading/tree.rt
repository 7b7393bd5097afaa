//! The trait of what is read from a JSON tree, with numbers, texts and lists, and why a value is not read.
ghost use Rattle.std.specs.Prelude.{◌≡◌};
ghost use Rattle.serde_json.specs.Find.{as_str};
ghost use Rattle.serde_json.specs.View.{view, items_view};
ghost use Rattle.vll_scenario.specs.Tree.{Gives, each, list_at, number_at, u32_at, whole};
ghost use Rattle.vll_scenario.specs.Private.Reading.{GivesList};

use serde_json::Value;
use sqlite_items::Items;
use std::alloc::{AllocError, Global};
use vll_proc::{Edition, Text};

/// Why a value of a JSON tree was not read.
#[derive(Drop)]
pub enum Misread {
    NoMemory,
    Faulty,
}

impl From<AllocError> for Misread {
    ghost use Rattle.std.specs.Prelude.{◌≡◌};
    ghost use Rattle.vll_scenario.specs.declared.reading.tree.Misread.TheVariants.{NoMemory};

    ghost from_gives = { λ _ e. e ≡ NoMemory };

    fn from(_: AllocError) -> Misread {
        Misread::NoMemory
    }
}

/// Why a list of a JSON tree was not read: memory, or the index of the first faulty item.
#[derive(Drop)]
pub enum FirstFault {
    NoMemory,
    At(usize),
}

/// A type that a JSON tree of an edition can be read as.
pub trait Reads: Sized + Drop {
    ghost use Rattle.std.specs.Prelude.{Option};
    ghost use Rattle.serde_json.specs.Data.{Data};
    ghost use Rattle.vll_proc.specs.declared.syntax.Edition.{Edition};

    ghost reads: { Edition → Data → Option Self };

    /// Reads a value of an edition. `Faulty` means that it has another form, `NoMemory` that memory ran out.
    fn read(alloc: Global, edition: Edition, value: &Value) -> Result<Self, Misread>
        ensures { Gives result (reads edition (view value.now)) };
}

impl Reads for u64 {
    ghost reads = { λ edition. number_at };

    fn read(_alloc: Global, _edition: Edition, value: &Value) -> Result<u64, Misread> {
        value.as_u64().ok_or(Misread::Faulty)
    }
}

impl Reads for u32 {
    ghost reads = { λ edition. u32_at };

    fn read(_alloc: Global, _edition: Edition, value: &Value) -> Result<u32, Misread> {
        u32_of(value)
    }
}

impl<T: Reads> Reads for Items<T> {
    ghost reads = { λ edition d. whole (list_at (T.reads edition) d) };

    fn read(alloc: Global, edition: Edition, value: &Value) -> Result<Items<T>, Misread> {
        match list_of(alloc, edition, value) {
            Ok(items) => Ok(items),
            Err(FirstFault::NoMemory) => Err(Misread::NoMemory),
            Err(FirstFault::At(_)) => Err(Misread::Faulty),
        }
    }
}

impl Reads for Text {
    ghost reads = { λ edition. as_str };

    fn read(alloc: Global, _edition: Edition, value: &Value) -> Result<Text, Misread> {
        let text = value.as_str().ok_or(Misread::Faulty)?;
        Ok(Text::new(String::from_str(alloc, text)?))
    }
}

/// Reads a whole number of 32 bits. `Faulty` means that the value is not one.
pub fn u32_of(value: &Value) -> Result<u32, Misread>
    ensures { Gives result (u32_at (view value.now)) }
{
    match value.as_u64() {
        Some(n) if n < 4_294_967_296 => Ok(n as u32),
        _ => Err(Misread::Faulty),
    }
}

pub fn list_of<T: Reads>(
    alloc: Global,
    edition: Edition,
    value: &Value,
) -> Result<Items<T>, FirstFault>
    ensures { GivesList result (list_at (T.reads edition) (view value.now)) }
{
    let Some(list) = value.as_array() else {
        return Err(FirstFault::At(0));
    };
    items_of(alloc, edition, list.as_slice())
}

fn items_of<T: Reads>(
    alloc: Global,
    edition: Edition,
    list: &[Value],
) -> Result<Items<T>, FirstFault>
    ensures { GivesList result (each (T.reads edition) (items_view list.now)) }
{
    let mut items = Items::new(alloc);
    for (i, value) in list.iter().enumerate() {
        match T::read(alloc, edition, value) {
            Ok(item) => {
                if items.push(item).is_err() {
                    return Err(FirstFault::NoMemory);
                }
            }
            Err(Misread::NoMemory) => return Err(FirstFault::NoMemory),
            Err(Misread::Faulty) => return Err(FirstFault::At(i)),
        }
    }
    Ok(items)
}
