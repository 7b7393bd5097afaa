//! The parts of a scenario, read from its JSON tree, or the first fault of their shape.
ghost use Rattle.std.specs.Prelude.{◌≡◌, ◌≤◌};
ghost use Rattle.serde_json.specs.View.{view};
ghost use Rattle.vll_scenario.specs.Private.Longest.{longest_list};
ghost use Rattle.vll_scenario.specs.Shape.{asked_at, edition_at, in_part, part_at, shape_fault, shape_of};
ghost use Rattle.vll_scenario.specs.Private.Reading.{GivesUnlessMemory};
ghost use Rattle.vll_scenario.specs.Tree.{Gives, list_at};

use crate::fault::{Part, ScenarioFault, Spot};
use crate::limits::MOST_BYTES;
use crate::reading::asked::Asked;
use crate::reading::members::{has_exactly, has_members, member};
use crate::reading::options::option_of;
use crate::reading::schedule::schedule_of;
use crate::reading::tree::{FirstFault, Misread, Reads, list_of};
use serde_json::Value;
use sqlite_items::Items;
use std::alloc::Global;
use vll_core::Event;
use vll_proc::{Edition, Proc, Text};
use vll_sca::Placing;

/// The members that a scenario must have.
pub const MUST_NAMES: [&str; 4] = ["version", "records", "procs", "clients"];

/// The members that a scenario may have.
pub const MAY_NAMES: [&str; 9] = [
    "version", "records", "procs", "clients", "cap", "bits", "limit", "hash", "schedule",
];

/// The parts of a scenario's JSON tree, before any check. An optional part that is absent is `None` or empty.
#[derive(Drop)]
pub struct Parts {
    pub records: Items<u64>,
    pub procs: Items<Proc>,
    pub scripts: Items<Items<Asked>>,
    pub cap: Option<u32>,
    pub bits: Option<u32>,
    pub limit: Option<u32>,
    pub placing: Option<Placing>,
    pub schedule: Items<Event>,
}

impl Reads for Asked {
    ghost reads = { λ edition. asked_at };

    fn read(alloc: Global, edition: Edition, value: &Value) -> Result<Asked, Misread> {
        asked_of(alloc, edition, value)
    }
}

/// Reads the parts of a tree, or returns the first fault of their shape.
pub fn shape_of(alloc: Global, tree: &Value) -> Result<Parts, ScenarioFault>
    requires few { longest_list (view tree.now) ≤ MOST_BYTES }
    ensures { GivesUnlessMemory result (shape_of (view tree.now)) }
{
    if !has_members(tree, &MUST_NAMES, &MAY_NAMES) {
        return Err(fault_at(Part::Top, 0));
    }
    let edition = edition_of(tree)?;
    let records = part_of(alloc, edition, tree, Part::Records, "records")?;
    let procs = part_of(alloc, edition, tree, Part::Procs, "procs")?;
    let scripts = part_of(alloc, edition, tree, Part::Clients, "clients")?;
    let cap = option_of(alloc, edition, tree, Part::Cap, "cap")?;
    let bits = option_of(alloc, edition, tree, Part::Bits, "bits")?;
    let limit = option_of(alloc, edition, tree, Part::Limit, "limit")?;
    let placing = option_of(alloc, edition, tree, Part::Hash, "hash")?;
    let schedule = schedule_of(alloc, edition, tree)?;
    Ok(Parts {
        records,
        procs,
        scripts,
        cap,
        bits,
        limit,
        placing,
        schedule,
    })
}

fn asked_of(alloc: Global, edition: Edition, value: &Value) -> Result<Asked, Misread>
    ensures { Gives result (asked_at (view value.now)) }
{
    if !has_exactly(value, &["proc", "args"]) {
        return Err(Misread::Faulty);
    }
    let name = Text::read(alloc, edition, member(value, "proc")?)?;
    let args = Items::read(alloc, edition, member(value, "args")?)?;
    Ok(Asked { name, args })
}

// The edition of a scenario's version.
fn edition_of(tree: &Value) -> Result<Edition, ScenarioFault>
    ensures { GivesUnlessMemory result (edition_at (view tree.now)) }
{
    match member(tree, "version") {
        Ok(version) => match version.as_u64() {
            Some(1) => Ok(Edition::One),
            Some(2) => Ok(Edition::Two),
            _ => Err(fault_at(Part::Version, 0)),
        },
        Err(_) => Err(fault_at(Part::Version, 0)),
    }
}

// A member, read as a list.
fn part_of<T: Reads>(
    alloc: Global,
    edition: Edition,
    tree: &Value,
    part: Part,
    name: &str,
) -> Result<Items<T>, ScenarioFault>
    requires few { longest_list (view tree.now) ≤ MOST_BYTES }
    ensures { GivesUnlessMemory result (part_at part name.now (T.reads edition) (view tree.now)) }
{
    let Ok(value) = member(tree, name) else {
        return Err(fault_at(part, 0));
    };
    list_in(alloc, edition, part, value)
}

// The value of a part, read as a list.
pub fn list_in<T: Reads>(
    alloc: Global,
    edition: Edition,
    part: Part,
    value: &Value,
) -> Result<Items<T>, ScenarioFault>
    requires few { longest_list (view value.now) ≤ MOST_BYTES }
    ensures { GivesUnlessMemory result (in_part part (list_at (T.reads edition) (view value.now))) }
{
    match list_of(alloc, edition, value) {
        Ok(items) => Ok(items),
        Err(FirstFault::NoMemory) => Err(ScenarioFault::NoMemory),
        Err(FirstFault::At(index)) => Err(fault_at(part, index as u32)),
    }
}

pub fn fault_at(part: Part, index: u32) -> ScenarioFault
    ensures { result ≡ shape_fault part index }
{
    ScenarioFault::Shape(Spot { part, index })
}
