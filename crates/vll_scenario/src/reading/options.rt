//! The members of a scenario that may be absent.
ghost use Rattle.serde_json.specs.View.{view};
ghost use Rattle.vll_scenario.specs.Shape.{option_at, placing_at};
ghost use Rattle.vll_scenario.specs.Private.Reading.{GivesUnlessMemory};
ghost use Rattle.vll_scenario.specs.Tree.{Gives};

use crate::fault::{Part, ScenarioFault};
use crate::reading::shape::fault_at;
use crate::reading::tree::{Misread, Reads};
use serde_json::Value;
use std::alloc::Global;
use vll_proc::Edition;
use vll_sca::Placing;

impl Reads for Placing {
    ghost reads = { λ edition. placing_at };

    fn read(_alloc: Global, _edition: Edition, value: &Value) -> Result<Placing, Misread> {
        placing_of(value)
    }
}

// The value of a member, if it is present.
pub fn option_of<T: Reads>(
    alloc: Global,
    edition: Edition,
    tree: &Value,
    part: Part,
    name: &str,
) -> Result<Option<T>, ScenarioFault>
    ensures { GivesUnlessMemory result (option_at part name.now (T.reads edition) (view tree.now)) }
{
    let Some(value) = tree.get(name) else {
        return Ok(None);
    };
    match T::read(alloc, edition, value) {
        Ok(read) => Ok(Some(read)),
        Err(Misread::NoMemory) => Err(ScenarioFault::NoMemory),
        Err(Misread::Faulty) => Err(fault_at(part, 0)),
    }
}

// The hash that a word names.
fn placing_of(value: &Value) -> Result<Placing, Misread>
    ensures { Gives result (placing_at (view value.now)) }
{
    match value.as_str() {
        Some("modulo") => Ok(Placing::Modulo),
        Some("spread") => Ok(Placing::Spread),
        _ => Err(Misread::Faulty),
    }
}
