//! A scenario, read from bytes.
ghost use Rattle.std.specs.Prelude.{◌≡◌, ◌≤◌, ◌↔◌, ◌⊎◌, length, true, false, Some, None, Ok, Err, IfOk, IfErr, OnOk};
ghost use Rattle.serde_json.specs.View.{view};
ghost use Rattle.vll_scenario.specs.Private.Longest.{longest_list};
ghost use Rattle.vll_scenario.specs.Scenario.{IsTree, parts_at, scenario_at, tree_or_json};
ghost use Rattle.vll_scenario.specs.Reading.{IsScenarioOf, Reads, Tells};
ghost use Rattle.vll_scenario.specs.Private.Reading.{data_of};
ghost use Rattle.vll_scenario.specs.declared.fault.ScenarioFault.TheVariants as ScenarioFault;

pub(crate) mod asked;
pub(crate) mod bytes;
pub(crate) mod members;
mod options;
mod schedule;
mod setup;
pub(crate) mod shape;
pub(crate) mod syntax;
pub(crate) mod tree;

use crate::fault::ScenarioFault;
use crate::limits::MOST_BYTES;
use crate::scenario::Scenario;
use crate::stream::Source;
use bytes::read_bytes;
use serde_json::Value;
use setup::setup_of;
use shape::{Parts, shape_of};
use std::alloc::Global;

/// Reads a scenario: one JSON text, whose form docs/SCENARIO.md describes.
///
/// Reads to the end of `reader`, but stops once more than `MOST_BYTES` bytes have come, by at most 8,192 bytes more. If
/// the reader's bytes are known to contracts, the result is that of exactly these bytes. Of several faults the first is
/// returned, in the order given at `ScenarioFault`. `Read` is returned exactly if the reader has failed. `NoMemory`
/// means that memory ran out, and can replace any result but `Read`. Every other result, `Ok` included, is that of the
/// bytes that came.
pub fn read_scenario<S: Source>(alloc: Global, reader: &mut S) -> Result<Scenario, ScenarioFault>
    requires { S.failed reader.old ≡ false }
    ensures answer { Reads scenario_at (S.remaining reader.old) (S.remaining reader.new) result }
    ensures told { Tells scenario_at (S.remaining reader.old) result }
    ensures failed { (result ≡ Err ScenarioFault.Read) ↔ (S.failed reader.new ≡ true) }
{
    let parts = read_parts(alloc, reader)?;
    setup_of(alloc, parts)
}

/// The result of reading bytes: their JSON tree, and the scenario that it describes, or why it describes none.
#[derive(Drop)]
pub struct Reading {
    pub tree: Value,
    pub scenario: Result<Scenario, ScenarioFault>,
}

/// Reads the JSON tree and the scenario of at most `MOST_BYTES` bytes. Returns both, so that a caller that explains a
/// fault has the tree in which it lies. An `Err` is `Json` if the bytes are not a JSON text, or `NoMemory`, which can
/// also be the scenario's fault.
pub fn reading_of(alloc: Global, bytes: &[u8]) -> Result<Reading, ScenarioFault>
    requires { length bytes.now ≤ MOST_BYTES }
    ensures tree { IfOk result (λ r. IsTree bytes.now (Some (view r.tree))) }
    ensures scenario { IfOk result (λ r. IsScenarioOf (view r.tree) r.scenario) }
    ensures err { IfErr result (λ e. ((e ≡ ScenarioFault.Json) × IsTree bytes.now None)
        ⊎ (e ≡ ScenarioFault.NoMemory)) }
{
    let tree = tree_of(alloc, bytes)?;
    let scenario = scenario_of(alloc, &tree);
    Ok(Reading { tree, scenario })
}

// The scenario of a JSON tree.
fn scenario_of(alloc: Global, tree: &Value) -> Result<Scenario, ScenarioFault>
    requires { longest_list (view tree.now) ≤ MOST_BYTES }
    ensures { IsScenarioOf (view tree.now) result }
{
    let parts = shape_of(alloc, tree)?;
    setup_of(alloc, parts)
}

// The parts of the scenario that a reader supplies.
fn read_parts<S: Source>(alloc: Global, reader: &mut S) -> Result<Parts, ScenarioFault>
    requires { S.failed reader.old ≡ false }
    ensures parts { Reads parts_at (S.remaining reader.old) (S.remaining reader.new) result }
    ensures failed { (result ≡ Err ScenarioFault.Read) ↔ (S.failed reader.new ≡ true) }
{
    let tree = read_tree(alloc, reader)?;
    shape_of(alloc, &tree)
}

// The JSON tree that a reader supplies.
fn read_tree<S: Source>(alloc: Global, reader: &mut S) -> Result<Value, ScenarioFault>
    requires { S.failed reader.old ≡ false }
    ensures tree { Reads tree_or_json (S.remaining reader.old) (S.remaining reader.new)
        (data_of result) }
    ensures few { IfOk result (λ v. longest_list (view v) ≤ MOST_BYTES) }
    ensures failed { (result ≡ Err ScenarioFault.Read) ↔ (S.failed reader.new ≡ true) }
{
    let bytes = read_bytes(alloc, reader)?;
    tree_of(alloc, bytes.as_slice())
}

// The JSON tree of bytes.
fn tree_of(alloc: Global, bytes: &[u8]) -> Result<Value, ScenarioFault>
    requires { length bytes.now ≤ MOST_BYTES }
    ensures ok { IfOk result (λ v. IsTree bytes.now (Some (view v))) }
    ensures err { IfErr result (λ e. ((e ≡ ScenarioFault.Json) × IsTree bytes.now None)
        ⊎ (e ≡ ScenarioFault.NoMemory)) }
    ensures few { IfOk result (λ v. longest_list (view v) ≤ MOST_BYTES) }
{
    match Value::from_slice(alloc, bytes) {
        Ok(tree) => Ok(tree),
        Err(error) if error.is_memory() => Err(ScenarioFault::NoMemory),
        Err(_) => Err(ScenarioFault::Json),
    }
}
