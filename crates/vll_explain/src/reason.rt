//! What is wrong with the piece at fault.
use crate::asked::{call_why, items_of};
use crate::check::check_why;
use crate::names::name_twice_why;
use crate::shape::shape_why;
use crate::shown::Refused;
use crate::size::size_why;
use serde_json::Value;
use std::alloc::{AllocError, Global};
use vll_fault_path::Way;
use vll_scenario::ScenarioFault;

// What is wrong with the piece to which a way leads in the tree of some bytes, or with the tree itself.
pub(crate) fn reason_of(
    alloc: Global,
    bytes: &[u8],
    tree: &Value,
    why: ScenarioFault,
    way: &Way<'_>,
) -> Result<String, AllocError> {
    match why {
        ScenarioFault::Check { index, fault } => check_why(alloc, tree, index, fault, way),
        ScenarioFault::Call {
            client,
            index,
            fault,
        } => call_why(alloc, tree, client, index, fault),
        ScenarioFault::NameTwice => name_twice_why(alloc, items_of(tree.get("procs"))),
        ScenarioFault::Size => size_why(alloc, way.piece),
        ScenarioFault::Shape(_)
        | ScenarioFault::Read
        | ScenarioFault::Json
        | ScenarioFault::NoMemory => {
            let refused = Refused {
                bytes,
                tree,
                steps: way.steps.as_slice(),
            };
            shape_why(alloc, &refused, way.piece)
        }
    }
}
