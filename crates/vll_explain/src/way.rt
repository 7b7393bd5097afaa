//! The way to a piece, in words.
ghost use Rattle.std.specs.Prelude.{◌≡◌, ◌++◌, IfOk, OnOk, string_bytes};
ghost use Rattle.vll_explain.specs.Explained.{IsShown, way_words};
ghost use Rattle.vll_fault_path.specs.Ways.{words_of};

use crate::names::procedure_name;
use serde_json::Value;
use std::alloc::{AllocError, Global};
use vll_fault_path::Step;

// Appends the words of the steps from a scenario; `shown`, the name of the item, follows the second step.
pub(crate) fn push_way(text: &mut String, steps: &[Step], shown: &str) -> Result<(), AllocError>
    ensures { OnOk result (string_bytes text.new ≡ string_bytes text.old ++ way_words shown.now steps.now) }
{
    match steps {
        [] => text.push_str("the scenario"),
        [part] => write!(text, "{part}"),
        [part, item, rest @ ..] => {
            write!(text, "{part}{item}{shown}")?;
            push_steps(text, rest)
        }
    }
}

// Appends the words of some steps.
fn push_steps(text: &mut String, steps: &[Step]) -> Result<(), AllocError>
    ensures { OnOk result (string_bytes text.new ≡ string_bytes text.old ++ words_of steps.now) }
{
    if let [step, steps @ ..] = steps {
        write!(text, "{step}")?;
        push_steps(text, steps)?;
    }
    Ok(())
}

// The name, as shown, of the procedure into which steps lead, nothing if they lead into none or it has no name.
pub(crate) fn shown_name(alloc: Global, tree: &Value, steps: &[Step]) -> Result<String, AllocError>
    ensures { IfOk result (λ shown. IsShown steps.now (string_bytes shown)) }
{
    if let [Step::Procs, Step::Item(index), ..] = steps
        && let Some(name) = procedure_name(alloc, tree, *index)?
    {
        return format!(in alloc; " ({name})");
    }
    Ok(String::new(alloc))
}
