//! The text about a scenario, and writing it.
ghost use Rattle.std.specs.Prelude.{◌≡◌, ◌≤◌, ◌↔◌, false, true, Some, None, Ok, Err, Option, IfOk, IfErr, length, string_bytes};
ghost use Rattle.std.specs.Io.KnownBytes.{Appends};
ghost use Rattle.vll_scenario.specs.Streams.{AppendsBeginning};
ghost use Rattle.vll_scenario.specs.declared.fault.ScenarioFault.{ScenarioFault};
ghost use Rattle.vll_scenario.specs.declared.fault.ScenarioFault.TheVariants.{Read};
ghost use Rattle.serde_json.specs.Data.{depth};
ghost use Rattle.serde_json.specs.Read.{max_depth};
ghost use Rattle.serde_json.specs.View.{view};
ghost use Rattle.vll_explain.specs.Explained.{Explains, IsBegun, IsLocated, IsTold, ReadsOrExplains, fault_of};
ghost use Rattle.vll_explain.specs.Private.{HoldsOrExplains, IsToldOf};

use crate::origin::Origin;
use crate::reason::reason_of;
use crate::summary::summary_of;
use crate::unread::unread_explanation;
use crate::way::{push_way, shown_name};
use serde_json::Value;
use std::alloc::{AllocError, Global};
use thiserror::Error;
use vll_fault_path::way_to_fault;
use vll_scenario::{
    MOST_BYTES, Reading, Scenario, ScenarioFault, Sink, Source, WriteFault, read_bytes, reading_of,
    write_text,
};

/// Reads a scenario as `read_scenario` does, and writes a report: if it is refused, the line of its fault, followed by
/// an explanation that begins with `at: `; if not, `ok`, followed by what the scenario has. docs/SCENARIO.md describes
/// the text. Returns the fault, if there is one. `origin` is what the reader reads.
///
/// The whole text is built before its first byte is written. After `NoMemory` nothing has been written, and after
/// `Write` a prefix of the text. `NoMemory` means that memory ran out outside `read_scenario`, and `Write` is returned
/// exactly if the writer has failed.
pub fn explain<S: Source, W: Sink>(
    alloc: Global,
    origin: Origin,
    reader: &mut S,
    writer: &mut W,
) -> Result<Option<ScenarioFault>, WriteFault>
    requires reader { S.failed reader.old ≡ false }
    requires writer { W.failed writer.old ≡ false }
    ensures ok { IfOk result (λ fault. Explains (S.remaining reader.old) (S.remaining reader.new) fault
        (Appends (W.contents writer.old) (W.contents writer.new))) }
    ensures read { IfOk result (λ fault. (fault ≡ Some Read) ↔ (S.failed reader.new ≡ true)) }
    ensures no_memory { result ≡ Err WriteFault.NoMemory → writer.new ≡ writer.old }
    ensures write { result ≡ Err WriteFault.Write → (fault : Option ScenarioFault)
        × Explains (S.remaining reader.old) (S.remaining reader.new) fault
        (AppendsBeginning (W.contents writer.old) (W.contents writer.new)) }
    ensures failed { (result ≡ Err WriteFault.Write) ↔ (W.failed writer.new ≡ true) }
{
    let (fault, text) = explained(alloc, origin, reader)?;
    write_text(writer, text.as_bytes())?;
    Ok(fault)
}

/// Why a scenario is refused.
#[derive(Debug, Drop, Error)]
#[error("{fault}")]
pub struct Refusal {
    pub fault: ScenarioFault,
    /// What `explain` writes about it. It is missing if there was no memory for it.
    pub text: Option<String>,
}

/// A scenario, and the JSON tree that describes it.
#[derive(Drop)]
pub struct Parsed {
    pub tree: Value,
    pub scenario: Scenario,
}

/// Reads a scenario as `read_scenario` does, and returns it with its tree. If it is refused, a text explains why; it is
/// not written. `origin` is what the reader reads. The fault is `Read` exactly if the reader has failed.
pub fn read_or_explain<S: Source>(
    alloc: Global,
    origin: Origin,
    reader: &mut S,
) -> Result<Parsed, Refusal>
    requires { S.failed reader.old ≡ false }
    ensures read { ReadsOrExplains (S.remaining reader.old) (S.remaining reader.new) result }
    ensures depth { IfOk result (λ parsed. depth (view parsed.tree) ≤ max_depth) }
    ensures failed { (fault_of result ≡ Some Read) ↔ (S.failed reader.new ≡ true) }
{
    match read_bytes(alloc, reader) {
        Ok(bytes) => held_or_explained(alloc, origin, bytes.as_slice()),
        Err(why) => {
            let fault = ScenarioFault::from(why);
            let text = text_of_unread(alloc, origin, fault, &[]).ok();
            Err(Refusal { fault, text })
        }
    }
}

// As `read_or_explain`, for bytes that were read to their end.
fn held_or_explained(alloc: Global, origin: Origin, bytes: &[u8]) -> Result<Parsed, Refusal>
    requires { length bytes.now ≤ MOST_BYTES }
    ensures held { HoldsOrExplains bytes.now result }
    ensures depth { IfOk result (λ parsed. depth (view parsed.tree) ≤ max_depth) }
    ensures read { ¬ (fault_of result ≡ Some Read) }
{
    match reading_of(alloc, bytes) {
        Ok(Reading { tree, scenario }) => match scenario {
            Ok(scenario) => Ok(Parsed { tree, scenario }),
            Err(fault) => {
                let text = text_of_fault(alloc, origin, fault, bytes, &tree).ok();
                Err(Refusal { fault, text })
            }
        },
        Err(fault) => {
            let text = text_of_unread(alloc, origin, fault, bytes).ok();
            Err(Refusal { fault, text })
        }
    }
}

// The fault of the scenario that a reader supplies, if there is one, and the text about it.
fn explained<S: Source>(
    alloc: Global,
    origin: Origin,
    reader: &mut S,
) -> Result<(Option<ScenarioFault>, String), WriteFault>
    requires { S.failed reader.old ≡ false }
    ensures told { IfOk result (λ made. Explains (S.remaining reader.old) (S.remaining reader.new) made.0
        (λ text. text ≡ string_bytes made.1)) }
    ensures read { IfOk result (λ made. (made.0 ≡ Some Read) ↔ (S.failed reader.new ≡ true)) }
    ensures fault { IfErr result (λ fault. fault ≡ WriteFault.NoMemory) }
{
    match read_or_explain(alloc, origin, reader) {
        Ok(parsed) => {
            let text = text_of_scenario(alloc, parsed.scenario).map_err(|_| WriteFault::NoMemory)?;
            Ok((None, text))
        }
        Err(Refusal { fault, text }) => match text {
            Some(text) => Ok((Some(fault), text)),
            None => Err(WriteFault::NoMemory),
        },
    }
}

// The line of a fault, and an explanation, if there is no JSON tree. If the source was not read to its end, `bytes` is
// empty.
fn text_of_unread(
    alloc: Global,
    origin: Origin,
    why: ScenarioFault,
    bytes: &[u8],
) -> Result<String, AllocError>
    ensures { IfOk result (λ text. IsBegun why (string_bytes text)) }
{
    let explanation = unread_explanation(alloc, origin, why, bytes)?;
    begun_with(alloc, why, explanation.as_str())
}

// The line of a fault that lies in the JSON tree of some bytes, and an explanation.
fn text_of_fault(
    alloc: Global,
    origin: Origin,
    why: ScenarioFault,
    bytes: &[u8],
    tree: &Value,
) -> Result<String, AllocError>
    ensures { IfOk result (λ text. IsToldOf (view tree.now) why (string_bytes text)) }
{
    match why {
        ScenarioFault::Read | ScenarioFault::NoMemory | ScenarioFault::Json => {
            text_of_unread(alloc, origin, why, &[])
        }
        ScenarioFault::Shape(_)
        | ScenarioFault::Size
        | ScenarioFault::NameTwice
        | ScenarioFault::Check { .. }
        | ScenarioFault::Call { .. } => text_of_piece(alloc, why, bytes, tree),
    }
}

fn begun_with(alloc: Global, why: ScenarioFault, explanation: &str) -> Result<String, AllocError>
    ensures { IfOk result (λ text. IsBegun why (string_bytes text)) }
{
    format!(in alloc; "vll: scenario: {why}\nat: {explanation}")
}

// The line of a fault, the way to the piece at fault, and what is wrong with it.
fn text_of_piece(
    alloc: Global,
    why: ScenarioFault,
    bytes: &[u8],
    tree: &Value,
) -> Result<String, AllocError>
    ensures { IfOk result (λ text. IsLocated (view tree.now) why (string_bytes text)) }
{
    let way = way_to_fault(alloc, tree, why)?;
    let steps = way.steps.as_slice();
    let shown = shown_name(alloc, tree, steps)?;
    let mut place = String::new(alloc);
    push_way(&mut place, steps, shown.as_str())?;
    let reason = reason_of(alloc, bytes, tree, why, &way)?;
    format!(in alloc; "vll: scenario: {why}\nat: {place}\nwhy: {reason}\n")
}

fn text_of_scenario(alloc: Global, scenario: Scenario) -> Result<String, AllocError>
    ensures { IfOk result (λ text. IsTold None (Ok scenario) (string_bytes text)) }
{
    let summary = summary_of(alloc, scenario)?;
    format!(in alloc; "ok\n{summary}")
}
