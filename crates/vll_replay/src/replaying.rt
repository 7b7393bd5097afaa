//! A replay: reads a scenario, and writes what its schedule does on the machine of atomic steps.
ghost use Rattle.std.specs.Prelude.{◌≡◌, ◌↔◌, [], false, true, Err, IfOk, OnOk, string_bytes};
ghost use Rattle.std.specs.Io.KnownBytes.{Appends};
ghost use Rattle.vll_sca.specs.Placing.{placing};
ghost use Rattle.vll_core.specs.Machine.{opened, run};
ghost use Rattle.vll_core.specs.Shown.{opening_of};
ghost use Rattle.vll_scenario.specs.Reading.{IsRead};
ghost use Rattle.vll_replay.specs.Replay.{Replays, opening_for, text_of_setup};
ghost use Rattle.vll_replay.specs.Steps.{steps};
ghost use Rattle.vll_scenario.specs.Streams.{AppendsBeginning};
ghost use Rattle.vll_scenario.specs.declared.fault.ScenarioFault.{ScenarioFault};
ghost use Rattle.vll_scenario.specs.declared.fault.ScenarioFault.TheVariants.{Read};
ghost use Rattle.vll_replay.specs.declared.fault.ReplayFault.TheVariants as fault;

use crate::fault::ReplayFault;
use crate::observer::{Observer, Unwatched};
use crate::replay_text::push_state;
use crate::watching::push_event_lines;
use sqlite_items::Items;
use std::alloc::{AllocError, Global};
use vll_core::{Core, Event, OpenFault};
use vll_sca::Placing;
use vll_scenario::{Scenario, ScenarioParts, Sink, Source, read_scenario, write_text};

/// Reads a scenario, takes the steps of its schedule one after the other on the machine of atomic steps, and writes a
/// line for each, refused ones included, and then the outcome of the state at the end: a line for each entered call,
/// and one for each record. docs/SCENARIO.md describes the text.
///
/// The whole text is built before its first byte is written. After `Scenario` and `NoMemory` nothing has been written,
/// and after `Write` a prefix of the text. `Scenario` carries the fault that `read_scenario` returned, `NoMemory` means
/// that memory ran out after a scenario was read, and `Write` is returned exactly if the writer has failed.
pub fn replay<S: Source, W: Sink>(
    alloc: Global,
    reader: &mut S,
    writer: &mut W,
) -> Result<(), ReplayFault>
    requires reader { S.failed reader.old ≡ false }
    requires writer { W.failed writer.old ≡ false }
    ensures ok { OnOk result (Replays (S.remaining reader.old) (S.remaining reader.new)
        (Appends (W.contents writer.old) (W.contents writer.new))) }
    ensures scenario { (why : ScenarioFault) → result ≡ Err (fault.Scenario why)
        → IsRead (S.remaining reader.old) (S.remaining reader.new) (Err why) × (writer.new ≡ writer.old) }
    ensures read { (result ≡ Err (fault.Scenario Read)) ↔ (S.failed reader.new ≡ true) }
    ensures no_memory { result ≡ Err fault.NoMemory
        → Replays (S.remaining reader.old) (S.remaining reader.new) (λ text. writer.new ≡ writer.old) }
    ensures write { result ≡ Err fault.Write → Replays (S.remaining reader.old) (S.remaining reader.new)
        (AppendsBeginning (W.contents writer.old) (W.contents writer.new)) }
    ensures failed { (result ≡ Err fault.Write) ↔ (W.failed writer.new ≡ true) }
{
    let scenario = read_scenario(alloc, reader).map_err(ReplayFault::Scenario)?;
    let text = unwatched_text(alloc, scenario).map_err(|_| ReplayFault::NoMemory)?;
    write_text(writer, text.as_bytes()).map_err(|_| ReplayFault::Write)
}

// The text of a scenario's replay without an observer.
fn unwatched_text(alloc: Global, scenario: Scenario) -> Result<String, AllocError>
    ensures { IfOk result (λ text. string_bytes text ≡ text_of_setup scenario) }
{
    let (text, _) = text_of_replay(alloc, scenario, &mut Unwatched)?;
    Ok(text)
}

/// Returns the text of a scenario's replay, and the machine in its state at the end. The observer is shown each event
/// of the schedule, and does not change the text.
pub fn text_of_replay<O: Observer>(
    alloc: Global,
    scenario: Scenario,
    observer: &mut O,
) -> Result<(String, Core<Placing>), AllocError>
    ensures text { IfOk result (λ made. string_bytes made.0 ≡ text_of_setup scenario) }
    ensures opening { IfOk result (λ made. opening_of placing made.1 ≡ opening_for scenario) }
    ensures state { IfOk result (λ made. made.1.state ≡ run (opening_for scenario) (opened scenario.scripts) scenario.schedule) }
    ensures observed { OnOk result ((task : O.Task) → O.saw task (opening_for scenario) [] observer.old
        → O.saw task (opening_for scenario) (steps (opening_for scenario) (opened scenario.scripts) scenario.schedule) observer.new) }
{
    let (core, schedule) = core_of(alloc, scenario)?;
    let mut core = core;
    let mut text = String::new(alloc);
    push_event_lines(&mut text, &mut core, schedule.as_slice(), observer)?;
    push_state(&mut text, &core)?;
    Ok((text, core))
}

/// Returns the machine of a scenario, with no call entered, and the scenario's schedule.
pub fn core_of(
    alloc: Global,
    scenario: Scenario,
) -> Result<(Core<Placing>, Items<Event>), AllocError>
    ensures opening { IfOk result (λ made. opening_of placing made.0 ≡ opening_for scenario) }
    ensures state { IfOk result (λ made. made.0.state ≡ opened scenario.scripts) }
    ensures schedule { IfOk result (λ made. made.1 ≡ scenario.schedule) }
{
    let ScenarioParts {
        records,
        library,
        scripts,
        config,
        placing,
        schedule,
    } = scenario.into_parts();
    match Core::open(alloc, records, library, scripts, config, placing) {
        Ok(core) => Ok((core, schedule)),
        Err(OpenFault::NoMemory) => Err(AllocError),
        // A scenario has the sizes that a core can be opened with.
        Err(OpenFault::Records | OpenFault::Limit | OpenFault::Cap | OpenFault::Bits) => {
            unreachable!()
        }
    }
}
