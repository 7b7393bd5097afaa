//! Reads a scenario, and writes the page of its replay.
ghost use Rattle.std.specs.Prelude.{◌≡◌, ◌↔◌, false, true, Err, IfOk, OnOk, string_bytes};
ghost use Rattle.std.specs.Io.KnownBytes.{Appends};
ghost use Rattle.vll_scenario.specs.Streams.{AppendsBeginning};
ghost use Rattle.vll_scenario.specs.declared.fault.ScenarioFault.{ScenarioFault};
ghost use Rattle.vll_scenario.specs.declared.fault.ScenarioFault.TheVariants.{Read};
ghost use Rattle.vll_scenario.specs.Reading.{IsRead};
ghost use Rattle.vll_core.specs.Machine.{opened};
ghost use Rattle.vll_replay.specs.Replay.{Replays, opening_for, text_of_setup};
ghost use Rattle.vll_replay.specs.Steps.{steps};
ghost use Rattle.vll_draw.specs.OneByOne.{with_schedule};
ghost use Rattle.vll_draw.specs.Page.{Draws, Lists};
ghost use Rattle.vll_draw.specs.Columns.{AreSteps, words_at};
ghost use Rattle.vll_draw.specs.Taped.{HasTaped, drawn};
ghost use Rattle.vll_draw.specs.declared.fault.DrawFault.TheVariants as fault;

use crate::fault::DrawFault;
use crate::one_by_one::{Origin, with_schedule};
use crate::page::with_list;
use crate::picture::{Counts, Drawing, push_bands, push_head, push_heading};
use crate::tape::Tape;
use std::alloc::{AllocError, Global};
use vll_core::Core;
use vll_replay::text_of_replay;
use vll_sca::Placing;
use vll_scenario::{EventRange, Scenario, Sink, Source, read_scenario, write_text};

/// Reads a scenario, replays its schedule as `replay` of `vll_replay` does, and writes an HTML page. Its drawings show
/// the events of the window; below them is a list of all lines of the replay's text. If the schedule has no event, the
/// page is that of the schedule that makes the calls of the scripts one after the other, client by client: of as many
/// calls as the limit lets enter, and at most `MOST_EVENTS` events.
///
/// The whole page is built before its first byte is written. After `Scenario` and `NoMemory` nothing has been written,
/// and after `Write` a prefix of the page. `Scenario` carries the fault that `read_scenario` returned, `NoMemory` means
/// that memory ran out after a scenario was read, and `Write` is returned exactly if the writer has failed.
pub fn draw<S: Source, W: Sink>(
    alloc: Global,
    reader: &mut S,
    writer: &mut W,
    window: EventRange,
) -> Result<(), DrawFault>
    requires reader { S.failed reader.old ≡ false }
    requires writer { W.failed writer.old ≡ false }
    ensures ok { OnOk result (Draws (S.remaining reader.old) (S.remaining reader.new)
        (Appends (W.contents writer.old) (W.contents writer.new))) }
    ensures scenario { (why : ScenarioFault) → result ≡ Err (fault.Scenario why)
        → IsRead (S.remaining reader.old) (S.remaining reader.new) (Err why) × (writer.new ≡ writer.old) }
    ensures read { (result ≡ Err (fault.Scenario Read)) ↔ (S.failed reader.new ≡ true) }
    ensures no_memory { result ≡ Err fault.NoMemory
        → Replays (S.remaining reader.old) (S.remaining reader.new) (λ text. writer.new ≡ writer.old) }
    ensures write { result ≡ Err fault.Write → Draws (S.remaining reader.old) (S.remaining reader.new)
        (AppendsBeginning (W.contents writer.old) (W.contents writer.new)) }
    ensures failed { (result ≡ Err fault.Write) ↔ (W.failed writer.new ≡ true) }
{
    let scenario = read_scenario(alloc, reader).map_err(DrawFault::Scenario)?;
    let page = page_of(alloc, scenario, window).map_err(|_| DrawFault::NoMemory)?;
    write_text(writer, page.as_bytes()).map_err(|_| DrawFault::Write)
}

/// The page that `draw` writes for a scenario. It fails if memory runs out.
pub fn page_of(alloc: Global, scenario: Scenario, window: EventRange) -> Result<String, AllocError>
    ensures { IfOk result (λ page. Lists (string_bytes page) (text_of_setup (with_schedule scenario))) }
{
    let first = window.from as usize;
    let (scenario, origin) = with_schedule(alloc, scenario)?;
    let Taped { text, core, tape } = watched(alloc, scenario, window)?;
    let drawn = drawings_of(alloc, core, tape, first, origin)?;
    with_list(drawn, text.as_str())
}

// A replay with what is needed to draw it.
#[derive(Drop)]
struct Taped {
    text: String,
    core: Core<Placing>,
    tape: Tape,
}

// The text of a scenario's replay, the machine in its state at the end, and what was kept of the events that are drawn.
fn watched(alloc: Global, scenario: Scenario, window: EventRange) -> Result<Taped, AllocError>
    ensures text { IfOk result (λ made. string_bytes made.text ≡ text_of_setup scenario) }
    ensures tape { IfOk result (λ made. HasTaped (opening_for scenario) window
        (steps (opening_for scenario) (opened scenario.scripts) scenario.schedule) made.tape) }
    ensures words { IfOk result (λ made. AreSteps (opening_for scenario).base (words_at made.tape.standing.words.items)
        (drawn window (steps (opening_for scenario) (opened scenario.scripts) scenario.schedule)) made.tape.columns.items) }
{
    let mut tape = Tape::new(alloc, window);
    let (text, core) = text_of_replay(alloc, scenario, &mut tape)?;
    Ok(Taped { text, core, tape })
}

// The page up to its list. `first` is the number of the first event that is drawn.
fn drawings_of(
    alloc: Global,
    core: Core<Placing>,
    tape: Tape,
    first: usize,
    origin: Origin,
) -> Result<String, AllocError> {
    let counts = Counts {
        calls: core.journal().len(),
        records: core.words().len() / 2,
        events: tape.events,
        first,
        drawn: tape.columns.len(),
    };
    let coming = core.line_of_turn();
    let (machine, library) = core.into_parts();
    let (_, mut journal) = machine.into_parts();
    if let Some(line) = coming {
        journal.push(line)?;
    }
    let Tape {
        columns,
        standing,
        ..
    } = tape;
    let drawing = Drawing {
        alloc,
        first,
        columns: columns.as_slice(),
        journal: journal.as_slice(),
        library: &library,
    };
    let mut page = String::new(alloc);
    push_head(&mut page, counts, origin)?;
    push_bands(&mut page, &drawing, standing)?;
    push_heading(&mut page)?;
    Ok(page)
}
