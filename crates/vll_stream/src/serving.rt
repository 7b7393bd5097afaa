//! A service: epoch after epoch over the same records, until the input ends.
ghost use Rattle.std.specs.Prelude.{◌≡◌, ◌↔◌, ◌⊎◌, ◌≤◌, Err, IfErr, IfOk, OnOk, false, length, true};
ghost use Rattle.std.specs.Io.KnownBytes.{Appends};
ghost use Rattle.std.specs.List.{list_all};
ghost use Rattle.vll_scenario.specs.Headline.Setup.{catalog_of};
ghost use Rattle.vll_queue.specs.Shown.{opening};
ghost use Rattle.vll_stream.specs.Served.{EndsEarly, ServesLines, has_calls, is_none};
ghost use Rattle.vll_stream.specs.Private.Stopped.{IsOwn};
ghost use Rattle.vll_stream.specs.Private.Told.{config_for};
ghost use Rattle.vll_stream.specs.declared.fault.StreamFault.TheVariants as fault;

use crate::epoch::{Ended, Then, run_epoch};
use crate::fault::StreamFault;
use crate::snapshot::Snapshot;
use std::alloc::Global;
use std::marker::Brand;
use std::sync::Wait;
use vll_core::{Config, MOST_CALLS, OpenFault};
use vll_engine::Opening;
use vll_lines::{Counts, RoundReader, push_end};
use vll_proc::Call;
use vll_sca::Placing;
use vll_scenario::{MOST_CLIENTS, Scenario, ScenarioParts, Sink, Source, write_text};

/// Makes the calls that the lines of the input ask for, and writes an answer to each line, in the order of the lines.
/// Once the input has ended, it writes a last line with the number of calls and the records. It is what `vll serve` runs.
///
/// It reads what has come, makes these calls one after the other in the order of their lines, writes and flushes their
/// answers, and reads again: it answers every complete line before it asks for more input.
///
/// The records, procedures, cap, bits, hash and the number of clients are those of the scenario. Its scripts must be
/// empty, or the result is `Calls`; its limit and its schedule are ignored. Any other fault ends the service before the
/// input ends: what was written by then answers the first lines, as if no others had come. The result is `Read` or
/// `Write` exactly if the reader or the writer has failed.
pub fn serve_stream<S: Source, W: Sink>(
    wait: &impl Wait,
    alloc: Global,
    scenario: Scenario,
    reader: &mut S,
    writer: &mut W,
) -> Result<(), StreamFault>
    requires reader { S.failed reader.old ≡ false }
    requires writer { W.failed writer.old ≡ false }
    ensures ok { OnOk result (ServesLines scenario (S.remaining reader.old) (S.remaining reader.new)
        (Appends (W.contents writer.old) (W.contents writer.new))) }
    ensures err { IfErr result (λ why. EndsEarly scenario why (S.remaining reader.old) (S.remaining reader.new)
        (W.contents writer.old) (W.contents writer.new)) }
    ensures calls { (result ≡ Err fault.Calls) ↔ (has_calls scenario ≡ true) }
    ensures untouched { result ≡ Err fault.Calls → (reader.new ≡ reader.old) × (writer.new ≡ writer.old) }
    ensures read { (result ≡ Err fault.Read) ↔ (S.failed reader.new ≡ true) }
    ensures write { (result ≡ Err fault.Write) ↔ (W.failed writer.new ≡ true) }
{
    let (mut opening, values) = service_opening(alloc, scenario)?;
    let room = Vec::with_capacity(alloc, MOST_CALLS as usize)?;
    let mut snapshot = Snapshot::new(values, room);
    let mut rounds = RoundReader::new(alloc)?;
    let mut tail = Vec::new(alloc);
    let mut counts = Counts::none();
    for _ in wait.forever() {
        let ended = run_epoch::<Brand, S, W>(
            wait,
            alloc,
            opening,
            &mut rounds,
            reader,
            writer,
            &mut tail,
            counts,
            snapshot,
        )?;
        let Ended {
            counts: reached,
            then,
        } = ended;
        match then {
            Then::Over(records) => {
                let text = push_end(Vec::new(alloc), reached.calls, records.as_slice())?;
                write_text(writer, text.as_slice())?;
                return Ok(());
            }
            Then::On(next, taken) => {
                opening = next;
                snapshot = taken;
                counts = reached;
            }
        }
    }
    unreachable!()
}

// An engine over a scenario's records and procedures, with its cap, bits and hash, and a client for each script. Returns
// the records too.
fn service_opening(
    alloc: Global,
    scenario: Scenario,
) -> Result<(Opening<Placing>, Vec<u64>), StreamFault>
    ensures opened { IfOk result (λ o. o.0 ≡ opening o.0.table (catalog_of scenario) scenario.records (config_for scenario) scenario.placing (length scenario.scripts)) }
    ensures records { IfOk result (λ o. o.1.items ≡ scenario.records) }
    ensures few { IfOk result (λ o. o.0.clients ≤ MOST_CLIENTS) }
    ensures calls { (result ≡ Err fault.Calls) ↔ (has_calls scenario ≡ true) }
    ensures fault { IfErr result (λ why. (why ≡ fault.Calls) ⊎ IsOwn why) }
{
    let ScenarioParts {
        records,
        library,
        scripts,
        config,
        placing,
        ..
    } = scenario.into_parts();
    if !are_empty(scripts.as_slice()) {
        return Err(StreamFault::Calls);
    }
    let config = Config {
        cap: config.cap,
        limit: MOST_CALLS,
        bits: config.bits,
    };
    let clients = scripts.len() as u32;
    let values = records.clone()?;
    match Opening::new(alloc, records, library, config, placing, clients) {
        Ok(opening) => Ok((opening, values)),
        Err(OpenFault::NoMemory) => Err(StreamFault::NoMemory),
        // A scenario has the sizes that an engine can be opened with.
        Err(OpenFault::Records | OpenFault::Limit | OpenFault::Cap | OpenFault::Bits) => {
            unreachable!()
        }
    }
}

fn are_empty(scripts: &[Vec<Call>]) -> bool
    ensures { result ≡ list_all (λ script. is_none script.items) scripts.now }
{
    scripts.iter().all(|script| is_empty(script))
}

fn is_empty(script: &Vec<Call>) -> bool
    ensures { result ≡ is_none script.now.items }
{
    script.is_empty()
}
