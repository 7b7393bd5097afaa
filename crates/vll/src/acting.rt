//! The actions of the program, over any reader and writer. `main` passes standard input and output.
ghost use Rattle.std.specs.Prelude.{◌≡◌, ◌<◌, ◌≤◌, ◌+◌, ◌↔◌, ℕ, false, true, Err, IfOk, IfSome, None, OnOk, Some, string_bytes};
ghost use Rattle.std.specs.Io.KnownBytes.{Appends};
ghost use Rattle.vll_scenario.specs.Streams.{AppendsBeginning};
ghost use Rattle.vll_scenario.specs.declared.fault.ScenarioFault.{ScenarioFault};
ghost use Rattle.vll_scenario.specs.Options.{with_options};
ghost use Rattle.vll_explain.specs.Explained.{Explains};
ghost use Rattle.vll.specs.declared.fault.NoScenario.{NoScenario};
ghost use Rattle.vll_replay.specs.Replay.{text_of_setup};
ghost use Rattle.vll_server.specs.Headline.Serve.{Serves};
ghost use Rattle.vll_server.specs.declared.fault.ServeFault.{ServeFault};
ghost use Rattle.vll_server.specs.declared.fault.ServeFault.TheVariants as serve_fault;
ghost use Rattle.vll_workers.specs.declared.fault.RunFault.TheVariants as run_fault;
ghost use Rattle.vll_scenario.specs.declared.writing.WriteFault.TheVariants as write_fault;
ghost use Rattle.vll_stream.specs.declared.fault.StreamFault.{StreamFault};
ghost use Rattle.vll_stream.specs.declared.fault.StreamFault.TheVariants as stream_fault;
ghost use Rattle.vll_trace.specs.Traced.{IsTreeOf, Traces};
ghost use Rattle.vll_trace.specs.declared.fault.TraceFault.TheVariants as trace_fault;
ghost use Rattle.vll.specs.Private.Acting.{DrawsSetup, HasFault, ParsesOrNot, ReadsFrom, ReadsOrNot, ServesFile, StopsFile, explanation_in};
ghost use Rattle.vll.specs.declared.fault.Fault.TheVariants as fault;

use crate::fault::{Fault, NoScenario};
use crate::input_file::opened;
use clap::Error;
use std::alloc::Global;
use std::io;
use std::rt::Files;
use std::sync::Wait;
use std::thread::Threads;
use vll_command::{CommandFault, Input, RunOptions, ServeOptions};
use vll_draw::page_of;
use vll_explain::{Origin, Parsed, explain, read_or_explain};
use vll_replay::{Unwatched, text_of_replay};
use vll_scenario::{EngineOptions, EventRange};
use vll_server::{Scenario, Sink, Source, WriteFault, write_text};
use vll_stream::serve_stream;
use vll_workers::{MOST_WORKERS, OpenGate};

// Prints a help text or the version. One that cannot be printed has no line of its own.
pub(crate) fn print_text(rt: &(impl Print + Eprint), text: &Error) -> Result<(), Fault>
    ensures { explanation_in result ≡ None }
{
    match text.print(rt) {
        Ok(()) => Ok(()),
        Err(why) => {
            tell_failure(rt, "standard output", Some(why));
            Err(Fault::CommandLine(CommandFault::Failed))
        }
    }
}

// Reads a scenario from standard input, which is the reader, or from a file.
pub(crate) fn scenario_of<R: Files, S: Source>(
    rt: &R,
    alloc: Global,
    input: Input,
    reader: &mut S,
) -> Result<Scenario, NoScenario>
    requires { S.failed reader.old ≡ false }
    ensures { ReadsFrom input (reader.new ≡ reader.old) (S.remaining reader.old) (S.remaining reader.new) (λ a b. ReadsOrNot a b result) }
{
    match parsed_of(rt, alloc, input, reader) {
        Ok(parsed) => Ok(parsed.scenario),
        Err(none) => Err(none),
    }
}

// The same, with the tree that describes the scenario.
pub(crate) fn parsed_of<R: Files, S: Source>(
    rt: &R,
    alloc: Global,
    input: Input,
    reader: &mut S,
) -> Result<Parsed, NoScenario>
    requires { S.failed reader.old ≡ false }
    ensures parsed { ReadsFrom input (reader.new ≡ reader.old) (S.remaining reader.old) (S.remaining reader.new) (λ a b. ParsesOrNot a b result) }
    ensures tree { IfOk result (λ parsed. IsTreeOf parsed.tree parsed.scenario) }
{
    match input {
        Input::Standard => match read_or_explain(alloc, Origin::Standard, reader) {
            Ok(parsed) => Ok(parsed),
            Err(refusal) => Err(NoScenario {
                refusal,
                unread: None,
            }),
        },
        Input::File(path) => parsed_in(rt, alloc, path),
    }
}

// Reads the scenario in a file.
fn parsed_in<R: Files>(rt: &R, alloc: Global, path: String) -> Result<Parsed, NoScenario>
    ensures parsed { ParsesOrNot None None result }
    ensures tree { IfOk result (λ parsed. IsTreeOf parsed.tree parsed.scenario) }
{
    let mut file = opened(rt, path.as_str());
    match read_or_explain(alloc, Origin::File, &mut file) {
        Ok(parsed) => Ok(parsed),
        Err(refusal) => Err(NoScenario {
            refusal,
            unread: file.failure().map(|why| (path, why)),
        }),
    }
}

// Tells on standard error why this was not read or written.
pub(crate) fn tell_failure(rt: &impl Eprint, what: &str, failure: Option<io::Error>) {
    if let Some(why) = failure {
        let _ = eprintln!(rt; "vll: {what}: {why}");
    }
}

// Runs a scenario with these options, and writes the text of the outcome.
pub(crate) fn run<R: Threads + Wait + Sync, W: Sink>(
    rt: &R,
    alloc: Global,
    options: RunOptions,
    scenario: Scenario,
    writer: &mut W,
) -> Result<(), Fault>
    requires { W.failed writer.old ≡ false }
    ensures ok { OnOk result (Serves (with_options options.engine scenario) (Appends (W.contents writer.old) (W.contents writer.new))) }
    ensures write { result ≡ Err (fault.Run serve_fault.Write) → Serves (with_options options.engine scenario)
        (AppendsBeginning (W.contents writer.old) (W.contents writer.new)) }
    ensures before { (why : ServeFault) → result ≡ Err (fault.Run why) → ¬ (why ≡ serve_fault.Write) → writer.new ≡ writer.old }
    ensures failed { (result ≡ Err (fault.Run serve_fault.Write)) ↔ (W.failed writer.new ≡ true) }
    ensures spent { ¬ (result ≡ Err (fault.Run (serve_fault.Run run_fault.Spent))) }
    ensures unfinished { (running waiting : ℕ) → result ≡ Err (fault.Run (serve_fault.Unfinished running waiting))
        → 0 < running + waiting }
    ensures unexplained { explanation_in result ≡ None }
{
    let (scenario, workers) = chosen(scenario, options);
    match vll_server::serve(rt, rt, alloc, scenario, workers, &OpenGate, writer) {
        Ok(()) => Ok(()),
        Err(why) => Err(Fault::Run(why)),
    }
}

// Returns the scenario with the cap and the number of bits that the options give, and how many workers run it.
fn chosen(scenario: Scenario, options: RunOptions) -> (Scenario, u32)
    ensures scenario { result.0 ≡ with_options options.engine scenario }
    ensures workers { result.1 ≡ options.workers }
    ensures within { (1 ≤ result.1) × (result.1 ≤ MOST_WORKERS) }
{
    let scenario = scenario.with_options(options.engine);
    (scenario, options.workers.get())
}

// Reads a scenario from a file, and serves the calls that the reader's lines ask for.
pub(crate) fn serve<R: Threads + Wait + Files + Sync, S: Source, W: Sink>(
    rt: &R,
    alloc: Global,
    options: ServeOptions,
    reader: &mut S,
    writer: &mut W,
) -> Result<(), Fault>
    requires reader { S.failed reader.old ≡ false }
    requires writer { W.failed writer.old ≡ false }
    ensures ok { OnOk result (ServesFile (S.remaining reader.old) (S.remaining reader.new)
        (Appends (W.contents writer.old) (W.contents writer.new))) }
    ensures early { (why : StreamFault) → result ≡ Err (fault.Serve why) → StopsFile why (S.remaining reader.old) (S.remaining reader.new)
        (W.contents writer.old) (W.contents writer.new) }
    ensures read { (result ≡ Err (fault.Serve stream_fault.Read)) ↔ (S.failed reader.new ≡ true) }
    ensures write { (result ≡ Err (fault.Serve stream_fault.Write)) ↔ (W.failed writer.new ≡ true) }
    ensures file { (why : NoScenario) → result ≡ Err (fault.File why) → (reader.new ≡ reader.old) × (writer.new ≡ writer.old) }
    ensures explained { IfSome (explanation_in result) (λ text. (reader.new ≡ reader.old) × HasFault None None (λ t. t ≡ string_bytes text)) }
{
    let ServeOptions { file, engine } = options;
    match parsed_in(rt, alloc, file) {
        Ok(Parsed { tree, scenario }) => {
            drop(tree);
            let scenario = with_engine(scenario, engine);
            match serve_stream(rt, alloc, scenario, reader, writer) {
                Ok(()) => Ok(()),
                Err(why) => Err(Fault::Serve(why)),
            }
        }
        Err(why) => Err(Fault::File(why)),
    }
}

// Returns the scenario with these options of its engine.
fn with_engine(scenario: Scenario, engine: EngineOptions) -> Scenario
    ensures { result ≡ with_options engine scenario }
{
    scenario.with_options(engine)
}

// Writes the text of the replay of a scenario's schedule.
pub(crate) fn replay<W: Sink>(
    alloc: Global,
    scenario: Scenario,
    writer: &mut W,
) -> Result<(), Fault>
    requires { W.failed writer.old ≡ false }
    ensures ok { OnOk result (Appends (W.contents writer.old) (W.contents writer.new) (text_of_setup scenario)) }
    ensures write { result ≡ Err (fault.Replay write_fault.Write)
        → AppendsBeginning (W.contents writer.old) (W.contents writer.new) (text_of_setup scenario) }
    ensures no_memory { result ≡ Err (fault.Replay write_fault.NoMemory) → writer.new ≡ writer.old }
    ensures failed { (result ≡ Err (fault.Replay write_fault.Write)) ↔ (W.failed writer.new ≡ true) }
    ensures unexplained { explanation_in result ≡ None }
{
    let Ok((text, _)) = text_of_replay(alloc, scenario, &mut Unwatched) else {
        return Err(Fault::Replay(WriteFault::NoMemory));
    };
    match write_text(writer, text.as_bytes()) {
        Ok(()) => Ok(()),
        Err(why) => Err(Fault::Replay(why)),
    }
}

// Reads a scenario, and writes its fault with an explanation, or what the scenario has.
pub(crate) fn explain_input<R: Eprint + Files, S: Source, W: Sink>(
    rt: &R,
    alloc: Global,
    input: &Input,
    reader: &mut S,
    writer: &mut W,
) -> Result<(), Fault>
    requires reader { S.failed reader.old ≡ false }
    requires writer { W.failed writer.old ≡ false }
    ensures ok { OnOk result (ReadsFrom input.now (reader.new ≡ reader.old) (S.remaining reader.old) (S.remaining reader.new)
        (λ a b. Explains a b None (Appends (W.contents writer.old) (W.contents writer.new)))) }
    ensures explained { (why : ScenarioFault) → result ≡ Err (fault.Explained why)
        → ReadsFrom input.now (reader.new ≡ reader.old) (S.remaining reader.old) (S.remaining reader.new)
        (λ a b. Explains a b (Some why) (Appends (W.contents writer.old) (W.contents writer.new))) }
    ensures no_memory { result ≡ Err (fault.Explain write_fault.NoMemory) → writer.new ≡ writer.old }
    ensures failed { (result ≡ Err (fault.Explain write_fault.Write)) ↔ (W.failed writer.new ≡ true) }
    ensures unexplained { explanation_in result ≡ None }
{
    match input {
        Input::Standard => explain_fault(alloc, Origin::Standard, reader, writer),
        Input::File(path) => {
            let mut file = opened(rt, path.as_str());
            let explained = explain_fault(alloc, Origin::File, &mut file, writer);
            tell_failure(rt, path.as_str(), file.failure());
            explained
        }
    }
}

// Reads a scenario, and writes its fault with an explanation, or what the scenario has.
fn explain_fault<S: Source, W: Sink>(
    alloc: Global,
    origin: Origin,
    reader: &mut S,
    writer: &mut W,
) -> Result<(), Fault>
    requires reader { S.failed reader.old ≡ false }
    requires writer { W.failed writer.old ≡ false }
    ensures ok { OnOk result (Explains (S.remaining reader.old) (S.remaining reader.new) None
        (Appends (W.contents writer.old) (W.contents writer.new))) }
    ensures explained { (why : ScenarioFault) → result ≡ Err (fault.Explained why)
        → Explains (S.remaining reader.old) (S.remaining reader.new) (Some why)
        (Appends (W.contents writer.old) (W.contents writer.new)) }
    ensures no_memory { result ≡ Err (fault.Explain write_fault.NoMemory) → writer.new ≡ writer.old }
    ensures failed { (result ≡ Err (fault.Explain write_fault.Write)) ↔ (W.failed writer.new ≡ true) }
    ensures unexplained { explanation_in result ≡ None }
{
    match explain(alloc, origin, reader, writer) {
        Ok(None) => Ok(()),
        Ok(Some(why)) => Err(Fault::Explained(why)),
        Err(why) => Err(Fault::Explain(why)),
    }
}

// Runs a scenario with these options, and writes it with the schedule of the run.
pub(crate) fn trace<R: Threads + Wait + Sync, W: Sink>(
    rt: &R,
    alloc: Global,
    options: RunOptions,
    parsed: Parsed,
    writer: &mut W,
) -> Result<(), Fault>
    requires tree { IsTreeOf parsed.tree parsed.scenario }
    requires writer { W.failed writer.old ≡ false }
    ensures ok { OnOk result (Traces (with_options options.engine parsed.scenario) (Appends (W.contents writer.old) (W.contents writer.new))) }
    ensures failed { (result ≡ Err (fault.Trace trace_fault.Write)) ↔ (W.failed writer.new ≡ true) }
    ensures unexplained { explanation_in result ≡ None }
{
    let Parsed { tree, scenario } = parsed;
    let (scenario, workers) = chosen(scenario, options);
    match vll_trace::trace(rt, rt, alloc, &tree, scenario, workers, writer) {
        Ok(()) => Ok(()),
        Err(why) => Err(Fault::Trace(why)),
    }
}

// Writes the page that draws the replay of a scenario's schedule.
pub(crate) fn draw<W: Sink>(
    alloc: Global,
    scenario: Scenario,
    writer: &mut W,
    window: EventRange,
) -> Result<(), Fault>
    requires { W.failed writer.old ≡ false }
    ensures ok { OnOk result (DrawsSetup scenario (Appends (W.contents writer.old) (W.contents writer.new))) }
    ensures write { result ≡ Err (fault.Draw write_fault.Write)
        → DrawsSetup scenario (AppendsBeginning (W.contents writer.old) (W.contents writer.new)) }
    ensures no_memory { result ≡ Err (fault.Draw write_fault.NoMemory) → writer.new ≡ writer.old }
    ensures failed { (result ≡ Err (fault.Draw write_fault.Write)) ↔ (W.failed writer.new ≡ true) }
    ensures unexplained { explanation_in result ≡ None }
{
    let Ok(page) = page_of(alloc, scenario, window) else {
        return Err(Fault::Draw(WriteFault::NoMemory));
    };
    match write_text(writer, page.as_bytes()) {
        Ok(()) => Ok(()),
        Err(why) => Err(Fault::Draw(why)),
    }
}
