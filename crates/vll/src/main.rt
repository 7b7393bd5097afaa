//! The program `vll`: reads a scenario from standard input or a file, runs it, replays its schedule, draws the replay,
//! explains its fault or traces a run, and writes the result; or serves calls over the scenario of a file.
#![tactic(auto)]

ghost use Rattle.std.specs.Prelude.{◌≡◌, ◌↔◌, ◌⊎◌, false, IfNone, IfSome, IsOk, OnOk, string_bytes};
ghost use Rattle.std.specs.Io.KnownBytes.{Appends};
ghost use Rattle.std.specs.Process.{exit_status};
ghost use Rattle.vll_scenario.specs.Streams.{AppendsBeginning};
ghost use Rattle.vll.specs.Private.Acting.{Performs, RefusesAsked, explanation_in, explanation_of};

mod acting;
mod fault;
mod input_file;

use crate::acting::{
    draw, explain_input, parsed_of, print_text, replay, run, scenario_of, serve, tell_failure,
    trace,
};
use crate::fault::{Fault, NoScenario};
use std::process::ExitCode;
use std::rt::{Env, Files};
use std::sync::Wait;
use std::thread::Threads;
use std::{env, io};
use vll_command::{Action, CommandFault, action_of};
use vll_server::{Plain, Sink, Source, write_text};
use vll_stream::StreamFault;

// It passes standard input as the reader, standard output as the writer, and standard error for explanations.
fn main(rt: HostRuntime) -> ExitCode {
    let asked = action_asked(&rt);
    let mut reader = Plain::new(rt.reader());
    let mut writer = Plain::new(io::writer(&rt));
    let stderr = rt.stderr();
    let mut errors = Plain::new(io::writer(&stderr));
    let status = work(&rt, asked, &mut reader, &mut writer, &mut errors);
    tell_failure(&rt, "standard input", reader.failure());
    tell_failure(&rt, "standard output", writer.failure());
    status
}

// What the command line asks for.
fn action_asked<R: Env + AllocGlobal>(rt: &R) -> Result<Action, CommandFault> {
    let words = words_of(rt).map_err(|_| CommandFault::Failed)?;
    action_of(rt.alloc(), words.as_slice())
}

// The words of the command line. One that is not text is an error.
fn words_of(rt: &(impl Env + AllocGlobal)) -> io::Result<Vec<String>> {
    Ok(env::args(rt)?.collect(rt.alloc())?)
}

// Performs the action that was asked for, and prints the line of a fault. If a scenario is refused, `errors` gets the
// explanation. The exit status is 0 only if the action was performed. For a `Tell` neither `reader` nor `writer` is used,
// and for a file that is read in its place not `reader`.
fn work<
    R: Print + Eprint + AllocGlobal + Threads + Wait + Files + Sync,
    S: Source,
    W: Sink,
    E: Sink,
>(
    rt: &R,
    asked: Result<Action, CommandFault>,
    reader: &mut S,
    writer: &mut W,
    errors: &mut E,
) -> ExitCode
    requires reader { S.failed reader.old ≡ false }
    requires writer { W.failed writer.old ≡ false }
    requires errors { E.failed errors.old ≡ false }
    ensures performed { exit_status result ≡ 0 → Performs asked (reader.new ≡ reader.old) (S.remaining reader.old) (S.remaining reader.new)
        (Appends (W.contents writer.old) (W.contents writer.new)) }
    ensures explained { (errors.new ≡ errors.old) ⊎ RefusesAsked asked (reader.new ≡ reader.old) (S.remaining reader.old) (S.remaining reader.new)
        (AppendsBeginning (E.contents errors.old) (E.contents errors.new)) }
{
    let done = perform(rt, asked, reader, writer);
    ended(rt, &done, errors)
}

// Performs the action that was asked for.
fn perform<R: Print + Eprint + AllocGlobal + Threads + Wait + Files + Sync, S: Source, W: Sink>(
    rt: &R,
    asked: Result<Action, CommandFault>,
    reader: &mut S,
    writer: &mut W,
) -> Result<(), Fault>
    requires reader { S.failed reader.old ≡ false }
    requires writer { W.failed writer.old ≡ false }
    ensures performed { OnOk result (Performs asked (reader.new ≡ reader.old) (S.remaining reader.old) (S.remaining reader.new)
        (Appends (W.contents writer.old) (W.contents writer.new))) }
    ensures refused { IfSome (explanation_in result) (λ text. RefusesAsked asked (reader.new ≡ reader.old) (S.remaining reader.old) (S.remaining reader.new)
        (λ t. t ≡ string_bytes text)) }
{
    let alloc = rt.alloc();
    match asked {
        Ok(Action::Tell(text)) => print_text(rt, &text),
        Ok(Action::Run(input, options)) => match scenario_of(rt, alloc, input, reader) {
            Ok(scenario) => run(rt, alloc, options, scenario, writer),
            Err(none) => Err(Fault::Scenario(none)),
        },
        Ok(Action::Serve(options)) => serve(rt, alloc, options, reader, writer),
        Ok(Action::Replay(input)) => match scenario_of(rt, alloc, input, reader) {
            Ok(scenario) => replay(alloc, scenario, writer),
            Err(none) => Err(Fault::Scenario(none)),
        },
        Ok(Action::Explain(input)) => explain_input(rt, alloc, &input, reader, writer),
        Ok(Action::Draw(input, window)) => match scenario_of(rt, alloc, input, reader) {
            Ok(scenario) => draw(alloc, scenario, writer, window),
            Err(none) => Err(Fault::Scenario(none)),
        },
        Ok(Action::Trace(input, options)) => match parsed_of(rt, alloc, input, reader) {
            Ok(parsed) => trace(rt, alloc, options, parsed, writer),
            Err(none) => Err(Fault::Scenario(none)),
        },
        Err(why) => Err(Fault::CommandLine(why)),
    }
}

// Tells a fault, and returns the exit status, which is 0 exactly if all went well.
fn ended<E: Sink>(rt: &(impl Print + Eprint), done: &Result<(), Fault>, errors: &mut E) -> ExitCode
    requires { E.failed errors.old ≡ false }
    ensures status { (exit_status result ≡ 0) ↔ IsOk done.now }
    ensures explained { IfSome (explanation_in done.now) (λ text. AppendsBeginning (E.contents errors.old) (E.contents errors.new) (string_bytes text)) }
    ensures quiet { IfNone (explanation_in done.now) (errors.new ≡ errors.old) }
{
    match done {
        Ok(()) => ExitCode::from(0),
        Err(fault) => {
            tell(rt, fault, errors);
            ExitCode::from(fault.status())
        }
    }
}

// Prints the line of a fault, unless it was printed, and explains it on standard error. A service's line goes to standard
// error, since standard output has its answers. If that fails, only the status reports the fault.
fn tell<E: Sink>(rt: &(impl Print + Eprint), fault: &Fault, errors: &mut E)
    requires { E.failed errors.old ≡ false }
    ensures explained { IfSome (explanation_of fault.now) (λ text. AppendsBeginning (E.contents errors.old) (E.contents errors.new) (string_bytes text)) }
    ensures quiet { IfNone (explanation_of fault.now) (errors.new ≡ errors.old) }
{
    match fault {
        Fault::Explained(_) => {}
        Fault::Scenario(none) => {
            let _ = println!(rt; "{fault}");
            tell_explanation(rt, none, errors);
        }
        Fault::File(none) => {
            if none.refusal.text.is_none() {
                let _ = eprintln!(rt; "{fault}");
            }
            tell_explanation(rt, none, errors);
        }
        Fault::Serve(why) => {
            let _ = eprintln!(rt; "{fault}");
            tell_what_to_do(rt, *why);
        }
        Fault::CommandLine(why) => {
            let _ = println!(rt; "{fault}");
            if let CommandFault::Refused(text) = why {
                let _ = text.print(rt);
            }
        }
        _ => {
            let _ = println!(rt; "{fault}");
        }
    }
}

// Tells on standard error why there is no scenario, as far as it can be written.
fn tell_explanation<E: Sink>(rt: &impl Eprint, none: &NoScenario, errors: &mut E)
    requires { E.failed errors.old ≡ false }
    ensures explained { IfSome none.now.refusal.text (λ text. AppendsBeginning (E.contents errors.old) (E.contents errors.new) (string_bytes text)) }
    ensures quiet { IfNone none.now.refusal.text (errors.new ≡ errors.old) }
{
    if let Some(text) = &none.refusal.text {
        let _ = write_text(errors, text.as_bytes());
    }
    if let Some((path, why)) = &none.unread {
        tell_failure(rt, path.as_str(), Some(*why));
    }
}

// Tells on standard error what to do about a fault of a service.
fn tell_what_to_do(rt: &impl Eprint, why: StreamFault) {
    if why == StreamFault::Calls {
        let _ = eprintln!(rt;
            "the file has calls, and a service takes them from its lines: leave each list in \"clients\" empty, or use `vll run`"
        );
    }
}
