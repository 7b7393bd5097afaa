//! The faults with which the program ends: the line that is printed, and the exit status.
ghost use Rattle.std.specs.Prelude.{◌<◌};

use std::io;
use thiserror::Error;
use vll_command::CommandFault;
use vll_explain::Refusal;
use vll_server::{ScenarioFault, ServeFault, WriteFault};
use vll_stream::StreamFault;
use vll_trace::TraceFault;

/// Why there is no scenario.
#[derive(Debug, Drop, Error)]
#[error("{refusal}")]
pub(crate) struct NoScenario {
    pub(crate) refusal: Refusal,
    /// The path of the file, and what the system says of it, if it could not be read.
    pub(crate) unread: Option<(String, io::Error)>,
}

/// Why the program ended without an outcome. Its text is the line that is printed.
#[derive(Debug, Drop, Error)]
pub(crate) enum Fault {
    /// No action is performed, since the words ask for none, or the text that they ask for could not be printed.
    #[error("vll: {0}")]
    CommandLine(CommandFault),
    /// There is no scenario to run, to replay or to draw.
    #[error("vll: scenario: {0}")]
    Scenario(NoScenario),
    #[error("vll: run: {0}")]
    Run(ServeFault),
    /// There is no scenario for a service.
    #[error("vll: scenario: {0}")]
    File(NoScenario),
    #[error("vll: serve: {0}")]
    Serve(StreamFault),
    #[error("vll: replay: {0}")]
    Replay(WriteFault),
    #[error("vll: explain: {0}")]
    Explain(WriteFault),
    /// The scenario is refused with this fault. Its line has been printed, with the explanation.
    #[error("vll: scenario: {0}")]
    Explained(ScenarioFault),
    #[error("vll: draw: {0}")]
    Draw(WriteFault),
    #[error("vll: trace: {0}")]
    Trace(TraceFault),
}

impl Fault {
    /// Returns the program's exit status: 2 if what it was given is refused, and 1 if the run or the replay failed.
    pub(crate) fn status(&self) -> u8
        ensures { 0 < result }
    {
        match self {
            Fault::CommandLine(_)
            | Fault::Scenario(_)
            | Fault::File(_)
            | Fault::Serve(StreamFault::Calls)
            | Fault::Explained(_) => 2,
            Fault::Run(_)
            | Fault::Serve(_)
            | Fault::Replay(_)
            | Fault::Draw(_)
            | Fault::Explain(_)
            | Fault::Trace(_) => 1,
        }
    }
}
