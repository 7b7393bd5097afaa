//! The faults for which a replay is not written in full.
use thiserror::Error;
use vll_scenario::ScenarioFault;

/// Why a replay was not written in full.
#[derive(Clone, Copy, PartialEq, Eq, Debug, Error)]
pub enum ReplayFault {
    /// There is no scenario to replay. Nothing has been written.
    #[error("scenario: {0}")]
    Scenario(ScenarioFault),
    /// Memory ran out after the scenario was read. Nothing has been written.
    #[error("replay: no memory")]
    NoMemory,
    /// The text was not written in full.
    #[error("replay: write")]
    Write,
}
