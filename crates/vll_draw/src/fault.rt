//! The faults for which a page is not written in full.
use thiserror::Error;
use vll_scenario::ScenarioFault;

/// Why a page was not written in full.
#[derive(Clone, Copy, PartialEq, Eq, Debug, Error)]
pub enum DrawFault {
    /// There is no scenario to draw. Nothing has been written.
    #[error("scenario: {0}")]
    Scenario(ScenarioFault),
    /// Memory ran out after the scenario was read. Nothing has been written.
    #[error("draw: no memory")]
    NoMemory,
    /// The page was not written in full.
    #[error("draw: write")]
    Write,
}
