//! Why a run failed, and its tokens then.
ghost use Rattle.std.specs.Prelude.{◌≡◌};

use thiserror::Error;
use vll_tokens::Token;

/// Why a run failed.
#[derive(Clone, Copy, PartialEq, Eq, Debug, Error)]
pub enum RunFault {
    /// The run did not begin for lack of memory: the tokens are as they were passed.
    #[error("no memory")]
    NoMemory,
    /// No worker could be started: the tokens are as they were passed.
    #[error("spawn")]
    Spawn,
    /// The engine took no more calls, so that some have not entered. All tokens are back.
    #[error("spent")]
    Spent,
}

/// Why a run failed, with its tokens.
#[derive(Drop)]
pub struct RunError {
    pub fault: RunFault,
    pub tokens: Vec<Token>,
}

impl RunError {
    pub(crate) fn new(fault: RunFault, tokens: Vec<Token>) -> RunError
        ensures fault { result.fault ≡ fault }
        ensures tokens { result.tokens ≡ tokens }
    {
        RunError { fault, tokens }
    }
}
