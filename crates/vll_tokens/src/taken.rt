//! The tokens that a worker has taken.
ghost use Rattle.std.specs.Prelude.{◌≡◌, [], IfOk};

use crate::stack::Stack;
use crate::token::Token;
use std::alloc::{AllocError, Global};

/// The tokens that a worker has taken: those whose next calls are to begin, and those whose calls were tried and that go
/// back to the pool or stay in hand.
#[derive(Drop)]
pub struct Taken {
    pub untried: Stack<Token>,
    pub tried: Stack<Token>,
}

impl Taken {
    /// The lists of a worker that has taken no token yet. Fails only if an allocation fails.
    pub fn new(alloc: Global) -> Result<Taken, AllocError>
        ensures untried { IfOk result (λ t. t.untried ≡ []) }
        ensures tried { IfOk result (λ t. t.tried ≡ []) }
    {
        Ok(Taken {
            untried: Stack::new(alloc)?,
            tried: Stack::new(alloc)?,
        })
    }
}
