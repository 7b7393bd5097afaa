//! The name of an engine, on which the engine, its lock, its passes and its sessions agree.
use std::marker::Brand;

/// Names which words an engine has and what it was opened with, so that the engine, the value behind its lock, its
/// passes and its sessions agree. It has no functions. A caller starts an engine in a function that is generic over
/// `N: Name`, takes the `Opening` and has no other type over `N` in its signature, and calls that function with
/// `std::marker::Brand`.
pub trait Name {
    ghost use Rattle.vll_queue.specs.Shown.{Named};

    ghost engine: { Named };
}

impl Name for Brand {
    ghost use Rattle.vll_queue.specs.Shown.{no_engine};

    ghost engine = { no_engine };
}
