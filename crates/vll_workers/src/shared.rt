//! An engine as threads share it: a bound that lets a reference to it be passed to a thread.
use vll_engine::{Engine, Name};
use vll_sca::Place;

// An engine as threads share it. A bound with `Sync` lets a reference to it be passed to a thread, whatever it is made
// of.
pub(crate) trait Shared<N: Name, H: Place + Send + Drop> {
    fn engine(&self) -> &Engine<N, H>;
}

impl<N: Name, H: Place + Send + Drop> Shared<N, H> for Engine<N, H> {
    fn engine(&self) -> &Engine<N, H> {
        self
    }
}
