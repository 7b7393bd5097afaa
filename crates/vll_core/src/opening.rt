//! The rules of opening: what is refused before any memory is requested.
ghost use Rattle.std.specs.Prelude.{◌≡◌};
ghost use Rattle.vll_core.specs.Faults.{config_fault, is_up_to, open_fault};

use crate::config::{Config, MOST_CALLS, MOST_RECORDS, MOST_WAITING, OpenFault};
use vll_sca::MOST_BITS;

/// Returns why nothing can be opened with `records` records and this configuration: the first fault that applies, or
/// `None` if none does. It never returns `NoMemory`.
pub fn open_fault(records: usize, config: Config) -> Option<OpenFault>
    ensures { result ≡ open_fault records config }
{
    if !is_up_to(records, MOST_RECORDS) {
        return Some(OpenFault::Records);
    }
    config_fault(config)
}

// Returns why no queue can be opened with this configuration: the first fault that applies.
pub(crate) fn config_fault(config: Config) -> Option<OpenFault>
    ensures { result ≡ config_fault config }
{
    if !is_up_to(config.limit as usize, MOST_CALLS as usize) {
        return Some(OpenFault::Limit);
    }
    if !is_up_to(config.cap as usize, MOST_WAITING as usize) {
        return Some(OpenFault::Cap);
    }
    if !is_up_to(config.bits as usize, MOST_BITS as usize) {
        return Some(OpenFault::Bits);
    }
    None
}

// Reports whether `n` is from 1 to `most`.
fn is_up_to(n: usize, most: usize) -> bool
    ensures { result ≡ is_up_to most n }
{
    1 <= n && n <= most
}
