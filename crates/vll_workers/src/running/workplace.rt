//! What the workers of a run share, in the form in which it is passed to their threads.
ghost use Rattle.std.specs.Prelude.{◌≡◌};

use crate::gate::Gate;
use crate::shared::Shared;
use crate::solo::Solo;
use crate::work::Work;
use std::sync::{Mutex, Wait};
use vll_engine::Name;
use vll_sca::Place;
use vll_tokens::{Pool, Roster};

// What the workers of a run share, in the form in which it is passed to their threads.
#[derive_where(Clone, Copy)]
pub(super) struct Workplace<'a, X, T: Roster, W, G> {
    pub(super) wait: &'a W,
    pub(super) shared: &'a X,
    pub(super) pool: &'a Pool<T>,
    // Locked until the tokens are in the pool.
    pub(super) door: &'a Mutex<()>,
    pub(super) solo: &'a Solo,
    pub(super) gate: &'a G,
}

// The workplace as a `Work`, with its engine.
pub(super) fn work_at<
    'a,
    N: Name,
    H: Place + Send + Drop,
    X: Shared<N, H>,
    T: Roster,
    W: Wait,
    G: Gate,
>(workplace: Workplace<'a, X, T, W, G>) -> Work<'a, N, H, T, W, G>
    ensures { result.pool.now ≡ workplace.entry.pool.now }
{
    let Workplace {
        wait,
        shared,
        pool,
        door,
        solo,
        gate,
    } = workplace;
    Work {
        wait,
        engine: shared.engine(),
        pool,
        door,
        solo,
        gate,
    }
}
