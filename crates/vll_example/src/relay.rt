//! News from one client to the other.
ghost use Rattle.std.specs.Prelude.{◌≡◌, ◌<◌, ◌++◌, ◌∷◌, [], IfOk};

use std::sync::Wait;
use vll_core::Ticket;
use vll_engine::{Client, Engine, EngineFault, Name, news_orders_calls};
use vll_sca::Placing;

/// Makes a transfer of the first client, passes news of it to the other one, and then makes that one's transfer.
/// Returns the tickets of both, whose replies the first and the other were given; the second is higher.
pub(crate) fn relay<N: Name>(
    rt: &impl Wait,
    engine: &Engine<N, Placing>,
    first: &mut Client<N>,
    other: &mut Client<N>,
) -> Result<(Ticket, Ticket), EngineFault>
    ensures order { IfOk result (λ tickets. tickets.0 < tickets.1) }
    ensures first { IfOk result (λ tickets. first.new.session.given ≡ first.old.session.given ++ tickets.0 ∷ []) }
    ensures other { IfOk result (λ tickets. other.new.session.given ≡ other.old.session.given ++ tickets.1 ∷ []) }
{
    news_orders_calls();
    let (told, _) = first.call(rt, engine, "transfer", &[0, 1, 5])?;
    let news = first.tell(engine);
    other.hear(engine, news);
    let (behind, _) = other.call(rt, engine, "transfer", &[0, 1, 5])?;
    Ok((told, behind))
}
