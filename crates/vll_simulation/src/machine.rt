//! The machine's events that a step of the engine stands for. Tickets are plain numbers here.
use vll_core::{Core, Event, Refusal, Seen, Ticket};
use vll_proc::Reply;
use vll_record::MOST_CLAIMS;
use vll_sca::Placing;

// What became of a call that was to enter.
#[derive(Clone, Copy, PartialEq, Eq, Debug)]
pub(crate) enum Entry {
    Free(u32),
    Blocked(u32),
    Spent,
    Busy,
    // Of the machine: its events are not those of an entry.
    OutOfStep,
}

impl Entry {
    // Whether the call has entered.
    pub(crate) fn is_entered(self) -> bool {
        matches!(self, Entry::Free(_) | Entry::Blocked(_))
    }
}

// How a waiting call starts.
#[derive(Clone, Copy)]
pub(crate) enum Start {
    Front,
    Scan,
}

// What a call makes once for each of its claims.
#[derive(Clone, Copy)]
enum Kind {
    Claim,
    Load,
    Store,
    Release,
}

// The next call of a client's script enters, after its source was loaded if it has an indirect key.
pub(crate) fn enters(core: &mut Core<Placing>, client: u32) -> Entry {
    let _ = core.step(Event::Find(client));
    match core.step(Event::Enter(client)) {
        Ok(_) => {}
        Err(Refusal::Spent) => return Entry::Spent,
        Err(Refusal::Busy) => return Entry::Busy,
        Err(_) => return Entry::OutOfStep,
    }
    repeats(core, Kind::Claim, 0);
    match &core.step(Event::Admit) {
        Ok(Seen::Free(ticket)) => Entry::Free(number_of(ticket)),
        Ok(Seen::Blocked(ticket)) => Entry::Blocked(number_of(ticket)),
        _ => Entry::OutOfStep,
    }
}

// The ticket of the call that starts so, if any.
pub(crate) fn starts(core: &mut Core<Placing>, how: Start) -> Option<u32> {
    let seen = match how {
        Start::Front => core.step(Event::Front),
        Start::Scan => core.step(Event::Scan),
    };
    match &seen {
        Ok(Seen::Run(ticket)) => Some(number_of(ticket)),
        _ => None,
    }
}

fn number_of(ticket: &Ticket) -> u32 {
    ticket.0
}

// A running call makes its loads and its stores.
pub(crate) fn executes(core: &mut Core<Placing>, ticket: u32) {
    repeats(core, Kind::Load, ticket);
    repeats(core, Kind::Store, ticket);
}

// A running call releases its claims.
pub(crate) fn releases(core: &mut Core<Placing>, ticket: u32) {
    repeats(core, Kind::Release, ticket);
}

// A running call is gone; its reply.
pub(crate) fn finishes(core: &mut Core<Placing>, ticket: u32) -> Option<Reply> {
    match core.step(Event::Finish(Ticket(ticket))) {
        Ok(Seen::Replied(reply)) => Some(reply),
        _ => None,
    }
}

// Makes an event of this kind until it is refused, at the latest after one for each claim.
fn repeats(core: &mut Core<Placing>, kind: Kind, ticket: u32) {
    for _ in 0..=MOST_CLAIMS {
        if core.step(event_of(kind, ticket)).is_err() {
            return;
        }
    }
}

fn event_of(kind: Kind, ticket: u32) -> Event {
    match kind {
        Kind::Claim => Event::Claim,
        Kind::Load => Event::Load(Ticket(ticket)),
        Kind::Store => Event::Store(Ticket(ticket)),
        Kind::Release => Event::Release(Ticket(ticket)),
    }
}
