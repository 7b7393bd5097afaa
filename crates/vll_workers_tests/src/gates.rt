//! Gates for the tests, which count calls, or hold calls or workers back.
use std::alloc::Global;
use std::sync::atomic::{AtomicBool, AtomicU64, Ordering};
use std::test::Fail;
use std::thread::yield_now;
use vll_core::Ticket;
use vll_workers::Gate;

// How long the first call waits for the second.
const MOST_TURNS: u64 = 100_000_000;

// How long the first call waits for many others, in turns that let other threads run.
const PATIENT_TURNS: u64 = 5_000_000;

// Holds ticket 0 back until ticket 1 has its reply.
#[derive(Drop)]
pub(crate) struct Meeting {
    // How many turns ticket 0 has waited.
    pub(crate) turns: AtomicU64,
    pub(crate) has_begun: AtomicU64,
    pub(crate) has_met: AtomicU64,
}

impl Meeting {
    pub(crate) fn new() -> Meeting {
        Meeting {
            turns: AtomicU64::new(0),
            has_begun: AtomicU64::new(0),
            has_met: AtomicU64::new(0),
        }
    }
}

impl Gate for Meeting {
    fn before(&self, ticket: Ticket) {
        if ticket != Ticket(0) {
            return;
        }
        self.has_begun.store(1, Ordering::SeqCst);
        for turns in 0..MOST_TURNS {
            if self.has_met.load(Ordering::SeqCst) == 1 {
                self.turns.store(turns, Ordering::SeqCst);
                return;
            }
        }
        self.turns.store(MOST_TURNS, Ordering::SeqCst);
    }

    fn after(&self, ticket: Ticket) {
        if ticket == Ticket(1) {
            self.has_met.store(1, Ordering::SeqCst);
        }
    }
}

// Counts the calls, and adds up their tickets, before they are executed and after they have their replies.
#[derive(Drop)]
pub(crate) struct Tally {
    pub(crate) before: AtomicU64,
    pub(crate) tickets: AtomicU64,
    pub(crate) after: AtomicU64,
    pub(crate) told: AtomicU64,
}

impl Tally {
    pub(crate) fn new() -> Tally {
        Tally {
            before: AtomicU64::new(0),
            tickets: AtomicU64::new(0),
            after: AtomicU64::new(0),
            told: AtomicU64::new(0),
        }
    }
}

impl Gate for Tally {
    fn before(&self, ticket: Ticket) {
        self.before.fetch_add(1, Ordering::SeqCst);
        self.tickets
            .fetch_add(u64::from(ticket.0), Ordering::SeqCst);
    }

    fn after(&self, ticket: Ticket) {
        self.after.fetch_add(1, Ordering::SeqCst);
        self.told.fetch_add(u64::from(ticket.0), Ordering::SeqCst);
    }
}

// Holds back the first call for which it is called until `awaited` calls have their replies.
#[derive(Drop)]
pub(crate) struct Patient {
    awaited: u64,
    has_come: AtomicBool,
    replies: AtomicU64,
    pub(crate) is_met: AtomicBool,
}

impl Patient {
    pub(crate) fn new(awaited: u64) -> Patient {
        Patient {
            awaited,
            has_come: AtomicBool::new(false),
            replies: AtomicU64::new(0),
            is_met: AtomicBool::new(false),
        }
    }
}

impl Gate for Patient {
    fn before(&self, _ticket: Ticket) {
        if self.has_come.swap(true, Ordering::SeqCst) {
            return;
        }
        for _ in 0..PATIENT_TURNS {
            if self.replies.load(Ordering::SeqCst) >= self.awaited {
                self.is_met.store(true, Ordering::SeqCst);
                return;
            }
            yield_now();
        }
    }

    fn after(&self, _ticket: Ticket) {
        self.replies.fetch_add(1, Ordering::SeqCst);
    }
}

// Holds each call with an even ticket back until the call with the next one has its reply.
#[derive(Drop)]
pub(crate) struct Pairs {
    // Whether the second call of each pair has its reply.
    is_met: Vec<AtomicBool>,
    pub(crate) has_given_up: AtomicBool,
}

impl Pairs {
    pub(crate) fn new(alloc: Global, pairs: u32) -> Result<Pairs, Fail> {
        let mut is_met = Vec::new(alloc);
        for _ in 0..pairs {
            is_met.push(AtomicBool::new(false))?;
        }
        Ok(Pairs {
            is_met,
            has_given_up: AtomicBool::new(false),
        })
    }

    fn is_met(&self, ticket: Ticket) -> bool {
        match self.is_met.get(ticket.0 as usize / 2) {
            Some(is_met) => is_met.load(Ordering::SeqCst),
            None => false,
        }
    }
}

impl Gate for Pairs {
    fn before(&self, ticket: Ticket) {
        if ticket.0 % 2 == 1 {
            return;
        }
        for _ in 0..PATIENT_TURNS {
            if self.is_met(ticket) {
                return;
            }
            yield_now();
        }
        self.has_given_up.store(true, Ordering::SeqCst);
    }

    fn after(&self, ticket: Ticket) {
        if ticket.0 % 2 == 0 {
            return;
        }
        if let Some(is_met) = self.is_met.get(ticket.0 as usize / 2) {
            is_met.store(true, Ordering::SeqCst);
        }
    }
}

// How long a call is held back for others to come.
const CROWD_TURNS: u64 = 5_000_000;

// Holds each call back for a while, and remembers whether three were executed at once.
#[derive(Drop)]
pub(crate) struct Crowd {
    inside: AtomicU64,
    pub(crate) had_three: AtomicU64,
}

impl Crowd {
    pub(crate) fn new() -> Crowd {
        Crowd {
            inside: AtomicU64::new(0),
            had_three: AtomicU64::new(0),
        }
    }
}

impl Gate for Crowd {
    fn before(&self, _ticket: Ticket) {
        self.inside.fetch_add(1, Ordering::SeqCst);
        for _ in 0..CROWD_TURNS {
            if self.inside.load(Ordering::SeqCst) > 2 {
                self.had_three.store(1, Ordering::SeqCst);
                return;
            }
        }
    }

    fn after(&self, _ticket: Ticket) {
        self.inside.fetch_sub(1, Ordering::SeqCst);
    }
}

// How often a worker at its halt checks whether it may go on, which takes some seconds.
const HALT_LOOKS: u32 = 20_000_000;

// Holds back the worker that has finished the call of one ticket, until it may go on.
#[derive(Drop)]
pub(crate) struct Halt {
    ticket: Ticket,
    pub(crate) has_come: AtomicBool,
    pub(crate) may_go: AtomicBool,
}

impl Halt {
    pub(crate) fn new(ticket: Ticket) -> Halt {
        Halt {
            ticket,
            has_come: AtomicBool::new(false),
            may_go: AtomicBool::new(false),
        }
    }
}

impl Gate for Halt {
    fn before(&self, _ticket: Ticket) {}

    fn after(&self, ticket: Ticket) {
        if ticket != self.ticket {
            return;
        }
        self.has_come.store(true, Ordering::SeqCst);
        for _ in 0..HALT_LOOKS {
            if self.may_go.load(Ordering::SeqCst) {
                return;
            }
            yield_now();
        }
    }

    // It waits for a thread beside the run, and for no call.
    fn may_wait(&self) -> bool {
        false
    }
}
