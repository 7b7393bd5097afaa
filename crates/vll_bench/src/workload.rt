//! The workloads on which events are timed: bumps of one record by all calls, or of a record by each.
use crate::fault::Fault;
use vll_core::{Core, Event, Ticket};
use vll_sca::{Placing, Status};

/// Which records the calls bump, and in which order they run once all have entered.
#[derive(Clone, Copy, PartialEq, Eq)]
pub(crate) enum Workload {
    /// All calls bump one record, so all but the first wait for the front.
    OneRecord,
    /// Each call bumps a record of its own, and they run in order of entry.
    OwnRecords,
    /// Each call bumps a record of its own, and they run in reverse order of entry.
    OwnRecordsBackwards,
}

impl Workload {
    pub(crate) const ALL: [Workload; 3] = [
        Workload::OneRecord,
        Workload::OwnRecords,
        Workload::OwnRecordsBackwards,
    ];

    pub(crate) fn name(self) -> &'static str {
        match self {
            Workload::OneRecord => "1 record",
            Workload::OwnRecords => "65536 records",
            Workload::OwnRecordsBackwards => "65536 records, last call first",
        }
    }

    /// How many records there are.
    pub(crate) fn records(self) -> u32 {
        match self {
            Workload::OneRecord => 1,
            Workload::OwnRecords | Workload::OwnRecordsBackwards => 65_536,
        }
    }

    /// The number of events of `calls` calls: 3 to enter, 4 to run, and 1 more for each call that waits.
    pub(crate) fn events(self, calls: u32) -> u64 {
        let calls = u64::from(calls);
        match self {
            Workload::OneRecord => 7 * calls + calls.saturating_sub(1),
            Workload::OwnRecords | Workload::OwnRecordsBackwards => 7 * calls,
        }
    }
}

/// Enters `calls` calls of client 0.
pub(crate) fn enter_all(core: &mut Core<Placing>, calls: u32) -> Result<(), Fault> {
    for _ in 0..calls {
        take(core, Event::Enter(0))?;
        take(core, Event::Claim)?;
        take(core, Event::Admit)?;
    }
    Ok(())
}

/// Runs `calls` entered calls, one at a time.
pub(crate) fn run_all(
    core: &mut Core<Placing>,
    workload: Workload,
    calls: u32,
) -> Result<(), Fault> {
    for i in 0..calls {
        let place = match workload {
            Workload::OneRecord | Workload::OwnRecords => i,
            Workload::OwnRecordsBackwards => calls - 1 - i,
        };
        run(core, Ticket(place))?;
    }
    Ok(())
}

// Runs one call from its first load to its end. One that waits has to be the front.
fn run(core: &mut Core<Placing>, ticket: Ticket) -> Result<(), Fault> {
    if core.state(ticket) == Some(Status::Waiting) {
        take(core, Event::Front)?;
    }
    take(core, Event::Load(ticket))?;
    take(core, Event::Store(ticket))?;
    take(core, Event::Release(ticket))?;
    take(core, Event::Finish(ticket))
}

fn take(core: &mut Core<Placing>, event: Event) -> Result<(), Fault> {
    match core.step(event) {
        Ok(_) => Ok(()),
        Err(refusal) => Err(Fault::Event(refusal)),
    }
}
