//! The order in which the steps of a run can have been taken. What happens under the engine's lock stands as it was
//! recorded. Between two of these things a running call makes its loads, stores and releases as late as it may: before
//! another call finds what it stores, or is free since it has released; and else before it is finished.
use crate::fault::Unordered;
use crate::holders::Holders;
use crate::recorder::Happening;
use crate::sources::Sources;
use std::alloc::Global;
use vll_core::{Core, Event, Line, Ticket};
use vll_proc::Call;
use vll_record::{Claim, MOST_CLAIMS, RecordId, value_word};
use vll_sca::Placing;
use vll_workers::Choice;

// The most loads, stores and releases that a call makes.
const MOST_STEPS: usize = 3 * MOST_CLAIMS;

/// The steps that were put in order so far, and the machine that has taken them.
#[derive(Drop)]
pub(crate) struct Ordering {
    core: Core<Placing>,
    sources: Sources,
    holders: Holders,
    events: Vec<Event>,
}

impl Ordering {
    /// Begins with a machine that has taken no step, and with the sources of its scripts' calls.
    pub(crate) fn new(
        alloc: Global,
        core: Core<Placing>,
        sources: Sources,
        records: usize,
    ) -> Result<Ordering, Unordered> {
        let holders = Holders::new(alloc, records)?;
        Ok(Ordering {
            core,
            sources,
            holders,
            events: Vec::new(alloc),
        })
    }

    /// Takes the steps of what has happened to the calls of a journal, and returns all steps.
    pub(crate) fn of_all(
        mut self,
        happenings: &[Happening],
        journal: &[Line],
    ) -> Result<Vec<Event>, Unordered> {
        for happening in happenings {
            self.put(*happening, journal)?;
        }
        Ok(self.events)
    }

    // Takes the steps of what has happened to a call.
    fn put(&mut self, happening: Happening, journal: &[Line]) -> Result<(), Unordered> {
        match happening {
            Happening::Free(ticket) => {
                let line = line_of(journal, ticket)?;
                self.find(line)?;
                self.release_for(&line.call)?;
                self.enter(line)?;
                self.runs(ticket, &line.call)
            }
            Happening::Blocked(ticket) => {
                let line = line_of(journal, ticket)?;
                self.find(line)?;
                self.enter(line)
            }
            Happening::Chosen(ticket, by) => {
                let event = match by {
                    Choice::Front => Event::Front,
                    Choice::Scan => Event::Scan,
                };
                self.take(&event)?;
                self.runs(ticket, &line_of(journal, ticket)?.call)
            }
            Happening::Finished(ticket) => self.finish(ticket),
        }
    }

    // Takes a step, which the machine does not refuse.
    fn take(&mut self, event: &Event) -> Result<(), Unordered> {
        if self.core.step(*event).is_err() {
            return Err(Unordered::Refused);
        }
        self.note(*event)
    }

    // The running calls release what is in conflict with a call that is free.
    fn release_for(&mut self, call: &Call) -> Result<(), Unordered> {
        for claim in call.claims.iter() {
            self.release_claim(claim)?;
        }
        Ok(())
    }

    // The running calls release what is in conflict with a claim.
    fn release_claim(&mut self, claim: Claim) -> Result<(), Unordered> {
        let Claim { id: record, mode } = claim;
        for _ in 0..self.holders.number(record) {
            if let Some(ticket) = self.holders.in_conflict(record, mode) {
                self.release(ticket, record)?;
            }
        }
        Ok(())
    }

    // A call finds the value of its source, if it has one.
    fn find(&mut self, line: &Line) -> Result<(), Unordered> {
        let source = self.sources.next(line.client);
        if let (Some(source), Some(found)) = (source, line.call.found) {
            if self.value(source) != Some(found) {
                self.store(source)?;
            }
            self.take(&Event::Find(line.client))?;
        }
        Ok(())
    }

    // A call enters.
    fn enter(&mut self, line: &Line) -> Result<(), Unordered> {
        self.take(&Event::Enter(line.client))?;
        for _ in 0..line.call.claims.len() {
            self.take(&Event::Claim)?;
        }
        self.take(&Event::Admit)
    }

    // A call runs: it holds its claims.
    fn runs(&mut self, ticket: Ticket, call: &Call) -> Result<(), Unordered> {
        for claim in call.claims.iter() {
            self.holders.add(ticket, claim)?;
        }
        Ok(())
    }

    // The value of a record.
    fn value(&self, record: RecordId) -> Option<u64> {
        self.core.words().get(value_word(record)).copied()
    }

    // The running call that claims this record for writing stores it, unless it was aborted.
    fn store(&mut self, record: RecordId) -> Result<(), Unordered> {
        let ticket = self.holders.writer(record).ok_or(Unordered::Refused)?;
        let steps = [Event::Load(ticket), Event::Store(ticket)];
        for _ in 0..MOST_STEPS {
            if self.step_by(&steps)? == Some((Event::Store(ticket), record)) {
                return Ok(());
            }
        }
        Ok(())
    }

    // A running call takes its steps until it has released its claim on this record.
    fn release(&mut self, ticket: Ticket, record: RecordId) -> Result<(), Unordered> {
        let steps = steps_of(ticket);
        for _ in 0..MOST_STEPS {
            if self.step_by(&steps)? == Some((Event::Release(ticket), record)) {
                return Ok(());
            }
        }
        Err(Unordered::Refused)
    }

    // A running call takes its steps, and is finished.
    fn finish(&mut self, ticket: Ticket) -> Result<(), Unordered> {
        let steps = steps_of(ticket);
        for _ in 0..MOST_STEPS {
            if self.step_by(&steps)?.is_none() {
                break;
            }
        }
        self.take(&Event::Finish(ticket))
    }

    // Takes the first of these steps that the machine does not refuse, and returns it with its record.
    fn step_by(&mut self, steps: &[Event]) -> Result<Option<(Event, RecordId)>, Unordered> {
        for event in steps {
            let Some(claim) = self.core.claim_of(*event) else {
                continue;
            };
            if self.core.step(*event).is_err() {
                continue;
            }
            self.note(*event)?;
            if let Event::Release(ticket) = event {
                self.holders.remove(*ticket, claim.id);
            }
            return Ok(Some((*event, claim.id)));
        }
        Ok(None)
    }

    // Notes a step that was taken.
    fn note(&mut self, event: Event) -> Result<(), Unordered> {
        self.events.push(event).map_err(|_| Unordered::NoMemory)
    }
}

// What a running call does before it is finished.
fn steps_of(ticket: Ticket) -> [Event; 3] {
    [
        Event::Load(ticket),
        Event::Store(ticket),
        Event::Release(ticket),
    ]
}

// The journal's line of a call.
fn line_of(journal: &[Line], ticket: Ticket) -> Result<&Line, Unordered> {
    journal.get(ticket.0 as usize).ok_or(Unordered::Refused)
}
