//! Which running calls hold a claim on a record.
use std::alloc::{AllocError, Global};
use vll_core::Ticket;
use vll_record::{Claim, Mode, RecordId};

// A running call whose claim on a record is not released.
#[derive(Clone, Copy)]
struct Holder {
    ticket: Ticket,
    mode: Mode,
}

/// For each record the running calls whose claims on it are not released.
#[derive(Drop)]
pub(crate) struct Holders {
    records: Vec<Vec<Holder>>,
}

impl Holders {
    /// There are this many records, and no call holds a claim.
    pub(crate) fn new(alloc: Global, records: usize) -> Result<Holders, AllocError> {
        let mut lists = Vec::with_capacity(alloc, records)?;
        for _ in 0..records {
            lists.push(Vec::new(alloc))?;
        }
        Ok(Holders { records: lists })
    }

    /// A running call holds a claim.
    pub(crate) fn add(&mut self, ticket: Ticket, claim: Claim) -> Result<(), AllocError> {
        let holder = Holder {
            ticket,
            mode: claim.mode,
        };
        if let Some(list) = self.records.get_mut(claim.id.0 as usize) {
            list.push(holder)?;
        }
        Ok(())
    }

    /// A running call has released its claim on a record.
    pub(crate) fn remove(&mut self, ticket: Ticket, record: RecordId) {
        let Some(list) = self.records.get_mut(record.0 as usize) else {
            return;
        };
        if let Some(place) = list.iter().position(|holder| holder.ticket == ticket) {
            list.swap_remove(place);
        }
    }

    /// Returns how many running calls hold a claim on a record.
    pub(crate) fn number(&self, record: RecordId) -> usize {
        match self.records.get(record.0 as usize) {
            Some(list) => list.len(),
            None => 0,
        }
    }

    /// Returns a running call that holds a claim on a record for writing.
    pub(crate) fn writer(&self, record: RecordId) -> Option<Ticket> {
        let list = self.records.get(record.0 as usize)?;
        let holder = list.iter().find(|holder| holder.mode == Mode::Write)?;
        Some(holder.ticket)
    }

    /// Returns a running call that holds a claim on a record in conflict with one of this mode.
    pub(crate) fn in_conflict(&self, record: RecordId, mode: Mode) -> Option<Ticket> {
        match mode {
            Mode::Read => self.writer(record),
            Mode::Write => {
                let list = self.records.get(record.0 as usize)?;
                Some(list.first()?.ticket)
            }
        }
    }
}
