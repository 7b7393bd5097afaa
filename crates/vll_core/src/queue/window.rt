//! The window of a queue: the tickets of the calls that run or wait, and of gone ones that are not yet dropped.
ghost use Rattle.std.specs.Prelude.{◌≡◌, ◌<◌, ◌≤◌, [], ◌∷◌, ◌++◌, length, take, slice_get, All, IfOk, vec_capacity};
ghost use Rattle.vll_sca.specs.Status.{is_gone as gone};
ghost use Rattle.vll_sca.specs.Scan.{scan_numbered};
ghost use Rattle.vll_core.specs.Private.Window.{left_among, first_left, numbered, IsWindow};

use crate::capacity::list_with_capacity;
use crate::line::Line;
use crate::queue::window_entries::WindowEntries;
use std::alloc::{AllocError, Global};
use vll_sca::{Bits, Place, Status};

/// The tickets of the calls that run or wait, in order. The ticket of a finished call stays in the list until `shrink`
/// removes it. The calls' statuses are kept elsewhere, in a list by ticket.
#[derive(Drop)]
pub(crate) struct Window {
    tickets: Vec<u32>,
    // The index of the first ticket whose call is left, or the number of tickets.
    first: usize,
}

impl Window {
    /// Returns a window without tickets, with capacity for at least `capacity` tickets.
    pub(crate) fn with_capacity(alloc: Global, capacity: u32) -> Result<Window, AllocError>
        ensures tickets { IfOk result (λ w. w.tickets.items ≡ []) }
        ensures first { IfOk result (λ w. w.first ≡ 0) }
        ensures capacity { IfOk result (λ w. capacity ≤ vec_capacity w.tickets) }
    {
        Ok(Window {
            tickets: list_with_capacity(alloc, capacity as usize, 0)?,
            first: 0,
        })
    }

    /// Drops all tickets, and keeps the capacity.
    pub(crate) fn clear(&mut self)
        ensures tickets { self.new.tickets.items ≡ [] }
        ensures first { self.new.first ≡ 0 }
        ensures room { vec_capacity self.new.tickets ≡ vec_capacity self.old.tickets }
    {
        self.tickets.clear();
        self.first = 0;
    }

    /// Adds a ticket at the end. Allocates nothing.
    pub(crate) fn push(&mut self, ticket: u32)
        requires room { length self.old.tickets.items < vec_capacity self.old.tickets }
        ensures tickets { self.new.tickets.items ≡ self.old.tickets.items ++ ticket ∷ [] }
        ensures first { self.new.first ≡ self.old.first }
        ensures room { vec_capacity self.new.tickets ≡ vec_capacity self.old.tickets }
    {
        self.tickets.push_reserved(ticket);
    }

    /// Returns the lowest ticket whose call is left.
    pub(crate) fn front(&self) -> Option<u32>
        ensures { result ≡ slice_get self.now.tickets.items self.now.first }
    {
        self.tickets.get(self.first).copied()
    }

    /// Returns the ticket that the contention analysis finds.
    pub(crate) fn scan<H: Place>(
        &self,
        bits: &mut Bits,
        hash: &H,
        journal: &[Line],
        statuses: &[Status],
    ) -> Option<u32>
        requires lines { length journal.now ≡ length statuses.now }
        requires below { All (λ t. t < length statuses.now) self.now.tickets.items }
        ensures found { result
            ≡ scan_numbered (H.place_of hash.now) bits.old (numbered journal.now statuses.now self.now.tickets.items) }
        ensures same { bits.new ≡ bits.old }
    {
        let entries = WindowEntries {
            tickets: &self.tickets,
            journal,
            statuses,
        };
        let index = bits.scan_among(hash, &entries)?;
        self.tickets.get(index).copied()
    }

    /// After a call has finished, moves `first` to the first ticket whose call runs or waits.
    pub(crate) fn skip_gone(&mut self, statuses: &[Status])
        requires below { All (λ t. t < length statuses.now) self.old.tickets.items }
        requires gone { self.old.first ≤ first_left statuses.now self.old.tickets.items }
        ensures { self.new ≡ record self.old { first = first_left statuses.now self.old.tickets.items } }
    {
        self.first = first_left(&self.tickets, statuses, self.first);
    }

    /// If there are more than `most` tickets, removes those of finished calls. Those of calls that run or wait stay.
    pub(crate) fn shrink(&mut self, most: usize, statuses: &[Status])
        requires { IsWindow statuses.now self.old }
        ensures kept { IsWindow statuses.now self.new }
        ensures room { vec_capacity self.new.tickets ≡ vec_capacity self.old.tickets }
    {
        if self.tickets.len() > most {
            self.drop_gone(statuses);
        }
    }

    fn drop_gone(&mut self, statuses: &[Status])
        requires { IsWindow statuses.now self.old }
        ensures left { self.new.tickets.items ≡ left_among statuses.now self.old.tickets.items }
        ensures first { self.new.first ≡ 0 }
        ensures room { vec_capacity self.new.tickets ≡ vec_capacity self.old.tickets }
    {
        let kept = gather_left(&mut self.tickets, statuses, self.first);
        self.tickets.truncate(kept);
        self.first = 0;
    }
}

// Returns the index of the first ticket whose call is left, or the number of tickets. All before index `from` are gone.
fn first_left(tickets: &[u32], statuses: &[Status], from: usize) -> usize
    requires below { All (λ t. t < length statuses.now) tickets.now }
    requires gone { from ≤ first_left statuses.now tickets.now }
    ensures { result ≡ first_left statuses.now tickets.now }
{
    for index in from..tickets.len() {
        if !is_gone(statuses[tickets[index] as usize]) {
            return index;
        }
    }
    tickets.len()
}

// Moves the tickets whose calls are left to the front, and returns their number. All before index `first` are gone.
fn gather_left(tickets: &mut [u32], statuses: &[Status], first: usize) -> usize
    requires below { All (λ t. t < length statuses.now) tickets.old }
    requires first { first ≡ first_left statuses.now tickets.old }
    ensures left { take result tickets.new ≡ left_among statuses.now tickets.old }
    ensures within { result ≤ length tickets.old }
    ensures length { length tickets.new ≡ length tickets.old }
{
    let mut kept = 0;
    for i in first..tickets.len() {
        let ticket = tickets[i];
        if !is_gone(statuses[ticket as usize]) {
            tickets[kept] = ticket;
            kept += 1;
        }
    }
    kept
}

fn is_gone(status: Status) -> bool
    ensures { result ≡ gone status }
{
    matches!(status, Status::Gone)
}
