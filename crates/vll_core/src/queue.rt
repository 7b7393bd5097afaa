//! The queue: the entered calls in order of entry, with their lines, their statuses and their contention analysis.
ghost use Rattle.std.specs.Prelude.{◌≡◌, ◌<◌, ◌≤◌, ◌↔◌, Some, None, length, count_by, position, slice_get, slice_set, vec_capacity, IfOk, IsTrue};
ghost use Rattle.std.specs.Option.{option_copied};
ghost use Rattle.vll_sca.specs.Headline.Status.{is_waiting as waiting};
ghost use Rattle.vll_sca.specs.Status.{is_running as running};
ghost use Rattle.vll_sca.specs.declared.status.Status.TheVariants as Status;
ghost use Rattle.vll_core.specs.Faults.{Refuses, config_fault};
ghost use Rattle.vll_core.specs.Queue.{IsQueued, empty, emptied, entry, admitted, lines, statuses, is_left, started, finished, front_among, fronted, found_by, scanned};

use crate::capacity::list_with_capacity;
use crate::config::{Config, OpenFault};
use crate::line::Line;
use crate::opening::config_fault;
use crate::queue::window::Window;
use crate::ticket::Ticket;
use std::alloc::{AllocError, Global};
use std::marker::Model;
use vll_proc::{Call, Reply};
use vll_sca::{Bits, Place, Status};

/// The entered calls in order of entry, each with its line and its status, and their contention analysis. All memory is
/// allocated in `open`. Contracts see what was chosen at the opening, and the list of entries.
#[derive(Drop)]
pub struct Queue<H: Place> {
    // The fields that each call changes are next to each other.
    journal: Vec<Line>,
    statuses: Vec<Status>,
    // The tickets of the calls that run or wait.
    window: Window,
    waiting: u32,
    running: u32,
    // The last scan found none, and since then no call was removed and no waiting one entered. So the next scan would
    // find none.
    is_fruitless: bool,
    cap: u32,
    limit: u32,
    bits: Bits,
    hash: H,
}

impl<H: Place> Model for Queue<H> {
    ghost use Rattle.std.specs.Coded.{codes};
    ghost use Rattle.vll_core.specs.Queue.{Queued};

    ghost Value = { Queued H };

    ghost coded = { Prim.hlevel (codes, H.code) };

    ghost use Rattle.vll_core.specs.Private.QueueKept.{kept, IsKept};

    ghost view = { kept };

    ghost invariant = { IsKept H.place_of };
}

impl<H: Place + Drop> Queue<H> {
    /// Opens an empty queue with capacity for `config.limit` calls. Each slot is written once, so that the system has
    /// mapped it before the first call. Fails with the first fault that applies: `Limit`, `Cap` or `Bits`, before any
    /// memory is requested; if none applies, only with `NoMemory`.
    pub fn open(alloc: Global, config: Config, hash: H) -> Result<Queue<H>, OpenFault>
        ensures refused { Refuses (config_fault config) result }
        ensures opened { IfOk result (λ q. q ≡ empty config hash) }
    {
        match config_fault(config) {
            Some(fault) => Err(fault),
            None => Ok(Queue::open_allowed(alloc, config, hash)?),
        }
    }

    // Opens an empty queue, for a configuration without a fault.
    pub(crate) fn open_allowed(
        alloc: Global,
        config: Config,
        hash: H,
    ) -> Result<Queue<H>, AllocError>
        requires { config_fault config ≡ None }
        ensures { IfOk result (λ q. q ≡ empty config hash) }
    {
        let bits = Bits::new(alloc, config.bits).map_err(|_| AllocError)?;
        let capacity = config.limit as usize;
        let journal = list_with_capacity(alloc, capacity, Line::blank())?;
        let statuses = list_with_capacity(alloc, capacity, Status::Gone)?;
        let window = Window::with_capacity(alloc, config.limit)?;
        Ok(Queue {
            journal,
            statuses,
            window,
            waiting: 0,
            running: 0,
            is_fruitless: false,
            cap: config.cap,
            limit: config.limit,
            bits,
            hash,
        })
    }

    /// Moves out the lines by ticket. Allocates nothing.
    pub fn into_journal(self) -> Vec<Line>
        ensures lines { result.items ≡ lines self }
        ensures kept { IsQueued self }
    {
        let Queue { journal, .. } = self;
        journal
    }

    /// Starts over: returns the emptied queue, with the same configuration and hash, and the lines by ticket, moved
    /// out. `journal` must have capacity for `limit` lines; its items are dropped, and it takes the next lines. The
    /// returned list has capacity for `limit` lines too, so it can be passed the next time. Allocates nothing.
    pub fn reopen(self, mut journal: Vec<Line>) -> (Queue<H>, Vec<Line>)
        requires room { self.limit ≤ vec_capacity journal }
        ensures queue { result.0 ≡ emptied self }
        ensures lines { result.1.items ≡ lines self }
        ensures room { self.limit ≤ vec_capacity result.1 }
    {
        let Queue {
            journal: lines,
            mut statuses,
            mut window,
            cap,
            limit,
            bits,
            hash,
            ..
        } = self;
        journal.clear();
        statuses.clear();
        window.clear();
        let queue = Queue {
            journal,
            statuses,
            window,
            waiting: 0,
            running: 0,
            is_fruitless: false,
            cap,
            limit,
            bits,
            hash,
        };
        (queue, lines)
    }
}

impl<H: Place> Queue<H> {
    /// Reports whether the number of entered calls has reached the limit.
    pub fn is_spent(&self) -> bool
        ensures answer { IsTrue result ↔ (length self.now.entries ≡ self.now.limit) }
        ensures kept { IsQueued self.now }
    {
        self.journal.len() == self.limit as usize
    }

    /// Reports whether the number of waiting calls has reached the cap.
    pub fn is_busy(&self) -> bool
        ensures answer { IsTrue result ↔ (count_by waiting (statuses self.now) ≡ self.now.cap) }
        ensures kept { IsQueued self.now }
    {
        self.waiting == self.cap
    }

    /// Returns the number of entered calls that wait.
    pub fn waiting(&self) -> u32
        ensures { result ≡ count_by waiting (statuses self.now) }
    {
        self.waiting
    }

    /// Returns the number of entered calls that run.
    pub fn running(&self) -> u32
        ensures { result ≡ count_by running (statuses self.now) }
    {
        self.running
    }

    /// Returns the status of a ticket's call, or `None` exactly if there is no such ticket yet.
    pub fn status(&self, ticket: Ticket) -> Option<Status>
        ensures { result ≡ slice_get (statuses self.now) ticket }
    {
        self.statuses.get(ticket.0 as usize).copied()
    }

    /// Returns the line of a ticket, or `None` exactly if there is no such ticket yet.
    pub fn line(&self, ticket: Ticket) -> Option<&Line>
        ensures { option_copied result ≡ slice_get (lines self.now) ticket }
    {
        self.journal.get(ticket.0 as usize)
    }

    /// Returns the lines by ticket.
    pub fn journal(&self) -> &[Line]
        ensures lines { result.now ≡ lines self.now }
        ensures kept { IsQueued self.now }
    {
        &self.journal
    }

    /// Enters a call at the end, without a reply, and returns its ticket. The call runs if `free`, else it waits. The
    /// queue must be neither spent nor busy. Allocates nothing.
    pub fn admit(&mut self, client: u32, call: &Call, free: bool) -> Ticket
        requires unspent { length self.old.entries < self.old.limit }
        requires idle { count_by waiting (statuses self.old) < self.old.cap }
        ensures ticket { result ≡ length self.old.entries }
        ensures entered { self.new ≡ admitted self.old (entry client call.now free) }
    {
        let ticket = Ticket(self.journal.len() as u32);
        self.journal.push_reserved(Line {
            call: *call,
            client,
            reply: None,
        });
        let status = if free {
            self.running += 1;
            Status::Running
        } else {
            self.waiting += 1;
            self.is_fruitless = false;
            Status::Waiting
        };
        self.statuses.push_reserved(status);
        self.window.push(ticket.0);
        ticket
    }

    // Returns the lowest ticket that is not gone.
    pub(crate) fn lowest(&self) -> Option<Ticket>
        ensures { result ≡ position is_left (statuses self.now) }
    {
        Some(Ticket(self.window.front()?))
    }

    /// Starts the call of the lowest ticket that is not gone, if it waits, and returns the ticket. Otherwise returns
    /// `None` and changes nothing.
    pub fn front(&mut self) -> Option<Ticket>
        ensures ticket { result ≡ front_among (statuses self.old) }
        ensures fronted { self.new ≡ fronted self.old }
    {
        let front = self.lowest()?;
        if !is_waiting(self.status(front)?) {
            return None;
        }
        self.start(front);
        Some(front)
    }

    /// Starts the first waiting call that, by the contention analysis, is in hash conflict with no earlier one that
    /// runs or waits, and returns its ticket. If there is none, returns `None` and changes nothing. It walks over the
    /// calls that run or wait, and at most as many that are gone; and over none, if no call waits, or if the last scan
    /// found none and since then no call was removed and no waiting one entered. Allocates nothing.
    pub fn scan(&mut self) -> Option<Ticket>
        ensures ticket { result ≡ found_by H.place_of self.old }
        ensures scanned { self.new ≡ scanned H.place_of self.old }
    {
        if self.is_fruitless() {
            return None;
        }
        let found = self
            .window
            .scan(&mut self.bits, &self.hash, &self.journal, &self.statuses);
        self.is_fruitless = found.is_none();
        let ticket = Ticket(found?);
        self.start(ticket);
        Some(ticket)
    }

    /// Reports whether the queue knows that a scan finds none, so that it would walk over nothing: no call waits, or it
    /// remembers that. It is a hint of what the next scan costs: `false` says nothing of what it finds.
    pub fn is_fruitless(&self) -> bool
        ensures { IsTrue result → found_by H.place_of self.now ≡ None }
    {
        self.waiting == 0 || self.is_fruitless
    }

    // Starts a waiting call.
    fn start(&mut self, ticket: Ticket)
        requires { slice_get (statuses self.old) ticket ≡ Some Status.Waiting }
        ensures { self.new ≡ started self.old ticket }
    {
        self.statuses[ticket.0 as usize] = Status::Running;
        self.waiting -= 1;
        self.running += 1;
    }

    /// Removes the running call of a ticket: it is gone, and its line gets the reply. Nothing else changes.
    pub fn remove(&mut self, ticket: Ticket, reply: &Reply)
        requires { slice_get (statuses self.old) ticket ≡ Some Status.Running }
        ensures { self.new ≡ finished self.old ticket reply.now }
    {
        let index = ticket.0 as usize;
        self.statuses[index] = Status::Gone;
        let line = &mut self.journal[index];
        line.reply = Some(*reply);
        self.running -= 1;
        self.is_fruitless = false;
        self.window.skip_gone(&self.statuses);
        let left = self.waiting as usize + self.running as usize;
        self.window.shrink(2 * left, &self.statuses);
    }
}

fn is_waiting(status: Status) -> bool
    ensures { result ≡ waiting status }
{
    matches!(status, Status::Waiting)
}

mod window;
mod window_entries;
