//! The answers to events that are not refused.
use crate::ticket::Ticket;
use vll_proc::Reply;

/// The answer to an event that is not refused.
#[derive(Clone, Copy)]
pub enum Seen {
    /// For Find: the source's value.
    Found(u64),
    /// For Enter: the turn is open.
    Opened,
    /// For Claim: the pair word before the request, and whether the request was granted.
    Claimed { old: u64, granted: bool },
    /// For Admit: every request was granted, and the call runs under this ticket.
    Free(Ticket),
    /// For Admit: a request was denied, and the call waits under this ticket.
    Blocked(Ticket),
    /// For Front and Scan: the call of this ticket runs.
    Run(Ticket),
    /// For Load: the record's value.
    Loaded(u64),
    /// For Store.
    Stored,
    /// For Release: the pair word before the release.
    Released(u64),
    /// For Finish: the call's reply.
    Replied(Reply),
}
