//! The reasons for which an event is refused.

/// Why an event is refused: the first reason that applies, in this order. A refused event changes nothing.
#[derive(Clone, Copy, PartialEq, Eq, Debug)]
pub enum Refusal {
    /// For Enter, Front, Scan and Finish: a turn is open. For Find: the turn of this client is open.
    TurnOpen,
    /// For Claim and Admit: no turn is open.
    NoTurn,
    /// For Find and Enter: there is no such client, or its script has no call left.
    NoCall,
    /// For Enter: the number of entered calls has reached the limit.
    Spent,
    /// For Enter: the number of waiting calls has reached the cap.
    Busy,
    /// For Load, Store, Release and Finish: the ticket is not running.
    NotRunning,
    /// The step is not the call's next one: for Find, the call has no indirect key; for Enter, it has one and no value
    /// is kept for it; for Claim, all claims have been requested; for Admit, claims are left to request; for Load, all
    /// loads are made; for Store, loads are left, the call aborted, or all stores are made; for Release, loads or
    /// stores are left, or all releases are made; for Finish, loads, stores or releases are left.
    OutOfStep,
    /// For Front: the lowest ticket that is not gone does not wait, or there is none. For Scan: each waiting call is in
    /// hash conflict with an earlier one that runs or waits.
    Idle,
}
