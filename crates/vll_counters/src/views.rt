//! What each seat knows, as contracts and proofs see it: the queue's, a pass's, a session's, and that of news.
use std::collections::LinkedList;
use vll_core::Line;
use vll_proc::Call;
use vll_sca::Status;

/// The open turn: its client and its call, the number of its claims that have been requested, and whether all of these
/// were granted. Like all views it occurs only in contracts and proofs; no value of it is made.
pub struct TurnView {
    pub client: u32,
    pub call: Call,
    pub requested: u8,
    pub granted: bool,
}

/// What a pass knows: its ticket and call, the entered calls up to its own, the numbers of its loads, stores and
/// releases, and the values it has loaded.
pub struct PassView {
    pub ticket: u32,
    pub call: Call,
    pub seen: LinkedList<(u32, Call)>,
    pub loads: u8,
    pub stores: u8,
    pub releases: u8,
    pub loaded: LinkedList<u64>,
}

/// What a session knows: its client, the entered calls that it has seen, the tickets whose reply it was given, and the
/// number of calls that waited when it last left the lock.
pub struct SessionView {
    pub client: u32,
    pub seen: LinkedList<(u32, Call)>,
    pub given: LinkedList<u32>,
    pub waited: u32,
}

/// What the queue's seat knows: the line and the status of each ticket, the open turn, the pass and the session that
/// have joined it, and the number of clients.
pub struct QueueView {
    pub lines: LinkedList<Line>,
    pub statuses: LinkedList<Status>,
    pub turn: Option<TurnView>,
    pub pass: Option<PassView>,
    pub session: Option<SessionView>,
    pub clients: u32,
}

/// What a seat knows. News has a list of entered calls; a session that news has joined has that list beside its own
/// view until it has heard it. A seat that has joined another one no longer knows anything.
pub enum View {
    Queue(QueueView),
    Pass(PassView),
    Session(SessionView),
    News(LinkedList<(u32, Call)>),
    Hearing(SessionView, LinkedList<(u32, Call)>),
    Spent,
}

/// What a seat knows, and its past: the writes of words, each with the word's index and its new value, up to the last
/// step of the seat that was told the history.
pub struct SeatView {
    pub view: View,
    pub past: LinkedList<(u64, u64)>,
}
