//! The shared words of an engine: opening and reopening them, looking at a pair word, and closing them.
ghost use Rattle.std.specs.Prelude.{◌≡◌, ◌+◌, ◌*◌, ◌<◌, ◌≤◌, ◌∷◌, length, take, slice_index, count_by, vec_capacity, vec_len, IfOk, None, []};
ghost use Rattle.std.specs.Mem.Slots.{slots_items, slots_len, IsFull};
ghost use Rattle.vll_sca.specs.Headline.Status.{is_waiting};
ghost use Rattle.vll_sca.specs.Status.{is_running};
ghost use Rattle.vll_counters.specs.Laid.{AreLaid, laid_words};
ghost use Rattle.vll_counters.specs.Shown.{shown_queue, AreNewSessions};
ghost use Rattle.vll_counters.specs.Steps.{first_queue};
ghost use Rattle.vll_counters.specs.Told.{IsAtEnd};
ghost use Rattle.vll_counters.specs.Written.{LeadsTo};

use crate::fault::NoMemory;
use crate::key::Key;
use crate::queue_seat::QueueSeat;
use crate::rule::Law;
use crate::session_seat::SessionSeat;
use crate::views::SeatView;
use atomic_table::{Closed, Table};
use std::alloc::{AllocError, Global};
use std::marker::Model;
use std::snapshot::Snapshot;
use vll_check::Library;
use vll_record::{Claim, granted, pair_word};

/// The words: the turn word 0, and each record's value word and pair word. Threads change them in single atomic steps,
/// each by a seat, and the rule holds between any two steps. Contracts see their identity, and the procedures and
/// records of the opening.
#[derive(Drop)]
pub struct Words {
    pub(crate) table: Table<(), SeatView, Key, Law, Global>,
    // Room for the words that closing returns.
    room: Vec<u64>,
}

impl Model for Words {
    ghost use Rattle.vll_proc.specs.contracts.syntax.Expr as expr;
    ghost use Rattle.vll_proc.specs.contracts.syntax.Stmt as stmt;
    ghost use Rattle.std.specs.Coded.{codes};
    ghost use Rattle.vll_counters.specs.Shown.{WordsShown};

    ghost Value = { WordsShown };

    ghost coded = { Prim.hlevel (codes, expr.the_row.coded, stmt.the_row.coded) };

    ghost use Rattle.vll_counters.specs.Kept.{words_shown, AreWordsKept};

    ghost view = { words_shown };

    ghost invariant = { AreWordsKept };
}

// Copies the records to a list with room for the words.
fn copied(alloc: Global, records: &[u64]) -> Result<Vec<u64>, AllocError>
    ensures items { IfOk result (λ v. v.items ≡ records.now) }
    ensures room { IfOk result (λ v. 1 + 2 * length records.now ≤ vec_capacity v) }
{
    let mut list = Vec::with_capacity(alloc, 1 + 2 * records.len())?;
    copy(&mut list, records);
    Ok(list)
}

// Replaces what the list holds by the records.
fn copy(list: &mut Vec<u64>, records: &[u64])
    requires room { length records.now ≤ vec_capacity list.old }
    ensures items { list.new.items ≡ records.now }
    ensures room { vec_capacity list.new ≡ vec_capacity list.old }
{
    list.clear();
    for value in records {
        list.push_reserved(*value);
    }
}

// Appends the words of these records, with no claim open.
fn lay(words: &mut Vec<u64>, records: &[u64])
    requires empty { words.old.items ≡ [] }
    requires room { 1 + 2 * length records.now ≤ vec_capacity words.old }
    ensures words { AreLaid records.now words.new.items }
    ensures list { words.new.items ≡ laid_words records.now }
    ensures room { vec_capacity words.new ≡ vec_capacity words.old }
{
    words.push_reserved(0);
    for value in records {
        words.push_reserved(*value);
        words.push_reserved(0);
    }
}

// Appends the words of a closed table to an empty list, and returns the list.
fn gathered(mut words: Vec<u64>, closed: &Closed<(), Global>) -> Vec<u64>
    requires full { IsFull closed.now.words }
    requires empty { vec_len words ≡ 0 }
    requires room { slots_len closed.now.words ≤ vec_capacity words }
    ensures items { result.items ≡ slots_items closed.now.words }
    ensures room { vec_capacity result ≡ vec_capacity words }
{
    for i in 0..closed.words.len() {
        words.push_reserved(closed.word(i));
    }
    words
}

impl Words {
    /// Returns the words of these records, with no claim open, the queue's seat, and one session's seat for each
    /// client, in order. `library` is only used in contracts and is not kept. All memory is allocated here.
    pub fn open(
        alloc: Global,
        records: &[u64],
        library: &Library,
        clients: u32,
    ) -> Result<(Words, QueueSeat, Vec<SessionSeat>), NoMemory>
        requires records { library.now.records ≡ length records.now }
        ensures words { IfOk result (λ o. o.0.base ≡ record { procs = library.now.procs; records = records.now }) }
        ensures queue { IfOk result (λ o. o.1 ≡ shown_queue o.0.table [] (first_queue clients)) }
        ensures sessions { IfOk result (λ o. AreNewSessions o.0.table clients o.2.items) }
    {
        let room = copied(alloc, records)?;
        let (words, mut queue) = Words::laid(alloc, room, records, library)?;
        let mut sessions = Vec::with_capacity(alloc, clients as usize)?;
        for _client in 0..clients {
            sessions.push_reserved(words.make_session(&mut queue));
        }
        Ok((words, queue, sessions))
    }

    /// Returns the words of these records, as `open`, and the queue's seat, which knows of no client: `make_session`
    /// makes the sessions. The list `room` has room for the words, as one that `close` returned has; what it holds is
    /// dropped. Only the block of the atomic words is allocated.
    pub fn reopen(
        alloc: Global,
        mut room: Vec<u64>,
        records: &[u64],
        library: &Library,
    ) -> Result<(Words, QueueSeat), NoMemory>
        requires records { library.now.records ≡ length records.now }
        requires room { 1 + 2 * length records.now ≤ vec_capacity room }
        ensures words { IfOk result (λ o. o.0.base ≡ record { procs = library.now.procs; records = records.now }) }
        ensures queue { IfOk result (λ o. o.1 ≡ shown_queue o.0.table [] (first_queue 0)) }
    {
        copy(&mut room, records);
        Ok(Words::laid(alloc, room, records, library)?)
    }

    // Returns the words of the records that the list holds, which keep the list for closing, and the queue's seat.
    fn laid(
        alloc: Global,
        mut room: Vec<u64>,
        records: &[u64],
        library: &Library,
    ) -> Result<(Words, QueueSeat), AllocError>
        requires records { library.now.records ≡ length records.now }
        requires items { room.items ≡ records.now }
        requires room { 1 + 2 * length records.now ≤ vec_capacity room }
        ensures words { IfOk result (λ o. o.0.base ≡ record { procs = library.now.procs; records = records.now }) }
        ensures queue { IfOk result (λ o. o.1 ≡ shown_queue o.0.table [] (first_queue 0)) }
    {
        let _ = library.records();
        let key = Key {
            library: Snapshot::of(library),
            records: Snapshot::of(&room),
        };
        room.clear();
        lay(&mut room, records);
        let (table, seat) = Table::of_words(alloc, room.as_slice(), &key)?;
        room.clear();
        Ok((Words { table, room }, QueueSeat { seat }))
    }

    /// Loads the pair word of the claim's record, and returns whether a request would have been granted by the word
    /// loaded; it may have changed by now, and no contract says more. It changes nothing, but a request soon after
    /// finds the word in the cache.
    pub fn look(&self, claim: Claim) -> bool
        requires { claim.id < length self.now.base.records }
    {
        granted(claim.mode, self.table.shared.peek(pair_word(claim.id)))
    }

    /// Returns the words, once no turn is open and no call waits or runs: each value is what the entered calls make of
    /// the record, one at a time in the order of entry, and each pair word is 0. One history leads from the opening
    /// words to them, and begins with what the queue's seat knew of it. Allocates nothing.
    pub fn close(self, queue: QueueSeat) -> Vec<u64>
        requires same { queue.table ≡ self.table }
        requires closed { queue.turn ≡ None }
        requires waiting { count_by is_waiting queue.statuses ≡ 0 }
        requires running { count_by is_running queue.statuses ≡ 0 }
        ensures words { IsAtEnd self.base queue.lines result.items }
        ensures history { LeadsTo (laid_words self.base.records) queue.past result.items }
        ensures room { 1 + 2 * length self.base.records ≤ vec_capacity result }
    {
        let Words { table, room } = self;
        let QueueSeat { seat } = queue;
        let closed = table.close_with(seat);
        let words = gathered(room, &closed);
        closed.free();
        words
    }
}
