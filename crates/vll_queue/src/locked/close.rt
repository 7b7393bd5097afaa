//! The close of an engine: what is left if no call runs or waits, else all that it was made of.
ghost use Rattle.std.specs.Prelude.{◌≡◌, ◌+◌, ◌*◌, ◌<◌, ◌≤◌, [], All, IfErr, IfOk, None, count_by, length, vec_capacity};
ghost use Rattle.vll_core.specs.Queue.{lines, statuses};
ghost use Rattle.vll_counters.specs.Headline.Views.{calls_in};
ghost use Rattle.vll_sca.specs.Headline.Status.{is_waiting};
ghost use Rattle.vll_sca.specs.Status.{is_running};
ghost use Rattle.vll_queue.specs.Private.Divided.{AreDivided};
ghost use Rattle.vll_queue.specs.Ended.{IsEnded};
ghost use Rattle.vll_queue.specs.Sessions.{HasItsCalls};
ghost use Rattle.vll_queue.specs.Shown.{library_of, words_of};

use super::Locked;
use crate::closing_memory::ClosingMemory;
use crate::ended::Ended;
use crate::name::Name;
use crate::session::Session;
use vll_check::Library;
use vll_counters::{QueueSeat, SessionSeat, Words};
use vll_record::{RecordId, pair_word, value_word};
use vll_sca::Place;

/// An engine that could not be closed, since calls run or wait in it: all that was passed, and how many they are.
#[derive(Drop)]
pub struct NotEnded<N: Name, H: Place + Drop> {
    pub locked: Locked<N, H>,
    pub library: Library,
    pub words: Words,
    pub memory: ClosingMemory,
    pub sessions: Vec<Session>,
    pub running: u32,
    pub waiting: u32,
}

impl<N: Name, H: Place + Drop> Locked<N, H> {
    /// Returns what is left if no call runs or waits. If one does, returns all that was passed, unchanged, with the exact
    /// numbers of calls that run and that wait.
    pub fn close(
        self,
        library: Library,
        words: Words,
        memory: ClosingMemory,
        mut sessions: Vec<Session>,
    ) -> Result<Ended<H>, NotEnded<N, H>>
        requires library { library ≡ library_of N.engine }
        requires words { words ≡ words_of N.engine }
        requires memory { memory ≡ length N.engine.base.records }
        requires few { N.engine.clients < 4294967296 }
        requires sessions { All (λ s. s.table ≡ N.engine.table) sessions.items }
        ensures ended { IfOk result (λ x. IsEnded H.place_of N.engine x) }
        ensures queue { IfOk result (λ x. x.queue ≡ self) }
        ensures clients { IfOk result (λ x. x.clients ≡ length sessions.items) }
        ensures sessions { IfOk result (λ x. All (λ s. HasItsCalls (calls_in (lines x.queue)) s.session) sessions.items) }
        ensures back { IfErr result (λ n. n.sessions ≡ sessions) }
        ensures library { IfErr result (λ n. n.library ≡ library) }
        ensures words { IfErr result (λ n. n.words ≡ words) }
        ensures memory { IfErr result (λ n. n.memory ≡ memory) }
        ensures locked { IfErr result (λ n. n.locked ≡ self) }
        ensures running { IfErr result (λ n. n.running ≡ count_by is_running (statuses self)) }
        ensures waiting { IfErr result (λ n. n.waiting ≡ count_by is_waiting (statuses self)) }
        ensures left { IfErr result (λ n. 0 < n.running + n.waiting) }
    {
        let running = self.queue.running();
        let waiting = self.queue.waiting();
        if running > 0 || waiting > 0 {
            return Err(NotEnded {
                locked: self,
                library,
                words,
                memory,
                sessions,
                running,
                waiting,
            });
        }
        let Locked {
            queue,
            mut seat,
            patience: _,
            of: _,
        } = self;
        let clients = sessions.len();
        visit_all(&words, &mut seat, &mut sessions);
        let words = words.close(seat);
        let (records, pairs) = divided(words.as_slice(), memory);
        Ok(Ended {
            library,
            words,
            records,
            pairs,
            queue,
            sessions,
            clients,
        })
    }
}

// Takes each session off the list, and lets it join and leave: it has seen the beginning of the calls that have
// entered, with all of its client.
fn visit_all(words: &Words, queue: &mut QueueSeat, sessions: &mut Vec<Session>)
    requires same { queue.old.table ≡ words.now.table }
    requires sessions { All (λ s. s.table ≡ words.now.table) sessions.old.items }
    requires closed { queue.old.turn ≡ None }
    requires alone { queue.old.session ≡ None }
    ensures same { queue.new ≡ record queue.old { past = queue.new.past } }
    ensures sessions { All (λ s. HasItsCalls (calls_in queue.old.lines) s.session) sessions.old.items }
    ensures none { sessions.new.items ≡ [] }
    ensures room { vec_capacity sessions.new ≡ vec_capacity sessions.old }
{
    while let Some(session) = sessions.pop() {
        let Session { client: _, seat } = session;
        let Some(seat) = seat else { unreachable!() };
        visit(words, queue, seat);
    }
}

// Lets a session join and leave.
fn visit(words: &Words, queue: &mut QueueSeat, session: SessionSeat)
    requires same { (queue.old.table ≡ words.now.table) × (session.table ≡ words.now.table) }
    requires closed { queue.old.turn ≡ None }
    requires alone { queue.old.session ≡ None }
    ensures same { queue.new ≡ record queue.old { past = queue.new.past } }
    ensures session { HasItsCalls (calls_in queue.old.lines) session.session }
{
    words.join_session(queue, session, None);
    let _ = words.give_session(queue, None);
}

// Divides the words into the records' values and their pair words.
fn divided(words: &[u64], memory: ClosingMemory) -> (Vec<u64>, Vec<u64>)
    requires long { length words.now ≡ 1 + 2 * memory }
    ensures words { AreDivided memory words.now result.0.items result.1.items }
    ensures room { (memory ≤ vec_capacity result.0) × (memory ≤ vec_capacity result.1) }
{
    let ClosingMemory {
        count,
        mut records,
        mut pairs,
    } = memory;
    for r in 0..count {
        records.push_reserved(words[value_word(RecordId(r))]);
        pairs.push_reserved(words[pair_word(RecordId(r))]);
    }
    (records, pairs)
}
