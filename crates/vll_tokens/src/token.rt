//! Tokens: each is a client's part in a run, with its session and its script.
ghost use Rattle.std.specs.Prelude.{◌≡◌, ◌<◌, ◌≤◌, ◌==◌, ◌^◌, ◌+◌, Some, true, false, length, slice_get};
ghost use Rattle.std.specs.Option.{option_map};
ghost use Rattle.vll_tokens.specs.Shown.{token};
ghost use Rattle.vll_tokens.specs.Begin.{IsBegun};
ghost use Rattle.vll_tokens.specs.Tokens.{IsFit, IsThrough};

use crate::stack::MOST_BATCH;
use std::marker::Model;
use vll_engine::{BegunOnto, Hold, Name, Passes, Session};
use vll_proc::Call;
use vll_sca::Place;

// How often a call is put off before it begins regardless.
const MOST_PUT_OFF: u32 = 64;

/// A client's part in a run: its session, its script, and how many calls of the script have entered. The thread that
/// holds it enters the client's calls, so they enter one after the other.
#[derive(Drop)]
pub struct Token {
    client: u32,
    script: Vec<Call>,
    next: u32,
    session: Session,
    // How often the next call was put off.
    put_off: u32,
    // How many of the next calls are ready to begin, as of the last look at them.
    ready: u32,
}

impl Model for Token {
    ghost use Rattle.std.specs.Prelude.{◌≡◌, ◌≤◌, ◌<◌, ◌^◌, length};
    ghost use Rattle.vll_tokens.specs.Shown.{TokenShown};

    ghost Value = { TokenShown };

    ghost view = { λ t. record { client = t.client; script = t.script.items; next = t.next; session = t.session } };

    ghost invariant = { λ t. (t.session.session.client ≡ t.client) × (t.next ≤ length t.script.items) × (length
        t.script.items < 2 ^ 32) };
}

impl Token {
    /// A token of which no call has entered. The session is the client's, and the script has fewer than 2^32 calls.
    pub fn new(client: u32, session: Session, script: Vec<Call>) -> Token
        requires session { session.session.client ≡ client }
        requires few { length script.items < 2 ^ 32 }
        ensures { result ≡ token client script.items 0 session }
    {
        Token::resume(client, session, script, 0)
    }

    /// A token that goes on where another one was: `next` calls of the script have entered. The session is the
    /// client's, and the script has fewer than 2^32 calls.
    pub fn resume(client: u32, session: Session, script: Vec<Call>, next: u32) -> Token
        requires session { session.session.client ≡ client }
        requires few { length script.items < 2 ^ 32 }
        requires within { next ≤ length script.items }
        ensures { result ≡ token client script.items next session }
    {
        Token {
            client,
            script,
            next,
            session,
            put_off: 0,
            ready: 0,
        }
    }

    /// The client whose token it is.
    pub fn client(&self) -> u32
        ensures { result ≡ self.now.client }
    {
        self.client
    }

    /// The client's calls, in order: fewer than 2^32.
    pub fn script(&self) -> &[Call]
        ensures calls { result.now ≡ self.now.script }
        ensures few { length self.now.script < 2 ^ 32 }
    {
        self.script.as_slice()
    }

    /// How many calls of the script have entered, which is the index of the next one: at most the script's length.
    pub fn next(&self) -> u32
        ensures count { result ≡ self.now.next }
        ensures within { self.now.next ≤ length self.now.script }
    {
        self.next
    }

    /// The client's session and script.
    pub fn into_parts(self) -> (Session, Vec<Call>)
        ensures session { result.0 ≡ self.session }
        ensures script { result.1.items ≡ self.script }
        ensures whose { result.0.session.client ≡ self.client }
        ensures few { length result.1.items < 2 ^ 32 }
    {
        (self.session, self.script)
    }

    /// The client's session.
    pub fn into_session(self) -> Session
        ensures { result ≡ self.session }
    {
        self.session
    }

    /// The call `ahead` places after the next one in the script, if there is one.
    pub fn upcoming(&self, ahead: u32) -> Option<&Call>
        ensures { option_map (λ c. c.now) result ≡ slice_get self.now.script (self.now.next + ahead) }
    {
        self.script.get(self.next as usize + ahead as usize)
    }

    /// Whether every call has entered.
    pub fn is_through(&self) -> bool
        ensures through { result ≡ true → IsThrough self.now }
        ensures left { result ≡ false → self.now.next < length self.now.script }
    {
        self.next as usize == self.script.len()
    }

    /// Puts off the next call unless it was put off often enough, and reports whether it did.
    pub fn put_off(&mut self) -> bool
        ensures { self.new ≡ self.old }
    {
        let may_wait = self.put_off < MOST_PUT_OFF;
        if may_wait {
            self.put_off += 1;
        }
        may_wait
    }

    /// Stores how many of the next calls are ready to begin. It is a hint, and changes nothing else.
    pub fn looked(&mut self, ready: u32)
        ensures { self.new ≡ self.old }
    {
        self.ready = ready;
    }

    /// How many of the next calls are ready to begin.
    pub fn ready(&self) -> u32 {
        self.ready
    }

    /// Begins the next call, which counts as entered unless it is refused. If it may run, its pass is added after the
    /// others.
    #[inline(always)]
    pub fn begin<N: Name, H: Place + Send + Drop>(
        &mut self,
        hold: &mut Hold<'_, N, H>,
        passes: &mut Passes<N>,
    ) -> BegunOnto
        requires fit { IsFit N.engine self.old }
        requires left { self.old.next < length self.old.script }
        requires room { length passes.old < MOST_BATCH }
        ensures begun { IsBegun N.engine self.old self.new result passes.old passes.new }
    {
        let Some(call) = self.script.get(self.next as usize) else {
            unreachable!()
        };
        let begun = passes.begin(hold, &mut self.session, call);
        if !matches!(&begun, BegunOnto::Refused(_)) {
            self.next += 1;
            self.put_off = 0;
        }
        begun
    }
}
