//! What a service has done so far, as a line can ask for it.
ghost use Rattle.std.specs.Prelude.{◌≡◌, false};
ghost use Rattle.vll_lines.specs.Counts.{counted, is_full, none_counted, none_read, with_abort, with_round};

use vll_proc::{Reason, Reply};

/// How many calls were made, and how many of these were aborted, by the reason.
#[derive(Clone, Copy, PartialEq, Eq, Debug)]
pub struct Counts {
    pub calls: u64,
    /// The aborted ones with a code of the procedure's own, whichever it was.
    pub code: u64,
    pub overflow: u64,
    pub underflow: u64,
    pub zero_divisor: u64,
    pub moved: u64,
}

impl Counts {
    /// No call.
    pub fn none() -> Counts
        ensures { result ≡ none_counted }
    {
        Counts {
            calls: 0,
            code: 0,
            overflow: 0,
            underflow: 0,
            zero_divisor: 0,
            moved: 0,
        }
    }

    /// Reports whether one of the counts is 2^64 - 1, so that no more calls can be counted.
    pub fn is_full(self) -> bool
        ensures { result ≡ is_full self }
    {
        self.calls == u64::MAX
            || self.code == u64::MAX
            || self.overflow == u64::MAX
            || self.underflow == u64::MAX
            || self.zero_divisor == u64::MAX
            || self.moved == u64::MAX
    }

    /// Adds one call, with this reply.
    pub fn with(self, reply: &Reply) -> Counts
        requires { is_full self ≡ false }
        ensures { result ≡ counted self reply.now }
    {
        let calls = self.calls + 1;
        match reply {
            Reply::Committed(_) => Counts { calls, ..self },
            Reply::Aborted(why) => Counts {
                calls,
                ..self.with_abort(*why)
            },
        }
    }

    // Adds one to those that were aborted for this reason.
    fn with_abort(self, why: Reason) -> Counts
        requires { is_full self ≡ false }
        ensures { result ≡ with_abort self why }
    {
        match why {
            Reason::Code(_) => Counts {
                code: self.code + 1,
                ..self
            },
            Reason::Overflow => Counts {
                overflow: self.overflow + 1,
                ..self
            },
            Reason::Underflow => Counts {
                underflow: self.underflow + 1,
                ..self
            },
            Reason::ZeroDivisor => Counts {
                zero_divisor: self.zero_divisor + 1,
                ..self
            },
            Reason::Moved => Counts {
                moved: self.moved + 1,
                ..self
            },
        }
    }
}

/// How many rounds of lines were read, and the most lines that one of them had. Neither passes 2^64 - 1.
#[derive(Clone, Copy, PartialEq, Eq, Debug)]
pub struct Rounds {
    pub rounds: u64,
    pub most_lines: u64,
}

impl Rounds {
    /// No round.
    pub fn none() -> Rounds
        ensures { result ≡ none_read }
    {
        Rounds {
            rounds: 0,
            most_lines: 0,
        }
    }

    /// Adds one round, of so many lines.
    pub fn with(self, lines: u64) -> Rounds
        ensures { result ≡ with_round self lines }
    {
        Rounds {
            rounds: self.rounds.saturating_add(1),
            most_lines: self.most_lines.max(lines),
        }
    }
}
