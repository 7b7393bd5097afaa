//! The answers that the program reports.

/// What a function returned, and whether all else is then as it should be.
#[derive(Clone, Copy, PartialEq, Eq, Debug)]
pub(crate) enum Answer {
    /// What it returns with ample memory.
    Ample,
    /// Its own `NoMemory`. Nothing was written, and what it gives back is unchanged.
    NoMemory,
    /// No thread could be started. Nothing was written, and what it gives back is unchanged.
    Spawn,
    /// Anything else.
    Wrong,
}

impl Answer {
    /// The line to print.
    pub(crate) fn word(self) -> &'static str {
        match self {
            Answer::Ample => "ample",
            Answer::NoMemory => "no memory",
            Answer::Spawn => "spawn",
            Answer::Wrong => "wrong",
        }
    }

    /// The program's exit status.
    pub(crate) fn status(self) -> u8 {
        match self {
            Answer::Wrong => 1,
            Answer::Ample | Answer::NoMemory | Answer::Spawn => 0,
        }
    }

    /// Returns this answer if all else is as it should be, which `holds` says, else `Wrong`.
    pub(crate) fn only_if(self, holds: bool) -> Answer {
        if holds { self } else { Answer::Wrong }
    }
}
