//! Where a scenario is read from, in words.

/// Where a scenario is read from. An explanation names it if the scenario was not read to its end.
#[derive(Clone, Copy)]
pub enum Origin {
    /// Standard input.
    Standard,
    /// A file.
    File,
}

impl Origin {
    // What it is called.
    pub(crate) fn name(self) -> &'static str {
        match self {
            Origin::Standard => "standard input",
            Origin::File => "the file",
        }
    }

    // What is wrong if reading fails.
    pub(crate) fn failure(self) -> &'static str {
        match self {
            Origin::Standard => "it cannot be read; use a file or a pipe",
            Origin::File => "it cannot be read",
        }
    }
}
