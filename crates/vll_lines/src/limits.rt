//! The limits of a line.
ghost use Rattle.std.specs.Prelude.{IsTrue};

/// The most bytes that a line may have, without its line feed.
pub const MOST_LINE: usize = 65_536;

/// The most bytes that an id may have.
pub const MOST_ID: usize = 64;

/// The most records that a line may ask for. A number has up to 20 digits, and a round 1,820 such lines, so that their
/// answers have at most 40 MB.
pub const MOST_READ: usize = 1_024;

/// The most lines of a round, and the most bytes that are asked for at a time: each line ends in the last of them.
pub const MOST_ROUND: usize = 32_768;

// As docs/SERVICE.md says.
const _: () = prove!(MOST_LINE == 65_536);

const _: () = prove!(MOST_ID == 64);

const _: () = prove!(MOST_READ == 1_024);
