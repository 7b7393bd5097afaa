//! The limits of procedures and their calls, chosen by this project. A procedure of edition Two may
//! declare as many key positions as a call may have claims.

/// The greatest number of arguments of a procedure.
pub const MOST_ARGS: usize = 8;

/// The greatest number of key positions that a procedure of edition One declares.
pub const FIRST_MOST_KEYS: usize = 16;

/// The number of locals of a body.
pub const MOST_LOCALS: usize = 8;

/// The greatest number of outputs of a call.
pub const MOST_OUTPUTS: usize = 8;

/// The greatest depth of a body: a statement is one deeper than the deepest expression or statement in it.
pub const MOST_DEPTH: u32 = 32;

/// The greatest number of statements and expressions in a body.
pub const MOST_NODES: u32 = 1024;

/// The greatest number of turns of a `Repeat`.
pub const MOST_TURNS: u8 = 64;

/// The greatest work of a body: each of its statements and expressions counts as often as it is run.
pub const MOST_WEIGHT: u32 = 65_536;

// As docs/SCENARIO.md says.
const _: () = prove!(MOST_ARGS == 8);

const _: () = prove!(FIRST_MOST_KEYS == 16);

const _: () = prove!(MOST_LOCALS == 8);

const _: () = prove!(MOST_OUTPUTS == 8);

const _: () = prove!(MOST_DEPTH == 32);

const _: () = prove!(MOST_NODES == 1_024);

const _: () = prove!(MOST_TURNS == 64);

const _: () = prove!(MOST_WEIGHT == 65_536);
