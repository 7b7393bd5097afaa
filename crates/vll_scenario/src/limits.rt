//! The limits on a scenario's sizes, besides those of the engine that runs it.

/// The most bytes that a scenario may have.
pub const MOST_BYTES: usize = 16_777_216;

/// The most procedures that a scenario may have.
pub const MOST_PROCS: usize = 1_048_576;

/// The most clients that a scenario may have.
pub const MOST_CLIENTS: usize = 1_024;

/// The most events that a schedule may have.
pub const MOST_EVENTS: usize = 1_048_576;

// As docs/SCENARIO.md says.
const _: () = prove!(MOST_BYTES == 16_777_216);

const _: () = prove!(MOST_PROCS == 1_048_576);

const _: () = prove!(MOST_CLIENTS == 1_024);

const _: () = prove!(MOST_EVENTS == 1_048_576);
