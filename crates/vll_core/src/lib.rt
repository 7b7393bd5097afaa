//! The queue of entered calls, and the machine that brings them to their replies in atomic steps, one event at a time.
//! The engine (`vll_engine`) keeps its calls in the queue; replays (`vll_replay`) run the machine.
//! Proved: each step gives the answer and the next state of the plain machine of `specs/Machine.antt`. In each state
//! that lawful moves reach, loads and stores agree with the calls run one at a time, in the order of their tickets.
//! Start at `Core` and `Event` for the machine, at `Queue` for the queue alone, and at `laws.rt` for the laws.
//!
//! ```rattle
//! let mut core = Core::open(alloc, records, library, scripts, config, Placing::Modulo)?;
//! let answer = core.step(Event::Enter(0)); // a turn opens for the next call of client 0
//! let events = core.drain(); // the call enters, runs and is gone
//! let (journal, words) = (core.journal(), core.words());
//! ```
#![tactic(auto)]

mod capacity;
mod config;
mod core_machine;
mod event;
mod execution;
mod laws;
mod line;
mod machine;
mod opening;
mod queue;
mod refusal;
mod seen;
mod ticket;

pub use config::{Config, MOST_CALLS, MOST_RECORDS, MOST_WAITING, MOST_WORKERS, OpenFault};
pub use core_machine::Core;
pub use event::Event;
pub use laws::{
    counters_change_by_deltas, counters_stay_within_the_limit, event_lists_reach,
    finished_machines_have_the_serial_end, fitting_calls_are_proper, front_ticket_is_clear,
    later_calls_leave_serial_runs, loads_see_the_serial_state, open_turns_have_room,
    other_values_stay, running_tickets_are_clear, scan_ticket_is_clear, serial_states_stay,
    stores_make_the_serial_state, tickets_start_once, waiting_stays_within_the_cap,
};
pub use line::Line;
pub use machine::Machine;
pub use opening::open_fault;
pub use queue::Queue;
pub use refusal::Refusal;
pub use seen::Seen;
pub use ticket::Ticket;
