//! Laws of the machine of atomic steps, each the contract of a function that does nothing. A lawful move is an event of
//! the machine, the start of any waiting ticket that is clear, or the opening of a turn for a call that is passed in.
ghost use Rattle.vll_core.specs.Laws.{EventListsReach, RunningTicketsAreClear, FrontTicketIsClear, ScanTicketIsClear, OpenTurnsHaveRoom, WaitingStaysWithinTheCap, LoadsSeeTheSerialState, CountersChangeByDeltas, StoresMakeTheSerialState, OtherValuesStay, SerialStatesStay, CountersStayWithinTheLimit, FinishedMachinesHaveTheSerialEnd, ReadyCallIsProper, FittingScriptsAreProper, LaterCallsLeaveSerialStates, LaterCallsLeaveSerialAnswers, GoneTicketsStay, StartedTicketsDoNotWait, TicketsStartOnce};

/// Every list of events, including refused ones, reaches a state for which the other laws hold.
#[tactic(auto, using(crate::proofs::Reached::lists_reach))]
pub fn event_lists_reach()
    ensures { EventListsReach }
{}

/// In every state that lawful moves reach, a ticket that is running or gone is clear: no claim that
/// a lower ticket has requested and not released conflicts with a claim of its own.
#[tactic(auto, using(crate::proofs::Reached::clear_reached))]
pub fn running_tickets_are_clear()
    ensures { RunningTicketsAreClear }
{}

/// The ticket that Front picks, in a state that lawful moves reach, waits and is clear.
pub fn front_ticket_is_clear()
    ensures { FrontTicketIsClear }
{}

/// The ticket that a contention analysis finds, in a state that lawful moves reach, waits and is clear, whatever places
/// and number of bits it uses, even if not the machine's: a collision can only hold a call back.
pub fn scan_ticket_is_clear()
    ensures { ScanTicketIsClear }
{}

/// While a turn is open, the entered calls are below the limit and the waiting ones below the cap, so its call can get
/// a ticket and wait.
pub fn open_turns_have_room()
    ensures { OpenTurnsHaveRoom }
{}

/// The number of waiting calls does not exceed the cap.
pub fn waiting_stays_within_the_cap()
    ensures { WaitingStaysWithinTheCap }
{}

/// A load by ticket t returns the value that the record has before ticket t if the entered calls run one at a time.
#[tactic(auto, using(crate::proofs::Reached::load_reached))]
pub fn loads_see_the_serial_state()
    ensures { LoadsSeeTheSerialState }
{}

/// A request adds its claim's delta to the counter of its record, a release subtracts it, and nothing else changes a
/// counter.
pub fn counters_change_by_deltas()
    ensures { CountersChangeByDeltas }
{}

/// A store by ticket t gives its record the value that it has after ticket t if the entered calls run one at a time.
#[tactic(auto, using(crate::proofs::Values::store_reached))]
pub fn stores_make_the_serial_state()
    ensures { StoresMakeTheSerialState }
{}

/// No move changes a value, except that a store changes its own record's.
#[tactic(auto, using(crate::proofs::Values::others_stay))]
pub fn other_values_stay()
    ensures { OtherValuesStay }
{}

/// Once all tickets below a ticket have been given out, the records that the serial run has before this ticket no
/// longer change.
#[tactic(auto, using(crate::proofs::Reached::serial_stays))]
pub fn serial_states_stay()
    ensures { SerialStatesStay }
{}

/// No record has more open claims than the limit of calls, so neither half of its counter exceeds
/// it.
pub fn counters_stay_within_the_limit()
    ensures { CountersStayWithinTheLimit }
{}

/// If no turn is open and no call waits or runs, each call is gone, each record has the value that the entered calls
/// give it one at a time in order of entry, and each counter is 0.
pub fn finished_machines_have_the_serial_end()
    ensures { FinishedMachinesHaveTheSerialEnd }
{}

/// Ready calls are proper, and calls that a library makes are proper as they enter. So a machine over the library's
/// procedures meets the conditions of the laws, both for calls that are passed in and for its scripts.
pub fn fitting_calls_are_proper()
    ensures call { ReadyCallIsProper }
    ensures scripts { FittingScriptsAreProper }
{}

/// If calls run one at a time, the records before a call of a list, and the call's reply, do not depend on the calls
/// that follow the list.
pub fn later_calls_leave_serial_runs()
    ensures states { LaterCallsLeaveSerialStates }
    ensures answers { LaterCallsLeaveSerialAnswers }
{}

/// No move takes a ticket from gone to anything else, nor from running or gone back to waiting. So a ticket that has
/// run never starts again, whatever moves follow: it gets one pass, ever.
pub fn tickets_start_once()
    ensures gone { GoneTicketsStay }
    ensures started { StartedTicketsDoNotWait }
    ensures once { TicketsStartOnce }
{}
