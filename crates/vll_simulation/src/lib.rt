//! The engine beside the machine of atomic steps: seeded schedules of an engine on one thread, each step of which the
//! machine makes too. A seed gives a small world (records, clients with their calls, cap, limit, bits, hash) and a
//! schedule of the steps that the engine offers; after each step all that can be seen of both has to be the same: the
//! answer, the ticket, the reply, the journal's lines, and at the end the records and their pair words. Half of the engines
//! are reopened at their end, and the schedule goes on over the next one. What differs is told with its seed, which makes
//! it again. No crate calls it; start at the tests of `seeds`.
#![tactic(auto)]

#[cfg(test)]
mod closing;
#[cfg(test)]
mod draw;
#[cfg(test)]
mod held;
#[cfg(test)]
mod machine;
#[cfg(test)]
mod seeds;
#[cfg(test)]
mod shown;
#[cfg(test)]
mod steps;
#[cfg(test)]
mod tally;
#[cfg(test)]
mod under;
#[cfg(test)]
mod world;
