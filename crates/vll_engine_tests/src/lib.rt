//! The tests of vll_engine: what an engine answers, call by call.
#![tactic(auto)]

#[cfg(test)]
mod ahead;
#[cfg(test)]
mod asserts;
#[cfg(test)]
mod calling;
#[cfg(test)]
mod closing;
#[cfg(test)]
mod collecting;
#[cfg(test)]
mod embedding;
#[cfg(test)]
mod finding;
#[cfg(test)]
mod holding;
#[cfg(test)]
mod judging;
#[cfg(test)]
mod looking;
#[cfg(test)]
mod opening;
#[cfg(test)]
mod playing;
#[cfg(test)]
mod queueing;
#[cfg(test)]
mod reopening;
#[cfg(test)]
mod schedules;
#[cfg(test)]
mod telling;
#[cfg(test)]
mod waiting;
