//! The tests of vll_core: the answers of a core and of a queue, step by step.
#![tactic(auto)]

#[cfg(test)]
mod asserts;
#[cfg(test)]
mod crowd;
#[cfg(test)]
mod handing;
#[cfg(test)]
mod openings;
#[cfg(test)]
mod played;
#[cfg(test)]
mod playing;
#[cfg(test)]
mod queue;
#[cfg(test)]
mod scanning;
#[cfg(test)]
mod steps;
#[cfg(test)]
mod transcript;
#[cfg(test)]
mod words;
