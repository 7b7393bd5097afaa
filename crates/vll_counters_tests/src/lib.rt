//! The tests of vll_counters.
#![tactic(auto)]

#[cfg(test)]
mod asserts;
#[cfg(test)]
mod words;
