//! The results of runs of worker threads: the tests of vll_workers.
#![tactic(auto)]

#[cfg(test)]
mod asserts;
#[cfg(test)]
mod crowded;
#[cfg(test)]
mod gates;
#[cfg(test)]
mod indirect;
#[cfg(test)]
mod limited;
#[cfg(test)]
mod opening;
#[cfg(test)]
mod paced;
#[cfg(test)]
mod put_off;
#[cfg(test)]
mod resumed;
#[cfg(test)]
mod runs;
#[cfg(test)]
mod staying;
#[cfg(test)]
mod tallies;
#[cfg(test)]
mod tokens;
#[cfg(test)]
mod told;
#[cfg(test)]
mod waited_for;
