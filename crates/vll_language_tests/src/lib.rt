//! The tests of vll_record, vll_proc, vll_check and vll_sca: claims and pair words, replies, checked procedures and
//! their library, scans, and what the laws require.
#![tactic(auto)]

#[cfg(test)]
mod asserts;
#[cfg(test)]
mod bits;
#[cfg(test)]
mod calls;
#[cfg(test)]
mod checked;
#[cfg(test)]
mod claims;
#[cfg(test)]
mod finding;
#[cfg(test)]
mod frame;
#[cfg(test)]
mod laws;
#[cfg(test)]
mod library;
#[cfg(test)]
mod made;
#[cfg(test)]
mod pair;
#[cfg(test)]
mod place;
#[cfg(test)]
mod procedures;
#[cfg(test)]
mod word;
