//! Record numbers, the claims that calls make on records, and the words that count open claims. A record's pair word
//! counts its open Write and Read claims, so that one addition requests a claim and shows whether it is granted.
//! Proved: a request is granted exactly if no open claim conflicts with it, and what a call asks for has one list of
//! claims, each record once in its strongest mode. Start at `Claim`, `Claims` (the claims of a call) and `Pair`;
//! `delta` and `granted` do the counting, and `value_word` and `pair_word` place a record's words.
//!
//! ```rattle
//! let word = pair_word(claim.id);
//! let old = words[word];
//! words[word] = old + delta(claim.mode);
//! let free = granted(claim.mode, old);
//! ```
#![tactic(auto)]

mod claim;
mod claims;
mod laws;
mod pair;
mod word;

pub use claim::{Claim, Mode, RecordId};
pub use claims::{Claims, ClaimsIter, MOST_CLAIMS};
pub use laws::{
    claims_are_of_what_was_asked, claims_are_the_only_ones, granted_where_no_claim_conflicts,
    halves_count_the_claims, pair_and_word_tell_each_other, release_takes_its_delta,
    request_adds_its_delta, words_stand_apart,
};
pub use pair::{Pair, delta, granted};
pub use word::{pair_word, value_word};
