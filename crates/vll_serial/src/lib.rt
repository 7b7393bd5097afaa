//! A call that is made alone on plain records, without an engine. Proved: it leaves the records, and gives the reply,
//! that its body means. Start at `make`.
//!
//! ```rattle
//! let mut records = vec![in alloc; 100, 70]?;
//! let call = library.call("transfer", &[0, 1, 30])?;
//! let reply = make(&library, &mut records, &call);
//! ```
#![tactic(auto)]

mod alone;

pub use alone::make;
