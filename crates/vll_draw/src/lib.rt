//! A replay as an HTML page: what each event did is drawn over time, with the lines of the replay's text listed below.
//! It is the whole of the program's `vll draw`. A scenario without a schedule gets the one that makes its calls one
//! after the other. The crate proves that the list has exactly the lines of the replay of the scenario that was read,
//! with this schedule if it has none, and that the column kept for each drawn event holds what the machine's
//! specification says of its step; nothing is proved about the markup of the drawings. Start at `draw`.
//!
//! ```rattle
//! let window = EventRange { from, count };
//! let mut reader = Plain::new(rt.reader());
//! let mut writer = Plain::new(io::writer(rt));
//! draw(rt.alloc(), &mut reader, &mut writer, window)?;
//! ```
#![tactic(auto)]

mod drawing;
mod fault;
mod one_by_one;
mod page;
mod picture;
mod tape;

pub use drawing::{draw, page_of};
pub use fault::DrawFault;
