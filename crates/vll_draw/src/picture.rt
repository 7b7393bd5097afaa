//! The drawings of a replay: what each event of a window did, over time, with the calls and the records that it
//! concerned, as SVG. Nothing is proved about the markup: `specs/Columns.antt` defines what a column holds of a step of
//! the plain machine. Start at `push_bands`, `Drawing` and `Column`.
mod band;
mod column;
mod drawing;
mod lanes;
mod markup;
mod page;
mod records;
mod style;
mod tickets;

pub(crate) use column::{Column, RecordWords};
pub(crate) use drawing::{Drawing, Phase, Standing, push_bands};
pub(crate) use page::{Counts, push_head, push_heading};
