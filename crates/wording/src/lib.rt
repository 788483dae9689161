// The words in which a listing tells of entries and faults. What each value prints is pinned by its `output`.
#![tactic(auto)]

mod lines;
mod words;

pub use lines::{Heading, Hours, InWords};
pub use words::{Megawatts, Tenths};
