// Reading an entry file from its front to its end: version and opening, then entry by entry.
#![tactic(auto)]

mod next;
mod reader;
mod survey;

pub use next::read_head;
pub use reader::Reader;
pub use survey::{Survey, read_through};
