// The layout of an entry file: its opening, the thirteen entries, how each is read, and the faults of layers 1 and 2.
#![tactic(auto)]

mod cursor;
mod entries;
mod entry;
mod fault;
mod head;
mod list;
mod numbers;
mod text;

pub use entries::{Setting, turn_at};
pub use entry::{
    CapacityTest, Decision, Entry, EntryKind, Figures, Marking, NewAward, Plain, Sheet, Standby,
    TakeOff, Transfer, Turn,
};
pub use fault::EntryFault;
pub use head::{Head, head_at};
pub use numbers::figures_end;
pub use text::is_printable;
