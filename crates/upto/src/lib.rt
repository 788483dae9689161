// A list of at most `N` items that lies in the value itself: where the subject sets the bound, as with the months of a
// period, such a list is plain data, made without an allocator.
#![tactic(auto)]

mod list;

pub use list::{TooMany, UpTo};
