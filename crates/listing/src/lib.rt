// The report of `inspect` on an entry file: its opening, its entries one by one, and the first fault, in plain words.
#![tactic(auto)]

mod figures;
mod input;
mod report;

pub use input::whole_input;
pub use report::{inspect, run};
