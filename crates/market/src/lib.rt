// The market's vocabulary: kinds of resource, the opening of a book with the ranges of its numbers, and the refusal
// table. Every other crate speaks in these words.
#![tactic(auto)]

ghost use Rattle.std.specs.Prelude.{◌≡◌};
ghost use Rattle.market.specs.Ranges.{within};

mod family;
mod kind;
mod mark;
mod month;
mod numbered;
mod opening;
mod refusal;
mod terms;

pub use family::{FAMILIES, Family, figures_in_sheet};
pub use kind::{AssessmentFamily, Kind};
pub use mark::Mark;
pub use month::Month;
pub use numbered::{Numbered, UnknownNumber};
pub use opening::Opening;
pub use refusal::{Cause, Fault, Layer};
pub use terms::OpeningTerms;

// Whether a number lies from `low` to `high`, both included. The two are parameters and no range of std's, whose contract
// speaks of comparisons and of an iterator's state.
pub fn in_range(n: u32, low: u32, high: u32) -> bool
    ensures { result ≡ within low high n }
{
    (low..=high).contains(&n)
}
