// A month of the obligation period.
ghost use Rattle.std.specs.Prelude.{◌≡◌};
ghost use Rattle.market.specs.Openings.{month_in_range};

use crate::in_range;

#[derive(Clone, Copy, Debug, Default, PartialEq)]
pub struct Month {
    // business days
    pub days: u32,
    // the month's factor, in tenths
    pub factor: u32,
}

impl Month {
    // Whether days and factor are in their ranges.
    pub(crate) fn is_in_range(&self) -> bool
        ensures { result ≡ month_in_range self.now }
    {
        in_range(self.days, 1, 23) && in_range(self.factor, 1, 100)
    }
}
