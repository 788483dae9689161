// The terms of an opening, and whether they are in their ranges.
ghost use Rattle.std.specs.Prelude.{◌≡◌, ◌&&◌};
ghost use Rattle.std.specs.List.{list_all};
ghost use Rattle.upto.specs.Listed.{listed};
ghost use Rattle.market.specs.Ranges.{within, limit};
ghost use Rattle.market.specs.Openings.{said, terms_in_range, month_in_range, calendar_fits, prices_fit};

use crate::in_range;
use crate::month::Month;
use upto::UpTo;

// What is fixed for a whole period. It has at most 6 months and a market at most 10 zones, so the terms are a plain value.
#[derive(Clone, Copy)]
pub struct OpeningTerms {
    pub months: UpTo<Month, 6>,
    // the first and the last hour of the availability window
    pub first_hour: u32,
    pub last_hour: u32,
    // cents for a megawatt-hour, zone by zone
    pub prices: UpTo<u32, 10>,
    // in percent
    pub buyout_rate: u32,
    pub pass_mark: u32,
}

// Months and prices are tested by a line each: what a function for both would share stands in `all`.
fn months_in_range(months: &[Month]) -> bool
    ensures { result ≡ list_all month_in_range months.now }
{
    months.iter().all(|month| month.is_in_range())
}

fn prices_in_range(prices: &[u32]) -> bool
    ensures { result ≡ list_all (within 0 limit) prices.now }
{
    prices.iter().all(|price| in_range(*price, 0, 100_000))
}

// The availability window: hours of the day, the first not after the last.
fn window_in_range(first_hour: u32, last_hour: u32) -> bool
    ensures { result ≡ (within 1 24 first_hour && within first_hour 24 last_hour) }
{
    in_range(first_hour, 1, 24) && in_range(last_hour, first_hour, 24)
}

impl OpeningTerms {
    fn calendar_is_in_range(&self) -> bool
        ensures { result ≡ calendar_fits (listed self.now.months) self.now.first_hour self.now.last_hour }
    {
        let months = self.months.as_slice();
        !months.is_empty()
            && months_in_range(months)
            && window_in_range(self.first_hour, self.last_hour)
    }

    fn prices_and_shares_are_in_range(&self) -> bool
        ensures { result ≡ prices_fit (listed self.now.prices) self.now.buyout_rate self.now.pass_mark }
    {
        let prices = self.prices.as_slice();
        !prices.is_empty()
            && prices_in_range(prices)
            && in_range(self.buyout_rate, 0, 100)
            && in_range(self.pass_mark, 1, 100)
    }

    // Whether each term is in its range.
    pub(crate) fn is_in_range(&self) -> bool
        ensures { result ≡ terms_in_range (said self.now) }
    {
        self.calendar_is_in_range() && self.prices_and_shares_are_in_range()
    }
}
