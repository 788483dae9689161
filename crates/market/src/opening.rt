// The opening of a book: terms that are in their ranges, and asking what they say.
ghost use Rattle.std.specs.Prelude.{◌≡◌, true};
ghost use Rattle.market.specs.Openings.{said, terms_in_range};

use crate::month::Month;
use crate::refusal::{Cause, Fault};
use crate::terms::OpeningTerms;
use upto::UpTo;

// A plain value, since its terms are.
#[derive(Clone, Copy)]
pub struct Opening {
    terms: OpeningTerms,
    ghost in_range: { terms_in_range (said terms) ≡ true },
}

impl TryFrom<OpeningTerms> for Opening {
    type Error = Fault;

    ghost use Rattle.market.specs.Opened.{Made};
    ghost use Rattle.market.specs.Openings.{said};

    ghost try_from_gives = { λ t r. Made (said t) r };

    fn try_from(terms: OpeningTerms) -> Result<Opening, Fault> {
        if !terms.is_in_range() {
            return Err(Fault::of_call(Cause::OutOfRange));
        }
        Ok(Opening { terms })
    }
}

impl Opening {
    ghost use Rattle.std.specs.Prelude.{◌≡◌, length};
    ghost use Rattle.market.specs.Openings.{terms};
    ghost use Rattle.market.specs.Opened.{Made, terms_of};

    // An opening with these terms; refused with cause 5 where one of them is out of its range. They come one by one, since
    // a caller has slices of any length, and `OpeningTerms` holds lists that are short enough.
    pub fn new(
        months: &[Month],
        first_hour: u32,
        last_hour: u32,
        prices: &[u32],
        buyout_rate: u32,
        pass_mark: u32,
    ) -> Result<Opening, Fault>
        ensures { Made (terms months.now first_hour last_hour prices.now buyout_rate pass_mark) result }
    {
        let (Ok(months), Ok(prices)) = (UpTo::try_from(months), UpTo::try_from(prices)) else {
            return Err(Fault::of_call(Cause::OutOfRange));
        };
        Opening::try_from(OpeningTerms {
            months,
            first_hour,
            last_hour,
            prices,
            buyout_rate,
            pass_mark,
        })
    }

    // The months of the period, in order.
    pub fn months(&self) -> &[Month]
        ensures { result.now ≡ (terms_of self.now).months }
    {
        self.terms.months.as_slice()
    }

    // The prices of the zones, in cents for a megawatt-hour, from zone 1 on.
    pub fn prices(&self) -> &[u32]
        ensures { result.now ≡ (terms_of self.now).prices }
    {
        self.terms.prices.as_slice()
    }

    // How many zones there are.
    pub fn zones(&self) -> u32
        ensures { result ≡ length (terms_of self.now).prices }
    {
        self.prices().len() as u32
    }

    // The first hour of the availability window.
    pub fn first_hour(&self) -> u32
        ensures { result ≡ (terms_of self.now).first_hour }
    {
        self.terms.first_hour
    }

    // The last hour of the availability window.
    pub fn last_hour(&self) -> u32
        ensures { result ≡ (terms_of self.now).last_hour }
    {
        self.terms.last_hour
    }

    // The buy-out rate in percent.
    pub fn buyout_rate(&self) -> u32
        ensures { result ≡ (terms_of self.now).buyout_rate }
    {
        self.terms.buyout_rate
    }

    // The pass mark of a capacity test in percent.
    pub fn pass_mark(&self) -> u32
        ensures { result ≡ (terms_of self.now).pass_mark }
    {
        self.terms.pass_mark
    }
}
