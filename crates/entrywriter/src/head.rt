// The numbers of the head of a file: version 1 and the opening.
ghost use Rattle.std.specs.Prelude.{◌≡◌};
ghost use Rattle.upto.specs.Listed.{listed};
ghost use Rattle.market.specs.Opened.{terms_of};
ghost use Rattle.entryfile.specs.Files.{head_numbers};

use crate::list::append;
use market::Opening;
use upto::UpTo;

// At most 29 numbers: the version, two counts, two for each of 6 months, the window, 10 prices and the shares.
pub(crate) fn head_numbers(opening: &Opening) -> UpTo<u32, 29>
    ensures { listed result ≡ head_numbers (terms_of opening.now) }
{
    let mut numbers = UpTo::default();
    append(&mut numbers, &[1, opening.months().len() as u32]);
    for month in opening.months() {
        append(&mut numbers, &[month.days, month.factor]);
    }
    append(
        &mut numbers,
        &[opening.first_hour(), opening.last_hour(), opening.zones()],
    );
    append(&mut numbers, opening.prices());
    append(&mut numbers, &[opening.buyout_rate(), opening.pass_mark()]);
    numbers
}
