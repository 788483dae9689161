// Reading numbers from a place of a file on: any place, also behind its end, where no cursor stands.
ghost use Rattle.std.specs.Prelude.{◌≡◌, ◌+◌, ◌<◌, ◌≤◌, length, IfOk, Ok};
ghost use Rattle.std.specs.List.{between};
ghost use Rattle.number.specs.Numbers.{encode};
ghost use Rattle.market.specs.Ranges.{within};
ghost use Rattle.entryfile.specs.declared.fault.EntryFault.TheVariants.{OutOfRange};
ghost use Rattle.entryfile.specs.Forms.{checked_at, form_at, end_of};
ghost use Rattle.entryfile.specs.Layout.{figures_form};
ghost use Rattle.entryfile.specs.Views.{numbers_in};

use crate::fault::EntryFault;
use market::in_range;
use number::read_number;

// A number from `low` to `high`, and the place after it.
#[tactic(auto, using(crate::proofs::Checks::checks, crate::proofs::Places::number_size))]
pub(crate) fn range_at(
    file: &[u8],
    at: usize,
    low: u32,
    high: u32,
) -> Result<(u32, usize), EntryFault>
    ensures is { result ≡ checked_at OutOfRange (within low high) file.now at }
    ensures ahead { IfOk result (λ p. (at < p.1) × (p.1 ≤ length file.now)) }
    ensures size { IfOk result (λ p. p.1 ≡ at + length (encode p.0)) }
{
    let (n, next) = read_number(file, at)?;
    if !in_range(n, low, high) {
        return Err(EntryFault::OutOfRange(at));
    }
    Ok((n, next))
}

// The place after so many figures.
pub fn figures_end(file: &[u8], at: usize, count: usize) -> Result<usize, EntryFault>
    ensures is { result ≡ end_of (form_at (figures_form count) file.now at) }
    ensures ahead { at ≤ length file.now → IfOk result (λ p. (at ≤ p) × (p ≤ length file.now)) }
    ensures spelled { at ≤ length file.now → IfOk result (λ p. Ok (numbers_in (between at p file.now), p) ≡ form_at (figures_form count) file.now at) }
{
    let mut next = at;
    // each figure begins where the one before it ends, so a chain of iterators would carry the place as this loop does
    for _figure in 0..count {
        let (_, after) = range_at(file, next, 0, 100_000)?;
        next = after;
    }
    Ok(next)
}
