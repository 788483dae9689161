// How many bytes numbers, figures and entries take. It is known before the first byte is written, since a refusal leaves
// the buffer as it was; so sizes and writing go over the same parts.
ghost use Rattle.std.specs.Prelude.{◌≡◌, ◌+◌, ◌*◌, ◌^◌, ◌<◌, ◌≤◌, length};
ghost use Rattle.std.specs.Int.Digits.{AllBelowBase};
ghost use Rattle.entryfile.specs.Items.{numbers_bytes, item_bytes};
ghost use Rattle.entryfile.specs.Views.{item_of};
ghost use Rattle.entrywriter.specs.Leads.{lead_of, figures_in};

use crate::checked::Checked;
use crate::lead::{figures_of, lead_of};
use entryfile::Figures;
use number::number_size;

pub(crate) fn numbers_size(numbers: &[u32]) -> usize
    ensures is { result ≡ length (numbers_bytes numbers.now) }
    ensures few { result ≤ 5 * length numbers.now }
    ensures below { result + 100 < 2 ^ 64 }
    ensures small { AllBelowBase (2 ^ 32) numbers.now }
{
    numbers.iter().map(|number| number_size(*number)).sum()
}

fn figures_size(entry: &Checked) -> usize
    ensures is { result ≡ length (numbers_bytes (figures_in entry.now.turn.entry)) }
    ensures below { result + 100 < 2 ^ 64 }
{
    match figures_of(&entry.turn.entry) {
        Figures::Encoded(bytes) => bytes.len(),
        Figures::Listed(numbers) => numbers_size(numbers),
    }
}

pub(crate) fn entry_size(entry: &Checked) -> usize
    ensures is { result ≡ length (item_bytes (item_of entry.now.turn)) }
    ensures small { AllBelowBase (2 ^ 32) (lead_of entry.now.turn.sender entry.now.turn.entry) }
{
    let reference = entry.turn.entry.reference();
    let fields = numbers_size(lead_of(&entry.turn).as_slice()) + figures_size(entry);
    fields + number_size(reference.len() as u32) + reference.len()
}
