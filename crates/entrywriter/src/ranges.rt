// Whether the fields of an entry are in their ranges.
ghost use Rattle.std.specs.Prelude.{◌≡◌, true, ◌&&◌, [], ◌∷◌};
ghost use Rattle.market.specs.Kinds.{kind_number};
ghost use Rattle.market.specs.Families.{is_family, figure_count};
ghost use Rattle.entryfile.specs.Forms.{accepts};
ghost use Rattle.entryfile.specs.Items.{numbers_bytes};
ghost use Rattle.entryfile.specs.Layout.{award_form, lodge_form, figures_form, entry_form};
ghost use Rattle.entryfile.specs.Views.{numbers_in, figures_of, numbers_of};
ghost use Rattle.entrywriter.specs.Spells.{Spells, SpellsIn};

use entryfile::{Entry, Figures, NewAward, Setting, Sheet, Transfer, Turn, figures_end};
use market::{Family, figures_in_sheet, in_range};

fn award_in_range(award: &NewAward, zones: u32) -> bool
    ensures { result ≡ accepts (award_form zones) (award.now.holder ∷ award.now.zone ∷ kind_number award.now.kind ∷ award.now.quantity ∷ award.now.cleared_icap ∷ award.now.capability ∷ []) }
{
    in_range(award.holder, 1, 999)
        && in_range(award.zone, 1, zones)
        && in_range(award.quantity, 10, 100_000)
        && in_range(award.cleared_icap, award.quantity, 100_000)
        && award.kind.fits_capability(award.capability)
}

fn transfer_in_range(transfer: &Transfer, zones: u32) -> bool
    ensures { result ≡ accepts (lodge_form zones) (transfer.now.award ∷ transfer.now.new_holder ∷ transfer.now.zone ∷ kind_number transfer.now.kind ∷ transfer.now.quantity ∷ transfer.now.capability ∷ []) }
{
    in_range(transfer.new_holder, 1, 999)
        && in_range(transfer.zone, 1, zones)
        && in_range(transfer.quantity, 10, 100_000)
        && transfer.kind.fits_capability(transfer.capability)
}

// Whether the bytes are so many figures and nothing else.
fn encoded_fit(bytes: &[u8], count: usize) -> bool
    ensures is { result ≡ accepts (figures_form count) (numbers_in bytes.now) }
    ensures spells { result ≡ true → numbers_bytes (numbers_in bytes.now) ≡ bytes.now }
{
    figures_end(bytes, 0, count) == Ok(bytes.len())
}

// Whether the numbers are so many figures.
fn listed_fit(numbers: &[u32], count: usize) -> bool
    ensures { result ≡ accepts (figures_form count) numbers.now }
{
    numbers.len() == count && numbers.iter().all(|number| in_range(*number, 0, 100_000))
}

// Whether the figures are so many.
fn figures_fit(figures: Figures, count: usize) -> bool
    ensures is { result ≡ accepts (figures_form count) (figures_of figures.entry) }
    ensures spells { result ≡ true → Spells figures.entry }
{
    match figures {
        Figures::Encoded(bytes) => encoded_fit(bytes, count),
        Figures::Listed(numbers) => listed_fit(numbers, count),
    }
}

// Whether a family of the book has such figures.
fn sheet_in_range(sheet: &Sheet, families: &[Family]) -> bool
    ensures is { result ≡ (is_family families.now sheet.now.family && accepts (figures_form (figure_count families.now sheet.now.family)) (figures_of sheet.now.figures)) }
    ensures spells { result ≡ true → Spells sheet.now.figures }
{
    match figures_in_sheet(families, sheet.family) {
        Some(count) => figures_fit(sheet.figures, count),
        None => false,
    }
}

// Whether every field but the sender is in its range. An award may have any number.
fn entry_in_range(entry: Entry, setting: Setting) -> bool
    ensures is { result ≡ accepts (entry_form setting.entry.zones setting.entry.families.now) (numbers_of 0 entry.entry) }
    ensures spells { result ≡ true → SpellsIn entry.entry }
{
    match entry {
        Entry::Award(award) => award_in_range(&award, setting.zones),
        Entry::Lodge(transfer) => transfer_in_range(&transfer, setting.zones),
        Entry::BuyOut(off) | Entry::Reduction(off) => in_range(off.quantity, 1, 100_000),
        Entry::Sheet(sheet) => sheet_in_range(&sheet, setting.families),
        Entry::Standby(standby) => in_range(standby.hour, 1, 24),
        Entry::Test(test) => in_range(test.delivered, 0, 100_000),
        _ => true,
    }
}

// Whether the sender and every field are in their ranges.
pub(crate) fn fields_in_range(turn: &Turn, setting: Setting) -> bool
    ensures is { result ≡ accepts (entry_form setting.entry.zones setting.entry.families.now) (numbers_of turn.now.sender turn.now.entry) }
    ensures spells { result ≡ true → SpellsIn turn.now.entry }
{
    in_range(turn.sender, 0, 999) && entry_in_range(turn.entry, setting)
}
