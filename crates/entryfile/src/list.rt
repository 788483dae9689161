// The lists of an opening: how many items there are, and the items.
ghost use Rattle.std.specs.Prelude.{◌≡◌, ℕ, ◌^◌, ◌<◌, Bool, List};
ghost use Rattle.market.specs.Ranges.{within};
ghost use Rattle.entryfile.specs.Forms.{Form, done, then_at, form_at};
ghost use Rattle.entryfile.specs.Layout.{number, row_form, items_form, month_ranges, price_ranges};
ghost use Rattle.entryfile.specs.Views.{view_by};
ghost use Rattle.entryfile.specs.Lists.{list_numbers, month_pair, price_numbers};
ghost use Rattle.entryfile.specs.Cursors.{moved, SameFile};

use crate::cursor::Cursor;
use crate::fault::EntryFault;
use market::Month;
use upto::UpTo;

// What an opening lists: months, and the prices of zones.
pub(crate) trait ListItem: Copy + Default {
    // the numbers of an item
    ghost numbers: { Self → List ℕ };

    // their ranges
    ghost ranges: { List (ℕ → Bool) };

    fn read(cursor: &mut Cursor<'_>) -> Result<Self, EntryFault>
        ensures is { view_by numbers (moved result cursor.new) ≡ form_at (row_form ranges done) cursor.old.file.now cursor.old.place }
        ensures file { SameFile cursor.old cursor.new };
}

// One to `N` items with their number before them, whatever follows.
pub(crate) fn list<T: ListItem, const N: usize>(
    cursor: &mut Cursor<'_>,
) -> Result<UpTo<T, N>, EntryFault>
    requires { N < 2 ^ 32 }
    ensures is { (rest : Form) → form_at (number (within 1 N) (λ n. items_form (row_form T.ranges) n rest)) cursor.old.file.now cursor.old.place ≡ then_at (form_at rest cursor.old.file.now) (view_by (list_numbers T.numbers) (moved result cursor.new)) }
    ensures file { SameFile cursor.old cursor.new }
{
    let count = cursor.range(1, N as u32)?;
    let mut items = UpTo::default();
    for _item in 0..count {
        items.push(T::read(cursor)?).unwrap();
    }
    Ok(items)
}

// A month: its business days and its factor.
impl ListItem for Month {
    ghost numbers = { month_pair };

    ghost ranges = { month_ranges };

    fn read(cursor: &mut Cursor<'_>) -> Result<Month, EntryFault> {
        Ok(Month {
            days: cursor.range(1, 23)?,
            factor: cursor.range(1, 100)?,
        })
    }
}

// The price of a zone.
impl ListItem for u32 {
    ghost numbers = { price_numbers };

    ghost ranges = { price_ranges };

    fn read(cursor: &mut Cursor<'_>) -> Result<u32, EntryFault> {
        cursor.range(0, 100_000)
    }
}
