// Reading one entry: its number, its sender, the fields that its kind has, and its reference.
ghost use Rattle.std.specs.Prelude.{◌≡◌, ℕ, ◌≤◌, [], ◌∷◌, length, IfOk};
ghost use Rattle.entryfile.specs.Forms.{done};
ghost use Rattle.entryfile.specs.declared.entry.Entry.TheVariants as entries;
ghost use Rattle.entryfile.specs.Layout.{award_form, lodge_form, named_form, take_off_form, sheet_form, standby_form, test_form, mark_form, fields_form};
ghost use Rattle.entryfile.specs.Items.{item, entry_with, entry_at};
ghost use Rattle.entryfile.specs.Views.{entry_item, entry_view, item_view, turn_view, FiguresStand, SheetStands};
ghost use Rattle.entryfile.specs.Numbering.{entry_number};
ghost use Rattle.entryfile.specs.Cursors.{moved};
ghost use Rattle.entryfile.specs.Steps.{FromFile};

use crate::cursor::Cursor;
use crate::entry::{
    CapacityTest, Decision, Entry, EntryKind, Figures, Marking, NewAward, Plain, Sheet, Standby,
    TakeOff, Transfer, Turn,
};
use crate::fault::EntryFault;
use market::Family;

// What a reader or a writer must know of a book: how many zones it has, and its families.
#[derive(Clone, Copy)]
pub struct Setting<'a> {
    pub zones: u32,
    pub families: &'a [Family],
}

// A new award, whose zone is one of the book's.
fn new_award<'a>(cursor: &mut Cursor<'a>, zones: u32) -> Result<NewAward<'a>, EntryFault>
    ensures { (s : ℕ) → item_view (λ a. entry_item s (entries.Award a)) (moved result cursor.new) ≡ entry_with (1 ∷ s ∷ []) (award_form zones) cursor.old.file.now cursor.old.place }
{
    let holder = cursor.range(1, 999)?;
    let zone = cursor.range(1, zones)?;
    let kind = cursor.numbered()?;
    let quantity = cursor.range(10, 100_000)?;
    Ok(NewAward {
        holder,
        zone,
        kind,
        quantity,
        cleared_icap: cursor.range(quantity, 100_000)?,
        capability: cursor.capability(kind)?,
        reference: cursor.reference()?,
    })
}

// A request to transfer, whose zone is one of the book's.
fn transfer<'a>(cursor: &mut Cursor<'a>, zones: u32) -> Result<Transfer<'a>, EntryFault>
    ensures { (s : ℕ) → item_view (λ t. entry_item s (entries.Lodge t)) (moved result cursor.new) ≡ entry_with (2 ∷ s ∷ []) (lodge_form zones) cursor.old.file.now cursor.old.place }
{
    let award = cursor.award()?;
    let new_holder = cursor.range(1, 999)?;
    let zone = cursor.range(1, zones)?;
    let kind = cursor.numbered()?;
    Ok(Transfer {
        award,
        new_holder,
        zone,
        kind,
        quantity: cursor.range(10, 100_000)?,
        capability: cursor.capability(kind)?,
        reference: cursor.reference()?,
    })
}

// What is decided on a request: an Approve or a Reject.
fn decision<'a>(cursor: &mut Cursor<'a>) -> Result<Decision<'a>, EntryFault>
    ensures { (k s : ℕ) → item_view (λ d. item (k ∷ s ∷ d.award ∷ []) d.reference.now) (moved result cursor.new) ≡ entry_with (k ∷ s ∷ []) named_form cursor.old.file.now cursor.old.place }
{
    Ok(Decision {
        award: cursor.award()?,
        reference: cursor.reference()?,
    })
}

// What is taken off an award: a Buy-out or a Reduction.
fn take_off<'a>(cursor: &mut Cursor<'a>) -> Result<TakeOff<'a>, EntryFault>
    ensures { (k s : ℕ) → item_view (λ o. item (k ∷ s ∷ o.award ∷ o.quantity ∷ []) o.reference.now) (moved result cursor.new) ≡ entry_with (k ∷ s ∷ []) take_off_form cursor.old.file.now cursor.old.place }
{
    Ok(TakeOff {
        award: cursor.award()?,
        quantity: cursor.range(1, 100_000)?,
        reference: cursor.reference()?,
    })
}

// A sheet of one of the book's families.
fn sheet<'a>(cursor: &mut Cursor<'a>, families: &[Family]) -> Result<Sheet<'a>, EntryFault>
    ensures is { (s : ℕ) → item_view (λ f. entry_item s (entries.Sheet f)) (moved result cursor.new) ≡ entry_with (8 ∷ s ∷ []) (sheet_form families.now) cursor.old.file.now cursor.old.place }
    ensures figures { IfOk result (λ f. SheetStands cursor.old.file.now cursor.new.place f.reference.now f.figures) }
{
    let award = cursor.award()?;
    let (family, count) = cursor.family(families)?;
    Ok(Sheet {
        award,
        family,
        figures: Figures::Encoded(cursor.figures(count)?),
        reference: cursor.reference()?,
    })
}

// An award that stands by from an hour on.
fn standby<'a>(cursor: &mut Cursor<'a>) -> Result<Standby<'a>, EntryFault>
    ensures { (s : ℕ) → item_view (λ b. entry_item s (entries.Standby b)) (moved result cursor.new) ≡ entry_with (9 ∷ s ∷ []) standby_form cursor.old.file.now cursor.old.place }
{
    Ok(Standby {
        award: cursor.award()?,
        hour: cursor.range(1, 24)?,
        reference: cursor.reference()?,
    })
}

// A capacity test, and what it delivered.
fn capacity_test<'a>(cursor: &mut Cursor<'a>) -> Result<CapacityTest<'a>, EntryFault>
    ensures { (s : ℕ) → item_view (λ c. entry_item s (entries.Test c)) (moved result cursor.new) ≡ entry_with (11 ∷ s ∷ []) test_form cursor.old.file.now cursor.old.place }
{
    Ok(CapacityTest {
        award: cursor.award()?,
        delivered: cursor.range(0, 100_000)?,
        reference: cursor.reference()?,
    })
}

// A mark on an award.
fn marking<'a>(cursor: &mut Cursor<'a>) -> Result<Marking<'a>, EntryFault>
    ensures { (s : ℕ) → item_view (λ m. entry_item s (entries.Marking m)) (moved result cursor.new) ≡ entry_with (12 ∷ s ∷ []) mark_form cursor.old.file.now cursor.old.place }
{
    Ok(Marking {
        award: cursor.award()?,
        sort: cursor.numbered()?,
        reference: cursor.reference()?,
    })
}

// No fields: a Start, a Day end or a Closing.
fn plain<'a>(cursor: &mut Cursor<'a>) -> Result<Plain<'a>, EntryFault>
    ensures { (k s : ℕ) → item_view (λ p. item (k ∷ s ∷ []) p.reference.now) (moved result cursor.new) ≡ entry_with (k ∷ s ∷ []) done cursor.old.file.now cursor.old.place }
{
    Ok(Plain {
        reference: cursor.reference()?,
    })
}

// The entry of a kind, from the byte after its sender on.
fn entry<'a>(
    cursor: &mut Cursor<'a>,
    kind: EntryKind,
    setting: Setting<'_>,
) -> Result<Entry<'a>, EntryFault>
    ensures is { (s : ℕ) → entry_view s (moved result cursor.new) ≡ entry_with (entry_number kind ∷ s ∷ []) (fields_form setting.entry.zones setting.entry.families.now (entry_number kind)) cursor.old.file.now cursor.old.place }
    ensures figures { IfOk result (FiguresStand cursor.old.file.now cursor.new.place) }
{
    match kind {
        EntryKind::Award => new_award(cursor, setting.zones).map(Entry::Award),
        EntryKind::Lodge => transfer(cursor, setting.zones).map(Entry::Lodge),
        EntryKind::Approve => decision(cursor).map(Entry::Approve),
        EntryKind::Reject => decision(cursor).map(Entry::Reject),
        EntryKind::BuyOut => take_off(cursor).map(Entry::BuyOut),
        EntryKind::Reduction => take_off(cursor).map(Entry::Reduction),
        EntryKind::Start => plain(cursor).map(Entry::Start),
        EntryKind::Sheet => sheet(cursor, setting.families).map(Entry::Sheet),
        EntryKind::Standby => standby(cursor).map(Entry::Standby),
        EntryKind::DayEnd => plain(cursor).map(Entry::DayEnd),
        EntryKind::Test => capacity_test(cursor).map(Entry::Test),
        EntryKind::Marking => marking(cursor).map(Entry::Marking),
        EntryKind::Closing => plain(cursor).map(Entry::Closing),
    }
}

// The entry at the cursor with its sender.
fn turn<'a>(cursor: &mut Cursor<'a>, setting: Setting<'_>) -> Result<Turn<'a>, EntryFault>
    ensures is { turn_view (moved result cursor.new) ≡ entry_at setting.entry.zones setting.entry.families.now cursor.old.file.now cursor.old.place }
    ensures figures { IfOk result (λ t. FiguresStand cursor.old.file.now cursor.new.place t.entry) }
{
    let kind = cursor.entry_kind()?;
    let sender = cursor.range(0, 999)?;
    let entry = entry(cursor, kind, setting)?;
    Ok(Turn { sender, entry })
}

// The entry at a place with its sender, and the place after it. What was read can be written again, byte for byte. It
// takes any place, also one behind the end of the file, where no cursor stands.
pub fn turn_at<'a>(
    file: &'a [u8],
    at: usize,
    setting: Setting<'_>,
) -> Result<(Turn<'a>, usize), EntryFault>
    ensures is { turn_view result ≡ entry_at setting.entry.zones setting.entry.families.now file.now at }
    ensures handed { at ≤ length file.now → IfOk result (λ p. FromFile setting.entry.zones setting.entry.families.now file.now at p.1 p.0) }
{
    let mut cursor = Cursor::at(file, at)?;
    let turn = turn(&mut cursor, setting)?;
    Ok((turn, cursor.place))
}
