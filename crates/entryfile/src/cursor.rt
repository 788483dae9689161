// A place in an entry file, and reading the field that begins there: a number with its range, a kind, a family, figures,
// a reference. Each call moves the cursor behind what it read; a number with a fault leaves it where it was. The calls
// for numbers differ in what they test: one call that is lent the test would have a longer contract than all of them.
ghost use Rattle.std.specs.Prelude.{◌≤◌, length};

use crate::entry::EntryKind;
use crate::fault::EntryFault;
use crate::numbers::{figures_end, range_at};
use crate::text::is_printable;
use market::{Family, Kind, Numbered, figures_in_sheet};
use number::{NumberCause, NumberFault, read_number};

#[derive(Clone, Copy)]
pub(crate) struct Cursor<'a> {
    pub(crate) file: &'a [u8],
    pub(crate) place: usize,
    ghost within: { place ≤ length file.now },
}

#[tactic(auto, using(crate::proofs::Checks::checks))]
impl<'a> Cursor<'a> {
    ghost use Rattle.std.specs.Prelude.{◌≡◌, ◌+◌, ◌<◌, ◌≤◌, length, IfOk, OnErr, MatchResult};
    ghost use Rattle.std.specs.List.{between};
    ghost use Rattle.number.specs.Numbers.{encode};
    ghost use Rattle.market.specs.Ranges.{within, largest};
    ghost use Rattle.market.specs.Kinds.{kind_number, capability_fits};
    ghost use Rattle.market.specs.Families.{is_family, figure_count};
    ghost use Rattle.entryfile.specs.declared.fault.EntryFault.TheVariants.{Number, Unknown, OutOfRange};
    ghost use Rattle.entryfile.specs.Forms.{checked_at, form_at};
    ghost use Rattle.entryfile.specs.Layout.{figures_form};
    ghost use Rattle.entryfile.specs.Items.{reference_at, reference_bytes, text_at};
    ghost use Rattle.entryfile.specs.Views.{numbered_view, bytes_view, figures_view, family_view};
    ghost use Rattle.entryfile.specs.Numbering.{entry_number};
    ghost use Rattle.entryfile.specs.Cursors.{moved, SameFile, ends_at};

    // A cursor at a place; behind the end of the file there is none, since no byte stands there.
    pub(crate) fn at(file: &'a [u8], place: usize) -> Result<Cursor<'a>, EntryFault>
        ensures { MatchResult result (λ c. (c.file ≡ file.entry) × (c.place ≡ place)) (λ e. (length file.now < place) × (e ≡ Number (ends_at place))) }
    {
        if place > file.len() {
            return Err(EntryFault::Number(NumberFault {
                cause: NumberCause::Ends,
                place,
            }));
        }
        Ok(Cursor { file, place })
    }

    // A number from `low` to `high`.
    pub(crate) fn range(&mut self, low: u32, high: u32) -> Result<u32, EntryFault>
        ensures is { moved result self.new ≡ checked_at OutOfRange (within low high) self.old.file.now self.old.place }
        ensures file { SameFile self.old self.new }
        ensures stays { OnErr result (self.new ≡ self.old) }
        ensures size { IfOk result (λ n. self.new.place ≡ self.old.place + length (encode n)) }
    {
        let (n, next) = range_at(self.file, self.place, low, high)?;
        self.place = next;
        Ok(n)
    }

    // The version of the format, which is known where it is 1.
    pub(crate) fn version(&mut self) -> Result<u32, EntryFault>
        ensures is { moved result self.new ≡ checked_at Unknown (within 1 1) self.old.file.now self.old.place }
        ensures file { SameFile self.old self.new }
        ensures stays { OnErr result (self.new ≡ self.old) }
    {
        let (n, next) = read_number(self.file, self.place)?;
        if n != 1 {
            return Err(EntryFault::Unknown(self.place));
        }
        self.place = next;
        Ok(n)
    }

    // The number of an award: any number, since the book says which awards there are.
    pub(crate) fn award(&mut self) -> Result<u32, EntryFault>
        ensures is { moved result self.new ≡ checked_at OutOfRange (within 0 largest) self.old.file.now self.old.place }
        ensures file { SameFile self.old self.new }
        ensures stays { OnErr result (self.new ≡ self.old) }
    {
        self.range(0, u32::MAX)
    }

    // The number of one of a sort of kinds; any other number is the fault.
    fn known<K: Numbered>(&mut self, fault: EntryFault) -> Result<K, EntryFault>
        ensures is { numbered_view K.number_of (moved result self.new) ≡ checked_at (λ _. fault) (within 1 K.most) self.old.file.now self.old.place }
        ensures file { SameFile self.old self.new }
        ensures stays { OnErr result (self.new ≡ self.old) }
    {
        let (n, next) = read_number(self.file, self.place)?;
        let Ok(kind) = K::try_from(n) else {
            return Err(fault);
        };
        self.place = next;
        Ok(kind)
    }

    // A kind of resource, or the sort of a mark.
    pub(crate) fn numbered<K: Numbered>(&mut self) -> Result<K, EntryFault>
        ensures is { numbered_view K.number_of (moved result self.new) ≡ checked_at OutOfRange (within 1 K.most) self.old.file.now self.old.place }
        ensures file { SameFile self.old self.new }
        ensures stays { OnErr result (self.new ≡ self.old) }
    {
        self.known(EntryFault::OutOfRange(self.place))
    }

    // A kind of entry; a number that names none is a fault of its own.
    pub(crate) fn entry_kind(&mut self) -> Result<EntryKind, EntryFault>
        ensures is { numbered_view entry_number (moved result self.new) ≡ checked_at Unknown (within 1 13) self.old.file.now self.old.place }
        ensures file { SameFile self.old self.new }
        ensures stays { OnErr result (self.new ≡ self.old) }
    {
        self.known(EntryFault::Unknown(self.place))
    }

    // A registered capability that fits the kind.
    pub(crate) fn capability(&mut self, kind: Kind) -> Result<u32, EntryFault>
        ensures is { moved result self.new ≡ checked_at OutOfRange (capability_fits (kind_number kind)) self.old.file.now self.old.place }
        ensures file { SameFile self.old self.new }
        ensures stays { OnErr result (self.new ≡ self.old) }
    {
        let (n, next) = read_number(self.file, self.place)?;
        if !kind.fits_capability(n) {
            return Err(EntryFault::OutOfRange(self.place));
        }
        self.place = next;
        Ok(n)
    }

    // A family of the book, and how many figures its sheets have.
    pub(crate) fn family(&mut self, families: &[Family]) -> Result<(u32, usize), EntryFault>
        ensures is { family_view (moved result self.new) ≡ checked_at OutOfRange (is_family families.now) self.old.file.now self.old.place }
        ensures figures { IfOk result (λ p. p.1 ≡ figure_count families.now p.0) }
        ensures file { SameFile self.old self.new }
        ensures stays { OnErr result (self.new ≡ self.old) }
    {
        let (family, next) = read_number(self.file, self.place)?;
        let Some(figures) = figures_in_sheet(families, family) else {
            return Err(EntryFault::OutOfRange(self.place));
        };
        self.place = next;
        Ok((family, figures))
    }

    // So many figures, as the part of the file that holds them.
    pub(crate) fn figures(&mut self, count: usize) -> Result<&'a [u8], EntryFault>
        ensures is { figures_view (moved result self.new) ≡ form_at (figures_form count) self.old.file.now self.old.place }
        ensures part { IfOk result (λ part. (part.now ≡ between self.old.place self.new.place self.old.file.now) × (self.old.place ≤ self.new.place)) }
        ensures file { SameFile self.old self.new }
    {
        let end = figures_end(self.file, self.place, count)?;
        let part = &self.file[self.place..end];
        self.place = end;
        Ok(part)
    }

    // So many bytes of text, as a part of the file.
    #[tactic(auto, unfolding(crate::specs::Items::text_at))]
    fn text(&mut self, count: usize) -> Result<&'a [u8], EntryFault>
        ensures is { bytes_view (moved result self.new) ≡ text_at count self.old.file.now self.old.place }
        ensures part { IfOk result (λ part. (length part.now ≡ count) × (self.new.place ≡ self.old.place + count)) }
        ensures file { SameFile self.old self.new }
    {
        if self.file.len() - self.place < count {
            return Err(EntryFault::Number(NumberFault {
                cause: NumberCause::Ends,
                place: self.place,
            }));
        }
        let text = &self.file[self.place..self.place + count];
        if !is_printable(text) {
            return Err(EntryFault::BadText(self.place));
        }
        self.place += count;
        Ok(text)
    }

    // A reference: its length of 0 to 32, and so many printable characters, as a part of the file.
    #[tactic(auto, using(crate::proofs::Places::reference_ends))]
    pub(crate) fn reference(&mut self) -> Result<&'a [u8], EntryFault>
        ensures is { bytes_view (moved result self.new) ≡ reference_at self.old.file.now self.old.place }
        ensures part { IfOk result (λ part. self.new.place ≡ self.old.place + length (reference_bytes part.now)) }
        ensures file { SameFile self.old self.new }
    {
        let count = self.range(0, 32)?;
        self.text(count as usize)
    }
}
