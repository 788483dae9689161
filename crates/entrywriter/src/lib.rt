// Writing entry files: the version and the opening, or one entry under a given opening, at the front of a buffer.
#![tactic(auto)]

ghost use Rattle.std.specs.Prelude.{◌≡◌};
ghost use Rattle.market.specs.Opened.{terms_of};
ghost use Rattle.entryfile.specs.Views.{item_of};
ghost use Rattle.entryfile.specs.Files.{head_bytes, zones_of};
ghost use Rattle.entrywriter.specs.Writes.{entry_writing, plain_writing, ReadsBack, HeadReadsBack};

mod checked;
mod head;
mod lead;
mod list;
mod pen;
mod ranges;
mod size;

use crate::checked::Checked;
use crate::head::head_numbers;
use crate::pen::Pen;
use crate::size::{entry_size, numbers_size};
use entryfile::{Setting, Turn, is_printable};
use market::{Cause, Family, Fault, Opening};

// Writes version 1 and the opening at the front of the buffer, and returns how many bytes they take. Where there is no
// room, the refusal is cause 7 and the buffer is as it was.
pub fn write_opening(buf: &mut [u8], opening: &Opening) -> Result<usize, Fault>
    ensures is { (result, buf.new) ≡ plain_writing (head_bytes (terms_of opening.now)) buf.old }
    ensures rereads { HeadReadsBack (terms_of opening.now) result }
{
    let head = head_numbers(opening);
    let numbers = head.as_slice();
    if buf.len() < numbers_size(numbers) {
        return Err(Fault::of_call(Cause::NoRoom));
    }
    let mut pen = Pen { buf, place: 0 };
    pen.numbers(numbers);
    Ok(pen.place)
}

// Writes an entry at the front of the buffer, and returns how many bytes it takes. Refusals are cause 5 (a field out of
// its range under the opening and the families), 6 (a reference byte that is not printable) and 7 (no room), in that
// order; a refusal leaves the buffer as it was.
pub fn write_entry(
    buf: &mut [u8],
    opening: &Opening,
    families: &[Family],
    turn: Turn,
) -> Result<usize, Fault>
    ensures is { (result, buf.new) ≡ entry_writing (zones_of (terms_of opening.now)) families.now (item_of turn.entry) buf.old }
    ensures rereads { ReadsBack (zones_of (terms_of opening.now)) families.now (item_of turn.entry) result }
{
    let setting = Setting {
        zones: opening.zones(),
        families,
    };
    let Some(entry) = Checked::new(turn, setting) else {
        return Err(Fault::of_call(Cause::OutOfRange));
    };
    if !is_printable(turn.entry.reference()) {
        return Err(Fault::of_call(Cause::BadText));
    }
    if buf.len() < entry_size(&entry) {
        return Err(Fault::of_call(Cause::NoRoom));
    }
    let mut pen = Pen { buf, place: 0 };
    pen.entry(&entry);
    Ok(pen.place)
}
