// Reading what stands before the entries: the version and the opening.
ghost use Rattle.std.specs.Prelude.{◌≡◌, true, [], ◌∷◌, IfOk};
ghost use Rattle.market.specs.Ranges.{within};
ghost use Rattle.market.specs.Openings.{said};
ghost use Rattle.market.specs.Opened.{terms_of};
ghost use Rattle.entryfile.specs.Forms.{Form, then_at, form_at, accepts};
ghost use Rattle.entryfile.specs.Layout.{number, shares_form, opening_form};
ghost use Rattle.entryfile.specs.Files.{head_form, head_bytes, opening_numbers};
ghost use Rattle.entryfile.specs.Laws.{Stands};
ghost use Rattle.entryfile.specs.Views.{view_by};
ghost use Rattle.entryfile.specs.Heads.{head_view};
ghost use Rattle.entryfile.specs.Cursors.{moved, SameFile};

use crate::cursor::Cursor;
use crate::fault::EntryFault;
use crate::list::list;
use market::{Opening, OpeningTerms};

// What stands before the entries: the opening, and the byte where the entries begin.
#[derive(Clone, Copy)]
pub struct Head {
    pub opening: Opening,
    pub end: usize,
}

// The first and the last hour of the availability window, whatever follows.
fn window(cursor: &mut Cursor<'_>) -> Result<(u32, u32), EntryFault>
    ensures is { (rest : Form) → form_at (number (within 1 24) (λ first. number (within first 24) (λ last. rest))) cursor.old.file.now cursor.old.place ≡ then_at (form_at rest cursor.old.file.now) (view_by (λ p. p.0 ∷ p.1 ∷ []) (moved result cursor.new)) }
    ensures file { SameFile cursor.old cursor.new }
{
    let first_hour = cursor.range(1, 24)?;
    Ok((first_hour, cursor.range(first_hour, 24)?))
}

// The buy-out rate and the pass mark.
fn shares(cursor: &mut Cursor<'_>) -> Result<(u32, u32), EntryFault>
    ensures is { view_by (λ p. p.0 ∷ p.1 ∷ []) (moved result cursor.new) ≡ form_at shares_form cursor.old.file.now cursor.old.place }
    ensures file { SameFile cursor.old cursor.new }
{
    Ok((cursor.range(0, 100)?, cursor.range(1, 100)?))
}

// The terms at the cursor.
fn terms(cursor: &mut Cursor<'_>) -> Result<OpeningTerms, EntryFault>
    ensures is { view_by (λ t. opening_numbers (said t)) (moved result cursor.new) ≡ form_at opening_form cursor.old.file.now cursor.old.place }
    ensures file { SameFile cursor.old cursor.new }
{
    let months = list(cursor)?;
    let (first_hour, last_hour) = window(cursor)?;
    let prices = list(cursor)?;
    let (buyout_rate, pass_mark) = shares(cursor)?;
    Ok(OpeningTerms {
        months,
        first_hour,
        last_hour,
        prices,
        buyout_rate,
        pass_mark,
    })
}

// The opening with terms that were read.
fn opened(terms: OpeningTerms) -> Opening
    requires { accepts opening_form (opening_numbers (said terms)) ≡ true }
    ensures { terms_of result ≡ said terms }
{
    match Opening::try_from(terms) {
        Ok(opening) => opening,
        // each number was read within its range, so the terms are never refused
        Err(_) => unreachable!(),
    }
}

// Version and opening.
pub fn head_at(file: &[u8]) -> Result<Head, EntryFault>
    ensures is { head_view result ≡ form_at head_form file.now 0 }
    ensures rewrites { IfOk result (λ h. Stands file.now 0 (head_bytes (terms_of h.opening)) h.end) }
{
    let mut cursor = Cursor { file, place: 0 };
    cursor.version()?;
    let terms = terms(&mut cursor)?;
    Ok(Head {
        opening: opened(terms),
        end: cursor.place,
    })
}
