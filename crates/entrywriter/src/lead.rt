// The numbers of an entry that stand before a sheet's figures.
ghost use Rattle.std.specs.Prelude.{◌≡◌, ◌≤◌, ◌∷◌, length};
ghost use Rattle.upto.specs.Listed.{listed};
ghost use Rattle.entryfile.specs.Numbering.{entry_number, kind_of};
ghost use Rattle.entryfile.specs.Views.{figures_of};
ghost use Rattle.entrywriter.specs.Leads.{lead_of, figures_in};
ghost use Rattle.entrywriter.specs.Spells.{Spells, SpellsIn};

use crate::list::append;
use entryfile::{Entry, Figures, Turn};
use upto::UpTo;

// The number of an entry, its sender and these of its fields; no entry has more than six.
fn lead(turn: &Turn, fields: &[u32]) -> UpTo<u32, 8>
    requires { length fields.now ≤ 6 }
    ensures { listed result ≡ entry_number (kind_of turn.now.entry) ∷ turn.now.sender ∷ fields.now }
{
    let mut numbers = UpTo::default();
    append(&mut numbers, &[u32::from(turn.entry.kind()), turn.sender]);
    append(&mut numbers, fields);
    numbers
}

// The numbers of an entry; of a sheet, those before its figures.
pub(crate) fn lead_of(turn: &Turn) -> UpTo<u32, 8>
    ensures { listed result ≡ lead_of turn.now.sender turn.now.entry }
{
    match &turn.entry {
        Entry::Award(award) => lead(
            turn,
            &[
                award.holder,
                award.zone,
                u32::from(award.kind),
                award.quantity,
                award.cleared_icap,
                award.capability,
            ],
        ),
        Entry::Lodge(transfer) => lead(
            turn,
            &[
                transfer.award,
                transfer.new_holder,
                transfer.zone,
                u32::from(transfer.kind),
                transfer.quantity,
                transfer.capability,
            ],
        ),
        Entry::Approve(decision) | Entry::Reject(decision) => lead(turn, &[decision.award]),
        Entry::BuyOut(off) | Entry::Reduction(off) => lead(turn, &[off.award, off.quantity]),
        Entry::Sheet(sheet) => lead(turn, &[sheet.award, sheet.family]),
        Entry::Standby(standby) => lead(turn, &[standby.award, standby.hour]),
        Entry::Test(test) => lead(turn, &[test.award, test.delivered]),
        Entry::Marking(marking) => lead(turn, &[marking.award, u32::from(marking.sort)]),
        Entry::Start(_) | Entry::DayEnd(_) | Entry::Closing(_) => lead(turn, &[]),
    }
}

// The figures of a sheet; any other entry has none.
pub(crate) fn figures_of<'a>(entry: &Entry<'a>) -> Figures<'a>
    ensures is { figures_of result ≡ figures_in entry.now }
    ensures spells { SpellsIn entry.now → Spells result }
{
    match entry {
        Entry::Sheet(sheet) => sheet.figures,
        _ => Figures::Listed(&[]),
    }
}
