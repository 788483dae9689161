// Entries that were checked before they are written.
ghost use Rattle.std.specs.Prelude.{◌≤◌, length};
ghost use Rattle.entryfile.specs.Views.{reference_of};
ghost use Rattle.entrywriter.specs.Spells.{SpellsIn};

use crate::ranges::fields_in_range;
use entryfile::{Setting, Turn};

// An entry that can be written: its reference is short enough, and figures that are bytes spell numbers.
#[derive(Clone, Copy)]
pub(crate) struct Checked<'a> {
    pub(crate) turn: Turn<'a>,
    ghost short: { length (reference_of turn.entry) ≤ 32 },
    ghost spells: { ∥ SpellsIn turn.entry ∥₁ },
}

impl<'a> Checked<'a> {
    ghost use Rattle.std.specs.Prelude.{◌≡◌, true, false, MatchOption};
    ghost use Rattle.entryfile.specs.Views.{item_of};
    ghost use Rattle.entrywriter.specs.Writes.{item_in_range};

    // The entry, where every field is in its range and the reference is short enough.
    pub(crate) fn new(turn: Turn<'a>, setting: Setting) -> Option<Self>
        ensures { MatchOption result (item_in_range setting.entry.zones setting.entry.families.now (item_of turn.entry) ≡ false) (λ c. (c.turn ≡ turn.entry) × (item_in_range setting.entry.zones setting.entry.families.now (item_of turn.entry) ≡ true)) }
    {
        if fields_in_range(&turn, setting) && turn.entry.reference().len() <= 32 {
            Some(Checked { turn })
        } else {
            None
        }
    }
}
