// Kinds that an entry file names by a number.
ghost use Rattle.std.specs.Prelude.{ℕ, Result};
ghost use Rattle.market.specs.Numbering.{NamedBy};
ghost use Rattle.market.specs.declared.numbered.UnknownNumber.{UnknownNumber};

// A number that names none of the kinds.
#[derive(Clone, Copy, Debug, PartialEq)]
pub struct UnknownNumber(pub u32);

// Kinds that are numbered from 1 on: `try_from` finds the kind with a number.
pub trait Numbered: Copy + TryFrom<u32, Error = UnknownNumber> {
    // the number of each
    ghost number_of: { Self → ℕ };

    // the greatest number that names one
    ghost most: { ℕ };

    // a number from 1 to the most names a kind that has it, and no other number names one
    ghost named: { (n : ℕ) (r : Result Self UnknownNumber) → Self.try_from_gives n r → NamedBy number_of most n r };
}
