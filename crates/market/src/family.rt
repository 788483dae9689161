// Families of assessment rules, as far as a file's format needs them.
ghost use Rattle.std.specs.Prelude.{◌≡◌};
ghost use Rattle.market.specs.Families.{figures_for, sheet_figures};

// A family of the book: its number, and how many figures an hour record of its sheets has.
#[derive(Clone, Copy, Debug, PartialEq)]
pub struct Family {
    // a number and no enum: which families there are is for the book to say, and a list may have any
    pub number: u32,
    pub figures_per_hour: u8,
}

// The families that a book has today.
pub const FAMILIES: [Family; 3] = [
    Family {
        number: 1,
        figures_per_hour: 3,
    },
    Family {
        number: 2,
        figures_per_hour: 3,
    },
    Family {
        number: 3,
        figures_per_hour: 5,
    },
];

impl Family {
    // How many figures a sheet of the family has: 24 hour records.
    pub fn sheet_figures(&self) -> usize
        ensures { result ≡ sheet_figures self.now }
    {
        24 * self.figures_per_hour as usize
    }
}

// How many figures a sheet of a family has; none where no family has the number.
pub fn figures_in_sheet(families: &[Family], number: u32) -> Option<usize>
    ensures { result ≡ figures_for families.now number }
{
    families
        .iter()
        .find(|family| family.number == number)
        .map(|family| family.sheet_figures())
}
