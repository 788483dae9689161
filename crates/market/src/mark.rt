// The sorts of mark.
ghost use Rattle.std.specs.Prelude.{◌≡◌};
ghost use Rattle.market.specs.Numbering.{NamedBy};
ghost use Rattle.market.specs.Kinds.{mark_number};

use crate::numbered::{Numbered, UnknownNumber};

// Why an award is marked: each mark costs the month's payments at the closing. A file names the sort by its number, 1 or
// 2 in this order.
#[derive(Clone, Copy, Debug, PartialEq)]
pub enum Mark {
    LateData = 1,
    FailedImportCall,
}

impl From<Mark> for u32 {
    ghost from_gives = { λ mark n. n ≡ mark_number mark };

    fn from(mark: Mark) -> u32 {
        mark as u32
    }
}

impl TryFrom<u32> for Mark {
    type Error = UnknownNumber;

    ghost try_from_gives = { NamedBy mark_number 2 };

    fn try_from(n: u32) -> Result<Mark, UnknownNumber> {
        match n {
            1 => Ok(Mark::LateData),
            2 => Ok(Mark::FailedImportCall),
            _ => Err(UnknownNumber(n)),
        }
    }
}

impl Numbered for Mark {
    ghost number_of = { mark_number };

    ghost most = { 2 };

    ghost named = { λ n r h. h };
}
