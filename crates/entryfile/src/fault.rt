// Faults of the entry layer, which hold those of the number layer.
ghost use Rattle.std.specs.Prelude.{◌≡◌};
ghost use Rattle.entryfile.specs.Steps.{cause_of, place_of, fault_of};
ghost use Rattle.entryfile.specs.declared.fault.EntryFault.TheVariants.{Number};

use market::{Cause, Fault};
use number::NumberFault;

// Why an entry or an opening cannot be read, and the byte where the faulty part begins.
#[derive(Clone, Copy, Debug, PartialEq)]
pub enum EntryFault {
    // a fault of the number layer
    Number(NumberFault),
    // an unknown version or entry number
    Unknown(usize),
    // a field outside its range
    OutOfRange(usize),
    // a reference byte outside 32 to 126
    BadText(usize),
}

impl From<NumberFault> for EntryFault {
    ghost from_gives = { λ e r. r ≡ Number e };

    fn from(e: NumberFault) -> EntryFault {
        EntryFault::Number(e)
    }
}

// The cause by which the refusal table knows the fault.
impl From<EntryFault> for Cause {
    ghost from_gives = { λ fault cause. cause ≡ cause_of fault };

    fn from(fault: EntryFault) -> Cause {
        match fault {
            EntryFault::Number(fault) => Cause::from(fault.cause),
            EntryFault::Unknown(_) => Cause::Unknown,
            EntryFault::OutOfRange(_) => Cause::OutOfRange,
            EntryFault::BadText(_) => Cause::BadText,
        }
    }
}

impl EntryFault {
    // The byte where the faulty part begins.
    fn place(self) -> usize
        ensures { result ≡ place_of self }
    {
        match self {
            EntryFault::Number(fault) => fault.place,
            EntryFault::Unknown(place)
            | EntryFault::OutOfRange(place)
            | EntryFault::BadText(place) => place,
        }
    }

    // The fault as it is told of an entry; the opening is entry 0.
    pub fn in_entry(self, entry: usize) -> Fault
        ensures { result ≡ fault_of entry self }
    {
        Fault {
            cause: Cause::from(self),
            entry,
            place: self.place(),
        }
    }
}
