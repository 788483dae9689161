// The kinds of resource that hold awards, and the families by which they are assessed.
ghost use Rattle.std.specs.Prelude.{◌≡◌};
ghost use Rattle.market.specs.Numbering.{NamedBy};
ghost use Rattle.market.specs.Kinds.{kind_number, kind_family, family_number, capability_fits};

use crate::in_range;
use crate::numbered::{Numbered, UnknownNumber};

// A kind of resource; a file names it by its number, 1 to 7 in this order.
#[derive(Clone, Copy, Debug, PartialEq)]
pub enum Kind {
    VirtualDemandResponse = 1,
    PhysicalDemandResponse,
    DispatchableLoad,
    Generation,
    Storage,
    SystemBackedImport,
    GeneratorBackedImport,
}

impl From<Kind> for u32 {
    ghost from_gives = { λ kind n. n ≡ kind_number kind };

    fn from(kind: Kind) -> u32 {
        kind as u32
    }
}

impl TryFrom<u32> for Kind {
    type Error = UnknownNumber;

    ghost try_from_gives = { NamedBy kind_number 7 };

    fn try_from(n: u32) -> Result<Kind, UnknownNumber> {
        match n {
            1 => Ok(Kind::VirtualDemandResponse),
            2 => Ok(Kind::PhysicalDemandResponse),
            3 => Ok(Kind::DispatchableLoad),
            4 => Ok(Kind::Generation),
            5 => Ok(Kind::Storage),
            6 => Ok(Kind::SystemBackedImport),
            7 => Ok(Kind::GeneratorBackedImport),
            _ => Err(UnknownNumber(n)),
        }
    }
}

impl Numbered for Kind {
    ghost number_of = { kind_number };

    ghost most = { 7 };

    ghost named = { λ n r h. h };
}

impl Kind {
    // The family by which the kind is assessed.
    pub fn family(self) -> AssessmentFamily
        ensures { result ≡ kind_family self }
    {
        match self {
            Kind::VirtualDemandResponse | Kind::PhysicalDemandResponse => {
                AssessmentFamily::HourlyDemandResponse
            }
            Kind::GeneratorBackedImport => AssessmentFamily::BackedImport,
            _ => AssessmentFamily::Dispatchable,
        }
    }

    // Whether a registered capability, in tenths of a megawatt, fits the kind.
    pub fn fits_capability(self, capability: u32) -> bool
        ensures { result ≡ capability_fits (kind_number self) capability }
    {
        match self {
            Kind::VirtualDemandResponse => in_range(capability, 1, 100_000),
            _ => capability == 0,
        }
    }
}

// The families of the market's assessment rules, by their numbers, 1 to 3 in this order.
#[derive(Clone, Copy, Debug, PartialEq)]
pub enum AssessmentFamily {
    // dispatchable loads, generation, storage and system-backed imports
    Dispatchable = 1,
    // virtual and physical hourly demand response
    HourlyDemandResponse,
    // generator-backed imports
    BackedImport,
}

impl From<AssessmentFamily> for u32 {
    ghost from_gives = { λ family n. n ≡ family_number family };

    fn from(family: AssessmentFamily) -> u32 {
        family as u32
    }
}

impl TryFrom<u32> for AssessmentFamily {
    type Error = UnknownNumber;

    ghost try_from_gives = { NamedBy family_number 3 };

    fn try_from(n: u32) -> Result<AssessmentFamily, UnknownNumber> {
        match n {
            1 => Ok(AssessmentFamily::Dispatchable),
            2 => Ok(AssessmentFamily::HourlyDemandResponse),
            3 => Ok(AssessmentFamily::BackedImport),
            _ => Err(UnknownNumber(n)),
        }
    }
}

impl Numbered for AssessmentFamily {
    ghost number_of = { family_number };

    ghost most = { 3 };

    ghost named = { λ n r h. h };
}
