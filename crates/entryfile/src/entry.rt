// The thirteen entries and their numbers. Their figures and references are parts of the file that they were read from.
ghost use Rattle.std.specs.Prelude.{◌≡◌};
ghost use Rattle.market.specs.Numbering.{NamedBy};
ghost use Rattle.entryfile.specs.Numbering.{entry_number, kind_of};
ghost use Rattle.entryfile.specs.Views.{reference_of};

use market::{Kind, Mark, Numbered, UnknownNumber};

// The kinds of entry; a file names an entry's kind by its number, 1 to 13 in this order.
#[derive(Clone, Copy, Debug, PartialEq)]
pub enum EntryKind {
    Award = 1,
    Lodge,
    Approve,
    Reject,
    BuyOut,
    Reduction,
    Start,
    Sheet,
    Standby,
    DayEnd,
    Test,
    Marking,
    Closing,
}

impl From<EntryKind> for u32 {
    ghost from_gives = { λ kind n. n ≡ entry_number kind };

    fn from(kind: EntryKind) -> u32 {
        kind as u32
    }
}

impl TryFrom<u32> for EntryKind {
    type Error = UnknownNumber;

    ghost try_from_gives = { NamedBy entry_number 13 };

    fn try_from(n: u32) -> Result<EntryKind, UnknownNumber> {
        match n {
            1 => Ok(EntryKind::Award),
            2 => Ok(EntryKind::Lodge),
            3 => Ok(EntryKind::Approve),
            4 => Ok(EntryKind::Reject),
            5 => Ok(EntryKind::BuyOut),
            6 => Ok(EntryKind::Reduction),
            7 => Ok(EntryKind::Start),
            8 => Ok(EntryKind::Sheet),
            9 => Ok(EntryKind::Standby),
            10 => Ok(EntryKind::DayEnd),
            11 => Ok(EntryKind::Test),
            12 => Ok(EntryKind::Marking),
            13 => Ok(EntryKind::Closing),
            _ => Err(UnknownNumber(n)),
        }
    }
}

impl Numbered for EntryKind {
    ghost number_of = { entry_number };

    ghost most = { 13 };

    ghost named = { λ n r h. h };
}

// The figures of a sheet: the bytes of a file, or a list of numbers of the caller's.
#[derive(Clone, Copy)]
pub enum Figures<'a> {
    Encoded(&'a [u8]),
    Listed(&'a [u32]),
}

// A new award; its quantity, cleared ICAP and capability are tenths of a megawatt.
#[derive(Clone, Copy)]
pub struct NewAward<'a> {
    pub holder: u32,
    pub zone: u32,
    pub kind: Kind,
    pub quantity: u32,
    pub cleared_icap: u32,
    pub capability: u32,
    pub reference: &'a [u8],
}

// The request to transfer megawatts of an award to a new holder.
#[derive(Clone, Copy)]
pub struct Transfer<'a> {
    pub award: u32,
    pub new_holder: u32,
    pub zone: u32,
    pub kind: Kind,
    pub quantity: u32,
    pub capability: u32,
    pub reference: &'a [u8],
}

// What is decided on an award's request.
#[derive(Clone, Copy)]
pub struct Decision<'a> {
    pub award: u32,
    pub reference: &'a [u8],
}

// Megawatts that are taken off an award.
#[derive(Clone, Copy)]
pub struct TakeOff<'a> {
    pub award: u32,
    pub quantity: u32,
    pub reference: &'a [u8],
}

// A day's figures of an award, under a family of assessment rules.
#[derive(Clone, Copy)]
pub struct Sheet<'a> {
    pub award: u32,
    pub family: u32,
    pub figures: Figures<'a>,
    pub reference: &'a [u8],
}

// An award stands by from an hour on.
#[derive(Clone, Copy)]
pub struct Standby<'a> {
    pub award: u32,
    pub hour: u32,
    pub reference: &'a [u8],
}

// A capacity test of an award, and what it delivered.
#[derive(Clone, Copy)]
pub struct CapacityTest<'a> {
    pub award: u32,
    pub delivered: u32,
    pub reference: &'a [u8],
}

// A mark on an award.
#[derive(Clone, Copy)]
pub struct Marking<'a> {
    pub award: u32,
    pub sort: Mark,
    pub reference: &'a [u8],
}

// An entry that has a reference and no fields.
#[derive(Clone, Copy)]
pub struct Plain<'a> {
    pub reference: &'a [u8],
}

// An entry. Quantities are tenths of a megawatt; every entry carries a reference of up to 32 printable characters.
#[derive(Clone, Copy)]
pub enum Entry<'a> {
    Award(NewAward<'a>),
    Lodge(Transfer<'a>),
    Approve(Decision<'a>),
    Reject(Decision<'a>),
    BuyOut(TakeOff<'a>),
    Reduction(TakeOff<'a>),
    Start(Plain<'a>),
    Sheet(Sheet<'a>),
    Standby(Standby<'a>),
    DayEnd(Plain<'a>),
    Test(CapacityTest<'a>),
    Marking(Marking<'a>),
    Closing(Plain<'a>),
}

impl<'a> Entry<'a> {
    // The entry's kind.
    pub fn kind(&self) -> EntryKind
        ensures { result ≡ kind_of self.now }
    {
        match self {
            Entry::Award(_) => EntryKind::Award,
            Entry::Lodge(_) => EntryKind::Lodge,
            Entry::Approve(_) => EntryKind::Approve,
            Entry::Reject(_) => EntryKind::Reject,
            Entry::BuyOut(_) => EntryKind::BuyOut,
            Entry::Reduction(_) => EntryKind::Reduction,
            Entry::Start(_) => EntryKind::Start,
            Entry::Sheet(_) => EntryKind::Sheet,
            Entry::Standby(_) => EntryKind::Standby,
            Entry::DayEnd(_) => EntryKind::DayEnd,
            Entry::Test(_) => EntryKind::Test,
            Entry::Marking(_) => EntryKind::Marking,
            Entry::Closing(_) => EntryKind::Closing,
        }
    }

    // The entry's reference.
    pub fn reference(&self) -> &'a [u8]
        ensures { result.now ≡ reference_of self.now }
    {
        match self {
            Entry::Award(award) => award.reference,
            Entry::Lodge(transfer) => transfer.reference,
            Entry::Approve(decision) | Entry::Reject(decision) => decision.reference,
            Entry::BuyOut(off) | Entry::Reduction(off) => off.reference,
            Entry::Sheet(sheet) => sheet.reference,
            Entry::Standby(standby) => standby.reference,
            Entry::Test(test) => test.reference,
            Entry::Marking(marking) => marking.reference,
            Entry::Start(plain) | Entry::DayEnd(plain) | Entry::Closing(plain) => plain.reference,
        }
    }
}

// An entry with its sender: 0 is the operator, 1 to 999 are holders.
#[derive(Clone, Copy)]
pub struct Turn<'a> {
    // a number and no enum: a caller may hand over any, and the writer refuses it
    pub sender: u32,
    pub entry: Entry<'a>,
}
