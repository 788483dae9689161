// The words of a listing.
ghost use Rattle.std.specs.Prelude.{◌≡◌, Some};
ghost use Rattle.wording.specs.Words.{kind_name, mark_name, cause_meaning, entry_name, tenths, megawatts};

use entryfile::Entry;
use market::{Cause, Kind, Mark};
use std::fmt;

// A number of tenths, shown as a decimal fraction.
#[derive(Clone, Copy)]
pub struct Tenths(pub u32);

impl fmt::Display for Tenths {
    ghost output = { λ n. Some (tenths n.0) };

    fn fmt<W: fmt::Write>(&self, f: &mut fmt::Formatter<W>) -> fmt::Result {
        let whole = self.0 / 10;
        let tenth = self.0 % 10;
        write!(f, "{whole}.{tenth}")
    }
}

// Tenths of a megawatt, shown in megawatts.
#[derive(Clone, Copy)]
pub struct Megawatts(pub u32);

impl fmt::Display for Megawatts {
    ghost output = { λ n. Some (megawatts n.0) };

    fn fmt<W: fmt::Write>(&self, f: &mut fmt::Formatter<W>) -> fmt::Result {
        write!(f, "{} MW", Tenths(self.0))
    }
}

// The tables below give the constant text that belongs to a value; a `Display` of it would be the same table.
pub(crate) fn kind_name(kind: Kind) -> &'static str
    ensures { result.now ≡ kind_name kind }
{
    match kind {
        Kind::VirtualDemandResponse => "virtual hourly demand response",
        Kind::PhysicalDemandResponse => "physical hourly demand response",
        Kind::DispatchableLoad => "dispatchable load",
        Kind::Generation => "generation",
        Kind::Storage => "storage",
        Kind::SystemBackedImport => "system-backed import",
        Kind::GeneratorBackedImport => "generator-backed import",
    }
}

pub(crate) fn mark_name(sort: Mark) -> &'static str
    ensures { result.now ≡ mark_name sort }
{
    match sort {
        Mark::LateData => "late data",
        Mark::FailedImportCall => "failed import call",
    }
}

// What a cause means, as a clerk would say it.
pub(crate) fn cause_meaning(cause: Cause) -> &'static str
    ensures { result.now ≡ cause_meaning cause }
{
    match cause {
        Cause::Ends => "the file ends where a number or a reference wants a byte",
        Cause::Padded => "a number has more bytes than it needs",
        Cause::Large => "a number is above 4294967295",
        Cause::Unknown => "the version or the entry number is unknown",
        Cause::OutOfRange => "a field is outside its range",
        Cause::BadText => "a reference has a byte outside 32 to 126",
        Cause::NoRoom => "the buffer is too short",
    }
}

pub(crate) fn entry_name(entry: &Entry) -> &'static str
    ensures { result.now ≡ entry_name entry.now }
{
    match entry {
        Entry::Award(_) => "Award",
        Entry::Lodge(_) => "Lodge",
        Entry::Approve(_) => "Approve",
        Entry::Reject(_) => "Reject",
        Entry::BuyOut(_) => "Buy-out",
        Entry::Reduction(_) => "Reduction",
        Entry::Start(_) => "Start",
        Entry::Sheet(_) => "Sheet",
        Entry::Standby(_) => "Standby",
        Entry::DayEnd(_) => "Day end",
        Entry::Test(_) => "Test",
        Entry::Marking(_) => "Mark",
        Entry::Closing(_) => "Closing",
    }
}
