// The lines of a listing.
ghost use Rattle.std.specs.Prelude.{Some};
ghost use Rattle.entryfile.specs.declared.entry.Entry.TheVariants.{Award, Lodge};
ghost use Rattle.wording.specs.Words.{sender_name};
ghost use Rattle.wording.specs.Lines.{kind_text, holding_text, fields_text, heading_text, part_text, cause_text, fault_text, hours_text};

use crate::words::{Megawatts, cause_meaning, entry_name, kind_name, mark_name};
use entryfile::{CapacityTest, Decision, Entry, Marking, NewAward, Sheet, Standby, Transfer, Turn};
use market::{Cause, Fault, Kind};
use std::fmt;

// A value of the file in words: a kind, a cause, a fault, or the fields of an entry.
#[derive(Clone, Copy)]
pub struct InWords<T>(pub T);

// A kind by its number and its name.
impl fmt::Display for InWords<Kind> {
    ghost output = { λ k. Some (kind_text k.0) };

    fn fmt<W: fmt::Write>(&self, f: &mut fmt::Formatter<W>) -> fmt::Result {
        let number = u32::from(self.0);
        let name = kind_name(self.0);
        write!(f, "kind {number} ({name})")
    }
}

// Who holds an award, and in which zone.
#[derive(Clone, Copy)]
struct Holding {
    holder: u32,
    zone: u32,
}

impl fmt::Display for Holding {
    ghost output = { λ h. Some (holding_text h.holder h.zone) };

    fn fmt<W: fmt::Write>(&self, f: &mut fmt::Formatter<W>) -> fmt::Result {
        write!(f, "holder {}, zone {}", self.holder, self.zone)
    }
}

// The fields of a new award.
impl fmt::Display for InWords<NewAward<'_>> {
    ghost output = { λ a. Some (fields_text (Award a.0)) };

    fn fmt<W: fmt::Write>(&self, f: &mut fmt::Formatter<W>) -> fmt::Result {
        let NewAward { holder, zone, .. } = self.0;
        write!(
            f,
            "{}, {}, quantity {}, cleared ICAP {}, capability {}",
            Holding { holder, zone },
            InWords(self.0.kind),
            Megawatts(self.0.quantity),
            Megawatts(self.0.cleared_icap),
            Megawatts(self.0.capability)
        )
    }
}

// The fields of a request to transfer.
impl fmt::Display for InWords<Transfer<'_>> {
    ghost output = { λ t. Some (fields_text (Lodge t.0)) };

    fn fmt<W: fmt::Write>(&self, f: &mut fmt::Formatter<W>) -> fmt::Result {
        let Transfer {
            award,
            new_holder: holder,
            zone,
            ..
        } = self.0;
        write!(
            f,
            "award {award}, new {}, {}, quantity {}, capability {}",
            Holding { holder, zone },
            InWords(self.0.kind),
            Megawatts(self.0.quantity),
            Megawatts(self.0.capability)
        )
    }
}

// The fields of an entry; a sheet's figures are told apart.
impl fmt::Display for InWords<&Entry<'_>> {
    ghost output = { λ e. Some (fields_text e.0.now) };

    fn fmt<W: fmt::Write>(&self, f: &mut fmt::Formatter<W>) -> fmt::Result {
        match *self.0 {
            Entry::Award(award) => write!(f, "{}", InWords(award)),
            Entry::Lodge(transfer) => write!(f, "{}", InWords(transfer)),
            Entry::Approve(Decision { award, .. }) | Entry::Reject(Decision { award, .. }) => {
                write!(f, "award {award}")
            }
            Entry::BuyOut(off) | Entry::Reduction(off) => {
                write!(
                    f,
                    "award {}, quantity {}",
                    off.award,
                    Megawatts(off.quantity)
                )
            }
            Entry::Sheet(Sheet { award, family, .. }) => {
                write!(f, "award {award}, family {family}")
            }
            Entry::Standby(Standby { award, hour, .. }) => {
                write!(f, "award {award}, from hour {hour}")
            }
            Entry::Test(
                CapacityTest {
                    award,
                    delivered,
                    ..
                },
            ) => { write!(f, "award {award}, delivered {}", Megawatts(delivered)) }
            Entry::Marking(Marking { award, sort, .. }) => {
                let number = u32::from(sort);
                let name = mark_name(sort);
                write!(f, "award {award}, sort {number} ({name})")
            }
            Entry::Start(_) | Entry::DayEnd(_) | Entry::Closing(_) => write!(f, "no fields"),
        }
    }
}

// Who sent an entry: 0 is the operator, any other number a holder.
#[derive(Clone, Copy)]
struct Sender(u32);

impl fmt::Display for Sender {
    ghost output = { λ s. Some (sender_name s.0) };

    fn fmt<W: fmt::Write>(&self, f: &mut fmt::Formatter<W>) -> fmt::Result {
        match self.0 {
            0 => write!(f, "the operator"),
            holder => write!(f, "holder {holder}"),
        }
    }
}

// The heading of an entry: its count, the byte where it begins, its name and its sender.
#[derive(Clone, Copy)]
pub struct Heading<'a> {
    pub count: usize,
    pub place: usize,
    pub turn: &'a Turn<'a>,
}

impl fmt::Display for Heading<'_> {
    ghost output = { λ h. Some (heading_text h.count h.place h.turn.now) };

    fn fmt<W: fmt::Write>(&self, f: &mut fmt::Formatter<W>) -> fmt::Result {
        let Heading { count, place, turn } = *self;
        let name = entry_name(&turn.entry);
        let sender = Sender(turn.sender);
        write!(f, "Entry {count} at byte {place}: {name}, sent by {sender}")
    }
}

// Which part of a file a fault is told of: 0 is the opening, any other number an entry.
#[derive(Clone, Copy)]
struct Part(usize);

impl fmt::Display for Part {
    ghost output = { λ p. Some (part_text p.0) };

    fn fmt<W: fmt::Write>(&self, f: &mut fmt::Formatter<W>) -> fmt::Result {
        match self.0 {
            0 => write!(f, "The opening"),
            entry => write!(f, "Entry {entry}"),
        }
    }
}

// A cause with its number and its layer.
impl fmt::Display for InWords<Cause> {
    ghost output = { λ c. Some (cause_text c.0) };

    fn fmt<W: fmt::Write>(&self, f: &mut fmt::Formatter<W>) -> fmt::Result {
        let meaning = cause_meaning(self.0);
        let number = u32::from(self.0);
        let layer = u32::from(self.0.layer());
        write!(f, "{meaning} (cause {number}, layer {layer})")
    }
}

// Entry, cause, layer and place of a fault in one sentence, and where to look.
impl fmt::Display for InWords<Fault> {
    ghost output = { λ t. Some (fault_text t.0) };

    fn fmt<W: fmt::Write>(&self, f: &mut fmt::Formatter<W>) -> fmt::Result {
        let part = Part(self.0.entry);
        let cause = InWords(self.0.cause);
        let place = self.0.place;
        write!(
            f,
            "{part} cannot be read: {cause}. The faulty part begins at byte {place}."
        )
    }
}

// Hours that have the same figures.
#[derive(Clone, Copy)]
pub struct Hours<'a> {
    pub first: u32,
    pub last: u32,
    pub figures: &'a str,
}

impl fmt::Display for Hours<'_> {
    ghost output = { λ h. Some (hours_text h.first h.last h.figures.now) };

    fn fmt<W: fmt::Write>(&self, f: &mut fmt::Formatter<W>) -> fmt::Result {
        let Hours {
            first,
            last,
            figures,
        } = *self;
        if first == last {
            write!(f, "hour {first}:{figures}")
        } else {
            write!(f, "hours {first} to {last}:{figures}")
        }
    }
}
