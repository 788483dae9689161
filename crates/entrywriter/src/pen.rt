// A place in a buffer, and writing what has room there: each call moves the pen behind what it wrote.
use crate::checked::Checked;
use crate::lead::{figures_of, lead_of};
use entryfile::Figures;
use number::write_number;

#[derive(Drop)]
pub(crate) struct Pen<'a> {
    pub(crate) buf: &'a mut [u8],
    pub(crate) place: usize,
}

impl<'a> Pen<'a> {
    ghost use Rattle.number.specs.Numbers.{encode};
    ghost use Rattle.entryfile.specs.Items.{numbers_bytes, reference_bytes, item_bytes};
    ghost use Rattle.entryfile.specs.Views.{reference_of, item_of};
    ghost use Rattle.entrywriter.specs.Leads.{figures_in};
    ghost use Rattle.entrywriter.specs.Pens.{HasRoom, Penned};

    // One number.
    fn number(&mut self, n: u32)
        requires { HasRoom self.old (encode n) }
        ensures { Penned self.old (encode n) self.new }
    {
        self.place = write_number(self.buf, self.place, n).unwrap();
    }

    // Numbers, one after another.
    pub(crate) fn numbers(&mut self, numbers: &[u32])
        requires { HasRoom self.old (numbers_bytes numbers.now) }
        ensures { Penned self.old (numbers_bytes numbers.now) self.new }
    {
        for number in numbers {
            self.number(*number);
        }
    }

    // Bytes as they are.
    fn bytes(&mut self, bytes: &[u8])
        requires { HasRoom self.old bytes.now }
        ensures { Penned self.old bytes.now self.new }
    {
        let end = self.place + bytes.len();
        self.buf[self.place..end].copy_from_slice(bytes);
        self.place = end;
    }

    // The figures of a sheet; any other entry has none.
    fn figures(&mut self, entry: &Checked)
        requires { HasRoom self.old (numbers_bytes (figures_in entry.now.turn.entry)) }
        ensures { Penned self.old (numbers_bytes (figures_in entry.now.turn.entry)) self.new }
    {
        match figures_of(&entry.turn.entry) {
            Figures::Encoded(bytes) => self.bytes(bytes),
            Figures::Listed(numbers) => self.numbers(numbers),
        }
    }

    // The reference and its length before it.
    fn reference(&mut self, entry: &Checked)
        requires { HasRoom self.old (reference_bytes (reference_of entry.now.turn.entry)) }
        ensures { Penned self.old (reference_bytes (reference_of entry.now.turn.entry)) self.new }
    {
        let reference = entry.turn.entry.reference();
        self.number(reference.len() as u32);
        self.bytes(reference);
    }

    // A whole entry: its numbers, its figures and its reference.
    pub(crate) fn entry(&mut self, entry: &Checked)
        requires { HasRoom self.old (item_bytes (item_of entry.now.turn)) }
        ensures { Penned self.old (item_bytes (item_of entry.now.turn)) self.new }
    {
        self.numbers(lead_of(&entry.turn).as_slice());
        self.figures(entry);
        self.reference(entry);
    }
}
