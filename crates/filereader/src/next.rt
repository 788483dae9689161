// Opening a reader, and taking entries from it.
ghost use Rattle.std.specs.Prelude.{◌≡◌, IfOk};
ghost use Rattle.market.specs.Opened.{terms_of};
ghost use Rattle.entryfile.specs.Files.{head_bytes};
ghost use Rattle.entryfile.specs.Laws.{Stands};
ghost use Rattle.entryfile.specs.Steps.{answer_of, Handed};
ghost use Rattle.filereader.specs.Readers.{head_answer, head_of, opened, StandsBehind, SameSource, file_of, families_of, zones_in, position_of, next_of};

use crate::reader::Reader;
use entryfile::{Head, Setting, Turn, head_at, turn_at};
use market::{Family, Fault};

// Reads version and opening. A fault there is one of entry 0.
pub fn read_head(file: &[u8]) -> Result<Head, Fault>
    ensures is { head_answer result ≡ head_of file.now }
    ensures rewrites { IfOk result (λ h. Stands file.now 0 (head_bytes (terms_of h.opening)) h.end) }
{
    head_at(file).map_err(|fault| fault.in_entry(0))
}

impl<'a> Reader<'a> {
    // A reader that stands behind the head of the file, or at the file's end where that comes first. File, families and
    // head are what a reader is made of, so they are its parameters.
    pub fn new(file: &'a [u8], families: &'a [Family], head: Head) -> Reader<'a>
        ensures { StandsBehind file.now families.now head result }
    {
        Reader {
            file,
            families,
            opening: head.opening,
            place: head.end.min(file.len()),
            entries: 0,
        }
    }

    // Reads version and opening, and stands a reader behind them. A fault there is one of entry 0.
    pub fn open(file: &'a [u8], families: &'a [Family]) -> Result<Reader<'a>, Fault>
        ensures is { opened result ≡ head_of file.now }
        ensures stands { IfOk result (λ r. (file_of r ≡ file.now) × (families_of r ≡ families.now) × (r.entries ≡ 0)) }
        ensures rewrites { IfOk result (λ r. Stands file.now 0 (head_bytes (terms_of r.opening)) r.place) }
    {
        Ok(Reader::new(file, families, read_head(file)?))
    }

    // The next entry with its sender; none at the end of the file. After a fault the reader stands where it stood.
    pub fn next_entry(&mut self) -> Result<Option<Turn<'a>>, Fault>
        ensures same { SameSource self.old self.new }
        ensures is { (answer_of result, position_of self.new) ≡ next_of self.old }
        ensures handed { Handed (zones_in self.old) (families_of self.old) (file_of self.old) self.old.place self.new.place result }
    {
        if self.place >= self.file.len() {
            return Ok(None);
        }
        let setting = Setting {
            zones: self.opening.zones(),
            families: self.families,
        };
        match turn_at(self.file, self.place, setting) {
            Ok((turn, place)) => {
                self.place = place;
                self.entries += 1;
                Ok(Some(turn))
            }
            Err(fault) => Err(fault.in_entry(self.entries + 1)),
        }
    }
}
