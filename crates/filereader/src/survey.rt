// Reading a whole file.
ghost use Rattle.std.specs.Prelude.{◌≡◌};
ghost use Rattle.filereader.specs.Surveys.{told, left_of, survey_after, listing_of, WholeFileWrites, WholeFileReads};

use crate::reader::Reader;
use entryfile::Head;
use market::{Family, Fault};

// How many entries are read whole, and the fault that ends the reading, if there is one. The count is told with a fault
// and without one, so this is no Result.
#[derive(Clone, Copy)]
pub struct Survey {
    pub entries: usize,
    pub fault: Option<Fault>,
}

// Reads all entries of a file behind its head. File, families and head are those of the reader that it makes.
pub fn read_through<'a>(file: &'a [u8], families: &'a [Family], head: Head) -> Survey
    ensures is { result ≡ survey_after 0 (listing_of families.now file.now head) }
    ensures writes { WholeFileWrites families.now file.now head }
    ensures reads { WholeFileReads families.now head }
{
    let mut reader = Reader::new(file, families, head);
    let fault = read_on(&mut reader).err();
    Survey {
        entries: reader.entries(),
        fault,
    }
}

// Takes all entries up to the end of the file, or the first fault.
fn read_on(reader: &mut Reader<'_>) -> Result<(), Fault>
    ensures { told result reader.new ≡ left_of reader.old }
{
    while let Some(_turn) = reader.next_entry()? {}
    Ok(())
}
