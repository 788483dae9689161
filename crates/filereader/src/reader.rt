// A reader over the bytes of a file.
ghost use Rattle.std.specs.Prelude.{◌≡◌, ◌≤◌, length};

use market::{Family, Opening};

// It stands at a place of the file and hands out entries, whose parts are the file's own. What it must know to read
// them is the opening, which it has read, and the families of the book, which it is given.
#[derive(Clone, Copy)]
pub struct Reader<'a> {
    pub(crate) file: &'a [u8],
    pub(crate) families: &'a [Family],
    pub(crate) opening: Opening,
    pub(crate) place: usize,
    pub(crate) entries: usize,
    ghost within: { place ≤ length file.now },
    ghost few: { entries ≤ place },
}

impl Reader<'_> {
    // The byte where the next entry begins.
    pub fn place(&self) -> usize
        ensures { result ≡ self.now.place }
    {
        self.place
    }

    // How many entries were read whole.
    pub fn entries(&self) -> usize
        ensures { result ≡ self.now.entries }
    {
        self.entries
    }
}
