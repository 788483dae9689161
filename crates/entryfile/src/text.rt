// The characters of a reference.
ghost use Rattle.std.specs.Prelude.{◌≡◌};
ghost use Rattle.std.specs.List.{list_all};
ghost use Rattle.entryfile.specs.Items.{printable};

// Whether every byte is a printable character of ASCII, 32 to 126.
pub fn is_printable(text: &[u8]) -> bool
    ensures { result ≡ list_all printable text.now }
{
    text.iter().all(|byte| 32 <= *byte && *byte <= 126)
}
