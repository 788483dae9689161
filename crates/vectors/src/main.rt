// Runs the reader over a table of small files and prints how far it comes in each. A line of the table is a name, a
// colon and the bytes of a file in hexadecimal; 72*6E stands for 72 bytes 6E. Empty lines and lines that begin with #
// are passed over.
#![tactic(auto)]

ghost use Rattle.std.specs.Prelude.{◌≡◌, ◌<◌, IfSome};
ghost use Rattle.vectors.specs.Hex.{digit_of, spelled};

use filereader::{Survey, read_head, read_through};
use market::{FAMILIES, Fault};
use std::alloc::Global;
use std::io::{BufRead, BufReader};
use std::{fmt, io};

// What became of a file: how many entries were read whole, and the fault that ended the reading.
#[derive(Clone, Copy)]
struct Outcome(Survey);

impl fmt::Display for Outcome {
    fn fmt<W: fmt::Write>(&self, f: &mut fmt::Formatter<W>) -> fmt::Result {
        let entries = self.0.entries;
        let Some(fault) = self.0.fault else {
            return write!(f, "{entries} entries");
        };
        let cause = u32::from(fault.cause);
        let layer = u32::from(fault.layer());
        let Fault { entry, place, .. } = fault;
        write!(
            f,
            "{entries} entries, cause {cause} layer {layer} entry {entry} place {place}"
        )
    }
}

// The value of a hexadecimal digit of either case; none for any other byte. std's `to_digit` speaks of characters and of
// 32 bits, so that a byte would be turned into one and its digit back.
fn digit(b: u8) -> Option<u8>
    ensures is { result ≡ digit_of b }
    ensures small { IfSome result (λ d. d < 16) }
{
    match b {
        b'0'..=b'9' => Some(b - b'0'),
        b'A'..=b'F' => Some(b - b'A' + 10),
        b'a'..=b'f' => Some(b - b'a' + 10),
        _ => None,
    }
}

// The byte that two hexadecimal digits spell; none for any other text.
fn byte_of(text: &[u8]) -> Option<u8>
    ensures { result ≡ spelled text.now }
{
    let [high, low] = text else {
        return None;
    };
    let high = digit(*high)?;
    let low = digit(*low)?;
    Some(16 * high + low)
}

// Appends what one token spells: a byte, or a count, a star and a byte.
fn append_token(bytes: &mut Vec<u8>, token: &str) -> io::Result<()> {
    let (count, digits) = token.split_once('*').unwrap_or(("1", token));
    let Ok(times) = count.parse::<u16>() else {
        return Err(io::Error::other("a count before a star is a number below 65536"));
    };
    let Some(byte) = byte_of(digits.as_bytes()) else {
        return Err(io::Error::other("a byte is two hexadecimal digits"));
    };
    bytes.resize(bytes.len().saturating_add(usize::from(times)), byte)?;
    Ok(())
}

// The bytes that a text spells.
fn decode(heap: Global, text: &str) -> io::Result<Vec<u8>> {
    let mut bytes = Vec::new(heap);
    for token in text.split_whitespace() {
        append_token(&mut bytes, token)?;
    }
    Ok(bytes)
}

// Reads a file from its first byte to its end or its first fault.
fn outcome_of(file: &[u8]) -> Outcome {
    Outcome(match read_head(file) {
        Ok(head) => read_through(file, &FAMILIES, head),
        Err(fault) => Survey {
            entries: 0,
            fault: Some(fault),
        },
    })
}

// Runs one line of the table; whether it was a case.
fn run_line(rt: &HostRuntime, line: &str) -> io::Result<bool> {
    if line.is_empty() || line.starts_with('#') {
        return Ok(false);
    }
    let Some((name, text)) = line.split_once(':') else {
        return Err(io::Error::other("a case is a name, a colon and bytes"));
    };
    let bytes = decode(rt.alloc(), text)?;
    let outcome = outcome_of(bytes.as_slice());
    println!(rt; "{name}: {outcome}")?;
    Ok(true)
}

// Runs the table; how many cases it had.
fn run(rt: &HostRuntime) -> io::Result<u64> {
    let mut cases = 0u64;
    for line in BufReader::new(rt.alloc(), rt.stdin())?.lines(rt.alloc()) {
        if run_line(rt, line?.as_str())? {
            cases = cases.saturating_add(1);
        }
    }
    Ok(cases)
}

fn main(rt: HostRuntime) -> io::Result<()> {
    let cases = run(&rt)?;
    println!(rt; "{cases} cases")
}
