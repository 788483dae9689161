// Numbers as they stand in an entry file: groups of seven bits, the least first, with bit 7 set on all bytes but the
// last. This is the lowest layer of the file format: it knows bytes and places, and nothing of entries.
#![tactic(auto)]

ghost use Rattle.std.specs.Prelude.{◌≡◌, ℕ, ◌+◌, ◌<◌, ◌≤◌, List, ◌++◌, length, IfOk, Ok, MatchOption};
ghost use Rattle.std.specs.List.{between};
ghost use Rattle.number.specs.Numbers.{encode, decode, number_at};
ghost use Rattle.number.specs.Writes.{Wrote};

// Why no number could be read.
#[derive(Clone, Copy, Debug, PartialEq)]
pub enum NumberCause {
    // the file ends where a byte is wanted
    Ends,
    // the number has more bytes than it needs
    Padded,
    // the number is above 4,294,967,295
    Large,
}

// A fault of the number layer, with the place of the number's first byte.
#[derive(Clone, Copy, Debug, PartialEq)]
pub struct NumberFault {
    pub cause: NumberCause,
    pub place: usize,
}

// The number that begins at `at`, any place, and the place after it.
#[tactic(auto, using(crate::proofs::Turns::placings))]
pub fn read_number(file: &[u8], at: usize) -> Result<(u32, usize), NumberFault>
    ensures is { result ≡ number_at file.now at }
    ensures within { IfOk result (λ p. (at < p.1) × (p.1 ≤ length file.now)) }
    ensures rewrites { IfOk result (λ p. encode p.0 ≡ between at p.1 file.now) }
{
    if at >= file.len() {
        return Err(NumberFault {
            cause: NumberCause::Ends,
            place: at,
        });
    }
    // most numbers have one byte, which is looked at where it stands: a part of the file would cost as much again
    let first = file[at];
    if first < 128 {
        return Ok((u32::from(first), at + 1));
    }
    match read_groups(&file[at..]) {
        Ok((n, size)) => Ok((n, at + size)),
        Err(cause) => Err(NumberFault { cause, place: at }),
    }
}

// The number at the front of `bytes`, and how many of them it takes.
#[tactic(auto, using(crate::proofs::Turns::readings))]
fn read_groups(bytes: &[u8]) -> Result<(u32, usize), NumberCause>
    ensures { result ≡ decode bytes.now }
{
    let mut value = 0;
    // a fifth byte of at most 15 is the last, so the loop stops there
    for (group, &byte) in bytes.iter().enumerate() {
        if group == 4 && byte > 15 {
            return Err(NumberCause::Large);
        }
        if byte == 0 && group > 0 {
            return Err(NumberCause::Padded);
        }
        value += u32::from(byte % 128) << (7 * group);
        if byte < 128 {
            return Ok((value, group + 1));
        }
    }
    Err(NumberCause::Ends)
}

// How many bytes `n` takes: one for each seven bits up to the highest that is set, and one for 0.
#[tactic(auto, using(crate::proofs::Codec::size_of_top))]
pub fn number_size(n: u32) -> usize
    ensures { result ≡ length (encode n) }
{
    n.max(1).ilog2() as usize / 7 + 1
}

// Writes `n` from `at` on, any place, and returns the place after it; where there is no room, none, and the buffer is as
// it was.
#[tactic(auto, using(crate::proofs::Writes::writings))]
pub fn write_number(buf: &mut [u8], at: usize, n: u32) -> Option<usize>
    ensures wrote { MatchOption result ((length buf.old < at + length (encode n)) × (buf.new ≡ buf.old)) (λ p. Wrote buf.old at (encode n) p buf.new) }
    ensures rereads { (post : List ℕ) → decode (encode n ++ post) ≡ Ok (n, length (encode n)) }
{
    let end = at.checked_add(number_size(n))?;
    if end > buf.len() {
        return None;
    }
    let mut rest = n;
    for byte in buf[at..end].iter_mut() {
        *byte = if rest < 128 {
            rest as u8
        } else {
            (rest % 128 + 128) as u8
        };
        rest /= 128;
    }
    Some(end)
}
