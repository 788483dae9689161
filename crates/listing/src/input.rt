// Reading standard input up to the longest file there may be.
ghost use Rattle.std.specs.Prelude.{◌≡◌, ◌<◌, ◌≤◌, length, take, IfSome, IfOk, vec_len};
ghost use Rattle.std.specs.Io.KnownBytes.{Consumes, IsAtEnd};

use std::io;
use std::io::Read;

// Reads into the buffer up to its end or the input's, and says how many bytes that are. Each read asks for all the room
// that is left: a socket or a pipe that keeps its messages apart throws away what a shorter read leaves of one.
fn fill<R: Read>(input: &mut R, buffer: &mut [u8]) -> io::Result<usize>
    ensures within { IfOk result (λ n. n ≤ length buffer.new) }
    ensures room { length buffer.new ≡ length buffer.old }
    ensures bytes { IfOk result (λ n. Consumes (R.remaining input.old) (R.remaining input.new) (take n buffer.new)) }
    ensures end { IfOk result (λ n. n < length buffer.new → IsAtEnd (R.remaining input.new)) }
{
    let mut filled = 0;
    while filled < buffer.len() {
        let got = input.read(&mut buffer[filled..])?;
        if got == 0 {
            break;
        }
        filled += got;
    }
    Ok(filled)
}

// All of standard input, or none where it has more than 65,536 bytes.
pub fn whole_input(rt: &HostRuntime) -> io::Result<Option<Vec<u8>>>
    ensures { IfOk result (λ o. IfSome o (λ v. vec_len v ≤ 65536)) }
{
    // one byte more shows that the input is too long
    let mut file = vec![in rt.alloc(); 0u8; 65_537]?;
    let size = fill(&mut rt.stdin(), &mut file)?;
    if size > 65_536 {
        return Ok(None);
    }
    file.truncate(size);
    Ok(Some(file))
}
