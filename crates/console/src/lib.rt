// What the programs share at their edge: input of a bounded length.
#![tactic(auto)]

ghost use Rattle.std.specs.Prelude.{◌≡◌, ◌≤◌, ◌<◌, length, take, IfOk, OnErr};
ghost use Rattle.std.specs.Io.KnownBytes.{Consumes, IsAtEnd};
ghost use Rattle.console.specs.Fill.{ConsumesFront, TextRead};

use std::alloc::Global;
use std::io;
use std::io::Read;

// The most bytes that a program reads.
pub const MOST: usize = 32768;

// Reads until the input ends or the buffer is full, and tells how many bytes came.
// As with `read`, when it fails is free, and so is what stands in the buffer behind what came. How many bytes came before an error is not told.
#[tactic(auto, using(crate::proofs::Reading::consumes_more))]
pub fn fill<R: Read>(source: &mut R, buffer: &mut [u8]) -> io::Result<usize>
    ensures size { length buffer.new ≡ length buffer.old }
    ensures bound { IfOk result (λ n. n ≤ length buffer.new) }
    ensures bytes { IfOk result (λ n. Consumes (R.remaining source.old) (R.remaining source.new)
        (take n buffer.new)) }
    ensures end { IfOk result (λ n. n < length buffer.new → IsAtEnd (R.remaining source.new)) }
    ensures err { OnErr result (ConsumesFront (R.remaining source.old) (R.remaining source.new)
        buffer.new) }
{
    // A read may give less than there is room for, so what came is added up.
    let mut have = 0;
    while have < buffer.len() {
        let more = source.read(&mut buffer[have..])?;
        if more == 0 {
            break;
        }
        have += more;
    }
    Ok(have)
}

// One byte more than the most is asked for, by which a longer input is known.
#[tactic(auto, using(crate::proofs::Reading::text_unread))]
fn read_within<R: Read>(alloc: Global, source: &mut R, most: usize) -> io::Result<Option<Vec<u8>>>
    requires { most < usize.MAX }
    ensures { TextRead most (R.remaining source.old) (R.remaining source.new) result }
{
    let mut buffer = vec![in alloc; 0u8; most + 1]?;
    let have = fill(source, &mut buffer)?;
    if have > most {
        return Ok(None);
    }
    buffer.truncate(have);
    Ok(Some(buffer))
}

// Reads all that the source has, or gives none where that is more than `MOST` bytes.
pub fn read_text<R: Read>(alloc: Global, source: &mut R) -> io::Result<Option<Vec<u8>>>
    ensures { TextRead MOST (R.remaining source.old) (R.remaining source.new) result }
{
    read_within(alloc, source, MOST)
}
