// Filling a slice from an input that may give a few bytes at a time.

#![tactic(auto)]

ghost use Rattle.std.specs.Prelude.{IfOk};
ghost use Rattle.std.specs.Io.{ReadsAtMost};
ghost use Rattle.filling.specs.Filled.{FilledFrom};

use std::io;
use std::io::Read;

// The answer is how many bytes came, at the start of the slice: fewer than it has only where the input ended, which a read of 0 bytes tells.
pub fn fill<R: Read>(input: &mut R, room: &mut [u8]) -> io::Result<usize>
    ensures within { ReadsAtMost result room.new }
    ensures filled { IfOk result (λ n. FilledFrom (R.remaining input.old) (R.remaining input.new) n room.new) }
{
    // `read_exact` does not tell how many came, and `read_to_end` needs the heap. The bytes are counted, since their number is the answer: a
    // slice that gets shorter would only stand beside it.
    let mut done = 0;
    while done < room.len() {
        let got = input.read(&mut room[done..])?;
        if got == 0 {
            break;
        }
        done += got;
    }
    Ok(done)
}
