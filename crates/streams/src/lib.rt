// A reader with its failures told: that the input has ended and that a read failed are apart. Leans on std (a read); specs/Came has the
// definitions.
#![tactic(auto)]

ghost use Rattle.std.specs.Prelude.{take};
ghost use Rattle.std.specs.Io.KnownBytes.{Consumes};
ghost use Rattle.io.specs.Counts.{IsPrefixLen};
ghost use Rattle.streams.specs.Came.{came};

use std::io::Read;

// How often a program fills its buffer. A proved loop has to end, and nothing says that an input does: no run uses this up.
// Each program has its own loop over chunks: a shared one would take a closure, whose caller had to promise what bounds its sum of bytes.
pub const TURNS: usize = 1_099_511_627_776;

// A read failed after so many bytes.
#[derive(Clone, Copy, Debug, PartialEq, Eq)]
pub struct Failed {
    pub bytes: usize,
}

// Reads until the buffer is full, the input ends or a read fails: so many bytes came, and the input has ended if they do not fill the
// buffer. The bytes that a reader gives are taken from those that it has.
pub fn fill<R: Read>(input: &mut R, buffer: &mut [u8]) -> Result<usize, Failed>
    ensures prefix_len { IsPrefixLen (came result) buffer.new }
    ensures taken { Consumes (R.remaining input.old) (R.remaining input.new) (take (came result) buffer.new) }
{
    // A read gives as many bytes as it likes, so no range counts the turns.
    let mut bytes = 0usize;
    while bytes < buffer.len() {
        let Ok(more) = input.read(&mut buffer[bytes..]) else {
            return Err(Failed { bytes });
        };
        if more == 0 {
            return Ok(bytes);
        }
        bytes += more;
    }
    Ok(bytes)
}
