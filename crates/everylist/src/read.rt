// Reading: what came of an input behind its front, chunk by chunk. Leans on streams (a chunk, and why it is no longer) and kept (whether
// its words are fine); specs/Input has the definitions.
ghost use Rattle.std.specs.Prelude.{◌≡◌, ◌+◌, ◌^◌, ◌≤◌, ◌<◌, length, take, IfSome};
ghost use Rattle.std.specs.Io.KnownBytes.{Consumes};
ghost use Rattle.everylist.specs.Input.{Onward, RestRead};

use crate::kept::fine_words;
use std::io::Read;
use streams::{TURNS, fill};

// What came: how many bytes, whether each word of them is a number of sixteen bits, and how many of the bytes came last.
#[derive(Clone, Copy)]
pub struct Rest {
    pub bytes: usize,
    pub fine: bool,
    pub last: usize,
}

impl Rest {
    // One chunk more. `read_on` has room for its length.
    fn and(self, chunk: &[u8]) -> Self
        requires { self.bytes + length chunk.now < 2 ^ 64 }
        ensures { Onward self chunk.now result }
    {
        let fine = fine_words(chunk);
        Self {
            bytes: self.bytes + chunk.len(),
            fine: self.fine && fine,
            last: chunk.len(),
        }
    }
}

// One chunk more, which is taken from the input and lies in front of the space; nothing if a read fails. `read_rest` has room for its length.
fn read_on<R: Read>(input: &mut R, rest: Rest, space: &mut [u8]) -> Option<Rest>
    requires { (length space.old ≡ 65536) × (rest.bytes + 65536 < 2 ^ 64) }
    ensures onward { IfSome result (λ next. (next.last ≤ length space.new) × Onward rest (take next.last space.new) next) }
    ensures taken { IfSome result (λ next. Consumes (R.remaining input.old) (R.remaining input.new) (take next.last space.new)) }
{
    let Ok(last) = fill(input, space) else {
        return None;
    };
    Some(rest.and(&space[..last]))
}

// Reads on as long as chunks fill the space, which `main` lends; nothing if a read fails.
pub fn read_rest<R: Read>(input: &mut R, space: &mut [u8]) -> Option<Rest>
    requires { length space.old ≡ 65536 }
    ensures { IfSome result (λ rest. RestRead space.new rest) }
{
    let mut rest = Rest {
        bytes: 0,
        fine: true,
        last: 0,
    };
    for _ in 0..TURNS {
        let Some(next) = read_on(input, rest, space) else {
            return None;
        };
        if next.last < space.len() {
            return Some(next);
        }
        rest = next;
    }
    None
}
