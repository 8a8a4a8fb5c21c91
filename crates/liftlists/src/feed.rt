// A chunk of the file: its words, one after the other, and what they give handed over as the output's buffer fills. Leans on step, hand
// and listing (the word of four bytes); specs/Going has the definitions.
ghost use Rattle.std.specs.Prelude.{◌≡◌, ◌%◌, ◌^◌, ◌≤◌, ◌<◌, length, take};
ghost use Rattle.liftlists.specs.Steps.{Fine, held_in};
ghost use Rattle.liftlists.specs.Going.{yet, PlaceReached, IsNextPiece, Spilled, FedTo};

use crate::hand::hand;
use crate::lent::{ListBuffer, OutBuffer, Scratch};
use crate::step::{Stage, Step, take_word};
use listing::bytes::word_of;

// What is laid is handed over from this many bytes on. One word gives 81,928 bytes at the most, and the output's buffer has room for both.
const ENOUGH: usize = 65_536;

// Hands over what is laid, if that is enough: so many bytes are laid then. Nothing if a write fails, here and below.
fn spill<P: Print>(rt: &P, out: &OutBuffer, at: usize) -> Option<usize>
    requires { (at ≤ 262144) × IsNextPiece (take at out.now) }
    ensures { Spilled result out.now at }
{
    if at < ENOUGH {
        return Some(at);
    }
    if hand(rt, &out[..at]) {
        return Some(0);
    }
    None
}

// The words of a chunk, which `carry` has cut behind the last whole one.
pub(crate) fn feed<P: Print>(
    rt: &P,
    stage: Stage,
    list: &mut ListBuffer,
    chunk: &[u8],
    to: u32,
    out: &mut OutBuffer,
    at: usize,
    scratch: &mut Scratch,
) -> Option<Step>
    requires list_len { (to < 2 ^ 16) × (at ≤ 147463) × (length chunk.now % 4 ≡ 0) }
    requires fine { Fine stage list.old × PlaceReached (yet to (held_in stage list.old) out.old at) }
    ensures { FedTo to (yet to (held_in stage list.old) out.old at) chunk.now result
        list.new out.new }
{
    let mut then = stage;
    let mut end = at;
    for word in chunk.chunks_exact(4) {
        let start = spill(rt, out, end)?;
        let w = word_of(word[0], word[1], word[2], word[3]);
        let step = take_word(then, list, w, to, out, start, scratch);
        then = step.stage;
        end = step.at;
    }
    Some(Step {
        stage: then,
        at: end,
    })
}
