// The program `liftlists`: reads a version and a plain file of words (docs/FORMAT.md), and writes the file with every list lifted to that
// version that can be. `main` only reads and writes: what is handed over is what `hand` and `hand_last` ask for. Leans on io, streams
// (reading), listing (the word of four bytes), text, and the modules below.
#![tactic(auto)]

mod close;
mod feed;
mod hand;
mod judge;
mod lent;
mod put;
mod step;

ghost use Rattle.std.specs.Prelude.{◌≡◌, [], ◌^◌, ◌≤◌, ◌<◌, length, take};
ghost use Rattle.std.specs.Io.KnownBytes.{Consumes};
ghost use Rattle.streams.specs.Came.{came};
ghost use Rattle.liftlists.specs.Steps.{Fine, held_in};
ghost use Rattle.liftlists.specs.Going.{file_from, yet, PlaceReached, ChunkTurned};

use crate::feed::feed;
use crate::hand::{hand_last, unread, unwritten};
use crate::lent::{ListBuffer, OutBuffer, Scratch};
use crate::step::{Stage, Step, close_last};
use listing::bytes::word_of;
use std::io::Read;
use streams::{Failed, TURNS, fill};
use text::put_bytes;

// A version word is below this.
const PAST_VERSIONS: u32 = 65_536;

// The input has ended: the list that is kept, and the bytes behind the last whole word. `read_on` leaves at most three of these.
fn finish<S: Print + Eprint>(
    rt: &S,
    stage: Stage,
    list: &ListBuffer,
    tail: &[u8],
    to: u32,
    out: &mut OutBuffer,
    at: usize,
    scratch: &mut Scratch,
)
    requires list_len { (to < 2 ^ 16) × (at ≤ 147463) × (length tail.now ≤ 3) }
    requires fine { Fine stage list.now × PlaceReached (yet to (held_in stage list.now) out.old at) }
{
    let closed = close_last(stage, list, to, out, at, scratch);
    let last = put_bytes(out, closed, tail);
    hand_last(rt, &out[..last]);
}

// What a chunk led to: where the file goes on, nothing if a write failed, how many bytes are whole words, and how many came.
#[derive(Clone, Copy)]
struct Turn {
    step: Option<Step>,
    whole: usize,
    filled: Result<usize, Failed>,
}

// How many bytes came, also if a read failed then.
fn came_of(filled: Result<usize, Failed>) -> usize
    ensures { result ≡ came filled }
{
    match filled {
        Ok(bytes) => bytes,
        Err(failed) => failed.bytes,
    }
}

// One chunk more, which is taken from the input and lies in front of the space. Where a read fails in it, the words before that are fed too.
fn read_on<R: Read, P: Print>(
    input: &mut R,
    rt: &P,
    stage: Stage,
    list: &mut ListBuffer,
    space: &mut [u8],
    to: u32,
    out: &mut OutBuffer,
    at: usize,
    scratch: &mut Scratch,
) -> Turn
    requires list_len { (length space.old ≡ 65536) × (to < 2 ^ 16) × (at ≤ 147463) }
    requires fine { Fine stage list.old × PlaceReached (yet to (held_in stage list.old) out.old at) }
    ensures turned { ChunkTurned to (yet to (held_in stage list.old) out.old at) result
        space.new list.new out.new }
    ensures taken { Consumes (R.remaining input.old) (R.remaining input.new) (take (came result.filled) space.new) }
{
    let filled = fill(input, space);
    let last = came_of(filled);
    let whole = last / 4 * 4;
    let step = feed(rt, stage, list, &space[..whole], to, out, at, scratch);
    Turn {
        step,
        whole,
        filled,
    }
}

// Reads the file chunk by chunk and hands over what it gives. `lift_file` lends the space.
fn carry<R: Read, S: Print + Eprint>(
    input: &mut R,
    rt: &S,
    to: u32,
    list: &mut ListBuffer,
    space: &mut [u8],
    out: &mut OutBuffer,
    scratch: &mut Scratch,
)
    requires list_len { (length space.old ≡ 65536) × (to < 2 ^ 16) }
    requires place_reached { PlaceReached (file_from to []) }
{
    let mut stage = Stage::Passing;
    let mut at = 0usize;
    for _ in 0..TURNS {
        let turn = read_on(input, rt, stage, list, space, to, out, at, scratch);
        let Some(step) = turn.step else {
            unwritten(rt);
            return;
        };
        let Ok(last) = turn.filled else {
            unread(rt);
            return;
        };
        stage = step.stage;
        at = step.at;
        if last < space.len() {
            let tail = &space[turn.whole..last];
            finish(rt, stage, list, tail, to, out, at, scratch);
            return;
        }
    }
    unread(rt);
}

// Lifts the file behind a version word.
fn lift_file<R: Read, S: Print + Eprint>(input: &mut R, rt: &S, to: u32)
    requires { (to < 2 ^ 16) × PlaceReached (file_from to []) }
{
    let mut list = [0u32; 20_480];
    let mut space = io::large_buffer();
    let mut out = [0u8; 262_144];
    let mut scratch = Scratch {
        tree: [0; 86_016],
        again: [0; 86_016],
        work: [0; 262_208],
        output: [0; 20_480],
    };
    carry(input, rt, to, &mut list, &mut space, &mut out, &mut scratch);
}

// The first bytes of the input, which are a version word or not; `main` reads no more than four.
fn begin<R: Read, S: Print + Eprint>(input: &mut R, rt: &S, first: &[u8])
    requires { length first.now ≤ 4 }
{
    if first.len() < 4 {
        hand_last(rt, b"refused 8 0\n");
        return;
    }
    let to = word_of(first[0], first[1], first[2], first[3]);
    if to < PAST_VERSIONS {
        lift_file(input, rt, to);
        return;
    }
    hand_last(rt, b"refused 8 0\n");
}

fn main(rt: HostRuntime) {
    let mut input = rt.stdin();
    let mut first = [0u8; 4];
    match fill(&mut input, &mut first) {
        Ok(n) => begin(&mut input, &rt, &first[..n]),
        Err(_) => unread(&rt),
    }
}
