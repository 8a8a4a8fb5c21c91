// The program `treelist` of document 01: reads the words of a version and of up to 128 tokens, and prints the tree, the messages or
// the refusal. `main` only reads and writes: what came of the input is what `answer_input` asks for, which text answers which bytes is the
// promise of the function `listing`, and what is handed to `write` is what `hand` asks for. Leans on io, streams (reading), own (the
// reading of a list), listing and text (the words of bytes, the text) and derived.
#![tactic(auto)]

mod asked;

ghost use Rattle.std.specs.Prelude.{◌≡◌, ◌+◌, ◌^◌, ◌≤◌, ◌<◌, length, take, IfSome};
ghost use Rattle.std.specs.Io.KnownBytes.{Consumes};
ghost use Rattle.io.specs.Counts.{IsPrefixLen};
ghost use Rattle.text.specs.Text.{Wrote};
ghost use Rattle.treelist.specs.Listing.{printed};
ghost use Rattle.treelist.specs.Input.{RestRead, Came, IsPrinted};

use crate::asked::answer;
use listing::bytes::words_of;
use listing::rows::put_answer;
use std::io::Read;
use streams::{TURNS, fill};
use text::put_bytes;

// The bytes of a version and 128 tokens.
const FRONT: usize = 2564;

// The text that answers an input of so many bytes, whose front is given; how many bytes it has. `answer_input` lends both buffers.
fn listing(front: &[u8], bytes: usize, out: &mut [u8]) -> usize
    requires { (length front.now ≡ 2564) × (length out.old ≡ 32768) }
    ensures prefix_len { IsPrefixLen result out.new }
    ensures wrote { Wrote out.old 0 (printed bytes front.now) result out.new }
{
    let mut words = [0u32; 641];
    words_of(front, &mut words);
    let mut tree = [0u32; 2688];
    let mut messages = [0u32; 16];
    let answered = answer(&words, bytes, &mut tree, &mut messages);
    put_answer(out, 0, answered, &tree, &messages)
}

// What came of the input behind its front: how many bytes, and how many of them came last.
#[derive(Clone, Copy)]
struct Rest {
    bytes: usize,
    last: usize,
}

// One chunk more, which is taken from the input and lies in front of the space; nothing if a read fails. `count_rest` has room for its length.
fn read_on<R: Read>(input: &mut R, rest: Rest, space: &mut [u8]) -> Option<Rest>
    requires { (length space.old ≡ 65536) × (rest.bytes + 65536 < 2 ^ 64) }
    ensures counted { IfSome result (λ next. (next.last ≤ length space.new) × (next.bytes ≡ rest.bytes + next.last)) }
    ensures taken { IfSome result (λ next. Consumes (R.remaining input.old) (R.remaining input.new) (take next.last space.new)) }
{
    let Ok(last) = fill(input, space) else {
        return None;
    };
    Some(Rest {
        bytes: rest.bytes + last,
        last,
    })
}

// Reads on as long as chunks fill the space, which `go_on` lends; nothing if a read fails.
fn count_rest<R: Read>(input: &mut R, space: &mut [u8]) -> Option<Rest>
    requires { length space.old ≡ 65536 }
    ensures { IfSome result (λ rest. RestRead space.new rest.last rest.bytes) }
{
    let mut rest = Rest { bytes: 0, last: 0 };
    for _ in 0..TURNS {
        let Some(next) = read_on(input, rest, space) else {
            return None;
        };
        if next.last < space.len() {
            return Some(next);
        }
        rest = next;
    }
    None
}

// A line on standard error; nothing more is printed.
fn fail<E: Eprint>(rt: &E, line: &str) {
    let _ = rt.eprintln(line);
}

fn unread<E: Eprint>(rt: &E) {
    fail(rt, "treelist: a read failed, and nothing is printed");
}

// Hands a text to `write`: it is what is printed for an input.
fn hand<S: Print + Eprint>(rt: &S, text: &[u8])
    requires { IsPrinted text.now }
{
    if rt.write_all(text).is_err() {
        fail(rt, "treelist: a write failed, and the text is not whole");
    }
}

// Answers an input of so many bytes, of which the front came.
fn answer_input<S: Print + Eprint>(rt: &S, front: &[u8], bytes: usize)
    requires { Came front.now bytes }
{
    let mut whole = [0u8; FRONT];
    put_bytes(&mut whole, 0, front);
    let mut out = [0u8; 32_768];
    let n = listing(&whole, bytes, &mut out);
    hand(rt, &out[..n]);
}

// The input has a whole front: how much comes behind it.
fn go_on<R: Read, S: Print + Eprint>(input: &mut R, rt: &S, front: &[u8])
    requires { length front.now ≡ 2564 }
{
    let mut space = io::large_buffer();
    match count_rest(input, &mut space) {
        Some(rest) => answer_input(rt, front, FRONT + rest.bytes),
        None => unread(rt),
    }
}

fn main(rt: HostRuntime) {
    let mut input = rt.stdin();
    let mut front = [0u8; FRONT];
    match fill(&mut input, &mut front) {
        Ok(FRONT) => go_on(&mut input, &rt, &front),
        Ok(n) => answer_input(&rt, &front[..n], n),
        Err(_) => unread(&rt),
    }
}
