// The program `everylist` of document 02, card 9: reads the words of a version, a length and an alphabet, and prints every list of the
// alphabet up to that length with what is read of it. `main` only reads and writes: what is kept of the bytes that came is what `answer`
// asks for, which text stands at which position is the promise of `step_at`, and what is handed to `write` is what `hand` asks for. Leans
// on io, streams (reading), listing and text (the front's words), and the modules below.
#![tactic(auto)]

mod kept;
mod read;
mod step;

ghost use Rattle.std.specs.Prelude.{◌≡◌, length, IfOk};
ghost use Rattle.std.proofs.Math.Option.{some};
ghost use Rattle.everylist.specs.Steps.{text_at};
ghost use Rattle.everylist.specs.Input.{Came, OfInput, Whole};

use crate::kept::Kept;
use crate::read::read_rest;
use crate::step::step_at;
use listing::bytes::words_of;
use std::io::{Read, Write, writer};
use streams::fill;
use text::put_bytes;

// The bytes of the words that are kept.
const FRONT: usize = 44;

// Hands a text to `write`: it is the one at this position.
fn hand<W: Write>(to: &mut W, text: &[u8], kept: &Kept, position: u64) -> std::io::Result<()>
    requires { text_at kept.now position ≡ some text.now }
{
    to.write_all(text)
}

// Prints the text at each position, up to the end; at how many positions there was one. The end is within 299,594 positions: there are no
// more lists of 8 letters to length 6.
fn print<W: Write>(to: &mut W, kept: &Kept) -> std::io::Result<u64>
    requires { OfInput kept.now }
    ensures { IfOk result (Whole kept.now) }
{
    let mut out = [0u8; 2048];
    let mut position = 0u64;
    while let Some(n) = step_at(&mut out, kept, position) {
        hand(to, &out[..n], kept, position)?;
        position += 1;
    }
    Ok(position)
}

// A line on standard error; nothing more is printed.
fn fail<E: Eprint>(rt: &E, line: &str) {
    let _ = rt.eprintln(line);
}

// Answers an input of so many bytes, of which the front came, and behind it words that are fine or not.
fn answer<S: Print + Eprint>(rt: &S, front: &[u8], bytes: usize, fine: bool)
    requires { Came front.now bytes fine }
{
    let mut whole = [0u8; FRONT];
    put_bytes(&mut whole, 0, front);
    let mut words = [0u32; 11];
    words_of(&whole, &mut words);
    let mut to = writer(rt);
    let kept = Kept { bytes, words, fine };
    if print(&mut to, &kept).is_err() {
        fail(rt, "everylist: a write failed, and the text is not whole");
    }
}

fn unread<E: Eprint>(rt: &E) {
    fail(rt, "everylist: a read failed, and nothing is printed");
}

// The input has a whole front: what comes behind it.
fn go_on<R: Read, S: Print + Eprint>(input: &mut R, rt: &S, front: &[u8])
    requires { length front.now ≡ 44 }
{
    let mut space = io::large_buffer();
    match read_rest(input, &mut space) {
        Some(rest) => answer(rt, front, FRONT + rest.bytes, rest.fine),
        None => unread(rt),
    }
}

fn main(rt: HostRuntime) {
    let mut input = rt.stdin();
    let mut front = [0u8; FRONT];
    match fill(&mut input, &mut front) {
        Ok(FRONT) => go_on(&mut input, &rt, &front),
        Ok(n) => answer(&rt, &front[..n], n, true),
        Err(_) => unread(&rt),
    }
}
