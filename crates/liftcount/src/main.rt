// The program `liftcount` of document 02's card 10: reads two versions and lists, and prints what lifting the lists from the one to the
// other would do. `main` only reads and writes: what chunks of an input come to is the promise of `feed`, what is printed at its end that
// of `finish`, and that this is `printed` of the whole input, which `hand` asks for, is the theorem `came-prints`. Leans on io, streams
// (reading), feed and finish.
#![tactic(auto)]

mod close;
mod feed;
mod finish;
mod judge;
mod run;
mod step;

ghost use Rattle.std.specs.Prelude.{◌≡◌, List, ℕ, length, IfSome};
ghost use Rattle.liftcount.specs.Running.{state_of, started};
ghost use Rattle.liftcount.specs.Steps.{Reached, TakenFrom, Came, IsPrinted};

use crate::feed::feed;
use crate::finish::finish;
use crate::run::{Counts, ListBuffer, MOST_WORDS, Run, Stage};
use std::io::Read;
use streams::{TURNS, fill};

// Where the program starts.
fn start() -> Run
    ensures { (list : List ℕ) → state_of result list ≡ started list }
{
    let counts = Counts {
        read: 0,
        same: 0,
        different: 0,
        one: 0,
        both: 0,
    };
    Run {
        held: 0,
        partial: 0,
        stage: Ok(Stage::First),
        counts,
    }
}

// What an input has come to that was read to its end: the run, and how many bytes came last.
#[derive(Clone, Copy)]
struct Reading {
    run: Run,
    last: usize,
}

// Reads on as long as chunks fill the space; what the input came to, or nothing if a read fails. `main` lends the space.
fn read_input<R: Read>(input: &mut R, list: &mut ListBuffer, space: &mut [u8]) -> Option<Reading>
    requires { length space.old ≡ 65536 }
    ensures reached { IfSome result (λ reading. Reached list.old space.new reading.last (state_of reading.run list.new)) }
    ensures taken { IfSome result (λ reading. TakenFrom (R.remaining input.old) (R.remaining input.new) list.old space.new reading.last (state_of reading.run list.new)) }
{
    let mut run = start();
    for _ in 0..TURNS {
        let Ok(last) = fill(input, space) else {
            return None;
        };
        run = feed(run, list, &space[..last]);
        if last < space.len() {
            return Some(Reading { run, last });
        }
    }
    None
}

// A line on standard error; nothing more is printed.
fn fail<E: Eprint>(rt: &E, line: &str) {
    let _ = rt.eprintln(line);
}

// Hands a text to `write`: it is what is printed for an input.
fn hand<S: Print + Eprint>(rt: &S, text: &[u8])
    requires { IsPrinted text.now }
{
    if rt.write_all(text).is_err() {
        fail(rt, "liftcount: a write failed, and the text is not whole");
    }
}

// Prints what an input came to that has ended.
fn answer<S: Print + Eprint>(rt: &S, run: Run, list: &ListBuffer)
    requires { Came (state_of run list.now) }
{
    let mut out = [0u8; 128];
    let n = finish(run, list, &mut out);
    hand(rt, &out[..n]);
}

fn main(rt: HostRuntime) {
    let mut input = rt.stdin();
    let mut list = [0u32; MOST_WORDS];
    let mut space = io::large_buffer();
    match read_input(&mut input, &mut list, &mut space) {
        Some(reading) => answer(&rt, reading.run, &list),
        None => fail(&rt, "liftcount: a read failed, and nothing is counted"),
    }
}
