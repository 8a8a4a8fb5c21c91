// What is printed at the end of the input. Leans on close, listing (a refusal's line), text and words; specs/Running
// has the definition.
ghost use Rattle.std.specs.Prelude.{◌≡◌, ◌≤◌, length, take};
ghost use Rattle.io.specs.Counts.{IsPrefixLen as Within};
ghost use Rattle.text.specs.Text.{Wrote};
ghost use Rattle.liftcount.specs.Counting.{refusal_line};
ghost use Rattle.liftcount.specs.Running.{refused_row, state_of, open_fault, counted, lines_of, end_text};
ghost use Rattle.words.specs.Refusals.{reason_number};
ghost use Rattle.liftcount.specs.Judging.{ended_by};
ghost use Rattle.liftcount.specs.Steps.{ending_text};

use crate::close::close;
use crate::run::{Counts, ListBuffer, Run, Stage};
use listing::rows::put_answer;
use text::put_number;
use words::refusals::{Reason, Refusal};

// The end of the input ends the open list.
fn close_last(
    list: &ListBuffer,
    words: usize,
    from: i16,
    to: i16,
    counts: Counts,
) -> Result<Counts, Refusal>
    ensures { refused_row result ≡ ended_by (open_fault words list.now) (counted from to (take words list.now) counts) }
{
    let mut tree = [0u32; 2688];
    let mut again = [0u32; 2688];
    let mut messages = [0u32; 16];
    let mut work = [0u32; 8256];
    close(
        list,
        words,
        from,
        to,
        counts,
        &mut tree,
        &mut again,
        &mut messages,
        &mut work,
    )
}

// How the input ends. Bytes of a word that is not whole are answered first.
fn ended(run: Run, list: &ListBuffer) -> Result<Counts, Refusal>
    ensures { ending_text (refused_row result) ≡ end_text (state_of run list.now) }
{
    let held = run.held;
    if held != 0 {
        return Err(Reason::ListNotWhole.at(0));
    }
    let counts = run.counts;
    let stage = run.stage?;
    match stage {
        Stage::First => Err(Reason::WrongKind.at(0)),
        Stage::Second(_) => Err(Reason::WrongKind.at(0)),
        Stage::Opener(_, _) => Ok(counts),
        Stage::InList(from, to, words) => close_last(list, words, from, to, counts),
    }
}

// Five numbers, one a line; the index behind them. `main` lends 128 bytes, in which the longest text has room, here and below.
fn put_counts(out: &mut [u8], counts: Counts) -> usize
    requires { length out.old ≡ 128 }
    ensures upper_bound { result ≤ length out.new }
    ensures wrote { Wrote out.old 0 (lines_of counts) result out.new }
{
    let read = put_number(out, 0, counts.read as usize, b'\n');
    let same = put_number(out, read, counts.same as usize, b'\n');
    let different = put_number(out, same, counts.different as usize, b'\n');
    let one = put_number(out, different, counts.one as usize, b'\n');
    put_number(out, one, counts.both as usize, b'\n')
}

// A refusal's line.
fn put_refusal(out: &mut [u8], refusal: Refusal) -> usize
    requires { length out.old ≡ 128 }
    ensures upper_bound { result ≤ length out.new }
    ensures wrote { Wrote out.old 0 (refusal_line (reason_number refusal.reason) refusal.place) result out.new }
{
    let none = [0u32; 1];
    put_answer(out, 0, Err(refusal), &none, &none)
}

// The text of an input that came to this; how many bytes it has. `main` lends the buffer.
pub fn finish(run: Run, list: &ListBuffer, out: &mut [u8]) -> usize
    requires { length out.old ≡ 128 }
    ensures within { Within result out.new }
    ensures wrote { Wrote out.old 0 (end_text (state_of run list.now)) result out.new }
{
    let ending = ended(run, list);
    match ending {
        Err(refusal) => put_refusal(out, refusal),
        Ok(counts) => put_counts(out, counts),
    }
}
