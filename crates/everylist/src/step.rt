// The steps of the program: the text at a position, or that there is none. Leans on shortlists (the list at a position), own (its reading),
// listing and text (its text), parse (the answer), derived (the version) and words; specs/Steps has the definition.
ghost use Rattle.std.specs.Prelude.{◌≡◌, true, [], ◌∷◌, ◌+◌, ◌*◌, ◌≤◌, length};
ghost use Rattle.std.proofs.Math.Option.{none, some};
ghost use Rattle.molang.specs.Words.{row};
ghost use Rattle.words.specs.Refusals.{reason_number};
ghost use Rattle.text.specs.Text.{Wrote, decimal, space};
ghost use Rattle.everylist.specs.EveryList.{head_text};
ghost use Rattle.everylist.specs.Steps.{Stepped, kept, kept_fault, text_at, text_by, letters_in, words_text};

use crate::kept::Kept;
use derived::version_of;
use listing::rows::put_answer;
use own::read_list;
use shortlists::list_at;
use text::{put_bytes, put_decimal};
use words::fields;
use words::fields::wide;
use words::refusals::Reason;

// A space and a number. `put_text` has room for the longest line, here and below.
fn put_spaced(out: &mut [u8], at: usize, n: usize) -> usize
    requires { at + 21 ≤ length out.old }
    ensures { Wrote out.old at (space ∷ decimal n) result out.new }
{
    let end = put_bytes(out, at, b" ");
    put_decimal(out, end, n)
}

// The line `list` with the operators of a list's first tokens.
fn put_head(out: &mut [u8], list: &[u32], tokens: usize) -> usize
    requires { (5 + 21 * tokens ≤ length out.old) × (5 * tokens ≤ length list.now) }
    ensures { Wrote out.old 0 (head_text (letters_in tokens list.now)) result out.new }
{
    let mut end = put_bytes(out, 0, b"list");
    for i in 0..tokens {
        let operator = fields::operator(list[fields::TOKEN_WORDS * i]);
        end = put_spaced(out, end, wide(operator));
    }
    put_bytes(out, end, b"\n")
}

// The text of a list of at most six tokens: its line, and the answer to it at the version. `print` lends 2,048 bytes, in which the longest
// text has room.
fn put_text(out: &mut [u8], list: &[u32], tokens: usize, version: i16) -> usize
    requires { (length out.old ≡ 2048) × (length list.now ≡ 30) × (tokens ≤ 6) }
    ensures upper_bound { result ≤ length out.new }
    ensures wrote { Wrote out.old 0 (words_text version tokens list.now) result out.new }
{
    let end = put_head(out, list, tokens);
    let mut tree = [0u32; 126];
    let mut messages = [0u32; 16];
    let mut work = [0u32; 448];
    let words = fields::TOKEN_WORDS * tokens;
    let answered = read_list(&list[..words], &mut tree, &mut messages, &mut work, version);
    put_answer(out, end, answered, &tree, &messages)
}

// The refusal's line at the first position. What is kept besides does not matter.
fn put_refusal(out: &mut [u8], reason: Reason, position: u64) -> Option<usize>
    requires { length out.old ≡ 2048 }
    ensures { Stepped (text_by (some (row (reason_number reason) 0)) (kept 0 [] true) position) out.old result out.new }
{
    if position != 0 {
        return None;
    }
    let nothing = [0u32; 1];
    let end = put_answer(out, 0, Err(reason.at(0)), &nothing, &nothing);
    Some(end)
}

// The text of the list at a position. `step_at` has seen that the input is not turned back.
fn put_list(out: &mut [u8], kept: &Kept, position: u64) -> Option<usize>
    requires { (length out.old ≡ 2048) × (kept_fault kept.now ≡ none) }
    ensures { Stepped (text_by none kept.now position) out.old result out.new }
{
    let n = kept.count();
    match list_at(&kept.words[2..n], u64::from(kept.words[1]), position) {
        Ok(short) => {
            let version = version_of(kept.words[0]);
            let end = put_text(out, &short.words, short.tokens, version);
            Some(end)
        }
        Err(_) => None,
    }
}

// The text at a position, for an input of which this is kept. `print` lends the bytes.
pub fn step_at(out: &mut [u8], kept: &Kept, position: u64) -> Option<usize>
    requires { length out.old ≡ 2048 }
    ensures { Stepped (text_at kept.now position) out.old result out.new }
{
    match kept.fault() {
        Err(reason) => put_refusal(out, reason, position),
        Ok(()) => put_list(out, kept, position),
    }
}
