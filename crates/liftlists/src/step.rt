// A word of the file. Leans on close (the end of a list), put and words (a kind); specs/Steps has the definitions.
ghost use Rattle.std.specs.Prelude.{◌≡◌, List, [], ℕ, ◌+◌, ◌^◌, ◌≤◌, ◌<◌, length};
ghost use Rattle.molang.specs.Words.{kind_of};
ghost use Rattle.text.specs.Text.{Wrote};
ghost use Rattle.liftlists.specs.LiftedFile.{bytes_of, lifted_words};
ghost use Rattle.liftlists.specs.Steps.{ListHeld, Fine, held_in, Took};

use crate::close::close;
use crate::lent::{ListBuffer, OutBuffer, Scratch};
use crate::put::{put_list, put_word};
use words::fields;

// A version word is below this.
const PAST_VERSIONS: u32 = 65_536;

// The most words of a list that is kept.
const MOST_WORDS: usize = 20_480;

// What the words so far leave open: nothing, so that words go through as they come; or a list, by its opener and how many words it has,
// which lie in front of a buffer.
#[derive(Clone, Copy)]
pub enum Stage {
    Passing,
    InList(u32, usize),
}

// The stage after a word, and the index behind what was laid.
#[derive(Clone, Copy)]
pub struct Step {
    pub stage: Stage,
    pub at: usize,
}

// A word while no list is kept: a version opens one, and any other goes through.
fn pass(w: u32, out: &mut OutBuffer, at: usize) -> Step
    requires { at + 4 ≤ 262144 }
    ensures { (to : ℕ) (list : List ℕ) → Took to [] w 4 out.old at result list out.new }
{
    if w < PAST_VERSIONS {
        return Step {
            stage: Stage::InList(w, 0),
            at,
        };
    }
    let end = put_word(out, at, w);
    Step {
        stage: Stage::Passing,
        at: end,
    }
}

// A word of the list that is kept. One word too many, and the list goes through.
fn keep(
    opener: u32,
    n: usize,
    list: &mut ListBuffer,
    w: u32,
    out: &mut OutBuffer,
    at: usize,
) -> Step
    requires list_len { (at + 81928 ≤ 262144) × (kind_of w ≡ 0 → ⊥) }
    requires list_held { ListHeld opener n list.old }
    ensures { (to : ℕ) → Took to (held_in (Stage.InList opener n) list.old) w 81928 out.old at result
        list.new out.new }
{
    if n < MOST_WORDS {
        list[n] = w;
        return Step {
            stage: Stage::InList(opener, n + 1),
            at,
        };
    }
    let listed = put_list(out, at, opener, list);
    let end = put_word(out, listed, w);
    Step {
        stage: Stage::Passing,
        at: end,
    }
}

// A word.
pub(crate) fn take_word(
    stage: Stage,
    list: &mut ListBuffer,
    w: u32,
    to: u32,
    out: &mut OutBuffer,
    at: usize,
    scratch: &mut Scratch,
) -> Step
    requires list_len { (to < 2 ^ 16) × (at + 81928 ≤ 262144) }
    requires fine { Fine stage list.old }
    ensures { Took to (held_in stage list.old) w 81928 out.old at result list.new out.new }
{
    match stage {
        Stage::Passing => pass(w, out, at),
        Stage::InList(opener, n) => {
            if fields::kind(w) != 0 {
                return keep(opener, n, list, w, out, at);
            }
            let end = close(&list[..n], opener, to, out, at, scratch);
            pass(w, out, end)
        }
    }
}

// The end of the input ends the list that is kept.
pub(crate) fn close_last(
    stage: Stage,
    list: &ListBuffer,
    to: u32,
    out: &mut OutBuffer,
    at: usize,
    scratch: &mut Scratch,
) -> usize
    requires list_len { (to < 2 ^ 16) × (at + 81924 ≤ 262144) }
    requires fine { Fine stage list.now }
    ensures upper_bound { result ≤ at + 81924 }
    ensures wrote { Wrote out.old at (bytes_of (lifted_words to (held_in stage list.now))) result out.new }
{
    match stage {
        Stage::Passing => at,
        Stage::InList(opener, n) => { close(&list[..n], opener, to, out, at, scratch) }
    }
}
