// A word of the input, and a byte of it. Leans on close (the end of a list), derived (a version) and words (a kind); specs/Running has the
// definitions.
ghost use Rattle.std.specs.Prelude.{Ok, ◌≡◌, List, ℕ, length};
ghost use Rattle.molang.specs.Words.{kind_of};
ghost use Rattle.liftcount.specs.Running.{refused_row, state_of, version_taken, word_taken, byte_taken};
ghost use Rattle.liftcount.specs.Steps.{at_stage, after_word, opened_after};

use crate::close::{close, one_more};
use crate::run::{Counts, ListBuffer, MessageBuffer, Run, Stage, TreeBuffer, WorkBuffer};
use derived::version_of;
use words::fields;
use words::refusals::{Reason, Refusal};

// A version word is below this.
const PAST_VERSIONS: u32 = 65_536;

// What is held after a whole word.
fn after_word(stage: Result<Stage, Refusal>, counts: Counts) -> Run
    ensures { (list : List ℕ) → state_of result list ≡ after_word (at_stage (refused_row stage) counts list) }
{
    Run {
        held: 0,
        partial: 0,
        stage,
        counts,
    }
}

// The version that a version word says.
fn version_in(w: u32) -> Result<i16, Refusal>
    ensures { refused_row result ≡ version_taken w }
{
    if w < PAST_VERSIONS {
        return Ok(version_of(w));
    }
    Err(Reason::WrongKind.at(0))
}

// Where the first word leads.
fn after_first(w: u32) -> Result<Stage, Refusal>
    ensures { (counts : Counts) (list : List ℕ) → at_stage (refused_row result) counts list ≡ word_taken (Ok Stage.First) counts list w }
{
    let version = version_in(w)?;
    Ok(Stage::Second(version))
}

// Where the second leads.
fn after_second(from: i16, w: u32) -> Result<Stage, Refusal>
    ensures { (counts : Counts) (list : List ℕ) → at_stage (refused_row result) counts list ≡ word_taken (Ok (Stage.Second from)) counts list w }
{
    let to = version_in(w)?;
    Ok(Stage::Opener(from, to))
}

// Where the third leads.
fn after_third(from: i16, to: i16, w: u32) -> Result<Stage, Refusal>
    ensures { (counts : Counts) (list : List ℕ) → at_stage (refused_row result) counts list ≡ word_taken (Ok (Stage.Opener from to)) counts list w }
{
    if fields::kind(w) == 0 {
        return Ok(Stage::InList(from, to, 0));
    }
    Err(Reason::WrongKind.at(0))
}

// A word of the open list, which has so many words. Past the buffer only their count is kept.
fn store(from: i16, to: i16, words: usize, counts: Counts, list: &mut ListBuffer, w: u32) -> Run
    requires { kind_of w ≡ 0 → ⊥ }
    ensures { state_of result list.new ≡ after_word (word_taken (Ok (Stage.InList from to words)) counts list.old w) }
{
    let n = one_more(words as u64) as usize;
    let run = after_word(Ok(Stage::InList(from, to, n)), counts);
    if words < list.len() {
        list[words] = w;
    }
    run
}

// How the next list opens, once the one before it has ended.
fn reopen(ending: Result<Counts, Refusal>, from: i16, to: i16, counts: Counts) -> Run
    ensures { (list : List ℕ) → state_of result list ≡ after_word (opened_after (refused_row ending) from to counts list) }
{
    match ending {
        Err(refusal) => after_word(Err(refusal), counts),
        Ok(next) => after_word(Ok(Stage::InList(from, to, 0)), next),
    }
}

// A word while a list is open: one of its words, or the opener of the next.
fn take_in_list(
    from: i16,
    to: i16,
    words: usize,
    counts: Counts,
    list: &mut ListBuffer,
    w: u32,
    tree: &mut TreeBuffer,
    again: &mut TreeBuffer,
    messages: &mut MessageBuffer,
    work: &mut WorkBuffer,
) -> Run
    ensures { state_of result list.new ≡ after_word (word_taken (Ok (Stage.InList from to words)) counts list.old w) }
{
    if fields::kind(w) != 0 {
        return store(from, to, words, counts, list, w);
    }
    let ending = close(list, words, from, to, counts, tree, again, messages, work);
    reopen(ending, from, to, counts)
}

// A word where no word was refused.
fn taken(
    stage: Stage,
    counts: Counts,
    list: &mut ListBuffer,
    w: u32,
    tree: &mut TreeBuffer,
    again: &mut TreeBuffer,
    messages: &mut MessageBuffer,
    work: &mut WorkBuffer,
) -> Run
    ensures { state_of result list.new ≡ after_word (word_taken (Ok stage) counts list.old w) }
{
    match stage {
        Stage::First => after_word(after_first(w), counts),
        Stage::Second(from) => after_word(after_second(from, w), counts),
        Stage::Opener(from, to) => after_word(after_third(from, to, w), counts),
        Stage::InList(from, to, words) => {
            take_in_list(
                from, to, words, counts, list, w, tree, again, messages, work,
            )
        }
    }
}

// A word.
pub fn take_word(
    run: Run,
    list: &mut ListBuffer,
    w: u32,
    tree: &mut TreeBuffer,
    again: &mut TreeBuffer,
    messages: &mut MessageBuffer,
    work: &mut WorkBuffer,
) -> Run
    ensures { state_of result list.new ≡ after_word (word_taken (refused_row run.stage) run.counts list.old w) }
{
    let counts = run.counts;
    match run.stage {
        Ok(stage) => taken(stage, counts, list, w, tree, again, messages, work),
        Err(refusal) => after_word(Err(refusal), counts),
    }
}

// A byte, which enters at the top of the word that has begun; with the fourth the word is taken.
pub fn take_byte(
    run: Run,
    list: &mut ListBuffer,
    b: u8,
    tree: &mut TreeBuffer,
    again: &mut TreeBuffer,
    messages: &mut MessageBuffer,
    work: &mut WorkBuffer,
) -> Run
    ensures { state_of result list.new ≡ byte_taken (state_of run list.old) b }
{
    let held = run.held;
    let w = run.partial / 256 + (b as u32) * 16_777_216;
    if held < 3 {
        let stage = run.stage;
        let counts = run.counts;
        return Run {
            held: held + 1,
            partial: w,
            stage,
            counts,
        };
    }
    take_word(run, list, w, tree, again, messages, work)
}
