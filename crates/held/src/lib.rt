// An open list (document 02, card 11): a list that is held while it is edited, the version rising under it. Three numbers by value and the
// words in a lent slice are held; an edit is asked, which changes nothing held, or committed. Leans on own (the reading), parse (its
// answer) and words; specs/Held has the definition, specs/Answers the promises.
#![tactic(auto)]

mod copying;
mod edits;
mod faults;

ghost use Rattle.std.specs.Prelude.{◌≡◌, IfErr};
ghost use Rattle.held.specs.Held.{count_row, with_version};
ghost use Rattle.held.specs.Answers.{adopt_of, adopt_outcome, lent, edit, state, HasOpened, HasAsked, HasCommitted};

use crate::copying::copy_words;
use crate::edits::{read_edited, with_edit};
use crate::faults::{ask_fault, commit_fault, count_fault};
use own::read_own;
use parse::Answer;
use words::fields;
use words::refusals::{Reason, Refusal};

// The words of the slice for a held list: those of 4,096 tokens.
pub const HELD_WORDS: usize = 20_480;

// The edit count that has no next one.
pub const LAST_COUNT: u32 = 4_294_967_295;

// The held numbers: how many tokens, the version, and the edit count.
#[derive(Clone, Copy)]
pub struct Held {
    pub tokens: usize,
    pub version: i16,
    pub edits: u32,
}

// What an opening or a commit comes to, unless it is turned back, which leaves all that is held as it was: what the list reads as, with the
// held numbers after it.
#[derive(Clone, Copy)]
pub struct Change {
    pub answer: Answer,
    pub held: Held,
}

// Opens a list that the parse entry accepts, and answers as that does.
pub fn open_list(
    list: &[u32],
    words: &mut [u32],
    tree: &mut [u32],
    messages: &mut [u32],
    work: &mut [u32],
    version: i16,
    limit: u32,
) -> Result<Change, Refusal>
    ensures { HasOpened words.old list.now
        (lent tree.old messages.old work.old limit) version
        result words.new tree.new messages.new work.new }
{
    if words.len() < HELD_WORDS {
        return Err(Reason::ShortList.at(0));
    }
    let answer = read_own(list, tree, messages, work, version, limit)?;
    copy_words(list, words, 0);
    let held = Held {
        tokens: list.len() / fields::TOKEN_WORDS,
        version,
        edits: 0,
    };
    Ok(Change { answer, held })
}

// What the held list would read as with an edit made; nothing held changes. The new list stands in an array of its own, 80 KiB of call
// stack, here and below: each lent buffer is the reading's.
pub fn ask_edit(
    held: Held,
    words: &[u32],
    place: usize,
    removed: usize,
    put: &[u32],
    tree: &mut [u32],
    messages: &mut [u32],
    work: &mut [u32],
    limit: u32,
) -> Result<Answer, Refusal>
    ensures { HasAsked (state held words.now) (edit place removed put.now)
        (lent tree.old messages.old work.old limit)
        result tree.new messages.new work.new }
{
    ask_fault(held, words, place, removed)?;
    let mut new = [0u32; HELD_WORDS];
    let end = fields::TOKEN_WORDS * held.tokens;
    read_edited(
        &mut new,
        &words[..end],
        place,
        removed,
        put,
        tree,
        messages,
        work,
        held.version,
        limit,
    )
}

// Makes an edit that was asked at the edit count seen.
pub fn commit_edit(
    held: Held,
    seen: u32,
    words: &mut [u32],
    place: usize,
    removed: usize,
    put: &[u32],
    tree: &mut [u32],
    messages: &mut [u32],
    work: &mut [u32],
    limit: u32,
) -> Result<Change, Refusal>
    ensures { HasCommitted (state held words.old) seen (edit place removed put.now)
        (lent tree.old messages.old work.old limit)
        result words.new tree.new messages.new work.new }
{
    commit_fault(held, seen, words, place, removed)?;
    let mut new = [0u32; HELD_WORDS];
    let end = fields::TOKEN_WORDS * held.tokens;
    let answer = read_edited(
        &mut new,
        &words[..end],
        place,
        removed,
        put,
        tree,
        messages,
        work,
        held.version,
        limit,
    )?;
    let next = with_edit(held, removed, put);
    let kept = fields::TOKEN_WORDS * next.tokens;
    copy_words(&new[..kept], words, 0);
    Ok(Change { answer, held: next })
}

// Adopts the rules of a version over the same words, reads nothing.
pub fn adopt_version(held: Held, version: i16) -> Result<Held, Refusal>
    ensures outcomes { adopt_of result ≡ adopt_outcome (count_row held) (with_version held version) }
    ensures place { IfErr result (λ r. r.place ≡ 0) }
{
    count_fault(held)?;
    Ok(Held {
        tokens: held.tokens,
        version,
        edits: held.edits + 1,
    })
}
