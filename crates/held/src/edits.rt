// The held list with an edit made: its words in an array of their own, what they read as, and the held numbers after it. Leans on own (the reading), parse (its
// answer) and words; specs/Held has the edit.
ghost use Rattle.std.specs.Prelude.{◌≡◌, length, OnOk};
ghost use Rattle.own.specs.Own.{own_call};
ghost use Rattle.molang.specs.Parse.{in_front};
ghost use Rattle.parse.specs.Answers.{HasParsed};
ghost use Rattle.held.specs.Held.{edited};
ghost use Rattle.held.specs.Answers.{edit};
ghost use Rattle.held.specs.Editing.{CanSplice, CanEdit, CanCount, counted};

use crate::Held;
use crate::copying::copy_words;
use own::read_own;
use parse::Answer;
use words::fields;
use words::refusals::{Reason, Refusal};

// Lays the list with the edit made in front of `new`; how many words it has. `read_edited` has seen that there is room.
fn splice(new: &mut [u32], list: &[u32], place: usize, removed: usize, put: &[u32]) -> usize
    requires { CanSplice new.old list.now (edit place removed put.now) }
    ensures value { result ≡ length (edited (edit place removed put.now) list.now) }
    ensures after { new.new ≡ in_front (edited (edit place removed put.now) list.now) new.old }
{
    let front = fields::TOKEN_WORDS * place;
    let back = fields::TOKEN_WORDS * (place + removed);
    let behind = front + put.len();
    copy_words(&list[..front], new, 0);
    copy_words(put, new, front);
    copy_words(&list[back..], new, behind);
    behind + (list.len() - back)
}

// Reads the held list with an edit made, and leaves it in front of `new` if it is accepted. That the new list has whole tokens and no
// more than 4,096 is seen first, by the lengths: a longer one has no room. Rows 2 and 22 have seen that the edit lies within a list of at
// most 4,096 tokens, and the callers lend an array for that many.
pub fn read_edited(
    new: &mut [u32],
    list: &[u32],
    place: usize,
    removed: usize,
    put: &[u32],
    tree: &mut [u32],
    messages: &mut [u32],
    work: &mut [u32],
    version: i16,
    limit: u32,
) -> Result<Answer, Refusal>
    requires { CanEdit new.old list.now (edit place removed put.now) }
    ensures has_parsed { HasParsed
        (own_call (edited (edit place removed put.now) list.now)
        tree.old messages.old work.old version limit)
        result tree.new messages.new work.new }
    ensures after { OnOk result (new.new ≡ in_front (edited (edit place removed put.now) list.now) new.old) }
{
    if put.len() % fields::TOKEN_WORDS != 0 {
        return Err(Reason::ListNotWhole.at(0));
    }
    let kept = list.len() / fields::TOKEN_WORDS - removed;
    if fields::MOST_TOKENS - kept < put.len() / fields::TOKEN_WORDS {
        return Err(Reason::TooManyTokens.at(0));
    }
    let n = splice(new, list, place, removed, put);
    read_own(&new[..n], tree, messages, work, version, limit)
}

// The held numbers with an edit made. `commit_edit` calls it if none of its own rows has answered.
pub fn with_edit(held: Held, removed: usize, put: &[u32]) -> Held
    requires { CanCount held removed }
    ensures { result ≡ counted held removed (length put.now) }
{
    Held {
        tokens: held.tokens - removed + put.len() / fields::TOKEN_WORDS,
        version: held.version,
        edits: held.edits + 1,
    }
}
