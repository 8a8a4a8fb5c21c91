// When an ask or a commit is turned back before the new list is looked at: answers 15, 2, 21, 22 and 23, each at place 0. Leans on words;
// specs/Held has the rows.
ghost use Rattle.std.specs.Prelude.{◌≡◌, []};
ghost use Rattle.words.specs.Checks.{refusal_of};
ghost use Rattle.held.specs.Held.{seen_row, count_row};
ghost use Rattle.held.specs.Answers.{state};
ghost use Rattle.held.specs.Editing.{claim_fault, edit_fault, ask_fault, commit_fault};

use crate::{HELD_WORDS, Held, LAST_COUNT};
use words::fields::MOST_TOKENS;
use words::refusals::{Reason, Refusal};

// Answers 15 and 2, by the slice and by what the state claims.
fn claim_fault(held: Held, words: &[u32]) -> Result<(), Refusal>
    ensures { refusal_of result ≡ claim_fault (state held words.now) }
{
    if words.len() < HELD_WORDS {
        return Err(Reason::ShortList.at(0));
    }
    if MOST_TOKENS < held.tokens {
        return Err(Reason::TooManyTokens.at(0));
    }
    Ok(())
}

// Answer 22.
fn edit_fault(held: Held, place: usize, removed: usize) -> Result<(), Refusal>
    ensures { refusal_of result ≡ edit_fault held place removed }
{
    if held.tokens < place {
        return Err(Reason::PastTheEnd.at(0));
    }
    if held.tokens - place < removed {
        return Err(Reason::PastTheEnd.at(0));
    }
    Ok(())
}

// Answer 21.
fn seen_fault(held: Held, seen: u32) -> Result<(), Refusal>
    ensures { refusal_of result ≡ seen_row (state held []) seen }
{
    if seen != held.edits {
        return Err(Reason::OtherEditCount.at(0));
    }
    Ok(())
}

// Answer 23.
pub fn count_fault(held: Held) -> Result<(), Refusal>
    ensures { refusal_of result ≡ count_row held }
{
    if LAST_COUNT <= held.edits {
        return Err(Reason::LastEdit.at(0));
    }
    Ok(())
}

// Answers 15, 2 and 22.
pub fn ask_fault(held: Held, words: &[u32], place: usize, removed: usize) -> Result<(), Refusal>
    ensures { refusal_of result ≡ ask_fault (state held words.now) place removed }
{
    claim_fault(held, words)?;
    edit_fault(held, place, removed)
}

// Answers 15, 2, 21, 22 and 23.
pub fn commit_fault(
    held: Held,
    seen: u32,
    words: &[u32],
    place: usize,
    removed: usize,
) -> Result<(), Refusal>
    ensures { refusal_of result ≡ commit_fault (state held words.now) seen place removed }
{
    claim_fault(held, words)?;
    seen_fault(held, seen)?;
    edit_fault(held, place, removed)?;
    count_fault(held)
}
