// Whether a call is answered as its line says: what is told, and what the lent buffers hold after it. Leans on the crate's root (the words
// of a line) and molang (the marks); specs/Answers says what a line means by its numbers.
ghost use Rattle.std.specs.Prelude.{◌≡◌};
ghost use Rattle.table.specs.Answers.{message_count, said_number, is_count, is_refusal, kept, is_left};

use crate::{MOST, at, holds, items, next_mark};
use molang::lines::{MESSAGE, REFUSED, TREE, ZEROS};
use words::fields::wide;

// How many messages the line says: no call has a third.
fn message_count(said: &[u32]) -> usize
    ensures { result ≡ message_count said.now }
{
    if next_mark(said, 1, MOST) < said.len() {
        return 2;
    }
    1
}

// How many nodes, messages or tokens the line says.
fn count(said: &[u32]) -> usize
    ensures { result ≡ said_number said.now }
{
    if at(said, 0) == MESSAGE {
        return message_count(said);
    }
    items(said)
}

// Whether the line says this mark and this many.
pub fn is_count(mark: u32, n: usize, said: &[u32]) -> bool
    ensures { result ≡ is_count mark n said.now }
{
    mark == at(said, 0) && n == count(said)
}

// Whether the line says this refusal.
pub fn is_refusal(number: u32, place: usize, said: &[u32]) -> bool
    ensures { result ≡ is_refusal number place said.now }
{
    if at(said, 0) != REFUSED {
        return false;
    }
    number == at(said, 1) && place == wide(at(said, 2))
}

// What a call leaves in each word of a work buffer of ones: a refusal leaves it as it was.
fn kept_word(said: &[u32]) -> u32
    ensures { result ≡ kept said.now }
{
    if at(said, 0) == REFUSED {
        return 1;
    }
    0
}

// Whether a parse call left what the line says, the work buffer having been of ones and the others of zeros.
pub fn is_left(tree: &[u32], messages: &[u32], work: &[u32], said: &[u32]) -> bool
    ensures { result ≡ is_left tree.now messages.now work.now said.now }
{
    if !holds(tree, TREE, said, 0) {
        return false;
    }
    if !holds(messages, MESSAGE, said, 0) {
        return false;
    }
    holds(work, ZEROS, said, kept_word(said))
}
