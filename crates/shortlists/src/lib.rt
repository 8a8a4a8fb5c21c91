// Every short list of an alphabet of operator numbers (document 02, card 9): how many there are up to a length, and the list at a position.
// The list is given back by value, so that nothing lent is left free. Leans on words; specs/ShortLists has the definition.
#![tactic(auto)]

mod alphabet;
mod digits;

ghost use Rattle.std.specs.Prelude.{◌≡◌, suc};
ghost use Rattle.shortlists.specs.Digits.{CanCount};
ghost use Rattle.shortlists.specs.ShortLists.{powers};
ghost use Rattle.shortlists.specs.Answers.{counted_of, count_told, listed_of, list_told, short_words, words_at};

use crate::alphabet::is_alphabet;
use crate::digits::list_of;
use words::refusals::Reason;

// The most letters of a list.
const LONGEST: u64 = 6;

// A list of so many tokens, and its words, in front of thirty.
#[derive(Clone, Copy)]
pub struct Short {
    pub tokens: usize,
    pub words: [u32; 30],
}

// How many lists of at most n letters there are over so many letters: 1, that many, its square and on. `count` has seen both numbers.
fn total(letters: u64, n: u64) -> u64
    requires { CanCount letters n }
    ensures { result ≡ powers letters (suc n) }
{
    let mut all = 1u64;
    let mut size = 1u64;
    for _ in 0..n {
        size *= letters;
        all += size;
    }
    all
}

// How many lists of the alphabet there are up to a length.
pub fn count(alphabet: &[u32], length: u64) -> Result<u64, Reason>
    ensures { counted_of result ≡ count_told alphabet.now length }
{
    if !is_alphabet(alphabet) {
        return Err(Reason::NoAlphabet);
    }
    if LONGEST < length {
        return Err(Reason::NoList);
    }
    Ok(total(alphabet.len() as u64, length))
}

// The list at a position among those of at most that length.
pub fn list_at(alphabet: &[u32], length: u64, position: u64) -> Result<Short, Reason>
    ensures listed_value { listed_of result ≡ list_told alphabet.now length position }
    ensures words_value { short_words result ≡ words_at alphabet.now length position }
{
    let lists = count(alphabet, length)?;
    if position < lists {
        Ok(list_of(alphabet, position))
    } else {
        Err(Reason::NoList)
    }
}
