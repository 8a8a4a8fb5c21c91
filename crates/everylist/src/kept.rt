// Where an input is turned back, by what the program keeps of it. Leans on shortlists (answers 19 and 20), listing (the words of bytes) and
// words; specs/Steps has the definition.
ghost use Rattle.std.specs.Prelude.{◌≡◌, ◌/◌, min};
ghost use Rattle.listing.specs.Lists.{words_in};
ghost use Rattle.everylist.specs.EveryList.{all_numbers};
ghost use Rattle.everylist.specs.Steps.{kept_fault, fault_of};

use listing::bytes::word_of;
use shortlists::count;
use words::refusals::Reason;

// The most words that are kept, and the greatest number of sixteen bits.
const MOST_WORDS: usize = 11;

const MOST_NUMBER: u32 = 65_535;

// What is kept of an input: how many bytes it has, its first eleven words over zeros, and whether no word behind them is faulty. A version,
// a length and eight letters are ten words; with one more the alphabet is too long, whatever the letter.
#[derive(Clone, Copy)]
pub struct Kept {
    pub bytes: usize,
    pub words: [u32; 11],
    pub fine: bool,
}

// Whether each word is a number of sixteen bits.
fn all_numbers(words: &[u32]) -> bool
    ensures { result ≡ all_numbers words.now }
{
    words.iter().all(|word| *word <= MOST_NUMBER)
}

// Whether each word of bytes is one. Bytes behind the last whole word are not looked at.
pub fn fine_words(chunk: &[u8]) -> bool
    ensures { result ≡ all_numbers (words_in chunk.now) }
{
    for i in 0..chunk.len() / 4 {
        let at = 4 * i;
        let word = word_of(chunk[at], chunk[at + 1], chunk[at + 2], chunk[at + 3]);
        if MOST_NUMBER < word {
            return false;
        }
    }
    true
}

impl Kept {
    // How many words are kept of the input's.
    pub fn count(&self) -> usize
        ensures { result ≡ min (self.now.bytes / 4) 11 }
    {
        (self.bytes / 4).min(MOST_WORDS)
    }

    // Where the input is turned back.
    pub fn fault(&self) -> Result<(), Reason>
        ensures { fault_of result ≡ kept_fault self.now }
    {
        if self.bytes % 4 != 0 {
            return Err(Reason::ListNotWhole);
        }
        if self.bytes < 8 {
            return Err(Reason::WrongKind);
        }
        let n = self.count();
        if !all_numbers(&self.words[..n]) {
            return Err(Reason::WrongKind);
        }
        if !self.fine {
            return Err(Reason::WrongKind);
        }
        count(&self.words[2..n], u64::from(self.words[1]))?;
        Ok(())
    }
}
