// A token as a slot holds it, five words: the operator, the span's start and end, the payload value in one word, and where it closes.
// The value's two halves share a word, so that a slot stays of eight words. `slots::token_of` and `slots::set_leaf` call `at` and `lay` for
// a slot within the buffer. Leans on words (fields and tokens).
ghost use Rattle.std.specs.Prelude.{◌≡◌, ◌+◌, ◌≤◌, length};
ghost use Rattle.words.specs.Records.{laid_at};
ghost use Rattle.nodes.specs.Stored.{stored_of, stored_at, bare_stored, stored_list, token_of_stored};

use words::fields;
use words::tokens::TokenWords;

// Which of a slot's words is the value, and which says where the token closes.
pub const VALUE_FIELD: usize = 3;

pub const CLOSE_FIELD: usize = 4;

// A token's words in the store. Its `at`, `bare` and `lay` are those of `TokenWords` but for the last two words, of other names and meanings: one
// generic form would name all five by their places, and be no plainer.
#[derive(Clone, Copy)]
pub struct StoredWords {
    pub operator: u32,
    pub start: u32,
    pub end: u32,
    pub value: u32,
    pub close: u32,
}

// The words of a token of a list: it closes at its end.
impl From<TokenWords> for StoredWords {
    ghost from_gives = { λ token stored. stored ≡ stored_of token };

    fn from(token: TokenWords) -> Self {
        Self {
            operator: token.operator,
            start: token.start,
            end: token.end,
            value: fields::value(token.upper, token.lower),
            close: fields::close_word(token.end),
        }
    }
}

// The five words of a list's token, the value in two halves again.
impl From<StoredWords> for TokenWords {
    ghost from_gives = { λ stored token. token ≡ token_of_stored stored };

    fn from(stored: StoredWords) -> Self {
        Self {
            operator: stored.operator,
            start: stored.start,
            end: stored.end,
            upper: fields::upper_word(stored.value),
            lower: fields::lower_word(stored.value),
        }
    }
}

impl StoredWords {
    // The words that stand in the buffer from `at` on.
    pub fn at(words: &[u32], at: usize) -> Self
        requires { at + 5 ≤ length words.now }
        ensures { result ≡ stored_at words.now at }
    {
        Self {
            operator: words[at],
            start: words[at + fields::START_FIELD],
            end: words[at + fields::END_FIELD],
            value: words[at + VALUE_FIELD],
            close: words[at + CLOSE_FIELD],
        }
    }

    // The words of a token of op with the same span, and with payload 0. It closes at its own end, also if this one is a section.
    pub fn bare(self, op: u32) -> Self
        ensures { result ≡ bare_stored op self }
    {
        Self {
            operator: fields::operator_word(op),
            start: self.start,
            end: self.end,
            value: 0,
            close: fields::close_word(self.end),
        }
    }

    // Writes the words to the buffer from `at` on.
    pub fn lay(self, words: &mut [u32], at: usize)
        requires { at + 5 ≤ length words.old }
        ensures { words.new ≡ laid_at at (stored_list self) words.old }
    {
        words[at] = self.operator;
        words[at + fields::START_FIELD] = self.start;
        words[at + fields::END_FIELD] = self.end;
        words[at + VALUE_FIELD] = self.value;
        words[at + CLOSE_FIELD] = self.close;
    }
}
