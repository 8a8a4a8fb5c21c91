// The five words of a token and the seven of a node, read from a buffer and laid into one. The callers go through their words by whole
// tokens or nodes, and have room for what they lay. Leans on the fields; specs/Tokens says which words they are.
ghost use Rattle.std.specs.Prelude.{◌≡◌, ◌+◌, ◌≤◌, length};
ghost use Rattle.words.specs.Records.{laid_at};
ghost use Rattle.words.specs.Tokens.{token_words_at, bare_words, five_words, node_length, node_words};

use crate::fields;

// A token's words.
#[derive(Clone, Copy)]
pub struct TokenWords {
    pub operator: u32,
    pub start: u32,
    pub end: u32,
    pub upper: u32,
    pub lower: u32,
}

impl TokenWords {
    // The words of the token that stands in the buffer from `at` on.
    pub fn at(words: &[u32], at: usize) -> Self
        requires { at + 5 ≤ length words.now }
        ensures { result ≡ token_words_at words.now at }
    {
        Self {
            operator: words[at],
            start: words[at + fields::START_FIELD],
            end: words[at + fields::END_FIELD],
            upper: words[at + fields::UPPER_FIELD],
            lower: words[at + fields::LOWER_FIELD],
        }
    }

    // The words of a token of op with the same span, and with payload 0.
    pub fn bare(self, op: u32) -> Self
        ensures { result ≡ bare_words op self }
    {
        Self {
            operator: fields::operator_word(op),
            start: self.start,
            end: self.end,
            upper: fields::upper_word(0),
            lower: fields::lower_word(0),
        }
    }

    // Writes the words to the buffer from `at` on, one by one: with `copy_from_slice` of the five in an array, 10^8 nodes took 0.43 s in place
    // of 0.34 s.
    pub fn lay(self, words: &mut [u32], at: usize)
        requires { at + 5 ≤ length words.old }
        ensures { words.new ≡ laid_at at (five_words self) words.old }
    {
        words[at] = self.operator;
        words[at + fields::START_FIELD] = self.start;
        words[at + fields::END_FIELD] = self.end;
        words[at + fields::UPPER_FIELD] = self.upper;
        words[at + fields::LOWER_FIELD] = self.lower;
    }

    // Writes the words of a node of this token to the buffer from `at` on: so many children, and the word of where it closes.
    pub fn lay_node(self, words: &mut [u32], at: usize, children: u32, close: u32)
        requires { at + node_length ≤ length words.old }
        ensures { words.new ≡ laid_at at (node_words self children close) words.old }
    {
        self.lay(words, at);
        words[at + fields::COUNT_FIELD] = fields::children_word(children);
        words[at + fields::CLOSE_FIELD] = close;
    }
}
