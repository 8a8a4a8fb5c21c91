// The list at a position: first how many letters it has, then which they are, digit by digit from the left. Leans on words; specs/Digits
// says what is asked and found.
ghost use Rattle.std.specs.Prelude.{◌≡◌, true, [], ◌∷◌, ◌<◌, length, replicate};
ghost use Rattle.molang.specs.Lines.{tokens_from};
ghost use Rattle.molang.specs.Operator.{is_operator};
ghost use Rattle.molang.specs.Parse.{in_front};
ghost use Rattle.molang.specs.Words.{list_words};
ghost use Rattle.words.specs.Tokens.{five_words};
ghost use Rattle.shortlists.specs.Digits.{CanFind, Found, CanList};
ghost use Rattle.shortlists.specs.ShortLists.{list_at};

use crate::Short;
use words::fields;
use words::tokens::TokenWords;

// Where a list stands: among those of its length, of which there are `size`, behind `left` of them.
#[derive(Clone, Copy)]
struct Standing {
    length: usize,
    size: u64,
    left: u64,
}

// The length of the list at a position, over so many letters: the shorter lists are taken away, length by length.
fn find_length(letters: u64, position: u64) -> Standing
    requires { CanFind letters position }
    ensures { Found letters position result }
{
    let mut length = 0usize;
    let mut size = 1u64;
    let mut left = position;
    // How many turns there are is what is looked for, so no range counts them.
    while size <= left {
        left -= size;
        size *= letters;
        length += 1;
    }
    Standing { length, size, left }
}

// The words of the i-th letter's token: its span is i to i + 1, and its payload is 0. The caller takes the letter from an alphabet.
fn token_of(letter: u32, i: u32) -> TokenWords
    requires { (is_operator letter ≡ true) × (i < 6) }
    ensures { five_words result ≡ list_words (tokens_from i (letter ∷ [])) }
{
    TokenWords {
        operator: fields::number_word(letter),
        start: fields::start_word(i),
        end: fields::end_word(i + 1),
        upper: fields::upper_word(0),
        lower: fields::lower_word(0),
    }
}

// The list at a position. `list_at` has seen that there is one.
pub fn list_of(alphabet: &[u32], position: u64) -> Short
    requires { CanList alphabet.now position }
    ensures tokens_value { result.tokens ≡ length (list_at alphabet.now 6 position) }
    ensures words_value { result.words ≡ in_front (list_words (list_at alphabet.now 6 position)) (replicate 30 0) }
{
    let letters = alphabet.len() as u64;
    let standing = find_length(letters, position);
    let length = standing.length;
    let mut size = standing.size;
    let mut left = standing.left;
    let mut words = [0u32; 30];
    for i in 0..length {
        size /= letters;
        let digit = (left / size) as usize;
        left %= size;
        token_of(alphabet[digit], i as u32).lay(&mut words, i * fields::TOKEN_WORDS);
    }
    Short {
        tokens: length,
        words,
    }
}
