// Whether numbers are an alphabet: 1 to 8 different numbers that operators can have. Leans on the fields of words; specs/ShortLists has
// the definition.
ghost use Rattle.std.specs.Prelude.{◌≡◌};
ghost use Rattle.shortlists.specs.ShortLists.{different, each_legal, is_alphabet};

use words::fields;

// The most letters of an alphabet.
const MOST_LETTERS: usize = 8;

// Whether no letter occurs twice.
fn all_different(alphabet: &[u32]) -> bool
    ensures { result ≡ different alphabet.now }
{
    for i in 0..alphabet.len() {
        if alphabet[i + 1..].contains(&alphabet[i]) {
            return false;
        }
    }
    true
}

// Whether each letter is a number that an operator can have.
fn all_legal(alphabet: &[u32]) -> bool
    ensures { result ≡ each_legal alphabet.now }
{
    alphabet.iter().all(|letter| fields::is_operator(*letter))
}

// Whether the numbers are an alphabet. Their count is looked at first, so that a long slice takes no time.
pub fn is_alphabet(alphabet: &[u32]) -> bool
    ensures { result ≡ is_alphabet alphabet.now }
{
    if alphabet.is_empty() || MOST_LETTERS < alphabet.len() {
        return false;
    }
    all_different(alphabet) && all_legal(alphabet)
}
