// What an input asks: where the program turns it back, else a list to read. Leans on derived (the version), own (the reading),
// parse (its answer) and words; specs/Listing has the definition.
ghost use Rattle.std.specs.Prelude.{◌≡◌, length};
ghost use Rattle.molang.specs.Parse.{told, tree_in, messages_in};
ghost use Rattle.parse.specs.Answers.{told_of};
ghost use Rattle.treelist.specs.Listing.{turned_back, refusal_of, Counted, fault_of, answer_of};

use derived::version_of;
use own::read_list;
use parse::Answer;
use words::refusals::{Reason, Refusal};

// The most words of a list.
const MOST_WORDS: usize = 640;

// What an input of so many bytes with this first word asks: a list of so many words, if it is not turned back. Where it has no first word,
// `first` is not looked at.
fn asked(bytes: usize, first: u32) -> Result<usize, Refusal>
    ensures result_value { refusal_of result ≡ turned_back bytes first }
    ensures counted { Counted result bytes first }
{
    if bytes % 4 != 0 {
        return Err(Reason::ListNotWhole.at(0));
    }
    if bytes == 0 {
        return Err(Reason::WrongKind.at(0));
    }
    if 65_535 < first {
        return Err(Reason::WrongKind.at(0));
    }
    let words = bytes / 4 - 1;
    if words % 5 != 0 {
        return Err(Reason::ListNotWhole.at(0));
    }
    if MOST_WORDS < words {
        return Err(Reason::TooManyTokens.at(0));
    }
    Ok(words)
}

// The answer to an input of so many bytes, whose front is these words. A tree or messages are left in their buffers, which are of the
// lengths that `listing` gives them.
pub fn answer(
    words: &[u32],
    bytes: usize,
    tree: &mut [u32],
    messages: &mut [u32],
) -> Result<Answer, Refusal>
    requires { (length words.now ≡ 641) × (length tree.old ≡ 2688) × (length messages.old ≡ 16) }
    ensures result_value { told_of result ≡ told (fault_of bytes words.now) (answer_of bytes words.now) }
    ensures tree_after { tree.new ≡ tree_in (fault_of bytes words.now)
        (answer_of bytes words.now) tree.old }
    ensures messages_after { messages.new ≡ messages_in (fault_of bytes words.now)
        (answer_of bytes words.now) messages.old }
{
    let first = words[0];
    let n = asked(bytes, first)?;
    let mut work = [0u32; 8256];
    let version = version_of(first);
    read_list(&words[1..n + 1], tree, messages, &mut work, version)
}
