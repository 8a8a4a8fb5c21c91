// The exports of an open list: the held numbers cross one by one, those that a call can change as pointers. Leans on held;
// specs/Holding has the promises.
ghost use Rattle.std.specs.Prelude.{◌≡◌, ℕ};
ghost use Rattle.held.specs.Answers.{lent, edit, state, outcome_of};
ghost use Rattle.held.specs.Runs.{told_by, held_by};
ghost use Rattle.sorbrudder.specs.Numbers.{told_number, FitsTold};
ghost use Rattle.sorbrudder.specs.Holding.{held_of, HasOpenedTo, HasAskedTo, HasCommittedTo, HasAdoptedTo};

use crate::{parsed_number, refusal};
use held::{Change, Held, adopt_version, ask_edit, commit_edit, open_list};
use words::refusals::Refusal;

// Puts the held numbers where they are lent. The C interface lends them one by one, so that here and below a `Held` is copied number by
// number.
fn put_held(held: Held, tokens: &mut usize, version: &mut i16, edits: &mut u32)
    ensures { held_of tokens.new version.new edits.new ≡ held }
{
    *tokens = held.tokens;
    *version = held.version;
    *edits = held.edits;
}

// What an opening or a commit comes to as one number; the held numbers are put only where it is not turned back. Every answer of both
// fits (proofs/HoldingLaws).
fn changed(
    change: Result<Change, Refusal>,
    tokens: &mut usize,
    version: &mut i16,
    edits: &mut u32,
) -> u64
    requires { FitsTold (told_by (outcome_of change)) }
    ensures value { result ≡ told_number (told_by (outcome_of change)) }
    ensures edits_after { held_of tokens.new version.new edits.new
        ≡ held_by (outcome_of change) (held_of tokens.old version.old edits.old) }
{
    match change {
        Ok(made) => {
            put_held(made.held, tokens, version, edits);
            parsed_number(Ok(made.answer))
        }
        Err(unchanged) => refusal(unchanged),
    }
}

// Opens a list: `open_list`, with its answer as one number.
#[unsafe(no_mangle)]
pub extern "C" fn sorbrudder_open(
    list: &[u32],
    words: &mut [u32],
    tokens: &mut usize,
    held_version: &mut i16,
    edits: &mut u32,
    tree: &mut [u32],
    messages: &mut [u32],
    work: &mut [u32],
    version: i16,
    limit: u32,
) -> u64
    ensures { HasOpenedTo
        (held_of tokens.old held_version.old edits.old)
        words.old list.now (lent tree.old messages.old work.old limit) version
        result (held_of tokens.new held_version.new edits.new)
        words.new tree.new messages.new work.new }
{
    let change = open_list(list, words, tree, messages, work, version, limit);
    changed(change, tokens, held_version, edits)
}

// What the held list would read as with an edit made: `ask_edit`, with its answer as one number. It does not look at the edit count.
#[unsafe(no_mangle)]
pub extern "C" fn sorbrudder_ask(
    tokens: usize,
    version: i16,
    words: &[u32],
    place: usize,
    removed: usize,
    put: &[u32],
    tree: &mut [u32],
    messages: &mut [u32],
    work: &mut [u32],
    limit: u32,
) -> u64
    ensures { (edits : ℕ) → HasAskedTo
        (state (held_of tokens version edits) words.now) (edit place removed put.now)
        (lent tree.old messages.old work.old limit)
        result tree.new messages.new work.new }
{
    let held = Held {
        tokens,
        version,
        edits: 0,
    };
    let answer = ask_edit(
        held, words, place, removed, put, tree, messages, work, limit,
    );
    parsed_number(answer)
}

// Makes an edit: `commit_edit`, with its answer as one number.
#[unsafe(no_mangle)]
pub extern "C" fn sorbrudder_commit(
    tokens: &mut usize,
    version: i16,
    edits: &mut u32,
    seen: u32,
    words: &mut [u32],
    place: usize,
    removed: usize,
    put: &[u32],
    tree: &mut [u32],
    messages: &mut [u32],
    work: &mut [u32],
    limit: u32,
) -> u64
    ensures { HasCommittedTo
        (state (held_of tokens.old version edits.old) words.old) seen
        (edit place removed put.now) (lent tree.old messages.old work.old limit)
        result (state (held_of tokens.new version edits.new) words.new)
        tree.new messages.new work.new }
{
    let held = Held {
        tokens: *tokens,
        version,
        edits: *edits,
    };
    let change = commit_edit(
        held, seen, words, place, removed, put, tree, messages, work, limit,
    );
    let mut same = version;
    changed(change, tokens, &mut same, edits)
}

// Adopts the rules of a version: `adopt_version`, with its answer as one number. It does not look at the count of tokens.
#[unsafe(no_mangle)]
pub extern "C" fn sorbrudder_adopt(version: &mut i16, edits: &mut u32, to: i16) -> u64
    ensures { (tokens : ℕ) → HasAdoptedTo
        (held_of tokens version.old edits.old) to
        result (held_of tokens version.new edits.new) }
{
    let held = Held {
        tokens: 0,
        version: *version,
        edits: *edits,
    };
    let adopted = adopt_version(held, to);
    match adopted {
        Ok(next) => {
            *version = next.version;
            *edits = next.edits;
            0
        }
        Err(last) => refusal(last),
    }
}
