// The lift of a list from one engine to another over lent buffers: it is read at both, and written if they read it otherwise. Leans on
// accept (lengths, the nesting of what is written), own (the readings), write, parse and words; specs/Lifting has the definition.
#![tactic(auto)]

pub mod entry;

ghost use Rattle.std.specs.Prelude.{◌≡◌, ◌*◌, ◌≤◌, length, take};
ghost use Rattle.molang.specs.Parse.{a_tree};
ghost use Rattle.molang.specs.Lift.{eq_words};
ghost use Rattle.parse.specs.Answers.{told_of};
ghost use Rattle.lift.specs.Lifting.{first_limit, written_out, after_second, after_first};
ghost use Rattle.lift.specs.Answers.{output_of, left_of, engine, handed_of, lift_call, WasRead, HasLifted};

use accept::{Sizes, is_limit, lengths, nesting};
use own::beside::same_words;
use own::read_own;
use parse::Answer;
use words::fields;
use words::refusals::Refusal;
use write::write;

// What becomes of a list, unless it stays behind: then the refusal says why.
#[derive(Clone, Copy)]
pub enum Outcome {
    // It stays word for word; its tree has so many nodes at both engines.
    Same(usize),
    // So many tokens came out.
    Lifted(usize),
    // The old engine has so many messages for it.
    Messages(usize),
}

// The limit of the first reading: none if the new limit is none.
fn first_limit(from: u32, to: u32) -> u32
    ensures { result ≡ first_limit from to }
{
    if is_limit(to) {
        return from;
    }
    0
}

// Writes the tree of so many nodes that a reading left in front of its buffer, and sees that what was written is within the limit.
fn write_out(tree: &[u32], output: &mut [u32], nodes: usize, limit: u32) -> Result<Outcome, Refusal>
    requires { WasRead (a_tree nodes) tree.now }
    ensures { output_of result output.new ≡ written_out tree.now output.old limit nodes }
{
    let words = fields::NODE_WORDS * nodes;
    let count = write(&tree[..words], output)?;
    let end = fields::TOKEN_WORDS * count;
    nesting(&output[..end], count, limit)?;
    Ok(Outcome::Lifted(count))
}

// Whether two trees in front of their buffers have the same words.
fn same_trees(nodes: usize, m: usize, tree: &[u32], again: &[u32]) -> bool
    requires { (7 * nodes ≤ length tree.now) × (7 * m ≤ length again.now) }
    ensures { result ≡ eq_words (take (7 * nodes) tree.now) (take (7 * m) again.now) }
{
    if nodes != m {
        return false;
    }
    same_words(tree, again, fields::NODE_WORDS * nodes)
}

// What comes of the second reading's answer, after a first tree of so many nodes. A list that is too deep as it is stays behind; one that
// reads as the same tree stays; any other is written.
fn after_second(
    nodes: usize,
    second: Result<Answer, Refusal>,
    tree: &[u32],
    again: &[u32],
    output: &mut [u32],
    limit: u32,
) -> Result<Outcome, Refusal>
    requires { (WasRead (a_tree nodes) tree.now) × (WasRead (told_of second) again.now) }
    ensures { output_of result output.new
        ≡ after_second tree.now again.now output.old limit nodes (told_of second) }
{
    match second? {
        Answer::Messages(_) => write_out(tree, output, nodes, limit),
        Answer::Tree(m) => {
            if same_trees(nodes, m, tree, again) {
                return Ok(Outcome::Same(nodes));
            }
            write_out(tree, output, nodes, limit)
        }
    }
}

// What comes of the first reading's answer: a tree's list is read again, at the new engine.
fn after_first(
    first: Result<Answer, Refusal>,
    list: &[u32],
    tree: &[u32],
    again: &mut [u32],
    messages: &mut [u32],
    work: &mut [u32],
    output: &mut [u32],
    version: i16,
    limit: u32,
) -> Result<Outcome, Refusal>
    requires { WasRead (told_of first) tree.now }
    ensures { left_of result again.new messages.new work.new output.new
        ≡ after_first
        (handed_of list.now tree.now again.old messages.old work.old
        output.old (engine version limit))
        (told_of first) }
{
    match first? {
        Answer::Messages(records) => Ok(Outcome::Messages(records)),
        Answer::Tree(nodes) => {
            let second = read_own(list, again, messages, work, version, limit);
            after_second(nodes, second, tree, again, output, limit)
        }
    }
}

// THE LIFT, for every call.
pub fn lift(
    list: &[u32],
    tree: &mut [u32],
    again: &mut [u32],
    messages: &mut [u32],
    work: &mut [u32],
    output: &mut [u32],
    from: i16,
    to: i16,
    limit_from: u32,
    limit_to: u32,
) -> Result<Outcome, Refusal>
    ensures { HasLifted
        (lift_call list.now tree.old again.old messages.old work.old
        output.old (engine from limit_from) (engine to limit_to))
        result tree.new again.new messages.new work.new output.new }
{
    let sizes = Sizes {
        tree: tree.len().min(again.len()),
        messages: messages.len(),
        work: work.len(),
        source: 0,
    };
    lengths(list, sizes)?;
    let limit = first_limit(limit_from, limit_to);
    let first = read_own(list, tree, messages, work, from, limit);
    after_first(
        first, list, tree, again, messages, work, output, to, limit_to,
    )
}
