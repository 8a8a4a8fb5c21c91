// The parse entry with a rule buffer (document 02, card 5): one byte a node says which rule first gave it children. The list is read as
// without the buffer, and where a tree comes its words say the bytes. Leans on parse (the entry), accept (answers 1 to 5), ops (the
// version) and words; specs/Answers has the promise.
#![tactic(auto)]

mod rule;

ghost use Rattle.std.specs.Prelude.{◌≡◌, ◌/◌, ◌≤◌, length};
ghost use Rattle.molang.specs.Parse.{in_front};
ghost use Rattle.accept.specs.Accepting.{verdict_of, verdict};
ghost use Rattle.rules.specs.Nodes.{word_rules};
ghost use Rattle.rules.specs.Numbering.{room_refusal, CanNumber, numbered};
ghost use Rattle.rules.specs.Answers.{call, HasRuled};

use accept::{Sizes, lengths};
use ops::version::{effective, is_from_6};
use parse::{Answer, parse};
use words::fields;
use words::refusals::{Reason, Refusal};

// Bytes of the rule buffer per token: a tree has no more nodes.
pub const RULE_BYTES: usize = 3;

// Answers 1 to 5, and 16 after them.
fn room(list: &[u32], sizes: Sizes, bytes: usize) -> Result<usize, Refusal>
    ensures { verdict_of result ≡ verdict (length list.now / 5) (room_refusal list.now sizes bytes) }
{
    let n = lengths(list, sizes)?;
    if bytes < RULE_BYTES * n {
        return Err(Reason::ShortRuleBuffer.at(0));
    }
    Ok(n)
}

// Fills the front of the rule buffer with the rules of nodes that stand in a row. `number` has room for them.
fn fill(nodes: &[u32], rules: &mut [u8], comparisons_first: bool)
    requires { length nodes.now / 7 ≤ length rules.old }
    ensures { rules.new ≡ in_front (word_rules comparisons_first nodes.now) rules.old }
{
    let table = rule::table(comparisons_first);
    let count = nodes.len() / fields::NODE_WORDS;
    for i in 0..count {
        let at = fields::NODE_WORDS * i;
        rules[i] = u8::from(rule::of_node(&table, nodes[at], nodes[at + fields::COUNT_FIELD]));
    }
}

// Where the answer is a tree, its nodes are numbered. `parse` has left the tree's words in front of the tree buffer.
fn number(answer: Answer, tree: &[u32], rules: &mut [u8], version: i16)
    requires { CanNumber answer tree.now rules.old }
    ensures { rules.new ≡ numbered answer version tree.now rules.old }
{
    if let Answer::Tree(nodes) = answer {
        let end = fields::NODE_WORDS * nodes;
        fill(&tree[..end], rules, is_from_6(effective(version)));
    }
}

// The entry: `parse`, and a number for each node of the tree.
pub fn parse_ruled(
    list: &[u32],
    tree: &mut [u32],
    messages: &mut [u32],
    work: &mut [u32],
    rules: &mut [u8],
    source_length: u64,
    version: i16,
    used_low: u64,
    used_high: u64,
    limit: u32,
) -> Result<Answer, Refusal>
    ensures { HasRuled
        (call list.now tree.old messages.old work.old rules.old
        source_length version used_low used_high limit)
        result tree.new messages.new work.new rules.new }
{
    let sizes = Sizes {
        tree: tree.len(),
        messages: messages.len(),
        work: work.len(),
        source: source_length,
    };
    room(list, sizes, rules.len())?;
    let answer = parse(
        list,
        tree,
        messages,
        work,
        source_length,
        version,
        used_low,
        used_high,
        limit,
    )?;
    number(answer, tree, rules, version);
    Ok(answer)
}
