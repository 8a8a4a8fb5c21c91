// Demand 3 as a function: reads a list, writes the tree it gives, and reads exactly the tokens written again, at any version and with
// their own operators. Leans on parse, write, own and words; the definition is `Reread` of molang's specs.
#![tactic(auto)]

ghost use Rattle.std.specs.Prelude.{◌≡◌};
ghost use Rattle.molang.specs.Parse.{a_tree};
ghost use Rattle.molang.specs.Reread.{second_told, after_first};
ghost use Rattle.parse.specs.Answers.{told_of, call};
ghost use Rattle.reread.specs.Answers.{reread_of, left_of, handed_of, rereading};
ghost use Rattle.reread.specs.Promises.{CanGoOn, HasReread};

use own::read_exactly;
use parse::{Answer, parse};
use words::fields;
use words::refusals::Refusal;
use write::write;

// What the three calls come to, where none is turned back.
#[derive(Clone, Copy, Debug, PartialEq, Eq)]
pub enum Outcome {
    // Both readings gave a tree: the nodes of the first, the tokens written, the nodes of the second.
    Trees(usize, usize, usize),
    // The first reading gave so many messages.
    Messages(usize),
    // The second did: never given (`no_messages` of molang's `Demand3`).
    MessagesAgain(usize),
}

// The call that was turned back, and its refusal.
#[derive(Clone, Copy, Debug, PartialEq, Eq)]
pub enum TurnedBack {
    First(Refusal),
    Write(Refusal),
    Second(Refusal),
}

// What the second reading's answer comes to, after a tree of so many nodes and a list of so many tokens.
fn after_second(
    nodes: usize,
    count: usize,
    second: Result<Answer, Refusal>,
) -> Result<Outcome, TurnedBack>
    ensures { reread_of result ≡ second_told nodes count (told_of second) }
{
    match second {
        Ok(Answer::Tree(again)) => Ok(Outcome::Trees(nodes, count, again)),
        Ok(Answer::Messages(records)) => Ok(Outcome::MessagesAgain(records)),
        Err(refusal) => Err(TurnedBack::Second(refusal)),
    }
}

// Writes the tree of so many nodes that a reading left in front of its buffer, and reads what was written. `parse` promises what it asks.
fn write_and_read(
    tree: &[u32],
    written: &mut [u32],
    again: &mut [u32],
    messages: &mut [u32],
    work: &mut [u32],
    nodes: usize,
    source_length: u64,
    version: i16,
    limit: u32,
) -> Result<Outcome, TurnedBack>
    requires { CanGoOn (a_tree nodes) tree.now }
    ensures { left_of result tree.now written.new again.new messages.new work.new
        ≡ after_first
        (handed_of tree.now written.old again.old messages.old work.old
        source_length version limit)
        (a_tree nodes) }
{
    let words = fields::NODE_WORDS * nodes;
    let count = write(&tree[..words], written).map_err(TurnedBack::Write)?;
    let end = fields::TOKEN_WORDS * count;
    let second = read_exactly(
        &written[..end],
        again,
        messages,
        work,
        source_length,
        version,
        limit,
    );
    after_second(nodes, count, second)
}

// The three calls over lent buffers. The messages and the work buffer serve both readings; each reading has its nesting limit.
pub fn reread(
    list: &[u32],
    tree: &mut [u32],
    written: &mut [u32],
    again: &mut [u32],
    messages: &mut [u32],
    work: &mut [u32],
    source_length: u64,
    version: i16,
    used_low: u64,
    used_high: u64,
    limit: u32,
    source_length_again: u64,
    version_again: i16,
    limit_again: u32,
) -> Result<Outcome, TurnedBack>
    ensures { HasReread
        (rereading
        (call list.now tree.old messages.old work.old
        source_length version used_low used_high limit)
        written.old again.old source_length_again version_again limit_again)
        (left_of result tree.new written.new again.new messages.new work.new) }
{
    let first = parse(
        list,
        tree,
        messages,
        work,
        source_length,
        version,
        used_low,
        used_high,
        limit,
    );
    match first.map_err(TurnedBack::First)? {
        Answer::Messages(records) => Ok(Outcome::Messages(records)),
        Answer::Tree(nodes) => write_and_read(
            tree,
            written,
            again,
            messages,
            work,
            nodes,
            source_length_again,
            version_again,
            limit_again,
        ),
    }
}
