// The parse entry: a list of token words becomes a tree, messages or a refusal. Checks, reading in the work buffer, and
// filling of the caller's buffers are functions of their own. Leans on accept, grouping, levels, buffers, nodes, ops and words.
#![tactic(auto)]

mod report;

ghost use Rattle.parse.specs.Answers.{call, HasParsed};
ghost use Rattle.parse.specs.Fills.{CanFill, Filled, CanRead, HasRead};

use accept::{Sizes, WORK_WORDS, accept};
use buffers::emit::{clear, lay_out};
use buffers::load::load;
use grouping::group::group;
use levels::failure::Fault;
use nodes::slots;
use nodes::slots::ROOT;
use ops::sets::OpSet;
use ops::version::effective;
use scan::walk::walk;
use words::refusals::Refusal;

// What a call that is read is answered: a tree of so many nodes, or so many messages.
#[derive(Clone, Copy, Debug, PartialEq, Eq)]
pub enum Answer {
    Tree(usize),
    Messages(usize),
}

// One root is a tree, whose words fill the front of the tree buffer; none or several are a message. `fill` has all that it asks.
fn fill_roots(
    work: &mut [u32],
    tree: &mut [u32],
    messages: &mut [u32],
    n: usize,
    source: u32,
) -> Answer
    requires { CanFill work.old tree.old messages.old n source (Ok tt) }
    ensures { Filled work.old tree.old messages.old n source (Ok tt) result
        tree.new messages.new }
{
    let root = slots::first_of(work, ROOT);
    if root == 0 {
        report::no_roots(messages, 0, source);
        return Answer::Messages(1);
    }
    if slots::next_of(work, root) != 0 {
        report::report_roots(work, messages, root, n);
        return Answer::Messages(1);
    }
    let nodes = lay_out(work, tree, root, n);
    Answer::Tree(nodes)
}

// Fills the caller's buffers with what the passes left. `group` promises the store, and `read` is lent the buffers.
fn fill(
    work: &mut [u32],
    tree: &mut [u32],
    messages: &mut [u32],
    n: usize,
    source: u32,
    grouped: Result<(), Fault>,
) -> Answer
    requires { CanFill work.old tree.old messages.old n source grouped }
    ensures { Filled work.old tree.old messages.old n source grouped result
        tree.new messages.new }
{
    match grouped {
        Ok(()) => fill_roots(work, tree, messages, n, source),
        Err(Fault::Failed(failure)) => {
            report::report(work, messages, failure, source);
            Answer::Messages(1)
        }
        Err(Fault::Mismatched(mismatch)) => {
            report::report_mismatch(work, messages, mismatch);
            Answer::Messages(2)
        }
        Err(Fault::Unclosed(unclosed)) => {
            report::report_unclosed(work, messages, unclosed);
            Answer::Messages(2)
        }
        Err(Fault::PointerFailed(failure)) => {
            report::report_pointer(work, messages, failure, source);
            Answer::Messages(2)
        }
    }
}

// Reads a list without fault, pass by pass, in a work buffer of just the words that its n tokens need. `read` calls it if the walk gave up.
fn read_by_passes(
    list: &[u32],
    tree: &mut [u32],
    messages: &mut [u32],
    work: &mut [u32],
    n: usize,
    source: u32,
    version: i16,
    used: OpSet,
) -> Answer
    requires { CanRead list.now work.old tree.old messages.old n }
    ensures { HasRead list.now tree.old messages.old source version used result
        tree.new messages.new }
{
    load(list, work, n);
    let grouped = group(work, slots::stack_of(n), n, used, effective(version));
    fill(work, tree, messages, n, source, grouped)
}

// Reads a list without fault: by one walk if it is a well-formed text that the walk takes, else pass by pass, which alone makes messages.
// `parse` calls it if `accept` found no fault.
fn read(
    list: &[u32],
    tree: &mut [u32],
    messages: &mut [u32],
    work: &mut [u32],
    n: usize,
    source: u32,
    version: i16,
    used: OpSet,
) -> Answer
    requires { CanRead list.now work.old tree.old messages.old n }
    ensures { HasRead list.now tree.old messages.old source version used result
        tree.new messages.new }
{
    match walk(list, work, tree, n, used, version) {
        Some(nodes) => Answer::Tree(nodes),
        None => read_by_passes(list, tree, messages, work, n, source, version, used),
    }
}

// The entry. The version is raw, the used set comes in two halves, and no more brackets may be open than `limit`.
pub fn parse(
    list: &[u32],
    tree: &mut [u32],
    messages: &mut [u32],
    work: &mut [u32],
    source_length: u64,
    version: i16,
    used_low: u64,
    used_high: u64,
    limit: u32,
) -> Result<Answer, Refusal>
    ensures { HasParsed
        (call list.now tree.old messages.old work.old
        source_length version used_low used_high limit)
        result tree.new messages.new work.new }
{
    let used = OpSet {
        low: used_low,
        high: used_high,
    };
    let sizes = Sizes {
        tree: tree.len(),
        messages: messages.len(),
        work: work.len(),
        source: source_length,
    };
    let n = accept(list, sizes, used, limit)?;
    let source = source_length as u32;
    let end = WORK_WORDS * n + WORK_WORDS;
    let part = &mut work[..end];
    let answered = read(list, tree, messages, part, n, source, version, used);
    clear(work);
    Ok(answered)
}
