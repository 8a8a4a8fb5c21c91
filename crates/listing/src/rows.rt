// The text of an answer, laid into bytes: numbers in decimal, a space between two of a line. Leans on text, parse and words;
// specs/Rows has the definition.
ghost use Rattle.std.specs.Prelude.{◌+◌, ◌*◌, ◌≤◌, length};
ghost use Rattle.parse.specs.Answers.{told_of};
ghost use Rattle.text.specs.Text.{Wrote};
ghost use Rattle.listing.specs.Rows.{row, node_rows, record_rows, node_numbers, answer_text, CanPut};

use parse::Answer;
use text::{put_bytes, put_number};
use words::fields;
use words::fields::wide;
use words::refusals::Refusal;

// A line of numbers. `put_answer` has room for the longest text of each line, here and below.
fn put_row(out: &mut [u8], at: usize, numbers: &[u32]) -> usize
    requires { (at + 21 * length numbers.now ≤ length out.old) × (1 ≤ length numbers.now) }
    ensures { Wrote out.old at (row numbers.now) result out.new }
{
    let last = numbers.len() - 1;
    let mut end = at;
    for number in &numbers[..last] {
        end = put_number(out, end, wide(*number), b' ');
    }
    put_number(out, end, wide(numbers[last]), b'\n')
}

// A line for the node whose words stand from `from` on: operator, children, start, end.
fn put_node(out: &mut [u8], at: usize, tree: &[u32], from: usize) -> usize
    requires { (at + 84 ≤ length out.old) × (from + 7 ≤ length tree.now) }
    ensures { Wrote out.old at (row (node_numbers tree.now from)) result out.new }
{
    let operator = fields::operator(tree[from]);
    let start = fields::low(tree[from + fields::START_FIELD]);
    let end = fields::low(tree[from + fields::END_FIELD]);
    let children = fields::low(tree[from + fields::COUNT_FIELD]);
    let numbers = [operator, children, start, end];
    put_row(out, at, &numbers)
}

// A line for each of the first n nodes.
fn put_nodes(out: &mut [u8], at: usize, tree: &[u32], n: usize) -> usize
    requires { (at + 84 * n ≤ length out.old) × (7 * n ≤ length tree.now) }
    ensures { Wrote out.old at (node_rows n tree.now) result out.new }
{
    let mut end = at;
    for i in 0..n {
        end = put_node(out, end, tree, fields::NODE_WORDS * i);
    }
    end
}

// A line for each of the first n records.
fn put_records(out: &mut [u8], at: usize, messages: &[u32], n: usize) -> usize
    requires { (at + 168 * n ≤ length out.old) × (8 * n ≤ length messages.now) }
    ensures { Wrote out.old at (record_rows n messages.now) result out.new }
{
    let mut end = at;
    for i in 0..n {
        let from = fields::RECORD_WORDS * i;
        end = put_row(out, end, &messages[from..from + fields::RECORD_WORDS]);
    }
    end
}

// The text of an answer; the index behind it. The programs have room for the longest text, and `read_list` promises what is told.
pub fn put_answer(
    out: &mut [u8],
    at: usize,
    answered: Result<Answer, Refusal>,
    tree: &[u32],
    messages: &[u32],
) -> usize
    requires { CanPut (told_of answered) at out.old tree.now messages.now }
    ensures upper_bound { result ≤ length out.new }
    ensures wrote { Wrote out.old at
        (answer_text (told_of answered) tree.now messages.now) result out.new }
{
    match answered {
        Ok(Answer::Tree(n)) => {
            let named = put_bytes(out, at, b"tree ");
            let counted = put_number(out, named, n, b'\n');
            put_nodes(out, counted, tree, n)
        }
        Ok(Answer::Messages(n)) => {
            let named = put_bytes(out, at, b"messages ");
            let counted = put_number(out, named, n, b'\n');
            put_records(out, counted, messages, n)
        }
        Err(refusal) => {
            let named = put_bytes(out, at, b"refused ");
            let numbered = put_number(out, named, wide(u32::from(refusal.reason)), b' ');
            put_number(out, numbered, refusal.place, b'\n')
        }
    }
}
