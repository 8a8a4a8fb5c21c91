// The table of molang's lines for a program that runs it: the words that a line asks with, laid into a buffer, and whether a buffer holds
// those that it answers with; and the text of each line (the module `said`). A mark and its items are one slice, the mark first. Leans on
// molang (the table), words and text; specs/Marked says which words they are.
#![tactic(auto)]

pub mod answers;
pub mod asked;
pub mod said;

ghost use Rattle.std.specs.Prelude.{◌≡◌, ◌+◌, ◌-◌, ◌≤◌, max, length, drop, get_or};
ghost use Rattle.molang.specs.Lines.{close_in};
ghost use Rattle.table.specs.Marked.{is_mark, unmarked, token_word, node_word, record_word, message_word, marked_word, marked_count};
ghost use Rattle.table.specs.Marked.{first_words, fitting, said_count, said_word, holds_from};

use molang::lines::{ANY, LIST, MESSAGE, REFUSED, REPEATED, TREE, WRITE, ZEROS};
use words::fields;
use words::fields::wide;

// Above every mark.
pub const MOST: u32 = 0xffff_ffff;

// The number at an index, and 0 if there is none.
pub fn at(numbers: &[u32], index: usize) -> u32
    ensures { result ≡ get_or numbers.now index 0 }
{
    numbers.get(index).copied().unwrap_or(0)
}

// Whether a number is a mark below `last`.
fn is_mark(n: u32, last: u32) -> bool
    ensures { result ≡ is_mark last n }
{
    ANY <= n && n < last
}

// The first mark below `last` from `from` on, or the end of the numbers.
pub fn next_mark(numbers: &[u32], from: usize, last: u32) -> usize
    ensures { (result ≡ from + unmarked last (drop from numbers.now)) × (result ≤ max from (length numbers.now)) }
{
    for end in from..numbers.len() {
        if is_mark(numbers[end], last) {
            return end;
        }
    }
    numbers.len().max(from)
}

// A word of a token of payload 0. `word` and `node_word` give a field of a token.
fn token_word(field: usize, op: u32, start: u32, end: u32) -> u32
    requires { field ≤ 4 }
    ensures { result ≡ token_word op start end field }
{
    match field {
        0 => fields::number_word(op),
        1 => fields::start_word(start),
        2 => fields::end_word(end),
        3 => fields::upper_word(0),
        _ => fields::lower_word(0),
    }
}

// Where a node closes: at the digit in front of its other eight, or at its own end.
fn close_of(node: u32) -> u32
    ensures { result ≡ close_in node }
{
    if node < 100_000_000 {
        return node % 100;
    }
    node / 100_000_000
}

// A word of a node, which is op_c_ss_ee, or z_ooo_c_ss_ee if it is a section that closes at z. `word` gives a field of a node.
fn node_word(field: usize, node: u32) -> u32
    requires { field ≤ 6 }
    ensures { result ≡ node_word node field }
{
    if field == fields::CLOSE_FIELD {
        return fields::close_word(close_of(node));
    }
    let own = node % 100_000_000;
    if field == fields::COUNT_FIELD {
        return fields::children_word(own / 10_000 % 10);
    }
    token_word(field, own / 100_000, own / 100 % 100, own % 100)
}

// A word of a message record: the first item is number_ss_ee, and the others are the arguments up to the last that is not 0. `record_word`
// gives a field of a record.
fn field_word(field: usize, message: &[u32]) -> u32
    requires { field ≤ 7 }
    ensures { result ≡ record_word message.now field }
{
    match field {
        0 => at(message, 1) / 10_000,
        1 => at(message, 1) / 100 % 100,
        2 => at(message, 1) % 100,
        _ => at(message, field - 1),
    }
}

// A word of one or two records, each with its mark. (No call has a third.) `word` has seen the first mark.
fn record_word(i: usize, said: &[u32]) -> u32
    requires { 1 ≤ length said.now }
    ensures { result ≡ message_word said.now i }
{
    let second = next_mark(said, 1, MOST);
    if i < fields::RECORD_WORDS {
        return field_word(i, &said[0..second]);
    }
    field_word(i % fields::RECORD_WORDS, &said[second..])
}

// The i-th word of what a mark and its items stand for: a tree, a message, a list that is answered (op_ss_ee), words 0, a token that is
// repeated (at the span 0 to 0), or operators (the i-th at the span i to i + 1).
fn word(marked: &[u32], i: usize) -> u32
    ensures { result ≡ marked_word marked.now i }
{
    let token = i / fields::TOKEN_WORDS;
    let field = i % fields::TOKEN_WORDS;
    match at(marked, 0) {
        WRITE | TREE => node_word(
            i % fields::NODE_WORDS,
            at(marked, i / fields::NODE_WORDS + 1),
        ),
        MESSAGE => record_word(i, marked),
        LIST => {
            let item = at(marked, token + 1);
            token_word(field, item / 10_000, item / 100 % 100, item % 100)
        }
        ZEROS => 0,
        REPEATED => token_word(field, at(marked, 2), 0, 0),
        _ => {
            let start = (token % 65_536) as u32;
            token_word(field, at(marked, token + 1), start, start + 1)
        }
    }
}

// How many items stand behind a mark.
fn items(marked: &[u32]) -> usize
    ensures { result ≡ length marked.now - 1 }
{
    marked.len().saturating_sub(1)
}

// How many words a mark and its items stand for. Messages fill both records.
fn word_count(marked: &[u32]) -> usize
    ensures { result ≡ marked_count marked.now }
{
    let size = wide(at(marked, 1));
    let n = items(marked);
    match at(marked, 0) {
        ZEROS => size,
        REPEATED => fields::TOKEN_WORDS * size,
        WRITE | TREE => fields::NODE_WORDS * n,
        MESSAGE => 2 * fields::RECORD_WORDS,
        REFUSED => 0,
        _ => fields::TOKEN_WORDS * n,
    }
}

// Fills a buffer with the words of a mark and its items, and with those that would follow; how many are theirs, and none if the buffer
// has no room for them.
pub fn lay(words: &mut [u32], marked: &[u32]) -> usize
    ensures words_after { words.new ≡ first_words (length words.old) marked.now }
    ensures value { (result ≡ fitting (length words.old) (marked_count marked.now)) × (result ≤ length words.old) }
{
    for i in 0..words.len() {
        words[i] = word(marked, i);
    }
    let n = word_count(marked);
    // 0, and no Option: a mark without words is 0 too, and the callers take that many words of the buffer in both cases.
    if words.len() < n {
        return 0;
    }
    n
}

// How many words of the buffer for this mark's items the line says.
fn said_count(mark: u32, said: &[u32]) -> usize
    ensures { result ≡ said_count mark said.now }
{
    if mark == at(said, 0) {
        return word_count(said);
    }
    0
}

// The i-th word of a buffer that holds the first n words of what the line says, and `rest` after them.
fn said_word(said: &[u32], n: usize, rest: u32, i: usize) -> u32
    ensures { result ≡ said_word said.now n rest i }
{
    if i < n {
        return word(said, i);
    }
    rest
}

// Whether the buffer for this mark's items holds what the line says, and `rest` in each word after it.
pub fn holds(buffer: &[u32], mark: u32, said: &[u32], rest: u32) -> bool
    ensures { result ≡ holds_from 0 said.now (said_count mark said.now) rest buffer.now }
{
    let n = said_count(mark, said);
    for i in 0..buffer.len() {
        if buffer[i] != said_word(said, n, rest, i) {
            return false;
        }
    }
    n <= buffer.len()
}
