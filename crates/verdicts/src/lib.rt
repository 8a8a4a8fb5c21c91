// Whether a line is answered as it says. `run_line` makes the calls that it asks for, with fresh buffers just as long as the entries ask,
// and compares what they tell and leave with the line. Leans on table (what a line asks and says), own (reading), write and derived;
// specs/Verdicts says of a line whether the definition answers it so.
#![tactic(auto)]

ghost use Rattle.std.specs.Prelude.{◌≡◌, ◌≤◌, length, replicate};
ghost use Rattle.parse.specs.Answers.{told_of};
ghost use Rattle.write.specs.Answers.{told_of as written_told, call as write_call};
ghost use Rattle.table.specs.Answers.{is_left};
ghost use Rattle.verdicts.specs.Verdicts.{verdict_of, verdict, is_read, is_written, lent_call, list_call, tree_call};
ghost use Rattle.verdicts.specs.Verdicts.{read_verdict, write_verdict, at_versions, words_verdict, asked_verdict, line_verdict};

use derived::version_of;
use molang::lines::{LIST, MESSAGE, TREE, WRITE};
use own::read_exactly;
use parse::Answer;
use table::answers::{is_count, is_left, is_refusal};
use table::asked::{first_version, last_version, limit_of};
use table::{MOST, at, holds, lay, next_mark};
use words::fields;
use words::refusals::Refusal;
use write::write;

// The words of a list of 4,097 tokens, which are one more than the entry reads, and of a tree and of a work buffer for it. A list for a
// tree of as many words has room in the tree's.
const LIST_WORDS: usize = 20_485;

const TREE_WORDS: usize = 86_037;

const WORK_WORDS: usize = 262_272;

// What is first found to differ from what a line says.
#[derive(Clone, Copy, Debug, PartialEq, Eq)]
pub enum Difference {
    Answer,
    Words,
}

// What a call is told and what it leaves, each as the line says or not.
fn compared(told: bool, left: bool) -> Result<(), Difference>
    ensures { verdict_of result ≡ verdict told left }
{
    if !told {
        return Err(Difference::Answer);
    }
    if !left {
        return Err(Difference::Words);
    }
    Ok(())
}

// Whether the line says what a parse call told.
fn is_read(answered: Result<Answer, Refusal>, said: &[u32]) -> bool
    ensures { result ≡ is_read (told_of answered) said.now }
{
    match answered {
        Ok(Answer::Tree(n)) => is_count(TREE, n, said),
        Ok(Answer::Messages(n)) => is_count(MESSAGE, n, said),
        Err(refusal) => is_refusal(u32::from(refusal.reason), refusal.place, said),
    }
}

// Whether a parse call told and left what the line says.
fn judged(
    answered: Result<Answer, Refusal>,
    tree: &[u32],
    messages: &[u32],
    work: &[u32],
    said: &[u32],
) -> Result<(), Difference>
    ensures { verdict_of result ≡ verdict (is_read (told_of answered) said.now)
        (is_left tree.now messages.now work.now said.now) }
{
    let told = is_read(answered, said);
    let left = is_left(tree, messages, work, said);
    compared(told, left)
}

// Reads a list, whose text is as long as it has tokens, with the operators that it has, and compares.
fn read_with(
    list: &[u32],
    version: i16,
    limit: u32,
    tree: &mut [u32],
    work: &mut [u32],
    said: &[u32],
) -> Result<(), Difference>
    ensures { verdict_of result ≡ read_verdict
        (lent_call list.now version limit tree.old work.old) said.now }
{
    let mut messages = [0u32; 16];
    let n = list.len() / fields::TOKEN_WORDS;
    let answered = read_exactly(list, tree, &mut messages, work, n as u64, version, limit);
    judged(answered, tree, &messages, work, said)
}

// Whether the line says what a write call told.
fn is_written(written: Result<usize, Refusal>, said: &[u32]) -> bool
    ensures { result ≡ is_written (written_told written) said.now }
{
    match written {
        Ok(n) => is_count(LIST, n, said),
        Err(refusal) => is_refusal(u32::from(refusal.reason), refusal.place, said),
    }
}

// Writes a tree, and compares.
fn write_with(tree: &[u32], list: &mut [u32], said: &[u32]) -> Result<(), Difference>
    ensures { verdict_of result ≡ write_verdict (write_call tree.now list.old) said.now }
{
    let written = write(tree, list);
    let told = is_written(written, said);
    let left = holds(list, LIST, said, 0);
    compared(told, left)
}

// A fresh list, a fresh tree and a fresh work buffer. The length of what a function returns is known by its type; a proof would count that
// of an array of one value word by word.
fn fresh_list() -> [u32; LIST_WORDS] {
    [0u32; LIST_WORDS]
}

fn fresh_tree() -> [u32; TREE_WORDS]
    ensures { result ≡ replicate 86037 0 }
{
    [0u32; TREE_WORDS]
}

fn fresh_work() -> [u32; WORK_WORDS]
    ensures { result ≡ replicate 262272 1 }
{
    [1u32; WORK_WORDS]
}

// Reads a list at a version and with a nesting limit, with buffers as long as the entry asks: work of ones, and the others of zeros. `ask`
// lends a part of a list of LIST_WORDS words, here and below.
fn read(list: &[u32], version: i16, limit: u32, said: &[u32]) -> Result<(), Difference>
    requires { length list.now ≤ 20485 }
    ensures { verdict_of result ≡ read_verdict (list_call list.now version limit) said.now }
{
    let mut tree = fresh_tree();
    let mut work = fresh_work();
    let n = list.len() / fields::TOKEN_WORDS;
    let tree_room = 21 * n;
    let work_room = 64 * n + 64;
    read_with(
        list,
        version,
        limit,
        &mut tree[0..tree_room],
        &mut work[0..work_room],
        said,
    )
}

// Reads it at each version that a mark asks for: at 4, 5 and 6, or at one.
fn read_at(list: &[u32], mark: u32, said: &[u32]) -> Result<(), Difference>
    requires { length list.now ≤ 20485 }
    ensures { verdict_of result ≡ at_versions list.now mark said.now }
{
    let limit = limit_of(mark);
    for bits in first_version(mark)..last_version(mark) + 1 {
        read(list, version_of(bits), limit, said)?;
    }
    Ok(())
}

// Writes a tree into a list with room for three tokens a node, and compares.
fn write_tree(tree: &[u32], said: &[u32]) -> Result<(), Difference>
    requires { length tree.now ≤ 20485 }
    ensures { verdict_of result ≡ write_verdict (tree_call tree.now) said.now }
{
    let mut list = fresh_tree();
    let room = tree.len() / fields::NODE_WORDS * 15;
    write_with(tree, &mut list[0..room], said)
}

// Makes the calls that a mark asks for with these words, and compares.
fn call(words: &[u32], mark: u32, said: &[u32]) -> Result<(), Difference>
    requires { length words.now ≤ 20485 }
    ensures { verdict_of result ≡ words_verdict words.now mark said.now }
{
    if mark == WRITE {
        return write_tree(words, said);
    }
    read_at(words, mark, said)
}

// Makes the calls that a mark with its items asks for, and compares.
fn ask(asked: &[u32], said: &[u32]) -> Result<(), Difference>
    ensures { verdict_of result ≡ asked_verdict asked.now said.now }
{
    let mut words = fresh_list();
    let n = lay(&mut words, asked);
    call(&words[0..n], at(asked, 0), said)
}

// Makes the calls of a line, which are those of molang's specs/Lines, and compares. A line is a mark that asks and its items, and the marks
// that answer and theirs.
pub fn run_line(line: &[u32]) -> Result<(), Difference>
    ensures { verdict_of result ≡ line_verdict line.now }
{
    if line.len() == 0 {
        return ask(line, line);
    }
    let middle = next_mark(line, 1, MOST);
    ask(&line[0..middle], &line[middle..])
}
