// The exports of the library, by the C convention: slices as pointer and length, numbers as themselves, an answer as one number
// (specs/Numbers; include/sorbrudder.h takes it apart). Leans on parse, rules, held, write and stackorder.
#![tactic(auto)]

mod holding;
mod lifting;
mod ruled;

ghost use Rattle.std.specs.Prelude.{◌≡◌, ◌<◌, ◌^◌};
ghost use Rattle.molang.specs.WriteEntry.{write_answered, list_after};
ghost use Rattle.molang.specs.StackOrder.{export_answered, exported_after, import_answered, imported_after};
ghost use Rattle.words.specs.Refusals.{reason_number};
ghost use Rattle.parse.specs.Answers.{told_of, call as parse_call};
ghost use Rattle.write.specs.Answers.{call};
ghost use Rattle.stackorder.specs.Answers.{call as reorder_call};
ghost use Rattle.sorbrudder.specs.Numbers.{packed, told_number, write_number, reorder_number, count_number, FitsTold, FitsCount};
ghost use Rattle.sorbrudder.specs.Numbers.{HasParsedTo};

use parse::{Answer, parse};
use stackorder::{export, import};
use words::refusals::Refusal;
use write::write;

// The kinds of an answer, in bits 40-47.
const MESSAGES: u64 = 0x100_0000_0000;

const REFUSED: u64 = 0x200_0000_0000;

// A refusal's number stands from bit 32 on.
const NUMBER: u64 = 0x1_0000_0000;

// A refusal's number and place as one number, before its kind is added. The callers have the bounds of an answer, which are shown in
// proofs/Bounds, here and below.
fn reason(refused: Refusal) -> u64
    requires { (reason_number refused.reason < 2 ^ 8) × (refused.place < 2 ^ 32) }
    ensures { result ≡ packed 0 (reason_number refused.reason) refused.place }
{
    u64::from(u32::from(refused.reason)) * NUMBER + (refused.place as u64)
}

// A refusal as one number.
fn refusal(refused: Refusal) -> u64
    requires { (reason_number refused.reason < 2 ^ 8) × (refused.place < 2 ^ 32) }
    ensures { result ≡ packed 2 (reason_number refused.reason) refused.place }
{
    REFUSED + reason(refused)
}

// The answer of a reader as one number.
fn parsed_number(answer: Result<Answer, Refusal>) -> u64
    requires { FitsTold (told_of answer) }
    ensures { result ≡ told_number (told_of answer) }
{
    match answer {
        Ok(Answer::Tree(nodes)) => nodes as u64,
        Ok(Answer::Messages(records)) => MESSAGES + (records as u64),
        Err(unread) => refusal(unread),
    }
}

// The answer of the writer, of export and of import as one number.
fn counted_number(counted: Result<usize, Refusal>) -> u64
    requires { FitsCount counted }
    ensures { result ≡ count_number counted }
{
    match counted {
        Ok(count) => count as u64,
        Err(refused) => refusal(refused),
    }
}

// Reads a list: `parse`, with its answer as one number.
#[unsafe(no_mangle)]
pub extern "C" fn sorbrudder_parse(
    list: &[u32],
    tree: &mut [u32],
    messages: &mut [u32],
    work: &mut [u32],
    source_length: u64,
    version: i16,
    used_low: u64,
    used_high: u64,
    limit: u32,
) -> u64
    ensures { HasParsedTo
        (parse_call list.now tree.old messages.old work.old
        source_length version used_low used_high limit)
        result tree.new messages.new work.new }
{
    let answer = parse(
        list,
        tree,
        messages,
        work,
        source_length,
        version,
        used_low,
        used_high,
        limit,
    );
    parsed_number(answer)
}

// Writes a plain tree: `write`, with its answer as one number.
#[unsafe(no_mangle)]
pub extern "C" fn sorbrudder_write(tree: &[u32], list: &mut [u32]) -> u64
    ensures value { result ≡ write_number (write_answered (call tree.now list.old)) }
    ensures list_after { list.new ≡ list_after (call tree.now list.old) }
{
    let written = write(tree, list);
    counted_number(written)
}

// Puts a tree into stack order: `export`, with its answer as one number.
#[unsafe(no_mangle)]
pub extern "C" fn sorbrudder_export(tree: &[u32], output: &mut [u32]) -> u64
    ensures value { result ≡ reorder_number (export_answered (reorder_call tree.now output.old)) }
    ensures output_after { output.new ≡ exported_after (reorder_call tree.now output.old) }
{
    let exported = export(tree, output);
    counted_number(exported)
}

// Takes a tree from stack order: `import`, with its answer as one number.
#[unsafe(no_mangle)]
pub extern "C" fn sorbrudder_import(words: &[u32], output: &mut [u32]) -> u64
    ensures value { result ≡ reorder_number (import_answered (reorder_call words.now output.old)) }
    ensures output_after { output.new ≡ imported_after (reorder_call words.now output.old) }
{
    let imported = import(words, output);
    counted_number(imported)
}
