// The write entry: the words of a plain tree become the words of a token list. What turns a call back is found first, from the
// table's top and without recursion, so a tree that cannot be written leaves the list as it was and takes little of the call stack.
// Leans on shape, words and ops.
#![tactic(auto)]

mod plain;
mod reader;
mod spell;
mod statements;

ghost use Rattle.std.specs.Prelude.{◌≡◌};
ghost use Rattle.molang.specs.WriteEntry.{write_answered, list_after, trees_of};
ghost use Rattle.write.specs.Answers.{told_of, filling, filled, call};
ghost use Rattle.write.specs.Spelling.{Writable};

use crate::plain::judge;
use crate::spell::{Pen, write_node};
use crate::statements::write_statements;
use ops::op;
use shape::first_fault;
use words::fields;
use words::refusals::{Reason, Refusal};

// Writes a plain tree of so many tokens, if the list has room for them: of a root semicolon its statements, of any other root the
// expression.
fn fill(tree: &[u32], list: &mut [u32], tokens: usize) -> Result<usize, Refusal>
    requires { Writable tree.now tokens }
    ensures result_value { told_of result ≡ filling (trees_of tree.now) list.old }
    ensures list_after { list.new ≡ filled (trees_of tree.now) list.old }
{
    if fields::MOST_TOKENS < tokens {
        return Err(Reason::WrittenTooLong.at(0));
    }
    if list.len() < fields::TOKEN_WORDS * tokens {
        return Err(Reason::ShortList.at(0));
    }
    if fields::operator(tree[0]) == op::SEMICOLON {
        write_statements(tree, list);
    } else {
        write_node(tree, list, &mut Pen::new(0));
    }
    Ok(tokens)
}

// The entry.
pub fn write(tree: &[u32], list: &mut [u32]) -> Result<usize, Refusal>
    ensures result_value { told_of result ≡ write_answered (call tree.now list.old) }
    ensures list_after { list.new ≡ list_after (call tree.now list.old) }
{
    if let Some(place) = first_fault(tree) {
        return Err(Reason::NotOneTree.at(place));
    }
    let tokens = judge(tree)?;
    fill(tree, list, tokens)
}
