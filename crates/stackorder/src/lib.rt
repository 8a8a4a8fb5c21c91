// Stack order: a tree's words with each node's seven after those of its children. Export gives that order, import takes it; each judges
// the words first, then the output's length, so a call that is turned back leaves the output as it was. Leans on shape and words.
#![tactic(auto)]

mod fault;
mod refusal;
mod reorder;

ghost use Rattle.std.specs.Prelude.{◌≡◌};
ghost use Rattle.molang.specs.StackOrder.{export_answered, exported_after, import_answered, imported_after};
ghost use Rattle.stackorder.specs.Answers.{told_of, call};

use crate::fault::stack_fault;
use crate::refusal::{faultless, roomy};
use crate::reorder::{Direction, reorder};
use shape::first_fault;
use words::fields;
use words::refusals::{Reason, Refusal};

// A tree's words in stack order: the number of nodes, or why the call is turned back.
pub fn export(tree: &[u32], output: &mut [u32]) -> Result<usize, Refusal>
    ensures result_value { told_of result ≡ export_answered (call tree.now output.old) }
    ensures output_after { output.new ≡ exported_after (call tree.now output.old) }
{
    let one_tree = faultless(Reason::NotOneTree, first_fault(tree));
    let room = roomy(tree.len(), output.len());
    one_tree.and(room)?;
    reorder(tree, output, Direction::Forward);
    Ok(tree.len() / fields::NODE_WORDS)
}

// A tree's words of words in stack order: the number of nodes, or why the call is turned back.
pub fn import(words: &[u32], output: &mut [u32]) -> Result<usize, Refusal>
    ensures result_value { told_of result ≡ import_answered (call words.now output.old) }
    ensures output_after { output.new ≡ imported_after (call words.now output.old) }
{
    let one_stack = faultless(Reason::NotOneStack, stack_fault(words));
    let room = roomy(words.len(), output.len());
    one_stack.and(room)?;
    reorder(words, output, Direction::Backward);
    Ok(words.len() / fields::NODE_WORDS)
}
