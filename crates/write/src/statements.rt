// The writing of a script: what each statement holds, and behind it a semicolon with the span of that child and payload 0. The root and
// the statements have no tokens of their own. Leans on spell, ops and words.
ghost use Rattle.std.specs.Prelude.{◌≡◌, ◌+◌, ◌*◌, length, drop};
ghost use Rattle.molang.specs.WriteEntry.{trees_of};
ghost use Rattle.words.specs.Records.{laid_at};
ghost use Rattle.words.specs.Tokens.{node_length};
ghost use Rattle.write.specs.Spelling.{first_size};
ghost use Rattle.write.specs.Scripts.{statement_written, statements_written, StatementRoom, ScriptRoom};

use crate::spell::{Pen, write_node};
use ops::op;
use words::fields;
use words::tokens::TokenWords;

// Writes the statement that the words open with; gives back how many words it fills. What it holds gets no added pair, so what the pen has
// seen is not asked for.
fn write_statement(words: &[u32], list: &mut [u32], pen: &mut Pen) -> usize
    requires { StatementRoom words.now list.old pen.old.to }
    ensures value { result ≡ node_length * first_size (trees_of words.now) }
    ensures list_after { list.new ≡ laid_at pen.old.to (statement_written words.now) list.old }
    ensures to_after { pen.new.to ≡ pen.old.to + length (statement_written words.now) }
{
    let held = &words[fields::NODE_WORDS..];
    let written = write_node(held, list, pen);
    pen.put(list, TokenWords::at(held, 0).bare(op::SEMICOLON));
    fields::NODE_WORDS + written.len()
}

// Writes the statements of a script from the list's front on. `fill` has seen that the list has room, and `judge` that the tree is plain.
// (No `for`: each statement says how many words it fills.)
pub fn write_statements(tree: &[u32], list: &mut [u32])
    requires { ScriptRoom tree.now list.old }
    ensures { list.new ≡ laid_at 0 (statements_written (drop node_length tree.now)) list.old }
{
    let mut pen = Pen::new(0);
    let mut at = fields::NODE_WORDS;
    while at < tree.len() {
        at += write_statement(&tree[at..], list, &mut pen);
    }
}
