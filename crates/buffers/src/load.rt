// Loading: the tokens of a checked list become leaves of the node store, and their slots the flat list on the stack.
// Leans on nodes, ops (the class table) and words.
ghost use Rattle.buffers.specs.Load.{CanLoadToken, TokenLoaded, CanLoad, Loaded};

use nodes::slots;
use nodes::stored::StoredWords;
use ops::classes::{class, class_table};
use words::fields;
use words::tokens::TokenWords;

// Token i becomes a leaf at its slot, and its slot the i-th word of the stack.
fn load_token(list: &[u32], work: &mut [u32], table: &[u32; 111], i: usize, stack: usize)
    requires { CanLoadToken list.now work.old table.now i stack }
    ensures { TokenLoaded list.now work.old i stack work.new }
{
    let slot = slots::slot_of(i as u32);
    let token = TokenWords::at(list, fields::TOKEN_WORDS * i);
    let classes = class(table, fields::operator_bits(token.operator));
    slots::set_leaf(work, slot, StoredWords::from(token), classes);
    work[stack + i] = slot;
}

// Loads the n tokens of a list. `parse::read` calls it if `accept` found no fault.
pub fn load(list: &[u32], work: &mut [u32], n: usize)
    requires { CanLoad list.now work.old n }
    ensures { Loaded list.now work.old n work.new }
{
    let table = class_table();
    let stack = slots::stack_of(n);
    for i in 0..n {
        load_token(list, work, &table, i, stack);
    }
}
