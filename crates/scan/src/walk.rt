// The walk from a list's words to its tree's words: what `scan` finds is emitted. Leans on scan and emit.
ghost use Rattle.std.specs.Prelude.{◌≡◌};
ghost use Rattle.molang.specs.Parse.{in_halves};
ghost use Rattle.scan.specs.Walk.{CanWalk};
ghost use Rattle.scan.specs.Walked.{HasWalked};

use crate::emit::emit;
use crate::scan::scan;
use ops::sets::OpSet;

// Reads a well-formed text in one walk: gives back the number of nodes of its tree, whose words fill the front of the tree buffer; or
// nothing, and another way of reading has to be taken. `parse`'s `read` calls it, if `accept` found no fault, with buffers as long as the
// entry asks.
pub fn walk(
    list: &[u32],
    work: &mut [u32],
    tree: &mut [u32],
    n: usize,
    used: OpSet,
    version: i16,
) -> Option<usize>
    requires { CanWalk list.now work.old tree.old n }
    ensures { HasWalked list.now (in_halves used.low used.high) version tree.old tree.new result }
{
    let from = scan(list, work, used, version)?;
    let nodes = emit(list, work, tree, from);
    Some(nodes)
}
