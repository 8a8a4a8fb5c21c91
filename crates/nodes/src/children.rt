// Child lists: a chain of slots from a node's first child on. A list is taken from a chain to an array on the stack, and given back
// from an array to a chain. A node that is given children notes the classes of all of them.
// The functions ask that the slots' words lie within the buffer, and that a chain's or an array's slots rise. The callers have this from
// the store (specs/Store), whose trees stand in intervals of slots that rise, below the stack. Leans on the slots and ops.
ghost use Rattle.std.specs.Prelude.{◌≢◌, ◌≤◌, length};
ghost use Rattle.nodes.specs.Store.{slot_end};
ghost use Rattle.nodes.specs.Children.{Attached, AttachedTwo, CanTake, Taken, CanGive, Given, CanFollow, Counted, IsLast};

use crate::slots::{classes_of, next_of, set_classes, set_first, set_next};
use ops::classes::TokenClasses;

// `child` becomes the only child of `parent`.
pub fn attach(work: &mut [u32], parent: u32, child: u32)
    requires { (slot_end parent ≤ length work.old) × (slot_end child ≤ length work.old) }
    ensures { Attached work.old parent child work.new }
{
    set_first(work, parent, child);
    set_next(work, child, 0);
    let below = classes_of(work, child);
    set_classes(work, parent, below);
}

// `left` and `right` become the children of `parent`. They are two trees of the store wherever it is called, so they differ.
pub fn attach_two(work: &mut [u32], parent: u32, left: u32, right: u32)
    requires { (slot_end parent ≤ length work.old) × (slot_end left ≤ length work.old)
        × (slot_end right ≤ length work.old) × (left ≢ right) }
    ensures { AttachedTwo work.old parent left right work.new }
{
    set_first(work, parent, left);
    set_next(work, left, right);
    set_next(work, right, 0);
    let below = classes_of(work, left).union(classes_of(work, right));
    set_classes(work, parent, below);
}

// Copies the slots of the chain from `first` on to the words from `to` on, and gives back their number. `driver::open` has room for them.
// Most chains have one or two: a turn takes two, so that the first and the second are taken at two places of the code, as `count_chain`
// reads them. An iterator would hold the words that this writes.
pub fn take_chain(work: &mut [u32], first: u32, to: usize) -> usize
    requires { CanTake work.old first to }
    ensures { Taken work.old first to result work.new }
{
    let mut s = first;
    let mut i = to;
    while s != 0 {
        work[i] = s;
        i += 1;
        s = next_of(work, s);
        if s == 0 {
            return i - to;
        }
        work[i] = s;
        i += 1;
        s = next_of(work, s);
    }
    i - to
}

// The n slots that stand in the words from `from` on become the children of `parent`; with none it becomes a leaf of no class,
// as an opener is.
pub fn give_children(work: &mut [u32], parent: u32, from: usize, n: usize)
    requires { CanGive work.old parent from n }
    ensures { Given work.old parent from n work.new }
{
    let mut head = 0u32;
    let mut below = TokenClasses::NONE;
    for i in (0..n).rev() {
        let s = work[from + i];
        set_next(work, s, head);
        below = below.union(classes_of(work, s));
        head = s;
    }
    set_first(work, parent, head);
    set_classes(work, parent, below);
}

// How many slots the chain from `first` on has. Most have one or two: these are read one by one, so that the first children of a
// tree's nodes are read at one place of the code and the second at another. The processor then foresees where they stand: one loop for all
// of them, by hand or over an iterator, took a tenth longer on 4,096 tokens.
pub fn count_chain(work: &[u32], first: u32) -> u32
    requires { CanFollow work.now first }
    ensures { Counted work.now first result }
{
    if first == 0 {
        return 0;
    }
    let second = next_of(work, first);
    if second == 0 {
        return 1;
    }
    let mut s = next_of(work, second);
    let mut n = 2u32;
    while s != 0 {
        n += 1;
        s = next_of(work, s);
    }
    n
}

// The last slot of the chain from `first` on, which is not empty: `report_roots` calls it if there are several roots.
pub fn last_of_chain(work: &[u32], first: u32) -> u32
    requires { CanFollow work.now first × (first ≢ 0) }
    ensures { IsLast work.now first result }
{
    let mut last = first;
    let mut s = next_of(work, first);
    while s != 0 {
        last = s;
        s = next_of(work, s);
    }
    last
}
