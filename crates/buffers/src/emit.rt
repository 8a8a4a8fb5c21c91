// Emission: a tree of the node store as preorder tree words, laid out in the work buffer and copied to the caller's, and the
// clearing of the work buffer. Leans on nodes and words.
ghost use Rattle.std.specs.Prelude.{◌≡◌, ◌+◌, ◌*◌, ◌^◌, ◌≤◌, ◌<◌, length, replicate};
ghost use Rattle.molang.specs.Parse.{in_front};
ghost use Rattle.buffers.specs.Emit.{CanEmitNode, NodeEmitted, Stepped, CanEmit, Emitted, CanLayOut, LaidOut};

use nodes::{children, slots};
use words::fields;
use words::tokens::TokenWords;

// Where emission goes after a node: the next node, 0 at the end, as a slot links it, and the top of the siblings that wait.
#[derive(Clone, Copy)]
pub struct After {
    pub next: u32,
    pub top: usize,
}

// Writes the seven words of the node at slot s to the words from `at` on.
fn emit_node(work: &mut [u32], s: u32, at: usize)
    requires { CanEmitNode work.old s at }
    ensures { NodeEmitted work.old s at work.new }
{
    let token = slots::token_of(work, s);
    let children = children::count_chain(work, slots::first_of(work, s));
    TokenWords::from(token).lay_node(work, at, children, token.close);
}

// The node after one in preorder, of the node's first child and next sibling: the child, and the sibling waits; or the sibling; or the last
// one that waits. Those that wait stand in the words from `stack` up to `top`. `emit` has counted both.
fn node_after(work: &mut [u32], first: u32, next: u32, stack: usize, top: usize) -> After
    requires { (stack ≤ top) × (top < length work.old) }
    ensures { Stepped work.old first next stack top result.next result.top work.new }
{
    if first == 0 {
        if next != 0 {
            return After { next, top };
        }
        if top == stack {
            return After { next, top };
        }
        let waiting = work[top - 1];
        return After {
            next: waiting,
            top: top - 1,
        };
    }
    if next == 0 {
        return After { next: first, top };
    }
    work[top] = next;
    After {
        next: first,
        top: top + 1,
    }
}

// Writes the trees of the chain from `first` on, each parent before its children, to the words from `to` on, and gives
// back their number of nodes. Siblings that wait stand in the words from `stack` on. `lay_out` and `parse`'s `extent_of` have trees of at
// most three nodes for each token, and 64 words for each token and 64 more. A node's links are read before its words are written: the
// compiler cannot know that they stay as they were.
pub fn emit(work: &mut [u32], first: u32, to: usize, stack: usize) -> usize
    requires { CanEmit work.old first to stack }
    ensures { Emitted work.old first to stack result work.new }
{
    let mut s = first;
    let mut top = stack;
    let mut nodes = 0usize;
    while s != 0 {
        let child = slots::first_of(work, s);
        let sibling = slots::next_of(work, s);
        emit_node(work, s, to + fields::NODE_WORDS * nodes);
        nodes += 1;
        let after = node_after(work, child, sibling, stack, top);
        s = after.next;
        top = after.top;
    }
    nodes
}

// Copies words to the front of the tree buffer. `lay_out` has room for them.
pub fn copy_tree(words: &[u32], tree: &mut [u32])
    requires { length words.now ≤ length tree.old }
    ensures { tree.new ≡ in_front words.now tree.old }
{
    // Not by `copy_from_slice`, with which the archive for C needs `memmove` from outside.
    for i in 0..words.len() {
        tree[i] = words[i];
    }
}

// Where the tree words of n tokens are laid out in the work buffer: above the siblings that wait during their emission. The callers have
// at most 4,096 tokens.
pub fn tree_of(n: usize) -> usize
    requires { 28 * n + 28 < 2 ^ 64 }
    ensures { result ≡ 28 * n + 28 }
{
    28 * n + 28
}

// The words of the tree at `root`, which has no sibling after it, become the front of the tree buffer; gives back its number of nodes.
// `parse`'s `fill_roots` calls it for the one root that the passes left, with buffers as long as the entry asks.
pub fn lay_out(work: &mut [u32], tree: &mut [u32], root: u32, n: usize) -> usize
    requires { CanLayOut work.old tree.old root n }
    ensures { LaidOut work.old tree.old root n result work.new tree.new }
{
    let to = tree_of(n);
    let nodes = emit(work, root, to, slots::stack_of(n));
    let end = to + fields::NODE_WORDS * nodes;
    copy_tree(&work[to..end], tree);
    nodes
}

// Every word of the work buffer becomes 0.
pub fn clear(work: &mut [u32])
    ensures { work.new ≡ replicate (length work.old) 0 }
{
    work.fill(0);
}
