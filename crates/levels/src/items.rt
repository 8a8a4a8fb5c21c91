// Reading on in a list under work, from the left: items without a token of the pass move to the done ones as they are.
// Leans on nodes (slots, frames) and ops (classes).
ghost use Rattle.std.specs.Prelude.{◌≡◌, ◌+◌, ◌^◌, ◌≤◌, ◌<◌, length, set};
ghost use Rattle.nodes.specs.Store.{slot_end};
ghost use Rattle.levels.specs.Passes.{moved_to};
ghost use Rattle.levels.specs.Items.{CanPeek, next_if, inner_at, CanSeek, Sought};

use nodes::frames::List;
use nodes::slots;
use ops::classes::TokenClasses;

// What `next_token` stops at: the end, a node with leaves of the pass below it, or a token of the pass.
#[derive(Clone, Copy)]
pub enum Found {
    Nothing(List),
    Children(List, u32),
    Token(List, u32),
}

// The list read and written up to these items.
pub fn moved(list: List, read: usize, write: usize) -> List
    ensures { result ≡ moved_to list read write }
{
    List {
        owner: list.owner,
        base: list.base,
        len: list.len,
        read,
        write,
    }
}

// The list with its next item read. Each caller has looked at that item, so it is in the list.
pub fn past(list: List) -> List
    requires { list.read + 1 < 2 ^ 64 }
    ensures { result ≡ moved_to list (list.read + 1) list.write }
{
    moved(list, list.read + 1, list.write)
}

// The list with `item` after its done items. Each caller has read more items than are done, so a word is free.
pub fn keep(work: &mut [u32], list: List, item: u32) -> List
    requires { list.base + list.write < length work.old }
    ensures { (result ≡ moved_to list list.read (list.write + 1))
        × (work.new ≡ set work.old (list.base + list.write) item) }
{
    let at = list.base + list.write;
    work[at] = item;
    moved(list, list.read, list.write + 1)
}

// The next unread item if it is of op (`next_if` of driver.rs). The call and array passes have a list whose unread items are trees
// of the store below the stack (`can-peek` of proofs/Reading).
pub fn next_if(work: &[u32], list: List, op: u32) -> Option<u32>
    requires { CanPeek work.now list }
    ensures { result ≡ next_if work.now list op }
{
    if list.read == list.len {
        return None;
    }
    let at = list.base + list.read;
    let item = work[at];
    if slots::operator_of(work, item) == op {
        return Some(item);
    }
    None
}

// Whether `item` is a node with leaves of `classes` below it. `binary::folded` asks it of the next item, a tree of the store.
pub fn is_inner(work: &[u32], item: u32, classes: TokenClasses) -> bool
    requires { slot_end item ≤ length work.now }
    ensures { result ≡ inner_at work.now item classes.0 }
{
    if slots::is_leaf(work, item) {
        return false;
    }
    slots::classes_of(work, item).intersects(classes)
}

// Moves items to the done ones as they are, up to the next one with a leaf of `classes` at or below it, which it reads. The driver's `seek`
// and `statements::step` call it with a list at a turn.
pub fn next_token(work: &mut [u32], list: List, classes: TokenClasses) -> Found
    requires { CanSeek work.old list }
    ensures { Sought work.old list classes.0 result work.new }
{
    let base = list.base;
    let mut write = list.write;
    for read in list.read..list.len {
        let item = work[base + read];
        if slots::classes_of(work, item).intersects(classes) {
            let after = moved(list, read + 1, write);
            if slots::is_leaf(work, item) {
                return Found::Token(after, item);
            }
            return Found::Children(after, item);
        }
        work[base + write] = item;
        write += 1;
    }
    Found::Nothing(moved(list, list.len, write))
}
