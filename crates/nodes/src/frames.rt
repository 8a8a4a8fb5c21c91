// Lists under work and their frames. A list is an array of slots on the stack; while the children of one of its items are
// worked on, its frame, six words, stands right above it, and the inner list above that. Leans on words.
ghost use Rattle.std.specs.Prelude.{◌-◌};
ghost use Rattle.nodes.specs.Frames.{FrameAt, CanPush, Pushed, CanPop};

use words::fields::wide;

// A list under work: the len slots from base on, the children of `owner`. From the left, items that are done stand in
// [0, write) and unread ones in [read, len); from the right, unread ones in [0, read) and items that are done in [write, len).
#[derive(Clone, Copy)]
pub struct List {
    pub owner: u32,
    pub base: usize,
    pub len: usize,
    pub read: usize,
    pub write: usize,
}

// What a pass holds of a list, as two words.
#[derive(Clone, Copy)]
pub struct Held {
    pub first: u32,
    pub second: u32,
}

impl Held {
    pub const NONE: Self = Self {
        first: 0,
        second: 0,
    };
}

// A list as it was left, with what the pass held of it.
#[derive(Clone, Copy)]
pub struct Frame {
    pub list: List,
    pub held: Held,
}

// Writes the frame of a list right above it, and gives back the first word past the frame. `driver::descend` has room for it.
pub fn push(work: &mut [u32], list: List, held: Held) -> usize
    requires { CanPush work.old list }
    ensures { Pushed work.old list held result work.new }
{
    let top = list.base + list.len;
    work[top] = list.owner;
    work[top + 1] = list.base as u32;
    work[top + 2] = list.read as u32;
    work[top + 3] = list.write as u32;
    work[top + 4] = held.first;
    work[top + 5] = held.second;
    top + 6
}

// The list whose frame ends right below `top`. `driver::close` calls it for a list that is not the outermost, below which a frame stands.
pub fn pop(work: &[u32], top: usize) -> Frame
    requires { CanPop work.now top }
    ensures { FrameAt work.now (top - 6) result.list result.held }
{
    let second = work[top - 1];
    let first = work[top - 2];
    let write = wide(work[top - 3]);
    let read = wide(work[top - 4]);
    let base = wide(work[top - 5]);
    let owner = work[top - 6];
    let list = List {
        owner,
        base,
        len: top - 6 - base,
        read,
        write,
    };
    let held = Held { first, second };
    Frame { list, held }
}
