// A tree's nodes in the other order, by one loop without recursion: preorder is read and stack order written from the left, or stack
// order is read and preorder written from the right, which is the same walk over a tree and over its mirror image. A node is known by
// its end, the index after its seven words. The open nodes, whose children are not all out, wait in the output's own words: the
// innermost is in the cursor, the others stand in the words of the nodes that go out last. Leans on words.
ghost use Rattle.std.specs.Prelude.{◌≡◌, ◌≢◌, ◌^◌, ◌≤◌, ◌<◌, length};
ghost use Rattle.words.specs.Tokens.{node_length};
ghost use Rattle.stackorder.specs.Reorder.{other_way, first_end, next_end, EndsIn, CanTurn, copied, on_leaving, on_passing, on_entering};
ghost use Rattle.stackorder.specs.Reorder.{waiting, Turned, CanReorder, HasReordered};

use words::fields;

// Forward makes stack order of preorder, from the left; backward makes preorder of stack order, from the right.
#[derive(Clone, Copy)]
pub enum Direction {
    Forward,
    Backward,
}

// How far the walk is: the ends of the next node to be read, of the next to be written and of the next words in which an open node can
// wait; the innermost open node, and how many of its children are left to be read.
#[derive(Clone, Copy)]
struct Cursor {
    read: usize,
    written: usize,
    free: usize,
    node: usize,
    left: u32,
}

impl Direction {
    // The opposite direction.
    fn turned(self) -> Direction
        ensures { result ≡ other_way self }
    {
        match self {
            Direction::Forward => Direction::Backward,
            Direction::Backward => Direction::Forward,
        }
    }

    // The end of the first node of so many words.
    fn first(self, words: usize) -> usize
        ensures { result ≡ first_end self words }
    {
        match self {
            Direction::Forward => fields::NODE_WORDS,
            Direction::Backward => words,
        }
    }

    // The end of the node after the one that ends at `to`.
    fn next(self, to: usize) -> usize
        requires { (node_length ≤ to) × (to < 2 ^ 32) }
        ensures { result ≡ next_end self to }
    {
        match self {
            Direction::Forward => to + fields::NODE_WORDS,
            Direction::Backward => to - fields::NODE_WORDS,
        }
    }
}

// Copies the node that ends at `from` to the words that end at `to`.
fn copy(words: &[u32], from: usize, output: &mut [u32], to: usize)
    requires { EndsIn (length words.now) from × EndsIn (length output.old) to }
    ensures { output.new ≡ copied words.now from to output.old }
{
    let source = from - fields::NODE_WORDS;
    let target = to - fields::NODE_WORDS;
    output[target..to].copy_from_slice(&words[source..from]);
}

// No child is left: the innermost open node goes out, and the last one that waits is the innermost. It is read first: it may wait
// in the words to which the other goes.
fn leave(words: &[u32], output: &mut [u32], direction: Direction, cursor: Cursor) -> Cursor
    requires can_turn { CanTurn direction (length words.now) (length output.old) cursor }
    requires left_value { cursor.left ≡ 0 }
    ensures value { result ≡ on_leaving direction output.old cursor }
    ensures output_after { output.new ≡ copied words.now cursor.node cursor.written output.old }
{
    let top = direction.next(cursor.free);
    let at = top - fields::NODE_WORDS;
    let node = fields::wide(output[at]);
    let left = output[at + 1];
    copy(words, cursor.node, output, cursor.written);
    Cursor {
        read: cursor.read,
        written: direction.next(cursor.written),
        free: top,
        node,
        left,
    }
}

// The next node is a leaf: it goes out at once.
fn pass(words: &[u32], output: &mut [u32], direction: Direction, cursor: Cursor) -> Cursor
    requires can_turn { CanTurn direction (length words.now) (length output.old) cursor }
    requires left_nonzero { cursor.left ≢ 0 }
    ensures value { result ≡ on_passing direction cursor }
    ensures output_after { output.new ≡ copied words.now cursor.read cursor.written output.old }
{
    copy(words, cursor.read, output, cursor.written);
    Cursor {
        read: direction.next(cursor.read),
        written: direction.next(cursor.written),
        free: cursor.free,
        node: cursor.node,
        left: cursor.left - 1,
    }
}

// The next node has children: it is the innermost, and the one that was waits.
fn enter(
    words: &[u32],
    output: &mut [u32],
    direction: Direction,
    cursor: Cursor,
    children: u32,
) -> Cursor
    requires can_turn { CanTurn direction (length words.now) (length output.old) cursor }
    requires left_nonzero { cursor.left ≢ 0 }
    ensures value { result ≡ on_entering direction children cursor }
    ensures output_after { output.new ≡ waiting cursor output.old }
{
    let at = cursor.free - fields::NODE_WORDS;
    output[at] = cursor.node as u32;
    output[at + 1] = cursor.left - 1;
    Cursor {
        read: direction.next(cursor.read),
        written: cursor.written,
        free: direction.turned().next(cursor.free),
        node: cursor.read,
        left: children,
    }
}

// One turn: a node goes out, or one that has children is read.
fn turn(words: &[u32], output: &mut [u32], direction: Direction, cursor: Cursor) -> Cursor
    requires { CanTurn direction (length words.now) (length output.old) cursor }
    ensures { Turned direction words.now output.old cursor result output.new }
{
    if cursor.left == 0 {
        return leave(words, output, direction, cursor);
    }
    let at = cursor.read - fields::NODE_WORDS;
    let children = fields::low(words[at + fields::COUNT_FIELD]);
    if children == 0 {
        return pass(words, output, direction, cursor);
    }
    enter(words, output, direction, cursor, children)
}

// The walk. It begins as if a node of one child, the root, were open; whatever stands for that node never goes out.
// Its turns are not counted by a `for`: one that enters a node writes none, and the end is where the last node is written. `export` and
// `import` call it where nothing turns the call back: the words are one tree, and the output has room for them.
pub fn reorder(words: &[u32], output: &mut [u32], direction: Direction)
    requires { CanReorder direction words.now output.old }
    ensures { HasReordered direction words.now output.old output.new }
{
    let start = direction.first(words.len());
    let last = direction.turned().first(words.len());
    let past = direction.next(last);
    let mut cursor = Cursor {
        read: start,
        written: start,
        free: last,
        node: start,
        left: 1,
    };
    while cursor.written != past {
        cursor = turn(words, output, direction, cursor);
    }
}
