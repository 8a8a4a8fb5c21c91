// A reader over the lent tree words that carries its position, the index of a node's first word: `next` gives what is seen of the node and
// moves the reader behind it. The loops of `plain` go through one tree by whole nodes. Leans on words.
ghost use Rattle.std.specs.Prelude.{◌≡◌};
ghost use Rattle.write.specs.Reading.{operator_at, reader_at};

use words::fields;

#[derive(Clone, Copy)]
pub struct TreeReader<'a> {
    words: &'a [u32],
    at: usize,
}

// What is seen of a node: where it stands, its operator, its children and the next node's operator, 0 after the last.
#[derive(Clone, Copy)]
pub struct NodeView {
    pub at: usize,
    pub op: u32,
    pub children: u32,
    pub next: u32,
}

// The operator of the node that starts at `at`, 0 past the last.
fn operator_at(words: &[u32], at: usize) -> u32
    ensures { result ≡ operator_at words.now at }
{
    if at < words.len() {
        return fields::operator(words[at]);
    }
    0
}

impl<'a> TreeReader<'a> {
    pub fn new(words: &'a [u32], at: usize) -> TreeReader<'a>
        ensures { result ≡ reader_at words.entry at }
    {
        TreeReader { words, at }
    }
}

impl<'a> Iterator for TreeReader<'a> {
    ghost use Rattle.write.specs.Reading.{PassesNode, words_left};

    type Item = NodeView;

    ghost next_gives = { PassesNode };

    ghost remaining = { words_left };

    // The node that the reader stands at, if the words hold all of it; the reader then stands behind it.
    fn next(&mut self) -> Option<NodeView> {
        let at = self.at;
        let after = at.saturating_add(fields::NODE_WORDS);
        if self.words.len() < after {
            return None;
        }
        self.at = after;
        Some(NodeView {
            at,
            op: fields::operator(self.words[at]),
            children: fields::low(self.words[at + fields::COUNT_FIELD]),
            next: operator_at(self.words, after),
        })
    }
}
