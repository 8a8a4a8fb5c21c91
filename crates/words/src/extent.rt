// The extent of a node: the least start and the greatest end among its own span and those of all nodes below it
// (`full_span` of ast.rs), found over preorder tree words. Leans on the fields; specs/Extents has the definition's.
ghost use Rattle.std.specs.Prelude.{◌≡◌, ◌<◌, ◌^◌, length};
ghost use Rattle.molang.specs.WriteEntry.{trees_of};
ghost use Rattle.words.specs.Extents.{wider, first_extent};

use crate::fields;

#[derive(Clone, Copy)]
pub struct Extent {
    pub start: u32,
    pub end: u32,
}

// A span of two words taken into an extent.
pub fn widened(seen: Extent, start_word: u32, end_word: u32) -> Extent
    ensures { result ≡ wider seen start_word end_word }
{
    Extent {
        start: seen.start.min(fields::low(start_word)),
        end: seen.end.max(fields::low(end_word)),
    }
}

// The extent of the tree that the words open with, by a loop over its nodes: each one's span is taken in, and its children are called for
// before the trees after it. The caller has laid the tree out in the work buffer, in seven words for each of 12,288 nodes at most.
pub fn of_tree(words: &[u32]) -> Extent
    requires { length words.now < 2 ^ 34 }
    ensures { result ≡ first_extent (trees_of words.now) }
{
    let mut seen = Extent {
        start: fields::KIND - 1,
        end: 0,
    };
    let mut trees = 1usize;
    for node in words.chunks_exact(fields::NODE_WORDS) {
        if trees == 0 {
            break;
        }
        seen = widened(seen, node[fields::START_FIELD], node[fields::END_FIELD]);
        let below = fields::low(node[fields::COUNT_FIELD]) as usize;
        trees = trees - 1 + below;
    }
    seen
}
