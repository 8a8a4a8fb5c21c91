// Answer 12's walk, over a tree's words: the nodes that they call for and those that have begun. Leans on the walk and words.
ghost use Rattle.shape.specs.Trees.{tree_start, tree_stepped, tree_fits, tree_whole, tree_faults, TreeHolds};
ghost use Rattle.shape.specs.TreeLaws.{tree_walks};

use crate::walk::Walk;
use crate::{Field, MOST_NODES};
use words::fields;

// How many nodes the words so far call for, and how many of them have begun.
#[derive(Clone, Copy)]
pub struct TreeOrder {
    called: u32,
    begun: u32,
}

impl Walk for TreeOrder {
    ghost start = { tree_start };

    ghost after = { tree_stepped };

    ghost fits = { tree_fits };

    ghost whole = { tree_whole };

    ghost fault = { tree_faults };

    ghost Holds = { TreeHolds };

    ghost walks = { tree_walks };

    // The root is called for.
    fn start() -> Self {
        Self {
            called: 1,
            begun: 0,
        }
    }

    // An operator begins a node, a count calls for the node's children.
    fn after(self, field: Field, w: u32) -> Self {
        match field {
            Field::Operator => Self {
                called: self.called,
                begun: field.begun_after(self.begun),
            },
            Field::Count => Self {
                called: self.called + fields::low(w),
                begun: self.begun,
            },
            _ => self,
        }
    }

    // A node is still called for, and no more nodes are than a tree may have.
    fn fits(self, field: Field, w: u32) -> bool {
        match field {
            Field::Operator => self.begun < self.called,
            Field::Count => self.called + fields::low(w) <= MOST_NODES,
            _ => true,
        }
    }

    // A node has just ended, and none is called for any more.
    fn is_whole(self, field: Field) -> bool {
        match field {
            Field::Operator => self.begun == self.called,
            _ => false,
        }
    }

    fn fits_node(self, count: u32) -> bool {
        self.begun < self.called && self.called + fields::low(count) <= MOST_NODES
    }

    fn after_node(self, count: u32) -> Self {
        Self {
            called: self.called + fields::low(count),
            begun: self.begun + 1,
        }
    }
}
