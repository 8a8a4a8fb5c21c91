// Answer 24's walk, over a tree's words in stack order: the trees that they have done and the nodes that have begun. Leans on shape's walk
// and words.
ghost use Rattle.std.specs.Prelude.{◌≡◌, ◌≤◌};
ghost use Rattle.molang.specs.Words.{operator_field, count_field};
ghost use Rattle.molang.specs.WriteEntry.{most_nodes};
ghost use Rattle.molang.specs.StackOrder.{least_nodes, stack_fault};
ghost use Rattle.shape.specs.Answers.{place_of};
ghost use Rattle.stackorder.specs.Faults.{stack, order_start, order_after, order_fits, order_whole, order_faults, OrderHolds};
ghost use Rattle.stackorder.specs.FaultLaws.{order_walks};

use shape::walk::{self, Walk};
use shape::{Field, MOST_NODES};
use words::fields;

// How many trees the words so far have done, and how many nodes have begun.
#[derive(Clone, Copy)]
pub struct StackOrder {
    done: u32,
    begun: u32,
}

// How many nodes one tree of the words has at least after a count: one more where it leaves several trees.
fn least_nodes(done: u32, begun: u32) -> u32
    requires { begun ≤ most_nodes }
    ensures { result ≡ least_nodes count_field (stack done begun) }
{
    if done <= 1 { begun } else { begun + 1 }
}

impl Walk for StackOrder {
    ghost start = { order_start };

    ghost after = { order_after };

    ghost fits = { order_fits };

    ghost whole = { order_whole };

    ghost fault = { order_faults };

    ghost Holds = { OrderHolds };

    ghost walks = { order_walks };

    // No tree is done.
    fn start() -> Self {
        Self { done: 0, begun: 0 }
    }

    // An operator begins a node, a count makes one tree of those that it asks for.
    fn after(self, field: Field, w: u32) -> Self {
        match field {
            Field::Operator => Self {
                done: self.done,
                begun: self.begun + 1,
            },
            Field::Count => Self {
                done: self.done - fields::low(w) + 1,
                begun: self.begun,
            },
            _ => self,
        }
    }

    // As many trees are done as a count asks for, and a tree of the words has no more nodes than a tree may have.
    fn fits(self, field: Field, w: u32) -> bool {
        match field {
            Field::Operator => self.begun < MOST_NODES,
            Field::Count => {
                let asked = fields::low(w);
                if self.done < asked {
                    return false;
                }
                least_nodes(self.done - asked + 1, self.begun) <= MOST_NODES
            }
            _ => true,
        }
    }

    // A node has just ended, and one tree is done.
    fn is_whole(self, field: Field) -> bool {
        match field {
            Field::Operator => self.done == 1,
            _ => false,
        }
    }

    // It is to leave room for one node more, which joins the trees where several are left; so a 12,288th node is judged word by word.
    fn fits_node(self, count: u32) -> bool {
        if MOST_NODES - 2 < self.begun {
            return false;
        }
        fields::low(count) <= self.done
    }

    fn after_node(self, count: u32) -> Self {
        Self {
            done: self.done - fields::low(count) + 1,
            begun: self.begun + 1,
        }
    }
}

// The first word that cannot continue one tree in stack order, or the number of words where they run out; none where they are one tree.
pub fn stack_fault(words: &[u32]) -> Option<usize>
    ensures { place_of result ≡ stack_fault 0 operator_field 0 (stack 0 0) words.now }
{
    walk::first_fault::<StackOrder>(words)
}
