// The binary levels: each leaf of the level's operators takes its neighbours as children, from the left (binary.rs). `driver::token` calls
// `operator` with the token that `next_token` stopped at, and `driver::resume` calls `resume` after an item's children.
// Leans on levels (turns, items), nodes (slots, chains) and ops.
ghost use Rattle.std.specs.Prelude.{ℕ, List as Words};
ghost use Rattle.molang.specs.Operator.{is_one_of};
ghost use Rattle.levels.specs.Passes.{walk_of, Covers};
ghost use Rattle.levels.specs.Turns.{CanResume, Resumed};
ghost use Rattle.passes.specs.TokenTurns.{AtToken, LevelTurned};
ghost use Rattle.passes.specs.Binary.{CanFold, Folded, CanSearch, LeafFound, CanOperate, Operated};

use levels::failure::Failure;
use levels::turns::{Pass, Turn, Walk};
use levels::{items, turns};
use nodes::frames::List;
use nodes::{children, slots};
use ops::classes::TokenClasses;

// `operator` takes the last done item and `right`, done itself, as its children, and stands in the word of that item.
fn fold(work: &mut [u32], list: List, operator: u32, right: u32)
    requires { CanFold work.old list operator right }
    ensures { Folded work.old list operator right work.new }
{
    let at = list.base + list.write - 1;
    let left = work[at];
    children::attach_two(work, operator, left, right);
    work[at] = operator;
}

// The level after the children of `item`: it is the right side of the operator that waits, or, where that is 0 in the pass's state, goes to
// the done items.
pub fn resume(work: &mut [u32], list: List, item: u32, classes: TokenClasses, pending: u32) -> Walk
    requires { CanResume work.old (walk_of list (Pass.Binary classes pending)) item }
    ensures { Resumed work.old (walk_of list (Pass.Binary classes pending)) item result work.new }
{
    let pass = Pass::Binary {
        classes,
        pending: 0,
    };
    if pending == 0 {
        return Walk {
            list: items::keep(work, list, item),
            pass,
        };
    }
    fold(work, list, pending, item);
    Walk { list, pass }
}

// The first leaf of `classes` at or below slot `top`, which notes one of them: `operator` has tested it. The second walk over a left side
// with an unfolded operator fails there: such a leaf is the last child of an operator of the level, so the walk finds no right side for it.
// The words bound the walk: how many nodes are left is known of the trees that they hold, not of the words. The proof shows that the
// bound is never reached.
pub fn first_leaf(work: &[u32], top: u32, classes: TokenClasses) -> u32
    requires { CanSearch work.now top classes.0 }
    ensures { LeafFound work.now top classes.0 result }
{
    let mut leaf = top;
    let mut s = top;
    for _ in 0..work.len() {
        if s == 0 {
            return leaf;
        }
        if slots::classes_of(work, s).intersects(classes) {
            leaf = s;
            s = slots::first_of(work, s);
        } else {
            s = slots::next_of(work, s);
        }
    }
    leaf
}

// An operator with its right side, the next item: where leaves of the level are below that, they come first. A token of the
// level is a right side as it is, and stays unfolded.
fn folded(work: &mut [u32], list: List, operator: u32, classes: TokenClasses) -> Turn
    requires { CanOperate work.old list operator classes.0 }
    ensures { Operated work.old list operator classes result work.new }
{
    let at = list.base + list.read;
    let right = work[at];
    let after = items::past(list);
    if items::is_inner(work, right, classes) {
        let pass = Pass::Binary {
            classes,
            pending: operator,
        };
        turns::enter(after, pass, right)
    } else {
        fold(work, after, operator, right);
        turns::on(
            after,
            Pass::Binary {
                classes,
                pending: 0,
            },
        )
    }
}

// A token of the level: it needs both sides, and a left side with nothing unfolded below it.
pub fn operator(
    work: &mut [u32],
    list: List,
    item: u32,
    classes: TokenClasses,
) -> Result<Turn, Failure>
    requires { AtToken work.old list item }
    ensures { (ops : Words ℕ) → Covers classes.0 (is_one_of ops)
        → LevelTurned ops classes work.old list item result work.new }
{
    if list.write == 0 {
        return Err(Failure::BinaryAtEnd(item));
    }
    if list.read == list.len {
        return Err(Failure::BinaryAtEnd(item));
    }
    let at = list.base + list.write - 1;
    let left = work[at];
    if slots::classes_of(work, left).intersects(classes) {
        let leaf = first_leaf(work, left, classes);
        Err(Failure::BinaryAtEnd(leaf))
    } else {
        Ok(folded(work, list, item, classes))
    }
}
