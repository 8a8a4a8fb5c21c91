// Array indices: the pass that gives an array name the sections `[ ]` after it (calls.rs). `driver::token` calls `array_name` with the
// token that `next_token` stopped at, `driver::step` calls `array_on` where an array waits, and `driver::resume` calls `resume_array`
// after an item's children. Leans on levels (turns, items), nodes (slots, chains) and ops.
ghost use Rattle.std.specs.Prelude.{◌≢◌};
ghost use Rattle.levels.specs.Passes.{walk_of};
ghost use Rattle.levels.specs.Turns.{CanTurn, Turned, CanResume, Resumed};
ghost use Rattle.passes.specs.TokenTurns.{AtToken};
ghost use Rattle.passes.specs.Arrays.{CanLend, Lent, CanIndex, Indexed, NameTurned, CanGather, Gathered, CanRound, Rounded};

use levels::failure::Failure;
use levels::turns::{Pass, Turn, Walk};
use levels::{items, turns};
use nodes::frames::List;
use nodes::slots;
use ops::classes::TokenClasses;
use ops::op;

// The last child of the array so far becomes an array itself and is taken away from it, where it is a bare `array.name` that
// the contents of the array's next index complete. The result is that child. (The array's chain starts with its last child.)
fn lend_name(work: &mut [u32], array: u32, index: u32) -> Option<u32>
    requires { CanLend work.old array index }
    ensures { Lent work.old array index result work.new }
{
    let name = slots::first_of(work, array);
    let contents = slots::first_of(work, index);
    if name == 0 {
        return None;
    }
    if !slots::is_token(work, name, op::ARRAY_VARIABLE) {
        return None;
    }
    if slots::operator_of(work, contents) != op::LEFT_BRACKET {
        return None;
    }
    let rest = slots::next_of(work, name);
    slots::set_first(work, array, rest);
    slots::set_operator(work, name, op::ARRAY);
    Some(name)
}

// The array's next index, which is the next item: an empty one is an error, and the contents of another come first.
fn array_index(work: &mut [u32], list: List, index: u32, array: u32) -> Result<Turn, Failure>
    requires { CanIndex work.old list index array }
    ensures { Indexed work.old list index array result work.new }
{
    if slots::is_leaf(work, index) {
        return Err(Failure::EmptyArrayIndex(array, index));
    }
    let lent = lend_name(work, array, index).unwrap_or(0);
    Ok(turns::enter(items::past(list), Pass::Arrays { array, lent }, index))
}

// `array.name` with an index after it becomes an array.
pub fn array_name(work: &mut [u32], list: List, item: u32) -> Result<Turn, Failure>
    requires { AtToken work.old list item }
    ensures { NameTurned work.old list item result work.new }
{
    let Some(index) = items::next_if(work, list, op::LEFT_BRACKET) else {
        return Ok(turns::on(
            items::keep(work, list, item),
            Pass::Arrays { array: 0, lent: 0 },
        ));
    };
    slots::set_operator(work, item, op::ARRAY);
    array_index(work, list, index, item)
}

// The children of an index go to the array's chain, which starts with its last child. The loop writes the links that it follows, so it is
// over no iterator; it is not `turn_round`'s, since an index's chain rises and an array's falls, which is why each ends.
fn gather(work: &mut [u32], array: u32, index: u32)
    requires { CanGather work.old array index }
    ensures { Gathered work.old array index work.new }
{
    let mut head = slots::first_of(work, array);
    let mut s = slots::first_of(work, index);
    while s != 0 {
        let next = slots::next_of(work, s);
        slots::set_next(work, s, head);
        head = s;
        s = next;
    }
    slots::set_first(work, array, head);
}

// The array's chain is turned round: its children stand in order, and it notes their classes.
fn turn_round(work: &mut [u32], array: u32)
    requires { CanRound work.old array }
    ensures { Rounded work.old array work.new }
{
    let mut head = 0u32;
    let mut below = TokenClasses::NONE;
    let mut s = slots::first_of(work, array);
    while s != 0 {
        let next = slots::next_of(work, s);
        slots::set_next(work, s, head);
        below = below.union(slots::classes_of(work, s));
        head = s;
        s = next;
    }
    slots::set_first(work, array, head);
    slots::set_classes(work, array, below);
}

// An array that has an index already: it takes a further one, or is done.
pub fn array_on(work: &mut [u32], list: List, array: u32) -> Result<Turn, Failure>
    requires { CanTurn work.old (walk_of list (Pass.Arrays array 0)) × (array ≢ 0) }
    ensures { Turned work.old (walk_of list (Pass.Arrays array 0)) result work.new }
{
    if let Some(index) = items::next_if(work, list, op::LEFT_BRACKET) {
        return array_index(work, list, index, array);
    }
    turn_round(work, array);
    Ok(turns::on(
        items::keep(work, list, array),
        Pass::Arrays { array: 0, lent: 0 },
    ))
}

// The array pass after the children of `item`, an index of the array or, where that is 0, as in the pass's state, a node of the list.
pub fn resume_array(work: &mut [u32], list: List, item: u32, array: u32) -> Walk
    requires { CanResume work.old (walk_of list (Pass.Arrays array 0)) item }
    ensures { Resumed work.old (walk_of list (Pass.Arrays array 0)) item result work.new }
{
    let pass = Pass::Arrays { array, lent: 0 };
    if array == 0 {
        return Walk {
            list: items::keep(work, list, item),
            pass,
        };
    }
    gather(work, array, item);
    Walk { list, pass }
}
