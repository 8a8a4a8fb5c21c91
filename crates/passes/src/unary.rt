// The prefix operators minus and not, from the right (unary.rs).
// Leans on levels (turns, items), nodes (slots, chains) and ops.
ghost use Rattle.std.specs.Prelude.{◌≡◌, ◌+◌, ◌-◌, ◌≤◌, ◌<◌, length, set};
ghost use Rattle.nodes.specs.Store.{slot_end};
ghost use Rattle.levels.specs.Passes.{walk_of, moved_to};
ghost use Rattle.levels.specs.Turns.{CanTurn, Turned};
ghost use Rattle.passes.specs.Unary.{CanSeekBack, SoughtBack, CanTakeToken, CanTakeMinus, TokenTaken, CanPrefix, Prefixed, Added};
ghost use Rattle.passes.specs.Unary.{CanSubtract, Subtracted};

use levels::failure::Failure;
use levels::items::Found;
use levels::turns::{Pass, Turn};
use levels::{items, turns};
use nodes::frames::List;
use nodes::{children, slots};
use ops::classes::TokenClasses;
use ops::{BeforeMinus, before_minus, op};

// The list with `item` before its done items. Its callers have read `item`, which is not done yet, so the word before those is free.
pub fn keep_right(work: &mut [u32], list: List, item: u32) -> List
    requires { (0 < list.write) × (list.base + list.write < length work.old + 1) }
    ensures { (result ≡ moved_to list list.read (list.write - 1))
        × (work.new ≡ set work.old (list.base + (list.write - 1)) item) }
{
    let write = list.write - 1;
    let at = list.base + write;
    work[at] = item;
    items::moved(list, list.read, write)
}

// `operator` takes the first done item as its child and stands in the word of that item.
fn prefix(work: &mut [u32], list: List, operator: u32)
    requires { CanPrefix work.old list operator }
    ensures { Prefixed work.old (list.base + list.write) operator work.new }
{
    let at = list.base + list.write;
    let operand = work[at];
    children::attach(work, operator, operand);
    work[at] = operator;
}

// A minus becomes a plus. (No minus has children here, but no proof leans on that: such a one would keep its classes.)
fn to_add(work: &mut [u32], s: u32)
    requires { slot_end s ≤ length work.old }
    ensures { Added work.old s work.new }
{
    let leaf = slots::is_leaf(work, s);
    slots::set_operator(work, s, op::ADD);
    if leaf {
        slots::set_classes(work, s, TokenClasses::LEAF_ADD);
    }
}

// A binary minus: `+`, and the operand under a new minus.
fn subtract(work: &mut [u32], list: List, item: u32) -> List
    requires { CanSubtract work.old list item }
    ensures { Subtracted work.old list item result work.new }
{
    let negate = slots::spare(item);
    slots::make(work, negate, op::NEGATE, item);
    prefix(work, list, negate);
    to_add(work, item);
    keep_right(work, list, item)
}

// A minus with an operand after it: unary after an operator or at the start, binary after an operand. Of two minuses the
// right one is dropped, and the left one, which is still unread, becomes `+`.
fn minus(work: &mut [u32], list: List, item: u32) -> Result<Turn, Failure>
    requires { CanTakeMinus work.old list item }
    ensures { TokenTaken work.old list item result work.new }
{
    if list.read == 0 {
        prefix(work, list, item);
        return Ok(turns::on(list, Pass::Unary));
    }
    let last = list.read - 1;
    let at = list.base + last;
    let previous = work[at];
    let before = before_minus(slots::operator_of(work, previous));
    match before {
        BeforeMinus::Operator => {
            prefix(work, list, item);
            Ok(turns::on(list, Pass::Unary))
        }
        BeforeMinus::Operand => {
            let after = subtract(work, list, item);
            Ok(turns::on(after, Pass::Unary))
        }
        BeforeMinus::Minus => {
            to_add(work, previous);
            Ok(turns::on(list, Pass::Unary))
        }
        BeforeMinus::Unknown => Err(Failure::UnknownOperation(item, previous)),
    }
}

// A minus or a not.
fn token(work: &mut [u32], list: List, item: u32) -> Result<Turn, Failure>
    requires { CanTakeToken work.old list item }
    ensures { TokenTaken work.old list item result work.new }
{
    if slots::operator_of(work, item) == op::NEGATE {
        if list.write == list.len {
            return Err(Failure::NegateWithoutOperand(item));
        }
        return minus(work, list, item);
    }
    if list.write == list.len {
        return Err(Failure::NotWithoutOperand(item));
    }
    prefix(work, list, item);
    Ok(turns::on(list, Pass::Unary))
}

// `next_token` from the right: items move to the done ones as they are, up to the next minus, not, or node with one below. One function for
// both ways would ask at each item which way it goes.
fn previous_token(work: &mut [u32], list: List) -> Found
    requires { CanSeekBack work.old list }
    ensures { SoughtBack work.old list result work.new }
{
    let mut write = list.write;
    for read in (0..list.read).rev() {
        let item = work[list.base + read];
        if slots::classes_of(work, item).intersects(TokenClasses::UNARY) {
            let rest = items::moved(list, read, write);
            if slots::is_leaf(work, item) {
                return Found::Token(rest, item);
            }
            return Found::Children(rest, item);
        }
        write -= 1;
        work[list.base + write] = item;
    }
    Found::Nothing(items::moved(list, 0, write))
}

// The unary pass up to its next token or node, from the right. `driver::step` calls it with a list at a turn.
pub fn step(work: &mut [u32], list: List) -> Result<Turn, Failure>
    requires { CanTurn work.old (walk_of list Pass.Unary) }
    ensures { Turned work.old (walk_of list Pass.Unary) result work.new }
{
    let found = previous_token(work, list);
    match found {
        Found::Nothing(rest) => Ok(turns::over(rest, Pass::Unary)),
        Found::Children(rest, item) => Ok(turns::enter(rest, Pass::Unary, item)),
        Found::Token(rest, item) => token(work, rest, item),
    }
}
