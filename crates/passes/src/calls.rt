// Calls and math functions: the passes that attach a section to the token before it (calls.rs). `driver::token` calls `call` and
// `math_call` with the token that `next_token` stopped at. Leans on levels (turns, items), nodes (slots, chains) and ops.
ghost use Rattle.molang.specs.Calls.{query_or_loop, math};
ghost use Rattle.passes.specs.TokenTurns.{AtToken, CallTurned};
ghost use Rattle.passes.specs.Calls.{CanCall, Called};

use levels::failure::Failure;
use levels::turns::{Pass, Turn};
use levels::{items, turns};
use nodes::frames::List;
use nodes::{children, slots};
use ops::op;

// `item`, a call, takes its arguments, which are the next item; its children come first if they have any of the pass.
fn called(work: &mut [u32], list: List, item: u32, arguments: u32, pass: Pass) -> Turn
    requires { CanCall work.old list item arguments }
    ensures { Called work.old list item arguments pass result work.new }
{
    let after = items::past(list);
    children::attach(work, item, arguments);
    let classes = pass.classes();
    if slots::classes_of(work, item).intersects(classes) {
        return turns::enter(after, pass, item);
    }
    turns::on(items::keep(work, after, item), pass)
}

// A query, `loop` or `for_each` takes the section `(` right after it; an empty one is an error.
pub fn call(work: &mut [u32], list: List, item: u32) -> Result<Turn, Failure>
    requires { AtToken work.old list item }
    ensures { CallTurned query_or_loop Pass.Calls work.old list item result work.new }
{
    let Some(arguments) = items::next_if(work, list, op::LEFT_PARENTHESIS) else {
        return Ok(turns::on(items::keep(work, list, item), Pass::Calls));
    };
    if slots::is_leaf(work, arguments) {
        return Err(Failure::EmptyParameterList(item, arguments));
    }
    Ok(called(work, list, item, arguments, Pass::Calls))
}

// A math function takes the section `(` right after it, which has to be there and may be empty, other than a query's.
pub fn math_call(work: &mut [u32], list: List, item: u32) -> Result<Turn, Failure>
    requires { AtToken work.old list item }
    ensures { CallTurned math Pass.MathCalls work.old list item result work.new }
{
    if let Some(arguments) = items::next_if(work, list, op::LEFT_PARENTHESIS) {
        return Ok(called(work, list, item, arguments, Pass::MathCalls));
    }
    if list.read == list.len {
        return Err(Failure::MathAtEnd(item));
    }
    Err(Failure::MathWithoutParenthesis(item))
}
