// `return`, from the left (unary.rs). Leans on levels (turns, items) and nodes (chains).
ghost use Rattle.passes.specs.TokenTurns.{AtToken, ReturnTurned};

use levels::failure::Failure;
use levels::turns::{Pass, Turn};
use levels::{items, turns};
use nodes::children;
use nodes::frames::List;

// `return` takes the next item, as it is, as its child. `driver::token` calls it with the token that `next_token` stopped at.
pub fn returned(work: &mut [u32], list: List, item: u32) -> Result<Turn, Failure>
    requires { AtToken work.old list item }
    ensures { ReturnTurned work.old list item result work.new }
{
    if list.read == list.len {
        return Err(Failure::UnaryWithoutOperand(item));
    }
    let at = list.base + list.read;
    let operand = work[at];
    children::attach(work, item, operand);
    let after = items::past(list);
    Ok(turns::on(items::keep(work, after, item), Pass::Returns))
}
