// The conditional from version 5: nested lists first, then a scan of the list from the right (conditional.rs). The scan's unread items are
// in [0, read), its done ones in [write, len), as those of the unary pass. Leans on levels (turns, items), nodes (slots, chains) and ops.
ghost use Rattle.std.specs.Prelude.{◌≡◌};
ghost use Rattle.levels.specs.Passes.{walk_of, moved_to};
ghost use Rattle.levels.specs.Turns.{CanTurn, Turned, CanFinish, Ends};
ghost use Rattle.passes.specs.Conditional.{CanFoldLast, FoldedLast, CanDangle, Dangles, CanLook, IsElse, CanFoldElse, ElseFolded};
ghost use Rattle.passes.specs.Conditional.{CanFoldNext, FoldedNext, CanFold, FoldedAll};

use crate::unary::keep_right;
use levels::failure::Failure;
use levels::turns::{Finished, Pass, Turn};
use levels::{items, turns};
use nodes::frames::List;
use nodes::{children, slots};
use ops::classes::TokenClasses;
use ops::op;

// The conditional pass before the scan, up to its next node with a `?` or a `:` below it. The items stay where they are, and
// the tokens among them are counted. `driver::step` calls it with a list at a turn.
pub fn step(work: &mut [u32], list: List, tokens: u32) -> Result<Turn, Failure>
    requires { CanTurn work.old (walk_of list (Pass.Conditional tokens)) }
    ensures { Turned work.old (walk_of list (Pass.Conditional tokens)) result work.new }
{
    let mut seen = tokens;
    for read in list.read..list.len {
        let item = work[list.base + read];
        if slots::classes_of(work, item).intersects(TokenClasses::CONDITIONAL) {
            if !slots::is_leaf(work, item) {
                let after = items::moved(list, read + 1, read);
                return Ok(turns::enter(after, Pass::Conditional { tokens: seen }, item));
            }
            seen += 1;
        }
    }
    Ok(turns::over(
        items::moved(list, list.len, list.len),
        Pass::Conditional { tokens: seen },
    ))
}

// The last unread item takes the one before it and the first done item as its children, and is done in the word of the latter.
fn fold_last(work: &mut [u32], scan: List)
    requires { CanFoldLast work.old scan.base scan.read scan.write }
    ensures { FoldedLast work.old scan.base scan.read scan.write work.new }
{
    let item = work[scan.base + (scan.read - 1)];
    let before = work[scan.base + (scan.read - 2)];
    let at = scan.base + scan.write;
    let after = work[at];
    children::attach_two(work, item, before, after);
    work[at] = item;
}

// Whether the last unread item is a `:` and a `?` stands two before it.
fn is_else(work: &[u32], scan: List) -> bool
    requires { CanLook work.now scan.base scan.read }
    ensures { IsElse work.now scan.base scan.read result }
{
    if scan.read < 3 {
        return false;
    }
    let colon = work[scan.base + (scan.read - 1)];
    if slots::is_token(work, colon, op::CONDITIONAL_ELSE) {
        let question = work[scan.base + (scan.read - 3)];
        return slots::is_token(work, question, op::CONDITIONAL);
    }
    false
}

// After a `?` was folded, `? folded : x` is an else-pair for the `?` on the left: the `:` takes both.
fn fold_else(work: &mut [u32], scan: List) -> List
    requires { CanFoldElse work.old scan.base scan.len scan.read scan.write }
    ensures { ElseFolded work.old scan.base scan.len scan.read scan.write result.write work.new
        × (result ≡ moved_to scan scan.read result.write) }
{
    if scan.read == 0 {
        return scan;
    }
    if scan.len - scan.write < 3 {
        return scan;
    }
    let question = work[scan.base + (scan.read - 1)];
    if slots::is_token(work, question, op::CONDITIONAL) {
        let colon = work[scan.base + (scan.write + 1)];
        if slots::is_token(work, colon, op::CONDITIONAL_ELSE) {
            let then = work[scan.base + scan.write];
            let at = scan.base + (scan.write + 2);
            let otherwise = work[at];
            children::attach_two(work, colon, then, otherwise);
            work[at] = colon;
            return items::moved(scan, scan.read, scan.write + 2);
        }
    }
    scan
}

// One step of the scan, with two unread items at least.
fn fold_next(work: &mut [u32], scan: List) -> List
    requires { CanFoldNext work.old scan.base scan.len scan.read scan.write }
    ensures { FoldedNext work.old scan result work.new }
{
    if is_else(work, scan) {
        fold_last(work, scan);
        return items::moved(scan, scan.read - 2, scan.write);
    }
    let item = work[scan.base + (scan.read - 1)];
    if slots::is_token(work, item, op::CONDITIONAL) {
        fold_last(work, scan);
        let rest = items::moved(scan, scan.read - 2, scan.write);
        return fold_else(work, rest);
    }
    keep_right(work, items::moved(scan, scan.read - 1, scan.write), item)
}

// Scans a list, which has to have three items for a fold; where its done items start.
fn fold_conditionals(work: &mut [u32], list: List) -> usize
    requires { CanFold work.old list.base list.len }
    ensures { FoldedAll work.old list.base list.len result work.new }
{
    if list.len < 3 {
        return 0;
    }
    let mut scan = items::moved(list, list.len - 1, list.len - 1);
    while 2 <= scan.read {
        scan = fold_next(work, scan);
    }
    if scan.read == 0 {
        return scan.write;
    }
    let first = work[scan.base];
    let done = keep_right(work, scan, first);
    done.write
}

// The first `?` or `:` among the items from `from` on that nothing is under.
fn dangling(work: &[u32], list: List, from: usize) -> Option<u32>
    requires { CanDangle work.now list.base from list.len }
    ensures { Dangles work.now list.base from list.len result }
{
    work[list.base + from..list.base + list.len]
        .iter()
        .copied()
        .find(|item| {
            slots::is_token(work, *item, op::CONDITIONAL)
                || slots::is_token(work, *item, op::CONDITIONAL_ELSE)
        })
}

// The end of a list of the conditional pass. `driver::finish` calls it where every item is done.
pub fn finish(work: &mut [u32], list: List, tokens: u32) -> Result<Finished, Failure>
    requires { CanFinish work.old (walk_of list (Pass.Conditional tokens)) }
    ensures { Ends work.old (walk_of list (Pass.Conditional tokens)) result work.new }
{
    if tokens == 0 {
        return Ok(Finished {
            from: list.base,
            items: list.len,
        });
    }
    let from = fold_conditionals(work, list);
    if let Some(left) = dangling(work, list, from) {
        return Err(Failure::TernaryWithoutOperands(left));
    }
    Ok(Finished {
        from: list.base + from,
        items: list.len - from,
    })
}
