// The driver that every level runs on: one loop over lists and frames on the stack of the work buffer. A node with no leaf of
// the pass below it is not entered. From one pass to the next the outermost list stays where it stands, at the bottom of the stack.
// Leans on the levels of crate passes, on slots, chains and frames.
ghost use Rattle.levels.specs.Passes.{walk_of};
ghost use Rattle.levels.specs.Turns.{CanTurn, Turned, CanResume, Resumed, CanFinish, Ends};
ghost use Rattle.passes.specs.TokenTurns.{AtToken, Seeks, TokenOf};
ghost use Rattle.grouping.specs.Driver.{CanBegin, Begun, CanOpen, Opened, Keeping, CanDescend, Descended, CanMove, Moved, CanClose};
ghost use Rattle.grouping.specs.Driver.{Closed, CanAdvance, Advanced, CanRun, HasRun};

use levels::failure::Failure;
use levels::items::Found;
use levels::turns::{Finished, Pass, Turn, Walk};
use levels::{items, turns};
use nodes::frames::List;
use nodes::slots::ROOT;
use nodes::{children, frames, slots};
use passes::{arrays, binary, calls, conditional, returns, statements, unary};

// What one turn of the driver leads to, if no level fails; at the end of the pass, how many items the outermost list has. (`ControlFlow`
// has these two cases under names that say less.)
#[derive(Clone, Copy)]
pub enum Next {
    On(Walk),
    Done(usize),
}

// The list of `owner`, whose `len` children stand from `base` on, at the pass's start.
fn begin(work: &[u32], owner: u32, base: usize, len: usize, pass: Pass) -> Walk
    requires { CanBegin work.now owner base len pass }
    ensures { Begun work.now owner base len pass result }
{
    let list = List {
        owner,
        base,
        len,
        read: 0,
        write: 0,
    };
    match pass {
        Pass::Unsplit | Pass::Split { .. } => statements::start(work, list),
        Pass::Unary => Walk {
            list: items::moved(list, len, len),
            pass: Pass::Unary,
        },
        _ => Walk {
            list,
            pass: pass.begun(),
        },
    }
}

// The children of `owner` as a list from `base` on, at the pass's start.
fn open(work: &mut [u32], owner: u32, base: usize, pass: Pass) -> Walk
    requires { CanOpen work.old owner base pass }
    ensures { Opened work.old owner base pass result work.new }
{
    let first = slots::first_of(work, owner);
    let len = children::take_chain(work, first, base);
    begin(work, owner, base, len, pass)
}

// The token `item` of a level that seeks from the left. (A list without semicolons has no token of its pass; one would stay as it is.)
fn token(work: &mut [u32], list: List, pass: Pass, item: u32) -> Result<Turn, Failure>
    requires { AtToken work.old list item × Seeks pass }
    ensures { TokenOf pass work.old list item result work.new }
{
    match pass {
        Pass::Calls => calls::call(work, list, item),
        Pass::MathCalls => calls::math_call(work, list, item),
        Pass::Arrays { .. } => arrays::array_name(work, list, item),
        Pass::Binary { classes, .. } => binary::operator(work, list, item, classes),
        Pass::Returns => returns::returned(work, list, item),
        _ => Ok(turns::on(items::keep(work, list, item), pass)),
    }
}

// A level that seeks from the left, up to its next token or node.
fn seek(work: &mut [u32], list: List, pass: Pass) -> Result<Turn, Failure>
    requires { CanTurn work.old (walk_of list pass) × Seeks pass }
    ensures { Turned work.old (walk_of list pass) result work.new }
{
    match items::next_token(work, list, pass.classes()) {
        Found::Nothing(after) => Ok(turns::over(after, pass)),
        Found::Children(after, item) => Ok(turns::enter(after, pass, item)),
        Found::Token(after, item) => token(work, after, pass, item),
    }
}

// The list up to the next token or node that the pass works on. An array that waits for an index comes first; a list with semicolons,
// the unary pass and the conditional pass seek in their own way.
fn step(work: &mut [u32], walk: Walk) -> Result<Turn, Failure>
    requires { CanTurn work.old walk }
    ensures { Turned work.old walk result work.new }
{
    let list = walk.list;
    let pass = walk.pass;
    if let Some(array) = pass.waiting() {
        return arrays::array_on(work, list, array);
    }
    match pass {
        Pass::Split { done } => statements::step(work, list, done),
        Pass::Unary => unary::step(work, list),
        Pass::Conditional { tokens } => conditional::step(work, list, tokens),
        _ => seek(work, list, pass.anew()),
    }
}

// The walk with `item`, whose children are done, after the done items.
fn kept(work: &mut [u32], list: List, pass: Pass, item: u32) -> Walk
    requires { CanResume work.old (walk_of list pass) item × Keeping pass }
    ensures { Resumed work.old (walk_of list pass) item result work.new }
{
    Walk {
        list: items::keep(work, list, item),
        pass,
    }
}

// The walk after `item`, whose children are done.
fn resume(work: &mut [u32], walk: Walk, item: u32) -> Walk
    requires { CanResume work.old walk item }
    ensures { Resumed work.old walk item result work.new }
{
    let list = walk.list;
    let pass = walk.pass;
    match pass {
        Pass::Arrays { array, .. } => arrays::resume_array(work, list, item, array),
        Pass::Unary => Walk {
            list: unary::keep_right(work, list, item),
            pass: Pass::Unary,
        },
        Pass::Binary { classes, pending } => binary::resume(work, list, item, classes, pending),
        _ => kept(work, list, pass, item),
    }
}

// A list whose items are all done.
fn finish(work: &mut [u32], walk: Walk) -> Result<Finished, Failure>
    requires { CanFinish work.old walk }
    ensures { Ends work.old walk result work.new }
{
    let list = walk.list;
    let pass = walk.pass;
    match pass {
        Pass::Split { done } => statements::finish(work, list, done),
        Pass::Unary => Ok(Finished {
            from: list.base + list.write,
            items: list.len - list.write,
        }),
        Pass::Conditional { tokens } => conditional::finish(work, list, tokens),
        _ => Ok(Finished {
            from: list.base,
            items: list.write,
        }),
    }
}

// The list waits in a frame, and the children of its item are opened.
fn descend(work: &mut [u32], waiting: Walk, item: u32) -> Walk
    requires { CanDescend work.old waiting item }
    ensures { Descended work.old waiting item result work.new }
{
    let list = waiting.list;
    let pass = waiting.pass;
    let base = frames::push(work, list, pass.held());
    open(work, item, base, pass)
}

// The n items from `from` on stand from `base` on, which is not above it.
fn move_down(work: &mut [u32], from: usize, n: usize, base: usize)
    requires { CanMove work.old «from» n base }
    ensures { Moved work.old «from» n base work.new }
{
    work.copy_within(from..from + n, base);
}

// The end of a list: its items become its owner's children, and the list that waits for the owner goes on. The outermost
// list starts at `base0`; its items stay there for the pass after this one, and its end is the end of the pass.
fn close(work: &mut [u32], walk: Walk, base0: usize) -> Result<Next, Failure>
    requires { CanClose work.old walk base0 }
    ensures { Closed work.old walk base0 result work.new }
{
    let finished = finish(work, walk)?;
    let from = finished.from;
    let n = finished.items;
    let list = walk.list;
    let ended = walk.pass;
    let owner = list.owner;
    let base = list.base;
    children::give_children(work, owner, from, n);
    if base == base0 {
        move_down(work, from, n, base);
        return Ok(Next::Done(n));
    }
    let frame = frames::pop(work, base);
    let below = frame.list;
    let pass = ended.resumed(frame.held);
    Ok(Next::On(resume(work, Walk { list: below, pass }, owner)))
}

// One turn of the driver.
fn advance(work: &mut [u32], walk: Walk, base0: usize) -> Result<Next, Failure>
    requires { CanAdvance work.old walk base0 }
    ensures { Advanced work.old walk base0 result work.new }
{
    match step(work, walk)? {
        Turn::On(after) => Ok(Next::On(after)),
        Turn::Enter(waiting, item) => Ok(Next::On(descend(work, waiting, item))),
        Turn::Over(over) => close(work, over, base0),
    }
}

// Runs a pass over the list of slot 0, whose n items stand from `base` on, and every list below it; the stack is free above them. How many
// items the list of slot 0 has then. The pass takes at most three turns for each node and one more, which is less than the words of the
// work buffer; the proof shows that the loop never runs out of them. `group::run_choice` calls it with the list that the passes before it
// left.
pub fn run(work: &mut [u32], base: usize, n: usize, pass: Pass) -> Result<usize, Failure>
    requires { CanRun work.old base n pass }
    ensures { HasRun work.old base n pass result work.new }
{
    let mut walk = begin(work, ROOT, base, n, pass);
    for _ in 0..work.len() {
        match advance(work, walk, base)? {
            Next::On(after) => walk = after,
            Next::Done(left) => return Ok(left),
        }
    }
    Ok(n)
}
