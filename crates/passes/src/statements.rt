// Statements, the semicolon pass (statements.rs): a list with semicolons becomes one `;` node of its statements, each
// gathered under a `;` node of its own. In a split list the finished statements stand in [0, done), the items of the open one
// in [done, write). Leans on levels (turns, items), nodes (slots, chains), ops and words.
ghost use Rattle.std.specs.Prelude.{◌+◌, ◌^◌, ◌≤◌, ◌<◌, length};
ghost use Rattle.nodes.specs.Store.{slot_end};
ghost use Rattle.nodes.specs.Children.{CanGive};
ghost use Rattle.levels.specs.Passes.{walk_of};
ghost use Rattle.passes.specs.Statements.{HasSemicolon, Grouped, ListMade, CanEnd, SemicolonTo, InnerTo, CanClose, ClosedTo};
ghost use Rattle.levels.specs.Turns.{CanTurn, Turned, CanFinish, Ends, CanStart, Started};

use levels::failure::Failure;
use levels::items::Found;
use levels::turns::{Finished, Pass, Turn, Walk};
use levels::{items, turns};
use nodes::frames::List;
use nodes::{children, slots};
use ops::classes::TokenClasses;
use ops::{holds_statements, op};
use words::fields::wide;

// Whether a semicolon stands in the list.
fn has_semicolon(work: &[u32], list: List) -> bool
    requires { CanStart work.now list }
    ensures { HasSemicolon work.now list result }
{
    work[list.base..list.base + list.len]
        .iter()
        .any(|item| slots::is_token(work, *item, op::SEMICOLON))
}

// The pass at the start of a list. `driver::begin` calls it where the items stand in the list's words, all unread.
pub fn start(work: &[u32], list: List) -> Walk
    requires { CanStart work.now list }
    ensures { Started work.now list result }
{
    if has_semicolon(work, list) {
        return Walk {
            list,
            pass: Pass::Split { done: 0 },
        };
    }
    Walk {
        list,
        pass: Pass::Unsplit,
    }
}

// The n items from `at` on become the children of a statement at `slot`, which has the span of the first of them and stands
// in the word of that one.
fn end_statement(work: &mut [u32], slot: u32, at: usize, n: usize)
    requires { CanGive work.old slot at n × (0 < n) }
    ensures { Grouped work.old slot at n work.new }
{
    let first = work[at];
    slots::make(work, slot, op::SEMICOLON, first);
    children::give_children(work, slot, at, n);
    work[at] = slot;
}

// The list's own node is made with the first statement, in the last slot of the semicolon that ends that statement.
fn begin_list(work: &mut [u32], item: u32, done: u32)
    requires { (slot_end (item + 2) ≤ length work.old) × (length work.old < 2 ^ 32) }
    ensures { ListMade work.old item done work.new }
{
    if done == 0 {
        slots::make(work, slots::second_spare(item), op::SEMICOLON, item);
    }
}

// A semicolon of a split list ends the open statement, which stands in the semicolon's slot; one before any statement is an
// error.
fn semicolon(work: &mut [u32], list: List, item: u32, done: u32) -> Result<Turn, Failure>
    requires { CanEnd work.old list item done }
    ensures { SemicolonTo work.old list item done result work.new }
{
    let from = wide(done);
    if list.write == 0 {
        return Err(Failure::LeadingSemicolon(item));
    }
    if list.write == from {
        return Ok(turns::on(list, Pass::Split { done }));
    }
    begin_list(work, item, done);
    end_statement(work, item, list.base + from, list.write - from);
    Ok(turns::on(
        items::moved(list, list.read, from + 1),
        Pass::Split { done: done + 1 },
    ))
}

// A node of a split list: `[ ]` and the arguments of queries are not searched for statements.
fn inner(work: &mut [u32], list: List, item: u32, pass: Pass) -> Turn
    requires { (slot_end item ≤ length work.old) × (list.base + list.write < length work.old) }
    ensures { InnerTo work.old list item pass result work.new }
{
    if holds_statements(slots::operator_of(work, item)) {
        return turns::enter(list, pass, item);
    }
    turns::on(items::keep(work, list, item), pass)
}

// A split list up to its next semicolon or node. `driver::step` calls it with a list at a turn.
pub fn step(work: &mut [u32], list: List, done: u32) -> Result<Turn, Failure>
    requires { CanTurn work.old (walk_of list (Pass.Split done)) }
    ensures { Turned work.old (walk_of list (Pass.Split done)) result work.new }
{
    let found = items::next_token(work, list, TokenClasses::SEMICOLON);
    match found {
        Found::Nothing(after) => Ok(turns::over(after, Pass::Split { done })),
        Found::Children(after, item) => Ok(inner(work, after, item, Pass::Split { done })),
        Found::Token(after, item) => semicolon(work, after, item, done),
    }
}

// The statement that is open at the end, where there is one, stands in the second slot of the semicolon before it. The
// result is how many statements there are then.
fn end_open(work: &mut [u32], list: List, done: usize) -> usize
    requires { CanClose work.old list done }
    ensures { ClosedTo work.old list done result work.new }
{
    if list.write == done {
        return done;
    }
    let last = work[list.base + done - 1];
    end_statement(
        work,
        slots::spare(last),
        list.base + done,
        list.write - done,
    );
    done + 1
}

// The end of a split list: its node takes the statements, and is the list's one item. `driver::finish` calls it where every item is done.
pub fn finish(work: &mut [u32], list: List, done: u32) -> Result<Finished, Failure>
    requires { CanFinish work.old (walk_of list (Pass.Split done)) }
    ensures { Ends work.old (walk_of list (Pass.Split done)) result work.new }
{
    let base = list.base;
    let statements = end_open(work, list, wide(done));
    let first = work[base];
    let node = slots::second_spare(first);
    children::give_children(work, node, base, statements);
    work[base] = node;
    Ok(Finished {
        from: base,
        items: 1,
    })
}
