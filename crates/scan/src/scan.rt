// The walk over a list: operands and what stands before them, by turns, until the list's start is reached or the walk gives up. Leans on
// given, turns and table.
ghost use Rattle.std.specs.Prelude.{◌≡◌, ◌*◌, ◌+◌, ◌≤◌, ◌<◌, length};
ghost use Rattle.scan.specs.Turns as turn;
ghost use Rattle.scan.specs.States.{Goes};
ghost use Rattle.scan.specs.Scanning.{CanSetOut, HasGone, HasScanned};

use crate::given::Given;
use crate::stack::State;
use crate::steps::Turn;
use crate::table::table_of;
use ops::op;
use ops::sets::OpSet;

// The turns of the walk, from the last token on, until the list's start is reached: where the records begin; or nothing, where one gives
// up.
fn turns(given: Given<'_>, work: &mut [u32], s: State) -> Option<usize>
    requires { Goes given.list.now given.table.now given.used turn.want work.old s }
    ensures { HasGone given.entry.list.now given.entry.table.now given.entry.used work.old work.new result }
{
    let mut turn = Turn::Want(s);
    loop {
        turn = match turn {
            Turn::Want(s) => given.want(work, s)?,
            Turn::Have(s) => given.have(work, s)?,
            Turn::Done(from) => return Some(from),
        };
    }
}

// The walk: the words of the work buffer from where the records begin are those of a walk to its end; or it gives up. A list whose used
// set has `=` or `;` is not walked.
pub(crate) fn scan(list: &[u32], work: &mut [u32], used: OpSet, version: i16) -> Option<usize>
    requires { CanSetOut list.now work.old }
    ensures { HasScanned list.now used version work.old work.new result }
{
    if used.has_any(&[op::ASSIGNMENT, op::SEMICOLON]) {
        return None;
    }
    let table = table_of(version);
    let given = Given {
        list,
        table: &table,
        used,
    };
    let first = State {
        left: list.len(),
        depth: 0,
        top: 0,
        out: work.len(),
    };
    let s = first.push(work, 0x3_8000);
    turns(given, work, s)
}
