// The passes in their fixed order (`group_tokens` in mod.rs): the flat ones over the array of the tokens, then the ranks of the order one
// after another over the list of slot 0. Leans on sections, the driver, order (which pass stands at a rank), levels (failures), nodes
// (slots, chains) and ops (sets).
ghost use Rattle.grouping.specs.Choice.{CanChoose, Chosen};
ghost use Rattle.sections.specs.Flat.{CanJoin, CanSection};
ghost use Rattle.grouping.specs.Group.{CanGroup, HasGrouped, EndsRight, JoinedIf, SectionedIf, Flattened, CanLevel, Levelled};

use crate::driver::run;
use levels::failure::{Failure, Fault};
use levels::turns::Pass;
use nodes::slots::ROOT;
use nodes::{children, slots};
use ops::op;
use ops::sets::OpSet;
use order::{POINTER, choose, ranks};
use sections::{members, sections};

// A complex list, one with `=` or `;`, ends with a semicolon.
fn ends_with_semicolon(work: &[u32], base: usize, n: usize, used: OpSet) -> Result<(), Failure>
    requires { CanGroup work.now base n }
    ensures { EndsRight work.now base n used result }
{
    if used.has_any(&[op::ASSIGNMENT, op::SEMICOLON]) {
        if n == 0 {
            return Err(Failure::ComplexWithoutTokens);
        }
        let last = work[base + n - 1];
        if slots::operator_of(work, last) != op::SEMICOLON {
            return Err(Failure::ComplexMustEndWithSemicolon(last));
        }
    }
    Ok(())
}

// The member pass, if accessors are used.
fn members_if_used(work: &mut [u32], base: usize, n: usize, used: OpSet) -> Result<usize, Failure>
    requires { CanJoin work.old base n }
    ensures { JoinedIf work.old base n used result work.new }
{
    if used.contains(op::MEMBER_ACCESSOR) {
        return members(work, base, n);
    }
    Ok(n)
}

// The section pass, if openers are used.
fn sections_if_used(work: &mut [u32], base: usize, n: usize, used: OpSet) -> Result<usize, Fault>
    requires { CanSection work.old base n }
    ensures { SectionedIf work.old base n used result work.new }
{
    if used.has_any(&[op::LEFT_BRACE, op::LEFT_BRACKET, op::LEFT_PARENTHESIS]) {
        return sections(work, base, n);
    }
    Ok(n)
}

// The flat passes over the n tokens, whose slots stand from base on; how many items are left there.
fn flat(work: &mut [u32], base: usize, n: usize, used: OpSet) -> Result<usize, Fault>
    requires { CanGroup work.old base n }
    ensures { Flattened work.old base n used result work.new }
{
    ends_with_semicolon(work, base, n, used)?;
    let m = members_if_used(work, base, n, used)?;
    sections_if_used(work, base, m, used)
}

// A pass, if it is chosen and has something to do, over the list of slot 0, whose n items stand from `base` on; how many items are left
// there.
fn run_choice(
    work: &mut [u32],
    base: usize,
    n: usize,
    choice: Option<Pass>,
) -> Result<usize, Failure>
    requires { CanChoose work.old base n choice }
    ensures { Chosen work.old base n choice result work.new }
{
    if let Some(pass) = choice {
        if slots::classes_of(work, ROOT).intersects(pass.classes()) {
            return run(work, base, n, pass);
        }
    }
    Ok(n)
}

// The passes after the flat ones, over the list of slot 0, whose m items stand from `base` on. A failure of the
// pointer pass is unlike the others: it leaves the list empty, and the passes after it leave an empty list as it is.
fn levels(work: &mut [u32], base: usize, m: usize, used: OpSet, version: i16) -> Result<(), Fault>
    requires { CanLevel work.old base m }
    ensures { Levelled work.old base m used version result work.new }
{
    let mut n = m;
    for (k, rank) in ranks(version).iter().enumerate() {
        let choice = choose(*rank, used);
        match run_choice(work, base, n, choice) {
            Ok(left) => n = left,
            Err(failure) if k == POINTER => return Err(Fault::PointerFailed(failure)),
            Err(failure) => return Err(Fault::Failed(failure)),
        }
    }
    Ok(())
}

// All passes over n tokens that are loaded, their slots from base on, which is where the stack starts; at a version as the rules use it
// (`ops::version::effective`). The roots then stand as the children of slot 0. `parse::read` has loaded the tokens.
pub fn group(
    work: &mut [u32],
    base: usize,
    n: usize,
    used: OpSet,
    version: i16,
) -> Result<(), Fault>
    requires { CanGroup work.old base n }
    ensures { HasGrouped work.old base n used version result work.new }
{
    let m = flat(work, base, n, used)?;
    children::give_children(work, ROOT, base, m);
    levels(work, base, m, used, version)
}
