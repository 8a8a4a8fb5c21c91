// The bracket structure: member accessors and sections, over the array of slots that is the flat list (sections.rs).
// Both read the array and write it again from its start, write ≤ read. Leans on levels (failures), nodes (slots, chains), ops and words.
#![tactic(auto)]

ghost use Rattle.std.specs.Prelude.{◌≡◌, ◌≢◌, ◌+◌, ◌*◌, ◌-◌, ◌^◌, ◌≤◌, ◌<◌, length};
ghost use Rattle.molang.specs.Nesting.{open_after};
ghost use Rattle.nodes.specs.Store.{wd};
ghost use Rattle.levels.specs.declared.failure.Fault.TheVariants.{Mismatched};
ghost use Rattle.nodes.specs.Slots.{op_at};
ghost use Rattle.sections.specs.Flat.{CanJoin, Joined, MemberAt, Membered, CanSection, Sectioned, CanOpen, Opened, LookAt, Looked};
ghost use Rattle.sections.specs.Flat.{open_in, Closed, NamedAt, Named};
ghost use Rattle.sections.specs.Matching.{LosesNothing};

use levels::failure::{Failure, Fault, Mismatch, Unclosed};
use nodes::{children, slots};
use ops::{closer_of, is_closer, is_opener, op, takes_member};
use words::fields::wide;

// A member accessor takes a variable, a query or an accessor before it as its child. How many items are then done.
fn member(work: &mut [u32], base: usize, write: usize, item: u32) -> usize
    requires { MemberAt work.old base write item }
    ensures { Membered work.old base write item result work.new }
{
    let previous = work[base + write - 1];
    if takes_member(slots::operator_of(work, previous)) {
        children::attach(work, item, previous);
        work[base + write - 1] = item;
        return write;
    }
    work[base + write] = item;
    write + 1
}

// The member pass over the n slots from base on; how many items it leaves. `grouping::group` calls it with the loaded tokens.
pub fn members(work: &mut [u32], base: usize, n: usize) -> Result<usize, Failure>
    requires { CanJoin work.old base n }
    ensures { Joined work.old base n result work.new }
{
    let mut write = 0usize;
    for read in 0..n {
        let item = work[base + read];
        if slots::operator_bits_of(work, item) == op::MEMBER_ACCESSOR {
            if write == 0 {
                return Err(Failure::LeadingMemberAccessor(item));
            }
            write = member(work, base, write, item);
        } else {
            work[base + write] = item;
            write += 1;
        }
    }
    Ok(write)
}

// How far the section walk is: how many items are written, how many sections are open, and the index of the last token as
// messages count it (a closed section outside any other counts one, all else stands flat). Each open section has two words
// from `marks` on: where its opener is written, and the opener's index plus one.
#[derive(Clone, Copy)]
pub struct Reached {
    pub write: usize,
    pub depth: usize,
    pub index: usize,
}

// A closer that does not match, and how many brackets are open after it.
#[derive(Clone, Copy, Debug, PartialEq, Eq)]
pub struct Differs {
    pub mismatch: Mismatch,
    pub remaining: usize,
}

impl From<Differs> for Fault {
    ghost from_gives = { λ differs fault. fault ≡ Mismatched differs.mismatch };

    fn from(differs: Differs) -> Self {
        Fault::Mismatched(differs.mismatch)
    }
}

// The index of the next token: outside every section the number of items before it.
fn position(at: Reached) -> usize
    requires { at.index + 1 < 2 ^ 64 }
    ensures { (at.depth ≡ 0 → result ≡ at.write) × (at.depth ≢ 0 → result ≡ at.index + 1) }
{
    if at.depth == 0 {
        return at.write;
    }
    at.index + 1
}

// Where the opener of the k-th open section is written.
fn opener_at(work: &[u32], marks: usize, k: usize) -> usize
    requires { marks + 2 * k + 2 ≤ length work.now }
    ensures { result ≡ wd work.now (marks + 2 * k) }
{
    wide(work[marks + 2 * k])
}

// The innermost and the outermost of the open sections, one at least.
fn still_open(work: &[u32], base: usize, marks: usize, depth: usize) -> Unclosed
    requires { NamedAt work.now base marks depth }
    ensures { Named work.now base marks depth result }
{
    let last = depth - 1;
    let innermost = opener_at(work, marks, last);
    let outermost = opener_at(work, marks, 0);
    Unclosed {
        inner: work[base + innermost],
        start: work[marks + 2 * last + 1],
        outer: work[base + outermost],
    }
}

// An opener opens a section: it is written, and the section's two words say where, and its index plus one.
fn open_section(work: &mut [u32], base: usize, marks: usize, at: Reached, opener: u32) -> Reached
    requires { CanOpen work.old base marks at.write at.depth at.index }
    ensures { Opened work.old base marks at.write at.depth at.index opener result work.new }
{
    let write = at.write;
    let depth = at.depth;
    let index = at.index;
    work[base + write] = opener;
    work[marks + 2 * depth] = write as u32;
    work[marks + 2 * depth + 1] = (index + 1) as u32;
    Reached {
        write: write + 1,
        depth: depth + 1,
        index,
    }
}

// A closer in an open section: it closes the innermost one, which closes at its end and takes what was written after its opener, or
// it differs. Either way one bracket fewer is open.
fn close_section(
    work: &mut [u32],
    base: usize,
    marks: usize,
    at: Reached,
    closer: u32,
) -> Result<Reached, Differs>
    requires { LookAt work.old base marks at.write at.depth closer × (at.depth ≢ 0) × (at.index < 2 ^ 32) }
    ensures closed { Closed work.old base marks at.write at.depth at.index closer result work.new }
    ensures result_value { open_in result ≡ at.depth - 1 }
{
    let inner = at.depth - 1;
    let innermost = opener_at(work, marks, inner);
    let opener = work[base + innermost];
    if closer_of(slots::operator_of(work, opener)) != slots::operator_of(work, closer) {
        let named = still_open(work, base, marks, at.depth);
        let mismatch = Mismatch {
            opener: named.inner,
            start: named.start,
            closer,
            index: at.index as u32,
            outer: named.outer,
        };
        return Err(Differs {
            mismatch,
            remaining: inner,
        });
    }
    let from = innermost + 1;
    children::give_children(work, opener, base + from, at.write - from);
    slots::set_close(work, opener, closer);
    Ok(Reached {
        write: from,
        depth: inner,
        index: at.index,
    })
}

// One token: an opener opens a section, a closer closes the innermost one if one is open, anything else is written.
// How many brackets are open after it is in what comes back, for a closer that differs too.
fn look(
    work: &mut [u32],
    base: usize,
    marks: usize,
    at: Reached,
    item: u32,
) -> Result<Reached, Differs>
    requires { LookAt work.old base marks at.write at.depth item × (at.write + 1 < 2 ^ 32) × (at.index + 2 < 2 ^ 32) }
    ensures looked { Looked work.old base marks at.write at.depth at.index item result work.new }
    ensures result_value { open_in result ≡ open_after at.depth (op_at work.old item) }
{
    let write = at.write;
    let depth = at.depth;
    let index = position(at);
    let here = Reached {
        write,
        depth,
        index,
    };
    let operator = slots::operator_bits_of(work, item);
    if is_opener(operator) {
        return Ok(open_section(work, base, marks, here, item));
    }
    if is_closer(operator) && depth != 0 {
        return close_section(work, base, marks, here, item);
    }
    work[base + write] = item;
    let written = write + 1;
    Ok(Reached {
        write: written,
        depth,
        index,
    })
}

// The section pass: a walk over the n tokens from base on, and in it over the open sections. From a token outside on, where
// it opens a section, the tokens up to its closer are looked at. The first bracket that does not match ends both walks.
// How many items it leaves. It is the definition's bracket step, and of a childless list nothing is lost in it.
// `grouping::group` calls it with what the member pass leaves.
pub fn sections(work: &mut [u32], base: usize, n: usize) -> Result<usize, Fault>
    requires { CanSection work.old base n }
    ensures sectioned { Sectioned work.old base n result work.new }
    ensures loses_nothing { LosesNothing work.old base n result work.new }
{
    let marks = base + n;
    let mut read = 0usize;
    let mut at = Reached {
        write: 0,
        depth: 0,
        index: 0,
    };
    // Document 01 names this form, so it is no `for` with `?`: the walk over tokens and open sections is nested, and left by its label at
    // the first bracket that does not match (docs/DECISIONS.md, Forms).
    'tokens: loop {
        if n <= read {
            break 'tokens Ok(at.write);
        }
        'open: loop {
            let item = work[base + read];
            read += 1;
            match look(work, base, marks, at, item) {
                Ok(after) => {
                    at = after;
                    if at.depth == 0 {
                        break 'open;
                    }
                    if n <= read {
                        break 'tokens Err(Fault::Unclosed(still_open(work, base, marks, at.depth)));
                    }
                }
                Err(differs) => {
                    break 'tokens Err(Fault::from(differs));
                }
            }
        }
    }
}
