// The lift as the library exports it: a call that is turned back changes nothing, and what is told says which list a place is of. Leans on
// accept (the table's order); specs/Entry has the definition.
ghost use Rattle.std.specs.Prelude.{◌≡◌, ◌/◌, length};
ghost use Rattle.molang.specs.Words.{tokens_of};
ghost use Rattle.molang.specs.Nesting.{too_deep};
ghost use Rattle.accept.specs.Accepting.{verdict_of, verdict};
ghost use Rattle.words.specs.Refusals.{reason_number};
ghost use Rattle.lift.specs.Answers.{lift_told, engine, lift_call};
ghost use Rattle.lift.specs.Entry.{turned_back, lot_told, behind_as, lot_of, or_turned, turned_by, CanTell, HasEntered};

use crate::{Outcome, first_limit, lift};
use accept::{Sizes, accept, nesting};
use ops::sets::OpSet;
use words::fields;
use words::refusals::{Reason, Refusal};

// Words in which every list that can be written has room.
pub const OUTPUT_WORDS: usize = fields::TOKEN_WORDS * fields::MOST_TOKENS;

// What becomes of a list, unless the call is turned back: then the refusal says why, and nothing is changed.
#[derive(Clone, Copy)]
pub enum Lot {
    // It stays word for word; its tree has so many nodes at both engines.
    Same(usize),
    // So many tokens came out.
    Lifted(usize),
    // The old engine has so many messages for it.
    Messages(usize),
    // The list as it is stays behind: the new engine's refusal.
    Behind(Refusal),
    // What would be written of its tree is not a list for the new engine, by this refusal.
    Unwritten(Refusal),
}

// Whether the call is turned back for its lengths, its limits, its words or the old engine's limit.
fn turned(list: &[u32], sizes: Sizes, limit_from: u32, limit_to: u32) -> Result<usize, Refusal>
    ensures { verdict_of result
        ≡ verdict (length list.now / 5) (turned_by list.now sizes limit_from limit_to) }
{
    let limit = first_limit(limit_from, limit_to);
    accept(list, sizes, OpSet::NONE, limit)
}

// Of a call whose output is too short: what turns it back before that does.
fn short(list: &[u32], sizes: Sizes, limit_from: u32, limit_to: u32) -> Result<Lot, Refusal>
    ensures { lot_told result
        ≡ or_turned (turned_by list.now sizes limit_from limit_to) (turned_back 15 0) }
{
    turned(list, sizes, limit_from, limit_to)?;
    Err(Reason::ShortList.at(0))
}

// Of a list that stays behind: whether the call is turned back, or the list is too deep as it is, or what is written is at fault.
fn behind(
    list: &[u32],
    sizes: Sizes,
    limit_from: u32,
    limit_to: u32,
    refusal: Refusal,
) -> Result<Lot, Refusal>
    ensures { lot_told result
        ≡ or_turned (turned_by list.now sizes limit_from limit_to)
        (behind_as (too_deep limit_to (tokens_of list.now)) (reason_number refusal.reason) refusal.place) }
{
    let n = turned(list, sizes, limit_from, limit_to)?;
    match nesting(list, n, limit_to) {
        Ok(_) => Ok(Lot::Unwritten(refusal)),
        Err(_) => Ok(Lot::Behind(refusal)),
    }
}

// What is told of an outcome.
fn tell(
    outcome: Result<Outcome, Refusal>,
    list: &[u32],
    sizes: Sizes,
    limit_from: u32,
    limit_to: u32,
) -> Result<Lot, Refusal>
    requires { CanTell (turned_by list.now sizes limit_from limit_to) (lift_told outcome) }
    ensures { lot_told result
        ≡ or_turned (turned_by list.now sizes limit_from limit_to)
        (lot_of (too_deep limit_to (tokens_of list.now)) (lift_told outcome)) }
{
    match outcome {
        Ok(Outcome::Same(nodes)) => Ok(Lot::Same(nodes)),
        Ok(Outcome::Lifted(tokens)) => Ok(Lot::Lifted(tokens)),
        Ok(Outcome::Messages(records)) => Ok(Lot::Messages(records)),
        Err(refusal) => behind(list, sizes, limit_from, limit_to, refusal),
    }
}

// THE LIFT ENTRY, for every call.
pub fn lift_entry(
    list: &[u32],
    tree: &mut [u32],
    again: &mut [u32],
    messages: &mut [u32],
    work: &mut [u32],
    output: &mut [u32],
    from: i16,
    to: i16,
    limit_from: u32,
    limit_to: u32,
) -> Result<Lot, Refusal>
    ensures { HasEntered
        (lift_call list.now tree.old again.old messages.old work.old
        output.old (engine from limit_from) (engine to limit_to))
        (lot_told result) tree.new again.new messages.new work.new output.new }
{
    let sizes = Sizes {
        tree: tree.len().min(again.len()),
        messages: messages.len(),
        work: work.len(),
        source: 0,
    };
    if output.len() < OUTPUT_WORDS {
        return short(list, sizes, limit_from, limit_to);
    }
    let outcome = lift(
        list, tree, again, messages, work, output, from, to, limit_from, limit_to,
    );
    tell(outcome, list, sizes, limit_from, limit_to)
}
