// The export of the lift of a list: two tree buffers, an output, and the version and nesting limit of two engines. Leans on lift;
// specs/Lifting has the promise.
ghost use Rattle.std.specs.Prelude.{◌≡◌};
ghost use Rattle.lift.specs.Answers.{engine, lift_call};
ghost use Rattle.lift.specs.Entry.{lot_told};
ghost use Rattle.sorbrudder.specs.Lifting.{lot_number, FitsLot, HasLiftedTo};

use crate::{MESSAGES, reason, refusal};
use lift::entry::{Lot, lift_entry};
use words::refusals::Refusal;

// The kinds of an answer that only the lift gives: a list came out, the list as it is stays behind, nothing can be written of it.
const LIFTED: u64 = 0x300_0000_0000;

const BEHIND: u64 = 0x400_0000_0000;

const UNWRITTEN: u64 = 0x500_0000_0000;

// The lift's answer as one number. Every answer of it fits (proofs/LiftingLaws).
fn lifted_number(lot: Result<Lot, Refusal>) -> u64
    requires { FitsLot (lot_told lot) }
    ensures { result ≡ lot_number (lot_told lot) }
{
    match lot {
        Ok(Lot::Same(nodes)) => nodes as u64,
        Ok(Lot::Lifted(tokens)) => LIFTED + (tokens as u64),
        Ok(Lot::Messages(records)) => MESSAGES + (records as u64),
        Ok(Lot::Behind(old)) => BEHIND + reason(old),
        Ok(Lot::Unwritten(new)) => UNWRITTEN + reason(new),
        Err(unchanged) => refusal(unchanged),
    }
}

// Lifts a list: `lift_entry`, with its answer as one number.
#[unsafe(no_mangle)]
pub extern "C" fn sorbrudder_lift(
    list: &[u32],
    tree: &mut [u32],
    again: &mut [u32],
    messages: &mut [u32],
    work: &mut [u32],
    output: &mut [u32],
    from: i16,
    to: i16,
    limit_from: u32,
    limit_to: u32,
) -> u64
    ensures { HasLiftedTo
        (lift_call list.now tree.old again.old messages.old work.old
        output.old (engine from limit_from) (engine to limit_to))
        result tree.new again.new messages.new work.new output.new }
{
    let lot = lift_entry(
        list, tree, again, messages, work, output, from, to, limit_from, limit_to,
    );
    lifted_number(lot)
}
