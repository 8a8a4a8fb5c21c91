// What becomes of a list. Leans on lift (the lift itself), derived (a version) and words; specs/Steps has the definition.
ghost use Rattle.std.specs.Prelude.{◌≡◌, ◌^◌, ◌≤◌, ◌<◌, length};
ghost use Rattle.molang.specs.Lift.{lift_of};
ghost use Rattle.lift.specs.Answers.{lift_told};
ghost use Rattle.liftlists.specs.LiftedFile.{engine_of};
ghost use Rattle.liftlists.specs.Steps.{fate_told, HasFate};

use crate::lent::Scratch;
use derived::version_of;
use lift::{Outcome, lift};
use words::fields;
use words::refusals::Refusal;

// The nesting limit of both engines.
const LIMIT: u32 = 4096;

// The list stays word for word under the new version; so many tokens come out under it; or the list stays behind, under its own.
#[derive(Clone, Copy)]
pub enum Fate {
    Same,
    Lifted(usize),
    Behind,
}

// The fate that an outcome is.
fn fate_of(outcome: Result<Outcome, Refusal>) -> Fate
    ensures { result ≡ fate_told (lift_told outcome) }
{
    match outcome {
        Ok(Outcome::Same(_)) => Fate::Same,
        Ok(Outcome::Lifted(tokens)) => Fate::Lifted(tokens),
        Ok(Outcome::Messages(_)) => Fate::Behind,
        Err(_) => Fate::Behind,
    }
}

// What becomes of the words of a list between two version words; what comes out stands in front of the output. The lift clears all the work
// that it is lent, so that it is lent what the tokens need. The output's length is told to `close`: the check does not read it off a field's
// type behind a call.
pub(crate) fn judge(list: &[u32], from: u32, to: u32, scratch: &mut Scratch) -> Fate
    requires list_len_bound { (length list.now ≤ 20480) × (from < 2 ^ 16) × (to < 2 ^ 16) }
    ensures output_len { length scratch.new.output ≡ 20480 }
    ensures fate { HasFate (lift_of (engine_of from) (engine_of to) list.now) result scratch.new.output }
{
    if list.len() % fields::TOKEN_WORDS != 0 {
        return Fate::Behind;
    }
    let mut messages = [0u32; 16];
    let room = 64 * (list.len() / fields::TOKEN_WORDS) + 64;
    // A part of a field is not lent in one step beside other fields, but that of a slice is.
    let work: &mut [u32] = &mut scratch.work;
    let outcome = lift(
        list,
        &mut scratch.tree,
        &mut scratch.again,
        &mut messages,
        &mut work[..room],
        &mut scratch.output,
        version_of(from),
        version_of(to),
        LIMIT,
        LIMIT,
    );
    fate_of(outcome)
}
