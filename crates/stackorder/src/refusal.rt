// Why an export or an import is turned back: the words are not one tree (answers 12 and 24), or the output is shorter than they are
// (answer 25). Leans on words.
ghost use Rattle.std.specs.Prelude.{◌≡◌, leb};
ghost use Rattle.molang.specs.FirstFailure.{must};
ghost use Rattle.molang.specs.Words.{row, with_number};
ghost use Rattle.words.specs.Refusals.{reason_number};
ghost use Rattle.shape.specs.Answers.{place_of};
ghost use Rattle.stackorder.specs.Answers.{refusal_in};

use words::refusals::{Reason, Refusal};

// A fault of the words, for its reason.
pub fn faultless(reason: Reason, fault: Option<usize>) -> Result<(), Refusal>
    ensures { refusal_in result ≡ with_number (reason_number reason) (place_of fault) }
{
    match fault {
        Some(place) => Err(reason.at(place)),
        None => Ok(()),
    }
}

// Answer 25, by the number of words and by the output's.
pub fn roomy(words: usize, output: usize) -> Result<(), Refusal>
    ensures { refusal_in result ≡ must (leb words output) (row 25 0) }
{
    if output < words {
        return Err(Reason::ShortOutput.at(0));
    }
    Ok(())
}
