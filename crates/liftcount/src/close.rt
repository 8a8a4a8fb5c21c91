// The end of a list: the counts have it, or it is refused. Leans on judge; specs/Judging has the definitions.
ghost use Rattle.std.specs.Prelude.{◌≡◌, length, take};
ghost use Rattle.liftcount.specs.Running.{refused_row, more, open_fault, counted};
ghost use Rattle.liftcount.specs.Judging.{tallied_by, ended_by};

use crate::judge::{Verdict, judge};
use crate::run::{Counts, ListBuffer, MessageBuffer, TreeBuffer, WorkBuffer};
use words::refusals::Refusal;

// One more, up to the highest number: no sum wraps.
pub fn one_more(n: u64) -> u64
    ensures { result ≡ more n }
{
    if n < 18_446_744_073_709_551_615 {
        return n + 1;
    }
    n
}

// The counts with a list that came to this.
fn tallied(verdict: Verdict, counts: Counts) -> Counts
    ensures { result ≡ tallied_by verdict counts }
{
    let mut next = counts;
    next.read = one_more(counts.read);
    match verdict {
        Verdict::Same => {
            next.same = one_more(counts.same);
        }
        Verdict::Different => {
            next.different = one_more(counts.different);
        }
        Verdict::One => {
            next.one = one_more(counts.one);
        }
        Verdict::Both => {
            next.both = one_more(counts.both);
        }
    }
    next
}

// Ends the open list, which is so many words in front of its buffer.
pub fn close(
    list: &ListBuffer,
    words: usize,
    from: i16,
    to: i16,
    counts: Counts,
    tree: &mut TreeBuffer,
    again: &mut TreeBuffer,
    messages: &mut MessageBuffer,
    work: &mut WorkBuffer,
) -> Result<Counts, Refusal>
    ensures { refused_row result ≡ ended_by (open_fault words list.now) (counted from to (take words list.now) counts) }
{
    let verdict = judge(list, words, from, to, tree, again, messages, work)?;
    Ok(tallied(verdict, counts))
}
