// The end of a list: it is laid into the output as the lift leaves it. Leans on judge and put; specs/LiftedFile has the definition.
ghost use Rattle.std.specs.Prelude.{◌+◌, ◌^◌, ◌≤◌, ◌<◌, length};
ghost use Rattle.text.specs.Text.{Wrote};
ghost use Rattle.liftlists.specs.LiftedFile.{bytes_of, file_list, all_words, carried};

use crate::judge::{Fate, judge};
use crate::lent::{OutBuffer, Scratch};
use crate::put::put_list;
use words::fields;

// Lays what becomes of a list between two version words from the index `at` on; the index behind it.
pub(crate) fn close(
    list: &[u32],
    opener: u32,
    to: u32,
    out: &mut OutBuffer,
    at: usize,
    scratch: &mut Scratch,
) -> usize
    requires list_len_bound { (length list.now ≤ 20480) × (opener < 2 ^ 16) × (to < 2 ^ 16) × (at + 81924 ≤ 262144) }
    ensures upper_bound { result ≤ at + 81924 }
    ensures wrote { Wrote out.old at (bytes_of (all_words (carried to (file_list opener list.now)))) result
        out.new }
{
    let fate = judge(list, opener, to, scratch);
    match fate {
        Fate::Same => put_list(out, at, to, list),
        Fate::Lifted(tokens) => {
            let end = fields::TOKEN_WORDS * tokens;
            put_list(out, at, to, &scratch.output[..end])
        }
        Fate::Behind => put_list(out, at, opener, list),
    }
}
