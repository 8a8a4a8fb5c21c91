// Words laid into a lent buffer of bytes, the lowest byte of each first. Leans on text (bytes laid into a buffer); specs/LiftedFile says
// which bytes words are. The callers, in `close` and `step`, have room for all that they lay.
ghost use Rattle.std.specs.Prelude.{[], ◌∷◌, ◌+◌, ◌*◌, ◌≤◌, length};
ghost use Rattle.text.specs.Text.{Wrote};
ghost use Rattle.liftlists.specs.LiftedFile.{bytes_of};

use text::put_bytes;

// Puts a word from the index `at` on; the index behind it, here and below.
pub(crate) fn put_word(out: &mut [u8], at: usize, w: u32) -> usize
    requires { at + 4 ≤ length out.old }
    ensures { Wrote out.old at (bytes_of (w ∷ [])) result out.new }
{
    put_bytes(out, at, &w.to_le_bytes())
}

// Words one behind the other.
fn put_words(out: &mut [u8], at: usize, words: &[u32]) -> usize
    requires { at + 4 * length words.now ≤ length out.old }
    ensures { Wrote out.old at (bytes_of words.now) result out.new }
{
    let mut end = at;
    for &w in words {
        end = put_word(out, end, w);
    }
    end
}

// A list's opener and its words.
pub(crate) fn put_list(out: &mut [u8], at: usize, opener: u32, words: &[u32]) -> usize
    requires { at + 4 * length words.now + 4 ≤ length out.old }
    ensures { Wrote out.old at (bytes_of (opener ∷ words.now)) result out.new }
{
    let end = put_word(out, at, opener);
    put_words(out, end, words)
}
