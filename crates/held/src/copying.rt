// Words copied from one buffer into another. Leans on words (what it is to be laid).
ghost use Rattle.std.specs.Prelude.{◌≡◌, ◌+◌, ◌≤◌, length};
ghost use Rattle.words.specs.Records.{laid_at};

// Copies words to those from `at` on. `splice`, `open_list` and `commit_edit` have room for them.
pub fn copy_words(from: &[u32], to: &mut [u32], at: usize)
    requires { at + length from.now ≤ length to.old }
    ensures { to.new ≡ laid_at at from.now to.old }
{
    // Not by `copy_from_slice`, with which the archive for C needs `memmove` from outside.
    for i in 0..from.len() {
        to[at + i] = from[i];
    }
}
