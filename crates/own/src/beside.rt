// Two readings beside each other. Leans on nothing; molang's `Lift` has the definition.
ghost use Rattle.std.specs.Prelude.{◌≡◌, ◌≤◌, length, take};
ghost use Rattle.molang.specs.Lift.{eq_words};

// Whether the first words of two buffers are equal. The callers' trees stand in their buffers.
#[tactic(auto, using(crate::proofs::BesideLaws::same_pointwise))]
pub fn same_words(tree: &[u32], again: &[u32], words: usize) -> bool
    requires { (words ≤ length tree.now) × (words ≤ length again.now) }
    ensures { result ≡ eq_words (take words tree.now) (take words again.now) }
{
    tree[..words] == again[..words]
}
