// The walk over words that are to be one tree, in whichever order its nodes stand: node by node for as long as each node continues the
// tree, then word by word, which finds the place of a fault. An order says what the words so far come to. Leans on the root and words.
ghost use Rattle.std.specs.Prelude.{◌≡◌, true, Bool, ℕ, List};
ghost use Rattle.std.proofs.Math.Option.{Option};
ghost use Rattle.molang.specs.Words.{Field as DefinedField, operator_field};
ghost use Rattle.shape.specs.Answers.{field_of, place_of};
ghost use Rattle.shape.specs.Walks.{goes_on, IsWalk, NodeFits, IsAfterNode, Seen};

use crate::{Field, is_node};
use words::fields;

// What the words so far come to.
pub trait Walk: Clone + Copy {
    // Before all words, and after a legal word that fits.
    ghost start: { Self };

    ghost after: { DefinedField → ℕ → Self → Self };

    // Whether a legal word fits next, and whether the words may end there.
    ghost fits: { DefinedField → ℕ → Self → Bool };

    ghost whole: { DefinedField → Self → Bool };

    // The place of the first fault, if there is one.
    ghost fault: { ℕ → DefinedField → ℕ → Self → List ℕ → Option ℕ };

    // What holds before a word of the field. The loops below keep it, and so have what the methods ask.
    ghost Holds: { DefinedField → Self → Type 0 };

    fn start() -> Self
        ensures { result ≡ start };

    fn after(self, field: Field, w: u32) -> Self
        requires holds { Holds (field_of field) self }
        requires fitting { fits (field_of field) w self ≡ true }
        ensures { result ≡ after (field_of field) w self };

    fn fits(self, field: Field, w: u32) -> bool
        requires { Holds (field_of field) self }
        ensures { result ≡ fits (field_of field) w self };

    fn is_whole(self, field: Field) -> bool
        ensures { result ≡ whole (field_of field) self };

    // Whether the words of a legal node of this child count fit; it may say no to a node that is then judged word by word.
    fn fits_node(self, count: u32) -> bool
        requires { Holds operator_field self }
        ensures { result ≡ true → NodeFits after fits count self };

    // After the words of a node of this child count.
    fn after_node(self, count: u32) -> Self
        requires holds { Holds operator_field self }
        requires fitting { NodeFits after fits count self }
        ensures { IsAfterNode after count self result };

    ghost walks: { IsWalk start after fits whole fault Holds };
}

// The whole nodes before `at`, and what they come to.
#[derive(Clone, Copy)]
struct Front<W: Walk> {
    walk: W,
    at: usize,
}

// The loop over the whole nodes at the front, up to the first that does not continue the tree. A node's words are read in a row,
// without a test of which word is expected next.
fn whole_nodes<W: Walk>(words: &[u32]) -> Front<W>
    ensures { Seen W.Holds W.fault W.start words.now operator_field 0 result.walk result.at }
{
    let mut walk = W::start();
    let nodes = words.len() / fields::NODE_WORDS;
    for node in 0..nodes {
        let at = node * fields::NODE_WORDS;
        let count = words[at + fields::COUNT_FIELD];
        if !walk.fits_node(count) {
            return Front { walk, at };
        }
        if !is_node(words, at) {
            return Front { walk, at };
        }
        walk = walk.after_node(count);
    }
    Front {
        walk,
        at: nodes * fields::NODE_WORDS,
    }
}

// Whether the word can stand next: it is legal, and it fits.
fn goes_on<W: Walk>(walk: W, field: Field, variant: u32, w: u32) -> bool
    requires { W.Holds (field_of field) walk }
    ensures { result ≡ goes_on W.fits (field_of field) variant walk w }
{
    if !field.is_legal(variant, w) {
        return false;
    }
    walk.fits(field, w)
}

// The loop over the words after them: the first that cannot continue a tree, or the end where they run out.
fn fault_after<W: Walk>(words: &[u32], front: Front<W>) -> Option<usize>
    requires { Seen W.Holds W.fault W.start words.now operator_field 0 front.walk front.at }
    ensures { place_of result ≡ W.fault 0 operator_field 0 W.start words.now }
{
    let mut walk = front.walk;
    let mut field = Field::Operator;
    let mut variant = 0u32;
    for i in front.at..words.len() {
        let w = words[i];
        if !goes_on(walk, field, variant, w) {
            return Some(i);
        }
        walk = walk.after(field, w);
        variant = field.variant_after(variant, w);
        field = field.next();
    }
    if walk.is_whole(field) {
        None
    } else {
        Some(words.len())
    }
}

// The first word that cannot continue one tree, or the number of words where they run out; none where they are one tree.
pub fn first_fault<W: Walk>(words: &[u32]) -> Option<usize>
    ensures { place_of result ≡ W.fault 0 operator_field 0 W.start words.now }
{
    fault_after(words, whole_nodes::<W>(words))
}
