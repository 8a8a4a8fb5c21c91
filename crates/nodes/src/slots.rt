// A slot is eight words of the work buffer: a token in five words (stored), the first child's slot, the next sibling's slot, the
// classes of the leaves at or below it. Slot 0 owns the outermost list; as a child or a sibling 0 means none. A link stays a word with 0 for
// none, and no Option: what is read from one slot is written to another as it stands.
// Token i stands at slot 3(i + 1), and the two slots after it are spare for nodes that the passes make right after it.
// The functions ask that a slot's words lie within the buffer. The callers have this from the store (specs/Store), whose slots stand
// below the stack. A slot's number fits 32 bits: `load` has this from the 4,096 tokens at most, and the passes have it from the length
// of the words that `parse` works in. Leans on stored, ops (classes) and words (fields).
ghost use Rattle.std.specs.Prelude.{◌≡◌, ◌+◌, ◌*◌, ◌^◌, ◌≤◌, ◌<◌, length, set};
ghost use Rattle.words.specs.Fields.{with_operator};
ghost use Rattle.molang.specs.Words.{word, operator_bits};
ghost use Rattle.nodes.specs.Store.{slot_start, slot_end, close_word, first_word, next_word, classes_word, operator_word_at};
ghost use Rattle.nodes.specs.Store.{first_at, next_at, classes_at};
ghost use Rattle.nodes.specs.Stored.{stored_at};
ghost use Rattle.nodes.specs.Slots.{op_at, start_at, end_at, is_leaf_at, is_token_at, Laid, Made};

use crate::stored::{CLOSE_FIELD, StoredWords};
use ops::classes::TokenClasses;
use words::fields;

pub const ROOT: u32 = 0;

// How many words a slot is, and which of them come after those of its token.
const SLOT_WORDS: usize = 8;

const FIRST_FIELD: usize = 5;

const NEXT_FIELD: usize = 6;

const CLASSES_FIELD: usize = 7;

// The slot of token i.
pub fn slot_of(i: u32) -> u32
    requires { 3 * i + 3 < 2 ^ 32 }
    ensures { result ≡ 3 * i + 3 }
{
    3 * i + 3
}

// The first spare slot after s. A binary minus has its new node there, and a semicolon that ends a statement has the open statement
// behind it there.
pub fn spare(s: u32) -> u32
    requires { s + 1 < 2 ^ 32 }
    ensures { result ≡ s + 1 }
{
    s + 1
}

// The second spare slot after s. The semicolon that ends a list's first statement has the node of the statement list there.
pub fn second_spare(s: u32) -> u32
    requires { s + 2 < 2 ^ 32 }
    ensures { result ≡ s + 2 }
{
    s + 2
}

// The first word past the slots of n tokens: the stack starts there. The callers have at most 4,096 tokens.
pub fn stack_of(n: usize) -> usize
    requires { 24 * n + 24 < 2 ^ 64 }
    ensures { result ≡ 24 * n + 24 }
{
    24 * n + 24
}

// The words of slot s: its token's, its first child, its next sibling and its classes. Each has a function of its own, where one function
// of the field would be no plainer than the index that it computes.

pub fn token_of(work: &[u32], s: u32) -> StoredWords
    requires { slot_end s ≤ length work.now }
    ensures { result ≡ stored_at work.now (slot_start s) }
{
    StoredWords::at(work, SLOT_WORDS * (s as usize))
}

pub fn first_of(work: &[u32], s: u32) -> u32
    requires { slot_end s ≤ length work.now }
    ensures { result ≡ first_at work.now s }
{
    work[SLOT_WORDS * (s as usize) + FIRST_FIELD]
}

pub fn next_of(work: &[u32], s: u32) -> u32
    requires { slot_end s ≤ length work.now }
    ensures { result ≡ next_at work.now s }
{
    work[SLOT_WORDS * (s as usize) + NEXT_FIELD]
}

// A leaf has its own class here, and any other node has the classes of all leaves below it.
pub fn classes_of(work: &[u32], s: u32) -> TokenClasses
    requires { slot_end s ≤ length work.now }
    ensures { result.0 ≡ classes_at work.now s }
{
    TokenClasses(work[SLOT_WORDS * (s as usize) + CLASSES_FIELD])
}

pub fn set_first(work: &mut [u32], s: u32, v: u32)
    requires { slot_end s ≤ length work.old }
    ensures { work.new ≡ set work.old (first_word s) v }
{
    work[SLOT_WORDS * (s as usize) + FIRST_FIELD] = v;
}

pub fn set_next(work: &mut [u32], s: u32, v: u32)
    requires { slot_end s ≤ length work.old }
    ensures { work.new ≡ set work.old (next_word s) v }
{
    work[SLOT_WORDS * (s as usize) + NEXT_FIELD] = v;
}

// Slot s, a section, closes at the end of slot `closer`.
pub fn set_close(work: &mut [u32], s: u32, closer: u32)
    requires { (slot_end s ≤ length work.old) × (slot_end closer ≤ length work.old) }
    ensures { work.new ≡ set work.old (close_word s) (word 7 (end_at work.old closer)) }
{
    let end = work[SLOT_WORDS * (closer as usize) + fields::END_FIELD];
    work[SLOT_WORDS * (s as usize) + CLOSE_FIELD] = fields::close_word(end);
}

pub fn set_classes(work: &mut [u32], s: u32, classes: TokenClasses)
    requires { slot_end s ≤ length work.old }
    ensures { work.new ≡ set work.old (classes_word s) classes.0 }
{
    work[SLOT_WORDS * (s as usize) + CLASSES_FIELD] = classes.0;
}

// What the words say.

pub fn operator_of(work: &[u32], s: u32) -> u32
    requires { slot_end s ≤ length work.now }
    ensures { result ≡ op_at work.now s }
{
    fields::operator(work[SLOT_WORDS * (s as usize)])
}

// The operator's bits as they stand in its word: what `fields::operator_bits` gives.
pub fn operator_bits_of(work: &[u32], s: u32) -> u32
    requires { slot_end s ≤ length work.now }
    ensures { result ≡ operator_bits (op_at work.now s) 0 }
{
    fields::operator_bits(work[SLOT_WORDS * (s as usize)])
}

pub fn start_of(work: &[u32], s: u32) -> u32
    requires { slot_end s ≤ length work.now }
    ensures { result ≡ start_at work.now s }
{
    fields::low(work[SLOT_WORDS * (s as usize) + fields::START_FIELD])
}

pub fn end_of(work: &[u32], s: u32) -> u32
    requires { slot_end s ≤ length work.now }
    ensures { result ≡ end_at work.now s }
{
    fields::low(work[SLOT_WORDS * (s as usize) + fields::END_FIELD])
}

pub fn is_leaf(work: &[u32], s: u32) -> bool
    requires { slot_end s ≤ length work.now }
    ensures { result ≡ is_leaf_at work.now s }
{
    first_of(work, s) == 0
}

// Whether slot s is a leaf of op. Every caller names an operator below 256, which the bits as they stand tell from all others.
pub fn is_token(work: &[u32], s: u32, op: u32) -> bool
    requires { slot_end s ≤ length work.now }
    ensures { result ≡ is_token_at work.now s op }
{
    if first_of(work, s) != 0 {
        return false;
    }
    if op < fields::FIRST_HOST {
        return operator_bits_of(work, s) == op;
    }
    operator_of(work, s) == op
}

// Slot s becomes a leaf of the five words that notes these classes.
pub fn set_leaf(work: &mut [u32], s: u32, token: StoredWords, classes: TokenClasses)
    requires { slot_end s ≤ length work.old }
    ensures { Laid work.old s token classes.0 work.new }
{
    let at = SLOT_WORDS * (s as usize);
    token.lay(work, at);
    work[at + FIRST_FIELD] = 0;
    work[at + NEXT_FIELD] = 0;
    work[at + CLASSES_FIELD] = classes.0;
}

// Slot s becomes a node of op with the span of slot `like` and payload 0, which closes at its end. It notes no class: it is to take
// children.
pub fn make(work: &mut [u32], s: u32, op: u32, like: u32)
    requires { (slot_end s ≤ length work.old) × (slot_end like ≤ length work.old) }
    ensures { Made work.old s op like work.new }
{
    let token = token_of(work, like).bare(op);
    set_leaf(work, s, token, TokenClasses::NONE);
}

// The operator of slot s becomes op, its span, its payload and where it closes stay. Its classes are left to the caller.
pub fn set_operator(work: &mut [u32], s: u32, op: u32)
    requires { slot_end s ≤ length work.old }
    ensures { work.new ≡ set work.old (slot_start s) (with_operator (operator_word_at work.old s) op) }
{
    let at = SLOT_WORDS * (s as usize);
    let w = work[at];
    work[at] = fields::with_operator(w, op);
}
