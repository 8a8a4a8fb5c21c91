// Answer 12: the words are exactly one tree of at most 12,288 nodes, or the first word that cannot continue one is found. Here which word
// of a node is which and when it is legal; `walk` goes over the words, and `tree` says what they come to. Leans on words (the check of each
// word).
#![tactic(auto)]

mod tree;
pub mod walk;

ghost use Rattle.std.specs.Prelude.{◌≡◌, true, ℕ, ◌+◌, ◌≤◌, length};
ghost use Rattle.molang.specs.Words as words;
ghost use Rattle.molang.specs.WriteEntry as entry;
ghost use Rattle.shape.specs.Answers.{field_of, refusal_of, tree_refusal, is_legal, shape};
ghost use Rattle.shape.specs.Seen.{LegalNode};
ghost use Rattle.words.specs.Tokens.{node_length};

use crate::tree::TreeOrder;
use words::fields::WordKind;
use words::{checks, fields};

// The most nodes of a tree.
pub const MOST_NODES: u32 = 12_288;

// Which word of a node is expected next.
#[derive(Clone, Copy)]
pub enum Field {
    Operator,
    Start,
    End,
    Upper,
    Lower,
    Count,
    Close,
}

// Whether the word is of kind 1, with no bit from 16 on, a payload variant and the number of an operator. `operator_word` says besides
// what is wrong; without that the loop over whole nodes stays short.
fn is_operator(w: u32) -> bool
    ensures { result ≡ is_legal (words.word_fault words.operator_field 0 w) }
{
    if w / 65_536 != 8_192 {
        return false;
    }
    if fields::LAST_VARIANT < fields::variant(w) {
        return false;
    }
    fields::is_operator(fields::operator(w))
}

// Whether the word is of kind 6, of which bits 0-13 are used.
fn is_count(w: u32) -> bool
    ensures { result ≡ is_legal (words.word_fault words.count_field 0 w) }
{
    if !WordKind::Children.is_of(w) {
        return false;
    }
    fields::low(w) < 16_384
}

impl Field {
    // Which word of a node is expected after it.
    pub fn next(self) -> Field
        ensures { field_of result ≡ entry.next_in_node (field_of self) }
    {
        match self {
            Field::Operator => Field::Start,
            Field::Start => Field::End,
            Field::End => Field::Upper,
            Field::Upper => Field::Lower,
            Field::Lower => Field::Count,
            Field::Count => Field::Close,
            Field::Close => Field::Operator,
        }
    }

    // Whether the word is legal in its field, in a node of the given payload variant.
    pub fn is_legal(self, variant: u32, w: u32) -> bool
        ensures { result ≡ is_legal (words.word_fault (field_of self) variant w) }
    {
        match self {
            Field::Operator => is_operator(w),
            Field::Start => checks::span_word(w, WordKind::Start).is_ok(),
            Field::End => checks::span_word(w, WordKind::End).is_ok(),
            Field::Upper => checks::half_word(w, WordKind::Upper, variant).is_ok(),
            Field::Lower => checks::half_word(w, WordKind::Lower, variant).is_ok(),
            Field::Count => is_count(w),
            Field::Close => checks::span_word(w, WordKind::Close).is_ok(),
        }
    }

    // How many nodes have begun, after one of a node's words. The loops over words stop before more have begun than fit.
    pub fn begun_after(self, begun: u32) -> u32
        requires { begun ≤ entry.most_nodes }
        ensures { (called w : ℕ) → result ≡ (entry.shape_after (field_of self) w (shape called begun)).begun }
    {
        match self {
            Field::Operator => begun + 1,
            _ => begun,
        }
    }

    // The payload variant of the node, after one of its words.
    pub fn variant_after(self, variant: u32, w: u32) -> u32
        ensures { result ≡ words.variant_after (field_of self) variant w }
    {
        match self {
            Field::Operator => fields::variant(w),
            _ => variant,
        }
    }
}

// Whether the seven words from `at` on are legal, each in its field. The loop over whole nodes tests that seven are left.
pub fn is_node(tree: &[u32], at: usize) -> bool
    requires { at + node_length ≤ length tree.now }
    ensures { result ≡ true → LegalNode tree.now at }
{
    let variant = fields::variant(tree[at]);
    Field::Operator.is_legal(0, tree[at])
        && Field::Start.is_legal(0, tree[at + fields::START_FIELD])
        && Field::End.is_legal(0, tree[at + fields::END_FIELD])
        && Field::Upper.is_legal(variant, tree[at + fields::UPPER_FIELD])
        && Field::Lower.is_legal(variant, tree[at + fields::LOWER_FIELD])
        && Field::Count.is_legal(0, tree[at + fields::COUNT_FIELD])
        && Field::Close.is_legal(0, tree[at + fields::CLOSE_FIELD])
}

// The first word that cannot continue one tree, or the number of words where they run out; none where they are one tree.
pub fn first_fault(tree: &[u32]) -> Option<usize>
    ensures { refusal_of result ≡ tree_refusal tree.now }
{
    walk::first_fault::<TreeOrder>(tree)
}
