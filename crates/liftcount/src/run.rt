// What the program holds of an input while it comes in: by value, beside lent buffers for the words of the open list and for reading it.
// Leans on words (refusals); specs/Running says what each byte and word does to it.

use words::refusals::Refusal;

// How far the input has come: which word is next, the versions that it has given, and how many words the open list has.
#[derive(Clone, Copy)]
pub enum Stage {
    First,
    Second(i16),
    Opener(i16, i16),
    InList(i16, i16, usize),
}

// The counts so far: lists read, same tree, different trees, message at one version only, message at both.
#[derive(Clone, Copy)]
pub struct Counts {
    pub read: u64,
    pub same: u64,
    pub different: u64,
    pub one: u64,
    pub both: u64,
}

// The run: how many bytes of a word have come, these bytes in the upper bits of a word, and what whole words came to. After a refusal no
// word is looked at.
#[derive(Clone, Copy)]
pub struct Run {
    pub held: u32,
    pub partial: u32,
    pub stage: Result<Stage, Refusal>,
    pub counts: Counts,
}

// The most words of a list.
pub const MOST_WORDS: usize = 640;

// The words of the open list, in front.
pub type ListBuffer = [u32; MOST_WORDS];

// Buffers to read a list of 128 tokens in: a tree of 384 nodes, two records, and the work.
pub type TreeBuffer = [u32; 2688];

pub type MessageBuffer = [u32; 16];

pub type WorkBuffer = [u32; 8256];
