// When the entry turns a call back: answers 1 to 11 of document 01's table and 17 and 18 of document 02's card 8, in the table's order;
// the first failure wins. Leans on words (the check of a token) and ops (sets, brackets); specs/Accepting says which call a list and these
// sizes stand for.
#![tactic(auto)]

ghost use Rattle.std.specs.Prelude.{◌≡◌, ◌*◌, ◌/◌, ◌≤◌, length};
ghost use Rattle.molang.specs.Parse.{is_limit, refusal};
ghost use Rattle.molang.specs.Words.{operator_field, words_refusal};
ghost use Rattle.words.specs.Checks.{refusal_of};
ghost use Rattle.accept.specs.Accepting.{verdict_of, verdict, call_of, length_refusal, value_refusal, nesting_refusal};

use ops::open_after;
use ops::sets::OpSet;
use words::checks::token;
use words::fields;
use words::refusals::{Reason, Refusal};
use words::tokens::TokenWords;

// Words of the tree buffer per token, and of the work buffer per token and once more.
pub const TREE_WORDS: usize = 21;

pub const WORK_WORDS: usize = 64;

// The highest start or end that a span can have.
pub const MOST_SOURCE: u64 = 536_870_911;

// The highest nesting limit: at it no list is nested too deep.
pub const MOST_LIMIT: u32 = 4096;

// The lengths of the buffers that the call lends besides the list, and of the source.
#[derive(Clone, Copy)]
pub struct Sizes {
    pub tree: usize,
    pub messages: usize,
    pub work: usize,
    pub source: u64,
}

// Answers 1 to 5, which lengths alone decide.
pub fn lengths(list: &[u32], sizes: Sizes) -> Result<usize, Refusal>
    ensures { verdict_of result ≡ verdict (length list.now / 5) (length_refusal list.now sizes) }
{
    let words = list.len();
    if words % fields::TOKEN_WORDS != 0 {
        return Err(Reason::ListNotWhole.at(0));
    }
    let n = words / fields::TOKEN_WORDS;
    if fields::MOST_TOKENS < n {
        return Err(Reason::TooManyTokens.at(0));
    }
    if sizes.tree < TREE_WORDS * n {
        return Err(Reason::ShortTreeBuffer.at(0));
    }
    if sizes.messages < 2 * fields::RECORD_WORDS {
        return Err(Reason::ShortMessageBuffer.at(0));
    }
    if sizes.work < WORK_WORDS * n + WORK_WORDS {
        return Err(Reason::ShortWorkBuffer.at(0));
    }
    Ok(n)
}

// Whether a nesting limit is in its range.
pub fn is_limit(limit: u32) -> bool
    ensures { result ≡ is_limit limit }
{
    1 <= limit && limit <= MOST_LIMIT
}

// Answers 6, 7 and 17.
fn values(source: u64, used: OpSet, limit: u32) -> Result<(), Refusal>
    ensures { refusal_of result ≡ value_refusal «source» used limit }
{
    if !used.is_legal() {
        return Err(Reason::UsedSetTooHigh.at(0));
    }
    if MOST_SOURCE < source {
        return Err(Reason::SourceTooLong.at(0));
    }
    if !is_limit(limit) {
        return Err(Reason::LimitOutOfRange.at(0));
    }
    Ok(())
}

// Answers 8 to 11: the words of n tokens, in list order. `lengths` has counted them.
fn token_words(list: &[u32], n: usize) -> Result<(), Refusal>
    requires { length list.now ≡ 5 * n }
    ensures { refusal_of result ≡ words_refusal 0 operator_field 0 list.now }
{
    for i in 0..n {
        let at = fields::TOKEN_WORDS * i;
        token(TokenWords::at(list, at), at)?;
    }
    Ok(())
}

// Answer 18: the brackets of n tokens against the limit. No more can be open than there are tokens, so a list no longer than the limit
// is not looked at. The callers have counted them.
pub fn nesting(list: &[u32], n: usize, limit: u32) -> Result<usize, Refusal>
    requires { (length list.now ≡ 5 * n) × (n ≤ 4096) }
    ensures { verdict_of result ≡ verdict n (nesting_refusal limit list.now) }
{
    let most = limit as usize;
    if n <= most {
        return Ok(n);
    }
    let mut depth = 0usize;
    for index in 0..n {
        let at = fields::TOKEN_WORDS * index;
        depth = open_after(depth, fields::operator_bits(list[at]));
        if most < depth {
            return Err(Reason::NestedTooDeep.at(index));
        }
    }
    Ok(n)
}

// All checks, in the table's order.
pub fn accept(list: &[u32], sizes: Sizes, used: OpSet, limit: u32) -> Result<usize, Refusal>
    ensures { verdict_of result ≡ verdict (length list.now / 5) (refusal (call_of list.now sizes used limit)) }
{
    let n = lengths(list, sizes)?;
    values(sizes.source, used, limit)?;
    token_words(list, n)?;
    nesting(list, n, limit)
}
