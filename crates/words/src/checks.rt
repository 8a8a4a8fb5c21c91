// The check of each word of a token, answers 8 to 11 of document 01's table. Leans on the fields;
// specs/Checks gives the number and the place of each case.
ghost use Rattle.std.specs.Prelude.{◌≡◌, true, [], ◌∷◌, ℕ, ◌+◌, ◌<◌, ◌^◌, eqb, ltb};
ghost use Rattle.std.proofs.Math.Option.{none};
ghost use Rattle.molang.specs.Words.{kind_of, low_of, operator_field, start_field, upper_field, low_fault, word_fault, with_place, words_refusal};
ghost use Rattle.molang.specs.FirstFailure.{must, first_of};
ghost use Rattle.words.specs.Fields.{kind_number};
ghost use Rattle.words.specs.Tokens.{five_words};
ghost use Rattle.words.specs.Checks.{number_of, refusal_of, LowOperator, HalfWords};

use crate::fields;
use crate::fields::WordKind;
use crate::refusals::{Reason, Refusal};
use crate::tokens::TokenWords;

// Low bits that are to be below the limit.
fn below(low: u32, limit: u32) -> Result<(), Reason>
    ensures { number_of result ≡ must (ltb low limit) 11 }
{
    if limit <= low {
        return Err(Reason::OtherBit);
    }
    Ok(())
}

// A word of kind 1, by its low bits: operator, then payload variant, then the other bits.
fn low_bits(w: u32) -> Result<(), Reason>
    ensures { number_of result ≡ low_fault operator_field 0 (low_of w) }
{
    if !fields::is_operator(fields::operator(w)) {
        return Err(Reason::HighOperator);
    }
    if fields::LAST_VARIANT < fields::variant(w) {
        return Err(Reason::HighVariant);
    }
    let low = fields::low(w);
    below(low, 65536)
}

// The same if bits 12-28 are 0, as they are in most words: bits 0-7 are the operator, and the variant stands above it. `operator_word`
// has looked at the bits.
fn twelve_bits(low: u32) -> Result<(), Reason>
    requires { low < 2 ^ 12 }
    ensures { number_of result ≡ low_fault operator_field 0 low }
{
    if fields::LAST_OPERATOR < low % 256 {
        return Err(Reason::HighOperator);
    }
    if fields::LAST_VARIANT < low / 256 {
        return Err(Reason::HighVariant);
    }
    Ok(())
}

// A word of kind 1.
pub fn operator_word(w: u32) -> Result<(), Reason>
    ensures { number_of result ≡ word_fault operator_field 0 w }
{
    if !WordKind::Operator.is_of(w) {
        return Err(Reason::WrongKind);
    }
    let low = fields::low(w);
    if low < 4096 {
        return twelve_bits(low);
    }
    low_bits(w)
}

// A word of kind 2, 3 or 7, all of whose bits are used.
pub fn span_word(w: u32, kind: WordKind) -> Result<(), Reason>
    ensures { number_of result ≡ first_of (must (eqb (kind_of w) (kind_number kind)) 8 ∷ low_fault start_field 0 (low_of w) ∷ []) }
{
    if !kind.is_of(w) {
        return Err(Reason::WrongKind);
    }
    Ok(())
}

// A word of kind 4 or 5 in a token of the given payload variant, under variant 0 of which it holds 0.
pub fn half_word(w: u32, kind: WordKind, variant: u32) -> Result<(), Reason>
    ensures { number_of result ≡ first_of (must (eqb (kind_of w) (kind_number kind)) 8 ∷ low_fault upper_field variant (low_of w) ∷ []) }
{
    if !kind.is_of(w) {
        return Err(Reason::WrongKind);
    }
    if variant == 0 {
        return below(fields::low(w), 1);
    }
    below(fields::low(w), 65536)
}

// What is wrong with a word, told at its place.
pub fn judged(word: Result<(), Reason>, place: usize) -> Result<(), Refusal>
    ensures { refusal_of result ≡ with_place place (number_of word) }
{
    word.map_err(|reason| reason.at(place))
}

// Whether the word is of kind 1 and legal with no bit from 12 on, so that its operator is its low byte. Every operator but a host's is so.
pub fn is_low_operator(w: u32) -> bool
    ensures { result ≡ true → LowOperator w }
{
    let above = w / 256;
    if above < 0x20_0000 {
        return false;
    }
    if 0x20_000c < above {
        return false;
    }
    w % 256 <= fields::LAST_OPERATOR
}

// Whether the words are of kinds 2 and 3. Both are tested at once, here and below, so that the loop over a list has few branches.
fn are_spans(start: u32, end: u32) -> bool
    ensures { result ≡ true → (kind_of start ≡ 2) × (kind_of end ≡ 3) }
{
    start / fields::KIND + end / fields::KIND * 8 == 26
}

// Whether the words are the halves of a payload value in a token of the given first word: of kinds 4 and 5 without other bits, and under
// variant 0 without any. The sum of two halves is below 2^17.
fn are_halves(upper: u32, lower: u32, operator: u32) -> bool
    ensures { result ≡ true → HalfWords operator upper lower }
{
    if lower - lower % 65536 + upper / 65536 != 0xa000_8000 {
        return false;
    }
    upper % 65536 + lower % 65536 <= operator / 256 % 16 * 131_072
}

// Whether all words of a token are good, by tests that a good token meets if it carries nothing and its operator is document 01's. Most
// tokens are so, and nothing is open of such a token but the operator's number and the span.
fn is_bare(words: TokenWords) -> bool
    ensures { result ≡ true → ((at : ℕ) → words_refusal at operator_field 0 (five_words words) ≡ none) }
{
    if words.operator < 0x2000_0000 {
        return false;
    }
    if 0x2000_006e < words.operator {
        return false;
    }
    if words.upper != 0x8000_0000 {
        return false;
    }
    if words.lower != 0xa000_0000 {
        return false;
    }
    are_spans(words.start, words.end)
}

// Whether all words of a token are good, by tests that every good token meets but one of a host. They do not say which word is bad.
fn is_usual(words: TokenWords) -> bool
    ensures { result ≡ true → ((at : ℕ) → words_refusal at operator_field 0 (five_words words) ≡ none) }
{
    if !is_low_operator(words.operator) {
        return false;
    }
    if !are_spans(words.start, words.end) {
        return false;
    }
    are_halves(words.upper, words.lower, words.operator)
}

// The first bad one of the five words of a token, word by word. `token` asks the same.
fn first_bad(words: TokenWords, at: usize) -> Result<(), Refusal>
    requires { at + 4 < 2 ^ 64 }
    ensures { refusal_of result ≡ words_refusal at operator_field 0 (five_words words) }
{
    let variant = fields::variant(words.operator);
    judged(operator_word(words.operator), at)?;
    judged(
        span_word(words.start, WordKind::Start),
        at + fields::START_FIELD,
    )?;
    judged(span_word(words.end, WordKind::End), at + fields::END_FIELD)?;
    judged(
        half_word(words.upper, WordKind::Upper, variant),
        at + fields::UPPER_FIELD,
    )?;
    judged(
        half_word(words.lower, WordKind::Lower, variant),
        at + fields::LOWER_FIELD,
    )
}

// The first bad one of the five words of a token, which stand from `at` on in the list. The caller has read them out of the list, so
// their places are numbers of words.
pub fn token(words: TokenWords, at: usize) -> Result<(), Refusal>
    requires { at + 4 < 2 ^ 64 }
    ensures { refusal_of result ≡ words_refusal at operator_field 0 (five_words words) }
{
    if is_bare(words) || is_usual(words) {
        return Ok(());
    }
    first_bad(words, at)
}
