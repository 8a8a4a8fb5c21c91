// What a caller of the entry has to bring along: the exact used set of a list of token words, the highest span end among them, and a
// version. A word that the entry would turn back counts for neither of the first two. Leans on words and ops; specs/Derived says which
// words count.
#![tactic(auto)]

ghost use Rattle.std.specs.Prelude.{◌≡◌, ◌||◌, ℕ, ◌≤◌, ◌<◌, ◌^◌, eqb};
ghost use Rattle.molang.specs.Parse.{in_halves};
ghost use Rattle.molang.specs.Words.{operator_field, end_field};
ghost use Rattle.molang.specs.Lines.{version_of};
ghost use Rattle.derived.specs.Derived.{names, named, end_after, highest};

use ops::sets::OpSet;
use words::checks::{is_low_operator, operator_word, span_word};
use words::fields;
use words::fields::WordKind;

// The set with op in it, which is the operator of a legal word and no host's number.
fn with(used: OpSet, op: u32) -> OpSet
    requires { op ≤ 110 }
    ensures { (n : ℕ) → in_halves result.low result.high n ≡ (in_halves used.low used.high n || eqb op n) }
{
    if op < 64 {
        return OpSet {
            low: used.low | (1u64 << op),
            ..used
        };
    }
    OpSet {
        high: used.high | (1u64 << (op - 64)),
        ..used
    }
}

// The set with the operator of a token's first word in it, if that word is legal and its operator is no host's number: of any word.
fn with_any(used: OpSet, w: u32) -> OpSet
    ensures { (n : ℕ) → in_halves result.low result.high n ≡ (in_halves used.low used.high n || names operator_field w n) }
{
    if operator_word(w).is_err() {
        return used;
    }
    let op = fields::operator(w);
    if fields::LAST_OPERATOR < op {
        return used;
    }
    with(used, op)
}

// The same, but most words go the short way: they are legal, and their operator is their low byte.
fn with_word(used: OpSet, w: u32) -> OpSet
    ensures { (n : ℕ) → in_halves result.low result.high n ≡ (in_halves used.low used.high n || names operator_field w n) }
{
    if is_low_operator(w) {
        return with(used, w % 256);
    }
    with_any(used, w)
}

// The higher of an end and that of a token's third word, if that word is legal.
fn higher(end: u32, w: u32) -> u32
    ensures { result ≡ end_after end_field end w }
{
    if span_word(w, WordKind::End).is_err() {
        return end;
    }
    end.max(fields::low(w))
}

// The operators of the list's tokens.
pub fn used_of(list: &[u32]) -> OpSet
    ensures { (n : ℕ) → in_halves result.low result.high n ≡ named operator_field list.now n }
{
    let mut used = OpSet { low: 0, high: 0 };
    for i in (0..list.len()).step_by(fields::TOKEN_WORDS) {
        used = with_word(used, list[i]);
    }
    used
}

// The highest end of the list's tokens, 0 if there is none.
pub fn highest_end(list: &[u32]) -> u32
    ensures { result ≡ highest operator_field 0 list.now }
{
    let mut end = 0u32;
    for i in (fields::END_FIELD..list.len()).step_by(fields::TOKEN_WORDS) {
        end = higher(end, list[i]);
    }
    end
}

// The version that sixteen bits in two's complement say. `treelist`, `everylist` and `liftcount` have seen that no other bit is set, and
// `lines` takes sixteen bits.
pub fn version_of(bits: u32) -> i16
    requires { bits < 2 ^ 16 }
    ensures { result ≡ version_of bits }
{
    if bits < 32_768 {
        return bits as i16;
    }
    let below = (65_535 - bits) as i16;
    -1 - below
}
