// Answer 13 and the written count, in one loop over the nodes in tree order: a node is judged by its own operator, its seat under
// its parent and its first child's operator. The seats of the nodes that are called for and have not come yet stand on a stack,
// the next one on top. Of a script the root is judged first, by its children's operators, and the loop begins behind it. The words are
// read by the reader. Leans on ops and words.
ghost use Rattle.std.specs.Prelude.{◌≡◌, ◌&&◌, ◌||◌, not, eqb};
ghost use Rattle.molang.specs.Operator;
ghost use Rattle.molang.specs.Operator.{is_bracket};
ghost use Rattle.molang.specs.Plain as plain;
ghost use Rattle.molang.specs.WriteEntry.{trees_of};
ghost use Rattle.write.specs.Answers.{told_of, judgement};
ghost use Rattle.write.specs.Seats.{form_seat, only_seat, left_seat, first_seat, right_seat, below_seat, is_prefix, plain_by, is_spared, is_paired};
ghost use Rattle.write.specs.Seats.{tokens_for};
ghost use Rattle.write.specs.Scripts.{holds_statements, Begins};
ghost use Rattle.shape.specs.Shaped.{OneTree};

use crate::reader::TreeReader;
use ops::{is_math_call, op};
use words::fields;
use words::refusals::{Reason, Refusal};

// The seat of a node under its parent, as far as its form and its pair of brackets depend on it.
#[derive(Clone, Copy, PartialEq, Eq)]
pub enum Seat {
    // The root of an expression, or a bracket's child.
    Enclosed,
    // The bracket under a math call.
    UnderMathCall,
    // The left side of a comma.
    LeftOfComma,
    // The second child of `?`.
    RightOfQuestion,
    // Any other operand.
    Operand,
    // A statement of a script, or what a statement holds.
    UnderSemicolon,
}

// The seat of the one child of op.
#[tactic(auto, unfolding(crate::specs::Seats::only_seat, molang::specs::Operator::is_bracket))]
fn seat_of_only(op: u32) -> Seat
    ensures { result ≡ only_seat op }
{
    if op == op::LEFT_PARENTHESIS {
        return Seat::Enclosed;
    }
    if is_math_call(op) {
        return Seat::UnderMathCall;
    }
    Seat::Operand
}

// The seat of the first of two children of op.
#[tactic(auto, unfolding(crate::specs::Seats::left_seat))]
fn seat_of_left(op: u32) -> Seat
    ensures { result ≡ left_seat op }
{
    if op == op::COMMA {
        return Seat::LeftOfComma;
    }
    Seat::Operand
}

// The seat of the first child of op over so many children.
#[tactic(auto, unfolding(crate::specs::Seats::first_seat))]
pub fn seat_of_first(op: u32, children: u32) -> Seat
    ensures { result ≡ first_seat op children }
{
    if children == 2 {
        return seat_of_left(op);
    }
    seat_of_only(op)
}

// The seat of the second of two.
#[tactic(auto, unfolding(crate::specs::Seats::right_seat))]
pub fn seat_of_right(op: u32) -> Seat
    ensures { result ≡ right_seat op }
{
    if op == op::CONDITIONAL {
        return Seat::RightOfQuestion;
    }
    Seat::Operand
}

// The seat by which the one child of op is judged: what a statement holds stands under its semicolon.
#[tactic(auto, unfolding(crate::specs::Seats::below_seat))]
fn seat_below(op: u32) -> Seat
    ensures { result ≡ below_seat op }
{
    if op == op::SEMICOLON {
        return Seat::UnderSemicolon;
    }
    seat_of_only(op)
}

// The leaves of the plain forms: 40, 42-44, 46-49, 61, 62, 76 or a host's number.
#[tactic(auto, unfolding(molang::specs::Plain::is_plain_leaf, molang::specs::Operator::between, molang::specs::Operator::is_host))]
fn is_plain_leaf(op: u32) -> bool
    ensures { result ≡ plain.is_plain_leaf op }
{
    matches!(
        op,
        op::QUERY_FUNCTION
            | op::CONTEXT_VARIABLE..=op::TEMP_VARIABLE
            | op::STRING_LITERAL..=op::TEXTURE_VARIABLE
            | op::FLOAT
            | op::PI
            | op::THIS
            | fields::FIRST_HOST..=fields::LAST_HOST
    )
}

// The operators between two operands, but for `:`.
#[tactic(auto, unfolding(molang::specs::Plain::is_plain_binary, molang::specs::Operator::between))]
fn is_plain_binary(op: u32) -> bool
    ensures { result ≡ plain.is_plain_binary op }
{
    matches!(
        op,
        op::ADD | op::DIV | op::MUL | op::COMMA | op::LESS_THAN..=op::CONDITIONAL
    )
}

#[tactic(auto, unfolding(molang::specs::Plain::is_call))]
fn is_call(op: u32) -> bool
    ensures { result ≡ plain.is_call op }
{
    op == op::QUERY_FUNCTION || is_math_call(op)
}

// A leaf; a bracket may be empty under a math call.
#[tactic(auto, unfolding(crate::specs::Seats::plain_by, molang::specs::Operator::is_bracket, molang::specs::Plain::is_under_math_call, molang::specs::Plain::is_plain_leaf, molang::specs::Operator::is_host, molang::specs::Operator::between))]
fn is_plain_without_children(seat: Seat, op: u32) -> bool
    ensures { result ≡ plain_by seat op 0 0 }
{
    if op == op::LEFT_PARENTHESIS {
        return seat == Seat::UnderMathCall;
    }
    is_plain_leaf(op)
}

// The operators that stand before any one operand: a bracket, `-` and `!`.
#[tactic(auto, unfolding(crate::specs::Seats::is_prefix, molang::specs::Operator::is_one_of, molang::specs::Operator::any))]
fn is_prefix(op: u32) -> bool
    ensures { result ≡ is_prefix op }
{
    matches!(op, op::LEFT_PARENTHESIS | op::NEGATE | op::LOGICAL_NOT)
}

// A call over its bracket.
#[tactic(auto, unfolding(molang::specs::Operator::is_bracket))]
fn is_call_over(op: u32, first: u32) -> bool
    ensures { result ≡ (plain.is_call op && is_bracket first) }
{
    is_call(op) && first == op::LEFT_PARENTHESIS
}

// A statement: under a semicolon, over what is none.
#[tactic(auto, unfolding(molang::specs::Plain::is_under_semicolon))]
fn is_statement(seat: Seat, first: u32) -> bool
    ensures { result ≡ (not (eqb first Operator.semicolon) && plain.is_under_semicolon (form_seat seat)) }
{
    first != op::SEMICOLON && seat == Seat::UnderSemicolon
}

// A prefix over anything; a call over its bracket; under a semicolon only, a return over anything and a statement over what is none.
#[tactic(auto, unfolding(crate::specs::Seats::plain_by, crate::specs::Seats::holds_one, molang::specs::Plain::is_under_semicolon, crate::specs::Seats::is_prefix, molang::specs::Operator::is_one_of, molang::specs::Operator::any, molang::specs::Plain::is_call, molang::specs::Operator::is_math_call, molang::specs::Operator::between))]
fn is_plain_over_one(seat: Seat, op: u32, first: u32) -> bool
    ensures { result ≡ plain_by seat op 1 first }
{
    if is_prefix(op) {
        return true;
    }
    match op {
        op::RETURN => seat == Seat::UnderSemicolon,
        op::SEMICOLON => is_statement(seat, first),
        _ => is_call_over(op, first),
    }
}

// A binary operator; `:` right of its `?` only, an assignment in a statement only.
#[tactic(auto, unfolding(crate::specs::Seats::plain_by, molang::specs::Plain::is_under_semicolon, molang::specs::Plain::is_right_of_question, molang::specs::Plain::is_plain_binary, molang::specs::Operator::between))]
fn is_plain_over_two(seat: Seat, op: u32) -> bool
    ensures { result ≡ plain_by seat op 2 0 }
{
    if op == op::CONDITIONAL_ELSE {
        return seat == Seat::RightOfQuestion;
    }
    if op == op::ASSIGNMENT {
        return seat == Seat::UnderSemicolon;
    }
    is_plain_binary(op)
}

// Whether a node of op has a plain form; `first` is its first child's operator, if it has children.
#[tactic(auto, unfolding(crate::specs::Seats::plain_by))]
pub fn is_plain(seat: Seat, op: u32, children: u32, first: u32) -> bool
    ensures { result ≡ plain_by seat op children first }
{
    match children {
        0 => is_plain_without_children(seat, op),
        1 => is_plain_over_one(seat, op, first),
        2 => is_plain_over_two(seat, op),
        _ => false,
    }
}

// Whether the seat spares a node of op its pair.
#[tactic(auto, unfolding(crate::specs::Seats::is_spared))]
pub fn is_spared(seat: Seat, op: u32) -> bool
    ensures { result ≡ is_spared seat op }
{
    match seat {
        Seat::Enclosed | Seat::UnderSemicolon => true,
        Seat::LeftOfComma => op == op::COMMA,
        Seat::RightOfQuestion => op == op::CONDITIONAL_ELSE,
        _ => false,
    }
}

// Whether a node is neither a leaf nor a bracket, which never get an added pair.
#[tactic(auto, unfolding(molang::specs::Operator::is_bracket))]
pub fn is_bare(op: u32, children: u32) -> bool
    ensures { result ≡ not (eqb children 0 || is_bracket op) }
{
    children != 0 && op != op::LEFT_PARENTHESIS
}

// Whether an operand gets an added pair of brackets: a leaf and a bracket get none, and some seats spare their node the pair.
#[tactic(auto, unfolding(crate::specs::Seats::is_paired))]
pub fn is_paired(seat: Seat, op: u32, children: u32) -> bool
    ensures { result ≡ is_paired seat op children }
{
    is_bare(op, children) && !is_spared(seat, op)
}

// The tokens that are written for a node alone: itself, a bracket's closer, an added pair.
#[tactic(auto, unfolding(crate::specs::Seats::tokens_for, molang::specs::Operator::is_bracket, crate::specs::Seats::is_paired))]
fn tokens_for(seat: Seat, op: u32, children: u32) -> usize
    ensures { result ≡ tokens_for seat op children }
{
    if op == op::LEFT_PARENTHESIS {
        return 2;
    }
    if is_paired(seat, op, children) {
        return 3;
    }
    1
}

// Whether the root of a script is plain: it has a child, and each of its children is a semicolon. `due` is the number of nodes that the
// child which came last still calls for, so the next child comes where it is 0.
fn holds_statements(tree: &[u32]) -> bool
    requires { OneTree tree.now }
    ensures { result ≡ holds_statements (trees_of tree.now) }
{
    let mut due = 0u32;
    for seen in TreeReader::new(tree, fields::NODE_WORDS) {
        if due == 0 && seen.op != op::SEMICOLON {
            return false;
        }
        due = due.saturating_sub(1) + seen.children;
    }
    fields::NODE_WORDS < tree.len()
}

// The first node from node `begin` on that is not plain, or the number of tokens that are written. So many trees are called for there: the
// first of them in the given seat, the others under a semicolon. No more than 12,288 nodes wait, since a tree has no more. `write` has seen
// that the words are one tree, for this function and for `judge`.
fn judge_from(tree: &[u32], first: Seat, trees: usize, begin: usize) -> Result<usize, Refusal>
    requires { OneTree tree.now × Begins tree.now first trees begin }
    ensures { told_of result ≡ judgement (trees_of tree.now) }
{
    let mut waiting = [Seat::UnderSemicolon; 12_288];
    waiting[0] = first;
    let mut top = trees;
    let mut tokens = 0usize;
    for seen in TreeReader::new(tree, fields::NODE_WORDS * begin) {
        top -= 1;
        let seat = waiting[top];
        if !is_plain(seat, seen.op, seen.children, seen.next) {
            return Err(Reason::NotPlain.at(seen.at / fields::NODE_WORDS));
        }
        tokens += tokens_for(seat, seen.op, seen.children);
        match seen.children {
            1 => {
                waiting[top] = seat_below(seen.op);
                top += 1;
            }
            2 => {
                waiting[top] = seat_of_right(seen.op);
                waiting[top + 1] = seat_of_left(seen.op);
                top += 2;
            }
            _ => {}
        }
    }
    Ok(tokens)
}

// The first node of a tree that is not plain, or the number of tokens that are written: from the root on, or from the statements of a root
// that is plain.
pub fn judge(tree: &[u32]) -> Result<usize, Refusal>
    requires { OneTree tree.now }
    ensures { told_of result ≡ judgement (trees_of tree.now) }
{
    if fields::operator(tree[0]) != op::SEMICOLON {
        return judge_from(tree, Seat::Enclosed, 1, 0);
    }
    if !holds_statements(tree) {
        return Err(Reason::NotPlain.at(0));
    }
    let statements = fields::low(tree[fields::COUNT_FIELD]) as usize;
    judge_from(tree, Seat::UnderSemicolon, statements, 1)
}
