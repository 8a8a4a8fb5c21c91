// What is known of an operator by its number: its name, its classes, its closer, how many brackets are open after it, what it makes of a
// minus after it; sets of operators, and the version that the rules use. Leans on nothing; follows op.rs, set.rs, version/mod.rs and the
// helpers of the parse modules.
#![tactic(auto)]

pub mod classes;
pub mod op;
pub mod sets;
pub mod version;

ghost use Rattle.std.specs.Prelude.{◌≡◌, ◌+◌, ◌^◌, ◌<◌};
ghost use Rattle.std.proofs.Math.Option.{get_or};
ghost use Rattle.molang.specs.Operator.{closing_of, is_closer, has_members, is_math_call, before_minus};
ghost use Rattle.molang.specs.Statements.{is_entered};
ghost use Rattle.molang.specs.Nesting.{open_after};
ghost use Rattle.ops.specs.Operators.{is_opener, raise_of, meant};

// Whether op opens a section.
pub fn is_opener(op: u32) -> bool
    ensures { result ≡ is_opener op }
{
    matches!(op, op::LEFT_BRACE | op::LEFT_BRACKET | op::LEFT_PARENTHESIS)
}

// Whether op closes a section.
pub fn is_closer(op: u32) -> bool
    ensures { result ≡ is_closer op }
{
    matches!(
        op,
        op::RIGHT_BRACE | op::RIGHT_BRACKET | op::RIGHT_PARENTHESIS
    )
}

// The closer of an opener (`closing_of` of sections.rs). Of any other operator 0, and no Option: so the definition's `Message.closer` has it
// in a message's record.
pub fn closer_of(op: u32) -> u32
    ensures { result ≡ get_or (closing_of op) 0 }
{
    match op {
        op::LEFT_BRACE => op::RIGHT_BRACE,
        op::LEFT_BRACKET => op::RIGHT_BRACKET,
        op::LEFT_PARENTHESIS => op::RIGHT_PARENTHESIS,
        _ => 0,
    }
}

// What op adds to the number of open brackets, and one: an opener 2, a closer 0, anything else 1. The brackets are the operators 0 to 5,
// the openers the even ones. It is computed without a branch: brackets come in no order that a processor could foretell.
fn raise_of(op: u32) -> usize
    ensures { result ≡ raise_of op }
{
    if op <= op::RIGHT_PARENTHESIS {
        return (2 - 2 * (op % 2)) as usize;
    }
    1
}

// How many brackets are open after op, where so many are open before it. `accept::nesting` counts no more than the tokens that it has read.
pub fn open_after(depth: usize, op: u32) -> usize
    requires { depth + 2 < 2 ^ 64 }
    ensures { result ≡ open_after depth op }
{
    (depth + raise_of(op)).saturating_sub(1)
}

// Whether a member accessor takes what stands before it as its child.
pub fn takes_member(op: u32) -> bool
    ensures { result ≡ has_members op }
{
    matches!(
        op,
        op::QUERY_FUNCTION
            | op::CONTEXT_VARIABLE
            | op::ENTITY_VARIABLE
            | op::TEMP_VARIABLE
            | op::MEMBER_ACCESSOR
    )
}

// Whether op is a math call: 8, 10-19, 21-30, 32-39 and 78-110 (`is_math_call` of mod.rs, by document 01's list).
#[tactic(auto, unfolding(molang::specs::Operator::is_math_call, molang::specs::Operator::between))]
pub fn is_math_call(op: u32) -> bool
    ensures { result ≡ is_math_call op }
{
    matches!(
        op,
        op::ABS
            | op::ACOS..=op::DIE_ROLL_INT
            | op::EXP..=op::MOD
            | op::POW..=op::TRUNC
            | op::INVERSE_LERP..=op::HOST_MATH_VOLATILE
    )
}

// Whether the statement pass, in a list with semicolons, goes into a node of op (`enters` of statements.rs).
pub fn holds_statements(op: u32) -> bool
    ensures { result ≡ is_entered op }
{
    matches!(
        op,
        op::LEFT_BRACE | op::LEFT_PARENTHESIS | op::LOOP | op::FOR_EACH
    )
}

// What the token before a `-` makes of it.
#[derive(Clone, Copy)]
pub enum BeforeMinus {
    // An operand: the `-` is binary.
    Operand,
    // An operator, or the start of a list: the `-` is unary.
    Operator,
    // Another `-`: the pair becomes `+`.
    Minus,
    // `continue` or an expression array: the `-` is an unknown operation.
    Unknown,
}

// What op makes of a `-` right after it, whether or not op has children.
pub fn before_minus(op: u32) -> BeforeMinus
    ensures { meant result ≡ before_minus op }
{
    match op {
        op::NEGATE => BeforeMinus::Minus,
        op::CONTINUE | op::EXPRESSION_ARRAY => BeforeMinus::Unknown,
        op::LEFT_BRACE | op::RIGHT_BRACE | op::LOGICAL_NOT => BeforeMinus::Operator,
        op::ADD | op::DIV | op::MUL => BeforeMinus::Operator,
        op::LESS_THAN..=op::CONDITIONAL_ELSE => BeforeMinus::Operator,
        op::LOOP | op::FOR_EACH | op::BREAK => BeforeMinus::Operator,
        op::ASSIGNMENT | op::SEMICOLON | op::RETURN | op::COMMA => BeforeMinus::Operator,
        _ => BeforeMinus::Operand,
    }
}
