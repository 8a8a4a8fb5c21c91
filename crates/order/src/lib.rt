// Which passes run after the sections, and in which order, under a used set and a version (mod.rs): a table of ranks for each of the
// three rules, and whether the pass of a rank runs. Leans on levels (the passes' states) and ops (sets, classes, versions); specs/Ranks
// says when a table is the definition's order.
#![tactic(auto)]

ghost use Rattle.std.specs.Prelude.{◌≡◌, List, length};
ghost use Rattle.molang.specs.Order as definition;
ghost use Rattle.order.specs.Ranks.{used_by, rules_of, later, Ranked, AtRank, Chosen};

use levels::turns::Pass;
use ops::classes::TokenClasses;
use ops::op;
use ops::sets::OpSet;
use ops::version::{is_from_5, is_from_6};

// The pointer's rank.
pub const POINTER: usize = 3;

// A pass as it starts, and the operators of which one has to be used.
#[derive(Clone, Copy)]
pub struct Rank {
    pub pass: Pass,
    pub operators: OpSet,
}

// The set of these operators.
macro_rules! operators {
    ($($operator:ident),+) => {
        OpSet {
            low: (($(1u128 << op::$operator)|+) & 0xffff_ffff_ffff_ffff) as u64,
            high: (($(1u128 << op::$operator)|+) >> 64) as u64,
        }
    };
}

// The rank of a pass, by its operators.
macro_rules! rank {
    ($pass:expr, $($operator:ident),+) => {
        Rank { pass: $pass, operators: operators!($($operator),+) }
    };
}

// The rank of a binary level, by its classes and its operators.
macro_rules! level {
    ($classes:ident, $($operator:ident),+) => {
        rank!(Pass::Binary { classes: TokenClasses::$classes, pending: 0 }, $($operator),+)
    };
}

// The ranks of a version: those up to the binary `+` and from `??` on are every version's.
macro_rules! ranks {
    ($($rank:ident),+) => {
        [
            Rank::CALLS,
            Rank::STATEMENTS,
            Rank::ARRAYS,
            Rank::POINTER,
            Rank::MATH_CALLS,
            Rank::UNARY,
            Rank::DIV,
            Rank::MUL,
            Rank::ADD,
            $(Rank::$rank,)+
            Rank::NULL_COALESCING,
            Rank::COMMA,
            Rank::ASSIGNMENT,
            Rank::RETURNS,
        ]
    };
}

impl Rank {
    const CALLS: Self = rank!(Pass::Calls, QUERY_FUNCTION, LOOP, FOR_EACH);

    const STATEMENTS: Self = rank!(Pass::Unsplit, SEMICOLON);

    const ARRAYS: Self = rank!(Pass::Arrays { array: 0, lent: 0 }, ARRAY_VARIABLE);

    const POINTER: Self = level!(POINTER, POINTER);

    const MATH_CALLS: Self = Self {
        pass: Pass::MathCalls,
        operators: OpSet::MATH_CALLS,
    };

    const UNARY: Self = rank!(Pass::Unary, NEGATE, LOGICAL_NOT);

    const DIV: Self = level!(DIV, DIV);

    const MUL: Self = level!(MUL, MUL);

    // The unary pass turns a binary `-` into `+`.
    const ADD: Self = level!(ONLY_ADD, NEGATE, ADD);

    const LESS_THAN: Self = level!(LESS_THAN, LESS_THAN);

    const LOGICAL_EQUAL: Self = level!(LOGICAL_EQUAL, LOGICAL_EQUAL);

    const GREATER_EQUAL: Self = level!(GREATER_EQUAL, GREATER_EQUAL);

    const GREATER_THAN: Self = level!(GREATER_THAN, GREATER_THAN);

    const LESS_EQUAL: Self = level!(LESS_EQUAL, LESS_EQUAL);

    const LOGICAL_NOT_EQUAL: Self = level!(LOGICAL_NOT_EQUAL, LOGICAL_NOT_EQUAL);

    const COMPARISONS: Self = level!(
        COMPARISONS,
        LESS_THAN,
        LESS_EQUAL,
        GREATER_EQUAL,
        GREATER_THAN
    );

    const EQUALITIES: Self = level!(EQUALITIES, LOGICAL_EQUAL, LOGICAL_NOT_EQUAL);

    const LOGICAL_OR: Self = level!(LOGICAL_OR, LOGICAL_OR);

    const LOGICAL_AND: Self = level!(LOGICAL_AND, LOGICAL_AND);

    const CONDITIONAL_ELSE: Self = level!(ONLY_CONDITIONAL_ELSE, CONDITIONAL_ELSE);

    const CONDITIONAL: Self = level!(ONLY_CONDITIONAL, CONDITIONAL);

    const CONDITIONALS: Self = rank!(
        Pass::Conditional { tokens: 0 },
        CONDITIONAL,
        CONDITIONAL_ELSE
    );

    const NULL_COALESCING: Self = level!(NULL_COALESCING, NULL_COALESCING);

    const COMMA: Self = level!(COMMA, COMMA);

    const ASSIGNMENT: Self = level!(ASSIGNMENT, ASSIGNMENT);

    const RETURNS: Self = rank!(Pass::Returns, RETURN);
}

// What the calls stand behind besides: with `loop` or `for_each` alone they are not grouped.
const CALL_GATE: OpSet = operators!(
    LEFT_BRACE,
    LEFT_BRACKET,
    LEFT_PARENTHESIS,
    QUERY_FUNCTION,
    ARRAY_VARIABLE,
    SEMICOLON
);

// Before version 5: each comparison is a level, OR comes before AND, `:` and `?` are binary operators.
static BEFORE_5: [Rank; 23] = ranks![
    LESS_THAN,
    LOGICAL_EQUAL,
    GREATER_EQUAL,
    GREATER_THAN,
    LESS_EQUAL,
    LOGICAL_NOT_EQUAL,
    LOGICAL_OR,
    LOGICAL_AND,
    CONDITIONAL_ELSE,
    CONDITIONAL
];

// At version 5: `?` and `:` are one pass.
static AT_5: [Rank; 22] = ranks![
    LESS_THAN,
    LOGICAL_EQUAL,
    GREATER_EQUAL,
    GREATER_THAN,
    LESS_EQUAL,
    LOGICAL_NOT_EQUAL,
    LOGICAL_OR,
    LOGICAL_AND,
    CONDITIONALS
];

// From version 6: four comparisons together, then both equalities; AND comes before OR.
static FROM_6: [Rank; 18] = ranks![
    COMPARISONS,
    EQUALITIES,
    LOGICAL_AND,
    LOGICAL_OR,
    CONDITIONALS
];

// The ranks of a version as the rules use it (`ops::version::effective`).
pub fn ranks(version: i16) -> &'static [Rank]
    ensures ranked { Ranked (later (rules_of version)) result.now }
    ensures no_more { length result.now ≡ length (later (rules_of version)) }
{
    if is_from_6(version) {
        return &FROM_6;
    }
    if is_from_5(version) {
        return &AT_5;
    }
    &BEFORE_5
}

// The pass of a rank, if it runs under a used set.
pub fn choose(rank: Rank, used: OpSet) -> Option<Pass>
    ensures { (ps : List definition.Pass) → AtRank ps rank → Chosen (used_by used) ps result }
{
    if !used.intersects(rank.operators) {
        return None;
    }
    match rank.pass {
        Pass::Calls => used.intersects(CALL_GATE).then_some(Pass::Calls),
        pass => Some(pass),
    }
}
