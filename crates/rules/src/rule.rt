// The rules, with document 02's numbers (card 5), and the rule of a node: by its child count, and by its operator in one table,
// which is made for the version. Leans on ops (operators by name) and words (fields); specs/Nodes says what a node's rule is by its words.
ghost use Rattle.std.specs.Prelude.{◌≡◌, Bool, map, min};
ghost use Rattle.molang.specs.OperatorRules.{operator_rule};
ghost use Rattle.ops.specs.Classes.{up_to};
ghost use Rattle.rules.specs.Nodes.{node_rule};
ghost use Rattle.rules.specs.RuleNumbers.{rule_number};

use ops::op;
use words::fields;

// The rule that first gave a node its children, by its number in a rule buffer; a leaf has none.
#[derive(Clone, Copy, Debug, PartialEq, Eq)]
pub enum Rule {
    Leaf = 0,
    Member = 1,
    Section = 2,
    Call = 3,
    Semicolon = 4,
    Array = 5,
    Pointer = 6,
    Math = 7,
    Unary = 8,
    Division = 9,
    Multiplication = 10,
    Addition = 11,
    Comparison = 12,
    Equality = 13,
    And = 14,
    Or = 15,
    Conditional = 16,
    NullCoalescing = 17,
    Comma = 18,
    Assignment = 19,
    Return = 20,
}

impl From<Rule> for u8 {
    ghost from_gives = { λ rule number. number ≡ rule_number rule };

    fn from(rule: Rule) -> u8 {
        rule as u8
    }
}

// The rule of a node that has children, by its operator's number, and one entry more for every other number; `Leaf` for what gets no
// children. Equality is a comparison here.
pub const RULES: [Rule; 112] = [
    Rule::Section, // LEFT_BRACE
    Rule::Leaf, // RIGHT_BRACE
    Rule::Section, // LEFT_BRACKET
    Rule::Leaf, // RIGHT_BRACKET
    Rule::Section, // LEFT_PARENTHESIS
    Rule::Leaf, // RIGHT_PARENTHESIS
    Rule::Unary, // NEGATE
    Rule::Unary, // LOGICAL_NOT
    Rule::Math, // ABS
    Rule::Addition, // ADD
    Rule::Math, // ACOS
    Rule::Math, // ASIN
    Rule::Math, // ATAN
    Rule::Math, // ATAN2
    Rule::Math, // CEIL
    Rule::Math, // CLAMP
    Rule::Math, // COPY_SIGN
    Rule::Math, // COS
    Rule::Math, // DIE_ROLL
    Rule::Math, // DIE_ROLL_INT
    Rule::Division, // DIV
    Rule::Math, // EXP
    Rule::Math, // FLOOR
    Rule::Math, // HERMITE_BLEND
    Rule::Math, // LERP
    Rule::Math, // LERP_ROTATE
    Rule::Math, // LN
    Rule::Math, // MAX
    Rule::Math, // MIN
    Rule::Math, // MIN_ANGLE
    Rule::Math, // MOD
    Rule::Multiplication, // MUL
    Rule::Math, // POW
    Rule::Math, // RANDOM
    Rule::Math, // RANDOM_INT
    Rule::Math, // ROUND
    Rule::Math, // SIN
    Rule::Math, // SIGN
    Rule::Math, // SQRT
    Rule::Math, // TRUNC
    Rule::Call, // QUERY_FUNCTION
    Rule::Leaf, // ARRAY_VARIABLE
    Rule::Leaf, // CONTEXT_VARIABLE
    Rule::Leaf, // ENTITY_VARIABLE
    Rule::Leaf, // TEMP_VARIABLE
    Rule::Member, // MEMBER_ACCESSOR
    Rule::Leaf, // STRING_LITERAL
    Rule::Leaf, // GEOMETRY_VARIABLE
    Rule::Leaf, // MATERIAL_VARIABLE
    Rule::Leaf, // TEXTURE_VARIABLE
    Rule::Comparison, // LESS_THAN
    Rule::Comparison, // LESS_EQUAL
    Rule::Comparison, // GREATER_EQUAL
    Rule::Comparison, // GREATER_THAN
    Rule::Comparison, // LOGICAL_EQUAL
    Rule::Comparison, // LOGICAL_NOT_EQUAL
    Rule::Or, // LOGICAL_OR
    Rule::And, // LOGICAL_AND
    Rule::NullCoalescing, // NULL_COALESCING
    Rule::Conditional, // CONDITIONAL
    Rule::Conditional, // CONDITIONAL_ELSE
    Rule::Leaf, // FLOAT
    Rule::Leaf, // PI
    Rule::Array, // ARRAY
    Rule::Leaf, // GEOMETRY
    Rule::Leaf, // MATERIAL
    Rule::Leaf, // TEXTURE
    Rule::Call, // LOOP
    Rule::Call, // FOR_EACH
    Rule::Leaf, // BREAK
    Rule::Leaf, // CONTINUE
    Rule::Assignment, // ASSIGNMENT
    Rule::Pointer, // POINTER
    Rule::Semicolon, // SEMICOLON
    Rule::Return, // RETURN
    Rule::Comma, // COMMA
    Rule::Leaf, // THIS
    Rule::Leaf, // EXPRESSION_ARRAY
    Rule::Math, // INVERSE_LERP
    Rule::Math, // EASE_IN_QUAD
    Rule::Math, // EASE_OUT_QUAD
    Rule::Math, // EASE_IN_OUT_QUAD
    Rule::Math, // EASE_IN_CUBIC
    Rule::Math, // EASE_OUT_CUBIC
    Rule::Math, // EASE_IN_OUT_CUBIC
    Rule::Math, // EASE_IN_QUART
    Rule::Math, // EASE_OUT_QUART
    Rule::Math, // EASE_IN_OUT_QUART
    Rule::Math, // EASE_IN_QUINT
    Rule::Math, // EASE_OUT_QUINT
    Rule::Math, // EASE_IN_OUT_QUINT
    Rule::Math, // EASE_IN_SINE
    Rule::Math, // EASE_OUT_SINE
    Rule::Math, // EASE_IN_OUT_SINE
    Rule::Math, // EASE_IN_EXPO
    Rule::Math, // EASE_OUT_EXPO
    Rule::Math, // EASE_IN_OUT_EXPO
    Rule::Math, // EASE_IN_CIRC
    Rule::Math, // EASE_OUT_CIRC
    Rule::Math, // EASE_IN_OUT_CIRC
    Rule::Math, // EASE_IN_BOUNCE
    Rule::Math, // EASE_OUT_BOUNCE
    Rule::Math, // EASE_IN_OUT_BOUNCE
    Rule::Math, // EASE_IN_BACK
    Rule::Math, // EASE_OUT_BACK
    Rule::Math, // EASE_IN_OUT_BACK
    Rule::Math, // EASE_IN_ELASTIC
    Rule::Math, // EASE_OUT_ELASTIC
    Rule::Math, // EASE_IN_OUT_ELASTIC
    Rule::Math, // HOST_MATH
    Rule::Math, // HOST_MATH_VOLATILE
    Rule::Leaf, // any other number
];

// The table by version: where comparisons come first, equality is a rule of its own. A caller holds it as a local for all its nodes, since
// a constant array is made anew at each use.
pub fn table(comparisons_first: bool) -> [Rule; 112]
    ensures { map rule_number result ≡ up_to 112 (operator_rule comparisons_first) }
{
    let mut table = RULES;
    if comparisons_first {
        table[op::LOGICAL_EQUAL as usize] = Rule::Equality;
        table[op::LOGICAL_NOT_EQUAL as usize] = Rule::Equality;
    }
    table
}

// Where the rule of op stands in the table: what is no operator's number shares the last entry.
fn index_of(op: u32) -> usize
    ensures { result ≡ min op 111 }
{
    op.min(op::COUNT) as usize
}

// The rule of a node by the words of its operator and its child count. It is looked up before the test for a leaf, so that none of this
// is a branch: operators come in no order that a processor could foretell.
pub fn of_node(table: &[Rule; 112], operator: u32, count: u32) -> Rule
    ensures { (first : Bool) → map rule_number table.now ≡ up_to 112 (operator_rule first)
        → rule_number result ≡ node_rule first operator count }
{
    let rule = table[index_of(fields::operator(operator))];
    if fields::low(count) == 0 {
        return Rule::Leaf;
    }
    rule
}
