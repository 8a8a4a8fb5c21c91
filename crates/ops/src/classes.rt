// Token classes: what may stand as a leaf below a node, one class for each group of tokens that one pass folds (driver.rs).
// The class of each operator stands in one table. Leans on the operators' names; specs/Classes says which operators a class has.
ghost use Rattle.std.specs.Prelude.{◌≡◌, ◌||◌, ℕ};
ghost use Rattle.ops.specs.Classes.{bit_at, shares, class_table, entry_of};
ghost use Rattle.ops.specs.Constants.{constant_numbers};

use crate::op;

// A set of token classes: each constant from CALL to ONLY_CONDITIONAL_ELSE is one class, each after it several. NONE and ALL are the
// Rust's, which notes ALL where no pass has looked yet. Here each leaf notes its own classes from the start, so no pass uses ALL;
// `class_constants` holds it, as every other constant, to what it stands for. The kit's `bitflags` would be no plainer: of its methods these
// two are used, and the contracts above speak of the number.
#[derive(Clone, Copy)]
pub struct TokenClasses(pub u32);

impl TokenClasses {
    pub const NONE: Self = Self(0);

    pub const ALL: Self = Self(0xffff_ffff);

    pub const CALL: Self = Self(0x1);

    pub const SEMICOLON: Self = Self(0x2);

    pub const ARRAY: Self = Self(0x4);

    pub const POINTER: Self = Self(0x8);

    pub const UNARY: Self = Self(0x10);

    pub const DIV: Self = Self(0x20);

    pub const MUL: Self = Self(0x40);

    pub const ADD: Self = Self(0x80);

    pub const LESS_THAN: Self = Self(0x100);

    pub const LESS_EQUAL: Self = Self(0x200);

    pub const GREATER_EQUAL: Self = Self(0x400);

    pub const GREATER_THAN: Self = Self(0x800);

    pub const LOGICAL_EQUAL: Self = Self(0x1000);

    pub const LOGICAL_NOT_EQUAL: Self = Self(0x2000);

    pub const LOGICAL_OR: Self = Self(0x4000);

    pub const LOGICAL_AND: Self = Self(0x8000);

    pub const CONDITIONAL: Self = Self(0x1_0000);

    pub const NULL_COALESCING: Self = Self(0x2_0000);

    pub const COMMA: Self = Self(0x4_0000);

    pub const ASSIGNMENT: Self = Self(0x8_0000);

    pub const RETURN: Self = Self(0x10_0000);

    pub const MATH: Self = Self(0x20_0000);

    // Three classes beside the Rust's. There the class of `-` includes that of `+`, and `?` and `:` share one, so a class
    // may promise too much; a binary level has to know whether a leaf of its own is below, and these say so exactly.
    pub const ONLY_ADD: Self = Self(0x40_0000);

    pub const ONLY_CONDITIONAL: Self = Self(0x80_0000);

    pub const ONLY_CONDITIONAL_ELSE: Self = Self(0x100_0000);

    // The classes of `-`: the unary pass makes some of them `+`.
    pub const MINUS: Self = Self(0x90);

    // The classes of `+`, of `?` and of `:`: the one that it shares and its own.
    pub const LEAF_ADD: Self = Self(0x40_0080);

    pub const LEAF_CONDITIONAL: Self = Self(0x81_0000);

    pub const LEAF_CONDITIONAL_ELSE: Self = Self(0x101_0000);

    // The classes of the four comparisons, and of the two equalities: from version 6 each group is one level.
    pub const COMPARISONS: Self = Self(0xf00);

    pub const EQUALITIES: Self = Self(0x3000);

    // Whether the two sets share a class.
    pub fn intersects(self, other: Self) -> bool
        ensures { result ≡ shares self.0 other.0 }
    {
        self.0 & other.0 != 0
    }

    // The classes of both.
    pub fn union(self, other: Self) -> Self
        ensures { (i : ℕ) → bit_at result.0 i ≡ (bit_at self.0 i || bit_at other.0 i) }
    {
        Self(self.0 | other.0)
    }
}

// The classes of each operator number, which a leaf of it notes: those that `class` of driver.rs gives it, one for the tokens of a pass,
// two for `-`, none for what no pass after the sections looks for; and those of the three beside the Rust's. It is written out, and not
// computed from ranges: the class of an operator is to be read at its line.
pub const CLASSES: [u32; 111] = [
    TokenClasses::NONE.0, // LEFT_BRACE
    TokenClasses::NONE.0, // RIGHT_BRACE
    TokenClasses::NONE.0, // LEFT_BRACKET
    TokenClasses::NONE.0, // RIGHT_BRACKET
    TokenClasses::NONE.0, // LEFT_PARENTHESIS
    TokenClasses::NONE.0, // RIGHT_PARENTHESIS
    TokenClasses::MINUS.0, // NEGATE
    TokenClasses::UNARY.0, // LOGICAL_NOT
    TokenClasses::MATH.0, // ABS
    TokenClasses::LEAF_ADD.0, // ADD
    TokenClasses::MATH.0, // ACOS
    TokenClasses::MATH.0, // ASIN
    TokenClasses::MATH.0, // ATAN
    TokenClasses::MATH.0, // ATAN2
    TokenClasses::MATH.0, // CEIL
    TokenClasses::MATH.0, // CLAMP
    TokenClasses::MATH.0, // COPY_SIGN
    TokenClasses::MATH.0, // COS
    TokenClasses::MATH.0, // DIE_ROLL
    TokenClasses::MATH.0, // DIE_ROLL_INT
    TokenClasses::DIV.0, // DIV
    TokenClasses::MATH.0, // EXP
    TokenClasses::MATH.0, // FLOOR
    TokenClasses::MATH.0, // HERMITE_BLEND
    TokenClasses::MATH.0, // LERP
    TokenClasses::MATH.0, // LERP_ROTATE
    TokenClasses::MATH.0, // LN
    TokenClasses::MATH.0, // MAX
    TokenClasses::MATH.0, // MIN
    TokenClasses::MATH.0, // MIN_ANGLE
    TokenClasses::MATH.0, // MOD
    TokenClasses::MUL.0, // MUL
    TokenClasses::MATH.0, // POW
    TokenClasses::MATH.0, // RANDOM
    TokenClasses::MATH.0, // RANDOM_INT
    TokenClasses::MATH.0, // ROUND
    TokenClasses::MATH.0, // SIN
    TokenClasses::MATH.0, // SIGN
    TokenClasses::MATH.0, // SQRT
    TokenClasses::MATH.0, // TRUNC
    TokenClasses::CALL.0, // QUERY_FUNCTION
    TokenClasses::ARRAY.0, // ARRAY_VARIABLE
    TokenClasses::NONE.0, // CONTEXT_VARIABLE
    TokenClasses::NONE.0, // ENTITY_VARIABLE
    TokenClasses::NONE.0, // TEMP_VARIABLE
    TokenClasses::NONE.0, // MEMBER_ACCESSOR
    TokenClasses::NONE.0, // STRING_LITERAL
    TokenClasses::NONE.0, // GEOMETRY_VARIABLE
    TokenClasses::NONE.0, // MATERIAL_VARIABLE
    TokenClasses::NONE.0, // TEXTURE_VARIABLE
    TokenClasses::LESS_THAN.0, // LESS_THAN
    TokenClasses::LESS_EQUAL.0, // LESS_EQUAL
    TokenClasses::GREATER_EQUAL.0, // GREATER_EQUAL
    TokenClasses::GREATER_THAN.0, // GREATER_THAN
    TokenClasses::LOGICAL_EQUAL.0, // LOGICAL_EQUAL
    TokenClasses::LOGICAL_NOT_EQUAL.0, // LOGICAL_NOT_EQUAL
    TokenClasses::LOGICAL_OR.0, // LOGICAL_OR
    TokenClasses::LOGICAL_AND.0, // LOGICAL_AND
    TokenClasses::NULL_COALESCING.0, // NULL_COALESCING
    TokenClasses::LEAF_CONDITIONAL.0, // CONDITIONAL
    TokenClasses::LEAF_CONDITIONAL_ELSE.0, // CONDITIONAL_ELSE
    TokenClasses::NONE.0, // FLOAT
    TokenClasses::NONE.0, // PI
    TokenClasses::NONE.0, // ARRAY
    TokenClasses::NONE.0, // GEOMETRY
    TokenClasses::NONE.0, // MATERIAL
    TokenClasses::NONE.0, // TEXTURE
    TokenClasses::CALL.0, // LOOP
    TokenClasses::CALL.0, // FOR_EACH
    TokenClasses::NONE.0, // BREAK
    TokenClasses::NONE.0, // CONTINUE
    TokenClasses::ASSIGNMENT.0, // ASSIGNMENT
    TokenClasses::POINTER.0, // POINTER
    TokenClasses::SEMICOLON.0, // SEMICOLON
    TokenClasses::RETURN.0, // RETURN
    TokenClasses::COMMA.0, // COMMA
    TokenClasses::NONE.0, // THIS
    TokenClasses::NONE.0, // EXPRESSION_ARRAY
    TokenClasses::MATH.0, // INVERSE_LERP
    TokenClasses::MATH.0, // EASE_IN_QUAD
    TokenClasses::MATH.0, // EASE_OUT_QUAD
    TokenClasses::MATH.0, // EASE_IN_OUT_QUAD
    TokenClasses::MATH.0, // EASE_IN_CUBIC
    TokenClasses::MATH.0, // EASE_OUT_CUBIC
    TokenClasses::MATH.0, // EASE_IN_OUT_CUBIC
    TokenClasses::MATH.0, // EASE_IN_QUART
    TokenClasses::MATH.0, // EASE_OUT_QUART
    TokenClasses::MATH.0, // EASE_IN_OUT_QUART
    TokenClasses::MATH.0, // EASE_IN_QUINT
    TokenClasses::MATH.0, // EASE_OUT_QUINT
    TokenClasses::MATH.0, // EASE_IN_OUT_QUINT
    TokenClasses::MATH.0, // EASE_IN_SINE
    TokenClasses::MATH.0, // EASE_OUT_SINE
    TokenClasses::MATH.0, // EASE_IN_OUT_SINE
    TokenClasses::MATH.0, // EASE_IN_EXPO
    TokenClasses::MATH.0, // EASE_OUT_EXPO
    TokenClasses::MATH.0, // EASE_IN_OUT_EXPO
    TokenClasses::MATH.0, // EASE_IN_CIRC
    TokenClasses::MATH.0, // EASE_OUT_CIRC
    TokenClasses::MATH.0, // EASE_IN_OUT_CIRC
    TokenClasses::MATH.0, // EASE_IN_BOUNCE
    TokenClasses::MATH.0, // EASE_OUT_BOUNCE
    TokenClasses::MATH.0, // EASE_IN_OUT_BOUNCE
    TokenClasses::MATH.0, // EASE_IN_BACK
    TokenClasses::MATH.0, // EASE_OUT_BACK
    TokenClasses::MATH.0, // EASE_IN_OUT_BACK
    TokenClasses::MATH.0, // EASE_IN_ELASTIC
    TokenClasses::MATH.0, // EASE_OUT_ELASTIC
    TokenClasses::MATH.0, // EASE_IN_OUT_ELASTIC
    TokenClasses::MATH.0, // HOST_MATH
    TokenClasses::MATH.0, // HOST_MATH_VOLATILE
];

// Every constant of the type, in the order in which it has them.
const CONSTANTS: [u32; 33] = [
    TokenClasses::NONE.0,
    TokenClasses::ALL.0,
    TokenClasses::CALL.0,
    TokenClasses::SEMICOLON.0,
    TokenClasses::ARRAY.0,
    TokenClasses::POINTER.0,
    TokenClasses::UNARY.0,
    TokenClasses::DIV.0,
    TokenClasses::MUL.0,
    TokenClasses::ADD.0,
    TokenClasses::LESS_THAN.0,
    TokenClasses::LESS_EQUAL.0,
    TokenClasses::GREATER_EQUAL.0,
    TokenClasses::GREATER_THAN.0,
    TokenClasses::LOGICAL_EQUAL.0,
    TokenClasses::LOGICAL_NOT_EQUAL.0,
    TokenClasses::LOGICAL_OR.0,
    TokenClasses::LOGICAL_AND.0,
    TokenClasses::CONDITIONAL.0,
    TokenClasses::NULL_COALESCING.0,
    TokenClasses::COMMA.0,
    TokenClasses::ASSIGNMENT.0,
    TokenClasses::RETURN.0,
    TokenClasses::MATH.0,
    TokenClasses::ONLY_ADD.0,
    TokenClasses::ONLY_CONDITIONAL.0,
    TokenClasses::ONLY_CONDITIONAL_ELSE.0,
    TokenClasses::MINUS.0,
    TokenClasses::LEAF_ADD.0,
    TokenClasses::LEAF_CONDITIONAL.0,
    TokenClasses::LEAF_CONDITIONAL_ELSE.0,
    TokenClasses::COMPARISONS.0,
    TokenClasses::EQUALITIES.0,
];

// The constants as numbers: those that specs/Constants lists, of each of which proofs/Constants says what it stands for.
pub fn class_constants() -> [u32; 33]
    ensures { result ≡ constant_numbers }
{
    CONSTANTS
}

// The table as a value. A caller that looks it up often copies it to a local first, since a constant array is made anew at each use.
pub fn class_table() -> [u32; 111]
    ensures { result ≡ class_table }
{
    CLASSES
}

// The table's entry for op: where it is the class table, every class that op is in (proofs/ClassLaws: `entry-bits`). A number that is no
// operator has none.
pub fn class(table: &[u32; 111], op: u32) -> TokenClasses
    ensures { result.0 ≡ entry_of table.now op }
{
    match table.get(op as usize) {
        Some(classes) => TokenClasses(*classes),
        None => TokenClasses::NONE,
    }
}
