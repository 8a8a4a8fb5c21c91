// The operators of op.rs by name: an operator is its number there, the same in token words, in sets and in the class table.
// Nothing else in the code writes an operator as a bare number, but for molang's table of lines, which leans on nothing.
// They stay numbers, and no enum: a host's operators have numbers of their own (256 to 1023), each pass reads an operator from a lent word
// at each step, where an enum would be made anew by 111 cases, and math calls, brackets, sets and the class table go by ranges of numbers.

pub const LEFT_BRACE: u32 = 0;

pub const RIGHT_BRACE: u32 = 1;

pub const LEFT_BRACKET: u32 = 2;

pub const RIGHT_BRACKET: u32 = 3;

pub const LEFT_PARENTHESIS: u32 = 4;

pub const RIGHT_PARENTHESIS: u32 = 5;

pub const NEGATE: u32 = 6;

pub const LOGICAL_NOT: u32 = 7;

pub const ABS: u32 = 8;

pub const ADD: u32 = 9;

pub const ACOS: u32 = 10;

pub const ASIN: u32 = 11;

pub const ATAN: u32 = 12;

pub const ATAN2: u32 = 13;

pub const CEIL: u32 = 14;

pub const CLAMP: u32 = 15;

pub const COPY_SIGN: u32 = 16;

pub const COS: u32 = 17;

pub const DIE_ROLL: u32 = 18;

pub const DIE_ROLL_INT: u32 = 19;

pub const DIV: u32 = 20;

pub const EXP: u32 = 21;

pub const FLOOR: u32 = 22;

pub const HERMITE_BLEND: u32 = 23;

pub const LERP: u32 = 24;

pub const LERP_ROTATE: u32 = 25;

pub const LN: u32 = 26;

pub const MAX: u32 = 27;

pub const MIN: u32 = 28;

pub const MIN_ANGLE: u32 = 29;

pub const MOD: u32 = 30;

pub const MUL: u32 = 31;

pub const POW: u32 = 32;

pub const RANDOM: u32 = 33;

pub const RANDOM_INT: u32 = 34;

pub const ROUND: u32 = 35;

pub const SIN: u32 = 36;

pub const SIGN: u32 = 37;

pub const SQRT: u32 = 38;

pub const TRUNC: u32 = 39;

pub const QUERY_FUNCTION: u32 = 40;

pub const ARRAY_VARIABLE: u32 = 41;

pub const CONTEXT_VARIABLE: u32 = 42;

pub const ENTITY_VARIABLE: u32 = 43;

pub const TEMP_VARIABLE: u32 = 44;

pub const MEMBER_ACCESSOR: u32 = 45;

pub const STRING_LITERAL: u32 = 46;

pub const GEOMETRY_VARIABLE: u32 = 47;

pub const MATERIAL_VARIABLE: u32 = 48;

pub const TEXTURE_VARIABLE: u32 = 49;

pub const LESS_THAN: u32 = 50;

pub const LESS_EQUAL: u32 = 51;

pub const GREATER_EQUAL: u32 = 52;

pub const GREATER_THAN: u32 = 53;

pub const LOGICAL_EQUAL: u32 = 54;

pub const LOGICAL_NOT_EQUAL: u32 = 55;

pub const LOGICAL_OR: u32 = 56;

pub const LOGICAL_AND: u32 = 57;

pub const NULL_COALESCING: u32 = 58;

pub const CONDITIONAL: u32 = 59;

pub const CONDITIONAL_ELSE: u32 = 60;

pub const FLOAT: u32 = 61;

pub const PI: u32 = 62;

pub const ARRAY: u32 = 63;

pub const GEOMETRY: u32 = 64;

pub const MATERIAL: u32 = 65;

pub const TEXTURE: u32 = 66;

pub const LOOP: u32 = 67;

pub const FOR_EACH: u32 = 68;

pub const BREAK: u32 = 69;

pub const CONTINUE: u32 = 70;

pub const ASSIGNMENT: u32 = 71;

pub const POINTER: u32 = 72;

pub const SEMICOLON: u32 = 73;

pub const RETURN: u32 = 74;

pub const COMMA: u32 = 75;

pub const THIS: u32 = 76;

pub const EXPRESSION_ARRAY: u32 = 77;

pub const INVERSE_LERP: u32 = 78;

pub const EASE_IN_QUAD: u32 = 79;

pub const EASE_OUT_QUAD: u32 = 80;

pub const EASE_IN_OUT_QUAD: u32 = 81;

pub const EASE_IN_CUBIC: u32 = 82;

pub const EASE_OUT_CUBIC: u32 = 83;

pub const EASE_IN_OUT_CUBIC: u32 = 84;

pub const EASE_IN_QUART: u32 = 85;

pub const EASE_OUT_QUART: u32 = 86;

pub const EASE_IN_OUT_QUART: u32 = 87;

pub const EASE_IN_QUINT: u32 = 88;

pub const EASE_OUT_QUINT: u32 = 89;

pub const EASE_IN_OUT_QUINT: u32 = 90;

pub const EASE_IN_SINE: u32 = 91;

pub const EASE_OUT_SINE: u32 = 92;

pub const EASE_IN_OUT_SINE: u32 = 93;

pub const EASE_IN_EXPO: u32 = 94;

pub const EASE_OUT_EXPO: u32 = 95;

pub const EASE_IN_OUT_EXPO: u32 = 96;

pub const EASE_IN_CIRC: u32 = 97;

pub const EASE_OUT_CIRC: u32 = 98;

pub const EASE_IN_OUT_CIRC: u32 = 99;

pub const EASE_IN_BOUNCE: u32 = 100;

pub const EASE_OUT_BOUNCE: u32 = 101;

pub const EASE_IN_OUT_BOUNCE: u32 = 102;

pub const EASE_IN_BACK: u32 = 103;

pub const EASE_OUT_BACK: u32 = 104;

pub const EASE_IN_OUT_BACK: u32 = 105;

pub const EASE_IN_ELASTIC: u32 = 106;

pub const EASE_OUT_ELASTIC: u32 = 107;

pub const EASE_IN_OUT_ELASTIC: u32 = 108;

pub const HOST_MATH: u32 = 109;

pub const HOST_MATH_VOLATILE: u32 = 110;

// How many there are: an operator is below this.
pub const COUNT: u32 = 111;
