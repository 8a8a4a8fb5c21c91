// Kinds and fields of words: the top three bits are the kind. A token is five words, a tree node those, its child count and where it
// closes.
// Leans on nothing; specs/Fields names the fields as the definition reads them.
ghost use Rattle.std.specs.Prelude.{◌≡◌, ◌<◌, ◌/◌, ◌%◌, ◌^◌, eqb};
ghost use Rattle.molang.specs.Operator.{is_operator};
ghost use Rattle.molang.specs.Words.{word, kind_of, low_of, operator_bits};
ghost use Rattle.words.specs.Fields.{kind_number, operator_of, variant_of, half_of, value_of, with_operator};

// A word is its kind times this, and what stands in bits 0-28.
pub const KIND: u32 = 0x2000_0000;

// Which word of a token or node is which: the operator's is the first.
pub const START_FIELD: usize = 1;

pub const END_FIELD: usize = 2;

pub const UPPER_FIELD: usize = 3;

pub const LOWER_FIELD: usize = 4;

pub const COUNT_FIELD: usize = 5;

pub const CLOSE_FIELD: usize = 6;

pub const TOKEN_WORDS: usize = 5;

pub const NODE_WORDS: usize = 7;

pub const RECORD_WORDS: usize = 8;

// The most tokens that a list can have.
pub const MOST_TOKENS: usize = 4096;

// The last operator of document 01, the first and the last number of a host's own name, and the last payload variant.
pub const LAST_OPERATOR: u32 = 110;

pub const FIRST_HOST: u32 = 256;

pub const LAST_HOST: u32 = 1023;

pub const LAST_VARIANT: u32 = 12;

// The payload variant of a host math function.
pub const HOST_MATH: u32 = 12;

// The kind of a word.
#[derive(Clone, Copy, Debug, PartialEq, Eq)]
pub enum WordKind {
    Operator = 1,
    Start = 2,
    End = 3,
    Upper = 4,
    Lower = 5,
    Children = 6,
    Close = 7,
}

impl From<WordKind> for u32 {
    ghost from_gives = { λ kind number. number ≡ kind_number kind };

    fn from(kind: WordKind) -> u32 {
        kind as u32
    }
}

impl WordKind {
    // Whether the word is of this kind.
    pub fn is_of(self, w: u32) -> bool
        ensures { result ≡ eqb (kind_of w) (kind_number self) }
    {
        kind(w) == u32::from(self)
    }

    // The word of this kind with these bits 0-28, which the functions below cut to them.
    fn word(self, low: u32) -> u32
        requires { low < 2 ^ 29 }
        ensures { result ≡ word (kind_number self) low }
    {
        u32::from(self) * KIND + low
    }
}

// A number as a count or an index. It asks its caller for no proof, as a cast of an element of a slice would.
pub fn wide(x: u32) -> usize
    ensures { result ≡ x }
{
    x as usize
}

pub fn kind(w: u32) -> u32
    ensures { result ≡ kind_of w }
{
    w / KIND
}

// Bits 0-28: a span's start or end, how many children a node has, or where it closes.
pub fn low(w: u32) -> u32
    ensures { result ≡ low_of w }
{
    w % KIND
}

// The number of twelve bits: the lower eight are bits 0-7, the upper four bits 12-15.
pub fn operator(w: u32) -> u32
    ensures { result ≡ operator_of w }
{
    w % 256 + w / 4096 % 16 * 256
}

// The bits of the operator's number where they stand in the word, which one instruction takes out: the number itself, or for a host's one
// above 4,095. A test that no number from 256 on passes, as a bracket's or a class's, may ask them in place of the number.
pub fn operator_bits(w: u32) -> u32
    ensures { result ≡ operator_bits (operator_of w) 0 }
{
    w % 256 + w / 4096 % 16 * 4096
}

// Whether an operator can have the number.
pub fn is_operator(op: u32) -> bool
    ensures { result ≡ is_operator op }
{
    if op <= LAST_OPERATOR {
        return true;
    }
    FIRST_HOST <= op && op <= LAST_HOST
}

pub fn variant(w: u32) -> u32
    ensures { result ≡ variant_of w }
{
    w / 256 % 16
}

// Bits 0-15: half of a payload value.
pub fn half(w: u32) -> u32
    ensures { result ≡ half_of w }
{
    w % 65536
}

// A word of kind 1 for op, which is below 256, with payload variant 0.
pub fn operator_word(op: u32) -> u32
    ensures { result ≡ word 1 (op % 2 ^ 8) }
{
    WordKind::Operator.word(op % 256)
}

// A word of kind 1 for a number of at most twelve bits, a host's too, with payload variant 0.
pub fn number_word(n: u32) -> u32
    ensures { result ≡ word 1 (operator_bits (n % 2 ^ 12) 0) }
{
    WordKind::Operator.word(n / 256 % 16 * 4096 + n % 256)
}

// The word of kind 1 with op, which is below 256, in place of its operator.
pub fn with_operator(w: u32, op: u32) -> u32
    ensures { result ≡ with_operator w op }
{
    w - w % 65536 + w / 256 % 16 * 256 + op % 256
}

// A word of kind 2 for a span that starts at n.
pub fn start_word(n: u32) -> u32
    ensures { result ≡ word 2 (low_of n) }
{
    WordKind::Start.word(n % KIND)
}

// A word of kind 3 for a span that ends at n.
pub fn end_word(n: u32) -> u32
    ensures { result ≡ word 3 (low_of n) }
{
    WordKind::End.word(n % KIND)
}

// A word of kind 6 for n children.
pub fn children_word(n: u32) -> u32
    ensures { result ≡ word 6 (n % 2 ^ 14) }
{
    WordKind::Children.word(n % 16384)
}

// A word of kind 7 for a node that closes at n.
pub fn close_word(n: u32) -> u32
    ensures { result ≡ word 7 (low_of n) }
{
    WordKind::Close.word(n % KIND)
}

// The word of the upper half of a payload value.
pub fn upper_word(value: u32) -> u32
    ensures { result ≡ word 4 (value / 2 ^ 16) }
{
    WordKind::Upper.word(value / 65536)
}

// The word of the lower half of a payload value.
pub fn lower_word(value: u32) -> u32
    ensures { result ≡ word 5 (value % 2 ^ 16) }
{
    WordKind::Lower.word(value % 65536)
}

// The payload value of two halves.
pub fn value(upper: u32, lower: u32) -> u32
    ensures { result ≡ value_of upper lower }
{
    half(upper) * 65536 + half(lower)
}
