// Sets of operators in two halves of 64 bits, operator 0 being the lowest bit of the low half (set.rs has one of 128): the C interface
// takes a used set as these two words. Leans on nothing.
ghost use Rattle.std.specs.Prelude.{◌≡◌, ◌&&◌, ◌+◌, ◌*◌, ◌^◌, ltb};
ghost use Rattle.molang.specs.Operator.{any};
ghost use Rattle.molang.specs.Order.{some_below};
ghost use Rattle.molang.specs.Parse.{in_halves};

#[derive(Clone, Copy)]
pub struct OpSet {
    pub low: u64,
    pub high: u64,
}

impl OpSet {
    pub const NONE: Self = Self { low: 0, high: 0 };

    // The math calls (`is_math_call`). That it has those and no others is part of the computed rule of the tables of `order`.
    pub const MATH_CALLS: Self = Self {
        low: 0xff_7fef_fd00,
        high: 0x7fff_ffff_c000,
    };

    // Whether no bit above operator 110 is set.
    pub fn is_legal(self) -> bool
        ensures { result ≡ ltb (self.high * 2 ^ 64 + self.low) (2 ^ 111) }
    {
        self.high < 0x8000_0000_0000
    }

    // Whether op is in the set: whether the bit of that number is set in the two halves, of an operator or not.
    pub fn contains(self, op: u32) -> bool
        ensures { result ≡ in_halves self.low self.high op }
    {
        if op < 64 {
            return (self.low >> op) % 2 == 1;
        }
        if op < 128 {
            return (self.high >> (op - 64)) % 2 == 1;
        }
        false
    }

    // Whether one of the operators is in the set.
    pub fn has_any(self, ops: &[u32]) -> bool
        ensures { result ≡ any (in_halves self.low self.high) ops.now }
    {
        ops.iter().any(|op| self.contains(*op))
    }

    // Whether the sets share an operator.
    pub fn intersects(self, other: Self) -> bool
        ensures { result ≡ some_below 128 (λ n. in_halves self.low self.high n && in_halves other.low other.high n) }
    {
        self.low & other.low != 0 || self.high & other.high != 0
    }
}
