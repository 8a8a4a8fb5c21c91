// Why a pass fails. `Failure` has the messages of document 01 that a pass gives alone, with the slots of the tokens that they speak of.
// Brackets that do not match give two messages: `Mismatch` and `Unclosed`. A `Fault` is any of the three; `parse/src/report.rt` makes
// the records. Leans on nothing.
ghost use Rattle.std.specs.Prelude.{◌≡◌};
ghost use Rattle.levels.specs.declared.failure.Fault.TheVariants.{Failed};

#[derive(Clone, Copy, Debug, PartialEq, Eq)]
pub enum Failure {
    // Complex, and the token that the list ends with.
    ComplexMustEndWithSemicolon(u32),
    // Complex, and no token at all.
    ComplexWithoutTokens,
    LeadingMemberAccessor(u32),
    // The call, and its arguments.
    EmptyParameterList(u32, u32),
    MathAtEnd(u32),
    MathWithoutParenthesis(u32),
    LeadingSemicolon(u32),
    // The array, and its index.
    EmptyArrayIndex(u32, u32),
    BinaryAtEnd(u32),
    NegateWithoutOperand(u32),
    NotWithoutOperand(u32),
    // The minus, and what stands before it.
    UnknownOperation(u32, u32),
    UnaryWithoutOperand(u32),
    TernaryWithoutOperands(u32),
}

// A closer that is not the innermost open section's: that section's opener and its index plus one, the closer and its index, and the
// outermost opener, which is named as not closed.
#[derive(Clone, Copy, Debug, PartialEq, Eq)]
pub struct Mismatch {
    pub opener: u32,
    pub start: u32,
    pub closer: u32,
    pub index: u32,
    pub outer: u32,
}

// Sections that are open at the end: the innermost opener and its index plus one, and the outermost opener.
#[derive(Clone, Copy, Debug, PartialEq, Eq)]
pub struct Unclosed {
    pub inner: u32,
    pub start: u32,
    pub outer: u32,
}

// Why a list is no tree.
#[derive(Clone, Copy, Debug, PartialEq, Eq)]
pub enum Fault {
    Failed(Failure),
    Mismatched(Mismatch),
    Unclosed(Unclosed),
    // The pointer pass failed, which leaves the list empty; the passes after it leave an empty list as it is.
    PointerFailed(Failure),
}

// The failure of any pass but the pointer's.
impl From<Failure> for Fault {
    ghost from_gives = { λ failure fault. fault ≡ Failed failure };

    fn from(failure: Failure) -> Self {
        Fault::Failed(failure)
    }
}
