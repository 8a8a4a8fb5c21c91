// The refusals that reading a list, writing a tree, every short list, an open list, export and import can meet, each with its number: of
// document 01's table, 16 of document 02's card 5, 17 and 18 of its card 8, 19 and 20 of its card 9, 21 to 23 of its card 11, 24 and 25 of
// its card 14. Leans on nothing; specs/Refusals has the numbers.
ghost use Rattle.std.specs.Prelude.{◌≡◌};
ghost use Rattle.words.specs.Refusals.{reason_number};

// Why a call is turned back.
#[derive(Clone, Copy, Debug, PartialEq, Eq)]
pub enum Reason {
    ListNotWhole = 1,
    TooManyTokens = 2,
    ShortTreeBuffer = 3,
    ShortMessageBuffer = 4,
    ShortWorkBuffer = 5,
    UsedSetTooHigh = 6,
    SourceTooLong = 7,
    WrongKind = 8,
    HighOperator = 9,
    HighVariant = 10,
    OtherBit = 11,
    NotOneTree = 12,
    NotPlain = 13,
    WrittenTooLong = 14,
    ShortList = 15,
    ShortRuleBuffer = 16,
    LimitOutOfRange = 17,
    NestedTooDeep = 18,
    NoAlphabet = 19,
    NoList = 20,
    OtherEditCount = 21,
    PastTheEnd = 22,
    LastEdit = 23,
    NotOneStack = 24,
    ShortOutput = 25,
}

// A reason, and the place that it speaks of.
#[derive(Clone, Copy, Debug, PartialEq, Eq)]
pub struct Refusal {
    pub reason: Reason,
    pub place: usize,
}

impl From<Reason> for u32 {
    ghost from_gives = { λ reason number. number ≡ reason_number reason };

    fn from(reason: Reason) -> u32 {
        reason as u32
    }
}

impl Reason {
    // The refusal for this reason at a place.
    pub fn at(self, place: usize) -> Refusal
        ensures { result ≡ record { reason = self; place = place } }
    {
        Refusal {
            reason: self,
            place,
        }
    }
}
