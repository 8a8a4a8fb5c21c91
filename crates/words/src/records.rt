// Message records: eight words, number, start, end and five arguments; and the messages, with their numbers.
// Leans on the fields; specs/Records says which words a record is.
ghost use Rattle.std.specs.Prelude.{◌≡◌, ◌+◌, ◌≤◌, length};
ghost use Rattle.words.specs.Records.{message_number, unnamed, with_first, with_last, words_of, laid_at};

use crate::fields;

// What a message says.
#[derive(Clone, Copy, Debug, PartialEq, Eq)]
pub enum Message {
    MultipleRoots = 1,
    ComplexMustEndWithSemicolon = 2,
    LeadingMemberAccessor = 3,
    ClosingMismatch = 4,
    SectionNotClosed = 5,
    NoClosingSymbol = 6,
    EmptyParameterList = 7,
    MathAtEnd = 8,
    MathWithoutParenthesis = 9,
    LeadingSemicolon = 10,
    EmptyArrayIndex = 11,
    BinaryAtEnd = 12,
    NegateWithoutOperand = 13,
    NotWithoutOperand = 14,
    UnknownOperation = 15,
    UnaryWithoutOperand = 16,
    TernaryWithoutOperands = 17,
}

impl From<Message> for u32 {
    ghost from_gives = { λ message number. number ≡ message_number message };

    fn from(message: Message) -> u32 {
        message as u32
    }
}

// A record's words.
#[derive(Clone, Copy)]
pub struct Record {
    pub number: u32,
    pub start: u32,
    pub end: u32,
    pub first: u32,
    pub second: u32,
    pub third: u32,
    pub fourth: u32,
    pub fifth: u32,
}

impl Record {
    // A message with no argument.
    pub fn new(message: Message, start: u32, end: u32) -> Self
        ensures { result ≡ unnamed (message_number message) start end }
    {
        Self {
            number: message.into(),
            start,
            end,
            first: 0,
            second: 0,
            third: 0,
            fourth: 0,
            fifth: 0,
        }
    }

    // The record with its first two arguments.
    pub fn naming(mut self, first: u32, second: u32) -> Self
        ensures { result ≡ with_first self first second }
    {
        self.first = first;
        self.second = second;
        self
    }

    // The record with its last three arguments.
    pub fn and(mut self, third: u32, fourth: u32, fifth: u32) -> Self
        ensures { result ≡ with_last self third fourth fifth }
    {
        self.third = third;
        self.fourth = fourth;
        self.fifth = fifth;
        self
    }
}

impl From<Record> for [u32; fields::RECORD_WORDS] {
    ghost from_gives = { λ r words. words ≡ words_of r };

    fn from(r: Record) -> [u32; fields::RECORD_WORDS] {
        [
            r.number, r.start, r.end, r.first, r.second, r.third, r.fourth, r.fifth,
        ]
    }
}

// Writes a record to the eight words from `at` on. The entry has seen that the buffer holds two records.
pub fn put(messages: &mut [u32], at: usize, r: Record)
    requires { at + 8 ≤ length messages.old }
    ensures { messages.new ≡ laid_at at (words_of r) messages.old }
{
    let words: [u32; fields::RECORD_WORDS] = r.into();
    messages[at..at + fields::RECORD_WORDS].copy_from_slice(&words);
}
