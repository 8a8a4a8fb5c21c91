// What the walk sees at a place of the list: the operator there and before it, its entry in the table, and whether the used set has it.
// Leans on ops and words.
ghost use Rattle.std.specs.Prelude.{◌≡◌, true, ◌<◌, length};
ghost use Rattle.scan.specs.Tables.{entry_in};
ghost use Rattle.scan.specs.Views.{View, top_word};
ghost use Rattle.scan.specs.Turns.{is_doubled, is_plain, is_callable, is_empty_call};
ghost use Rattle.scan.specs.States.{UpTo, walking, operator_before, lets, LookedUp};

use crate::given::Given;
use ops::op;
use words::fields;

impl<'a> Given<'a> {
    // The operator of the token at a place.
    pub(crate) fn op_at(self, at: usize) -> u32
        requires { UpTo self.list.now at × (at < length self.list.now) }
        ensures { LookedUp self.entry.list.now at result }
    {
        fields::operator(self.list[at])
    }

    // The operator of the token before a place; the list begins as if after an opening bracket.
    pub(crate) fn op_before(self, at: usize) -> u32
        requires { UpTo self.list.now at }
        ensures { result ≡ operator_before self.entry.list.now at }
    {
        if at == 0 {
            return op::LEFT_PARENTHESIS;
        }
        self.op_at(at - 5)
    }

    // The entry of an operator in the table: every host's name has the last one.
    pub(crate) fn entry_of(self, op: u32) -> u32
        ensures { result ≡ entry_in self.entry.table.now op }
    {
        self.table[op.min(op::COUNT) as usize]
    }

    // Whether the used set has the operator, or it is one that has no bit.
    pub(crate) fn is_let(self, op: u32) -> bool
        ensures { result ≡ lets self.entry.used op }
    {
        op::COUNT <= op || self.used.contains(op)
    }

    // Whether the token before a minus is one, too, and the token before that ends an operand.
    pub(crate) fn is_pair(self, at: usize) -> bool
        requires { UpTo self.list.now at }
        ensures { result ≡ true → is_doubled (walking self.entry) at ≡ true }
    {
        if at <= 5 {
            return false;
        }
        if self.op_at(at - 5) != op::NEGATE {
            return false;
        }
        self.entry_of(self.op_at(at - 10)) / 128 % 4 == 2
    }

    // Whether no name before a section takes it.
    pub(crate) fn is_plain(self, at: usize, op: u32) -> bool
        requires { UpTo self.list.now at }
        ensures { result ≡ is_plain (walking self.entry) op at }
    {
        if op == op::LEFT_BRACE {
            return true;
        }
        self.entry_of(self.op_before(at)) / 512 % 4 == 0
    }

    // Whether the name before a bracket is a query's or a math call's.
    pub(crate) fn is_callable(self, at: usize) -> bool
        requires { UpTo self.list.now at }
        ensures { result ≡ true → is_callable (walking self.entry) at ≡ true }
    {
        if at == 0 {
            return false;
        }
        let name = self.op_at(at - 5);
        if self.entry_of(name) / 512 % 4 % 2 != 1 {
            return false;
        }
        self.is_let(name)
    }

    // Whether a bracket with nothing in it is a math call's: its closer waits on top.
    pub(crate) fn is_empty_call(self, top: u32, at: usize) -> bool
        requires { UpTo self.list.now at }
        ensures { result ≡ true → (v : View) → top_word v.stack ≡ top → is_empty_call (walking self.entry) at v ≡ true }
    {
        if top / 32768 != op::RIGHT_PARENTHESIS {
            return false;
        }
        if at == 0 {
            return false;
        }
        let name = self.op_at(at - 5);
        if self.entry_of(name) / 512 % 4 != 3 {
            return false;
        }
        self.is_let(name)
    }
}
