// The steps of the walk: what an operator does where an operand has been read, and what a leaf or a closer does where one is wanted. Leans
// on stack; specs/Turns says what each does.
ghost use Rattle.std.specs.Prelude.{◌≡◌, ◌&&◌, ◌+◌, ◌/◌, ◌%◌, ◌^◌, ◌≤◌, ◌<◌, eqb, leb};
ghost use Rattle.scan.specs.Turns.{operator_turn, wait_turn, question_turn, prefix_turn, subtract_turn, leaf_turn, closer_turn, end_turn};
ghost use Rattle.scan.specs.States.{view_of, Sound, HasRoom, StandsFree, Turns};

use crate::stack::State;

// The number of children of a node, in its place.
pub const ONE: u32 = 0x4_0000;

// A `:` that waits for its `?`, and the highest number from which operators settle where it may not wait on top.
const PAIR: u32 = 0x400_0000;

const PAIR_GRADE: u32 = 0x2800_0000;

// The lowest grade of an operator, and that of a conditional.
pub const LOWEST_OPERATOR: u32 = 0x1000_0000;

const CONDITION: u32 = 0x3000_0000;

// The word of a `?` without its place; the minus that a subtraction leaves; the plus that it is, and the grade after it.
const QUESTION: u32 = 0x3008_0000;

const NEGATIVE: u32 = 0x5_0000;

pub const PLUS: u32 = 0x7808_8000;

pub const AFTER_PLUS: u32 = 0x8000_0000;

// The lowest word of the stack, that of the whole list, and what it has above its place.
pub const WHOLE: u32 = 7;

// What a turn comes to, where the walk does not give up: an operand is wanted; one has been read; the list is read, and its records begin
// there.
#[derive(Clone, Copy)]
pub enum Turn {
    Want(State),
    Have(State),
    Done(usize),
}

impl State {
    // A `:` waits on top.
    fn is_unpaired(self) -> bool
        ensures { result ≡ eqb (self.top / 67108864 % 2) 1 }
    {
        self.top / PAIR % 2 == 1
    }

    // A `:` that waits on top would be below an operator that it may not be below.
    fn is_left_over(self, from: u32) -> bool
        ensures { result ≡ (eqb (self.top / 67108864 % 2) 1 && leb from 671088640) }
    {
        self.is_unpaired() && from <= PAIR_GRADE
    }

    // An operator: those from a number on are settled, then it waits.
    pub(crate) fn operator(self, work: &mut [u32], at: usize, word: u32, from: u32) -> Option<Turn>
        requires stands_free { StandsFree work.old self 1 × (262144 ≤ from) }
        requires at_bound { (at < 32768) × (at + word < 2 ^ 32) }
        ensures { Turns work.old work.new result (operator_turn at word from (view_of work.old self)) }
    {
        let s = self.settle(work, from);
        if s.is_left_over(from) {
            return None;
        }
        Some(s.wait(work, at, word))
    }

    // A word waits next, for the token at a place.
    pub(crate) fn wait(self, work: &mut [u32], at: usize, word: u32) -> Turn
        requires sound { Sound work.old self × HasRoom self }
        requires at_bound { (at < 32768) × (at + word < 2 ^ 32) }
        ensures { Turns work.old work.new (Some result) (wait_turn at word (view_of work.old self)) }
    {
        let s = State { left: at, ..self };
        Turn::Want(s.push(work, at as u32 + word))
    }

    // A `?` where conditionals pair to the right: it takes the `:` that waits on top.
    pub(crate) fn question(self, work: &mut [u32], at: usize) -> Turn
        requires { StandsFree work.old self 1 × (at < 32768) }
        ensures { Turns work.old work.new (Some result) (question_turn at (view_of work.old self)) }
    {
        let s = self.settle(work, CONDITION);
        if s.is_unpaired() {
            let t = s.take(work);
            return t.wait(work, at, QUESTION);
        }
        s.wait(work, at, QUESTION)
    }

    // A minus after an operand: the minus that it leaves is laid down over what has been read, then the plus that it is waits.
    pub(crate) fn subtract(self, work: &mut [u32], at: usize) -> Option<Turn>
        requires { StandsFree work.old self 2 × (at < 32768) }
        ensures { Turns work.old work.new result (subtract_turn at (view_of work.old self)) }
    {
        let t = self.lay(work, at as u32 + NEGATIVE);
        t.operator(work, at, PLUS, AFTER_PLUS)
    }

    // A leaf.
    pub(crate) fn leaf(self, work: &mut [u32], at: usize) -> Turn
        requires { Sound work.old self × HasRoom self × (at < 32768) }
        ensures { Turns work.old work.new (Some result) (leaf_turn at (view_of work.old self)) }
    {
        let s = State { left: at, ..self };
        Turn::Have(s.lay(work, at as u32))
    }

    // A minus or not, over the operand that has just been read.
    pub(crate) fn prefix(self, work: &mut [u32], at: usize) -> Turn
        requires { Sound work.old self × HasRoom self × (at < 32768) }
        ensures { Turns work.old work.new (Some result) (prefix_turn at (view_of work.old self)) }
    {
        let s = State { left: at, ..self };
        Turn::Have(s.lay(work, at as u32 + ONE))
    }

    // The list's start is reached: everything is settled, and nothing waits but the list itself.
    pub(crate) fn end(self, work: &mut [u32]) -> Option<Turn>
        requires { StandsFree work.old self 1 }
        ensures { Turns work.old work.new result (end_turn (view_of work.old self)) }
    {
        let s = self.settle(work, LOWEST_OPERATOR);
        if s.top / 32768 == WHOLE {
            return Some(Turn::Done(s.out));
        }
        None
    }
}
