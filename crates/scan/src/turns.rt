// One turn of the walk: the next token to the left, where an operand has been read and where one is wanted. Leans on given, look, steps
// and sections; specs/Turns says what each does.
ghost use Rattle.std.specs.Prelude.{◌≡◌, ◌≤◌, ◌<◌};
ghost use Rattle.scan.specs.Tables.{entry_in};
ghost use Rattle.scan.specs.Turns.{have_class, want_class, minus_turn, have_by, want_by, have_turn, want_turn};
ghost use Rattle.scan.specs.States.{view_of, StandsFree, Turns, UpTo, walking, operator_of_place, CanMakeTurn};

use crate::given::Given;
use crate::stack::State;
use crate::steps::{AFTER_PLUS, PLUS, Turn};

// The number of children of an operator's node, in its place; what a grade is a multiple of.
const TWO: u32 = 0x8_0000;

const GRADE: u32 = 0x800_0000;

// The word of a `:` that waits for its `?`, and the grade of a conditional.
const COLON: u32 = 0x408_0000;

const CONDITION: u32 = 0x3000_0000;

// How many words a turn may take.
const ROOM: usize = 4;

impl<'a> Given<'a> {
    // A minus, by what stands before it.
    #[tactic(auto, using(crate::proofs::TurnLaws::given_up))]
    fn minus(self, work: &mut [u32], s: State, at: usize) -> Option<Turn>
        requires stands_free { StandsFree work.old s 2 }
        requires up_to { UpTo self.list.now at }
        ensures { Turns work.old work.new result (minus_turn (walking self.entry) at (view_of work.old s)) }
    {
        let before = self.entry_of(self.op_before(at)) / 128 % 4;
        if before == 1 {
            return Some(s.prefix(work, at));
        }
        if before == 2 {
            return s.subtract(work, at);
        }
        if self.is_pair(at) {
            return s.operator(work, at - 5, PLUS, AFTER_PLUS);
        }
        None
    }

    // A token after which an operand has been read, by its entry.
    #[tactic(auto, using(crate::proofs::TurnLaws::given_up))]
    fn have_by(self, work: &mut [u32], s: State, at: usize, op: u32) -> Option<Turn>
        requires stands_free { StandsFree work.old s 2 × (op ≡ operator_of_place self.list.now at) × (op < 4096) }
        requires up_to { UpTo self.list.now at }
        ensures { Turns work.old work.new result
            (have_by (walking self.entry) (have_class (entry_in self.entry.table.now op)) at (view_of work.old s)) }
    {
        let entry = self.entry_of(op);
        match entry / 8 % 16 {
            1 => s.operator(
                work,
                at,
                TWO + entry / GRADE * GRADE,
                entry / GRADE * GRADE + GRADE,
            ),
            2 => self.opener(work, s, at, op),
            3 => self.minus(work, s, at),
            4 => Some(s.prefix(work, at)),
            7 => Some(s.question(work, at)),
            8 => s.operator(work, at, COLON, CONDITION),
            _ => None,
        }
    }

    // A token where an operand is wanted, by its entry.
    #[tactic(auto, using(crate::proofs::TurnLaws::given_up))]
    fn want_by(self, work: &mut [u32], s: State, at: usize, op: u32) -> Option<Turn>
        requires stands_free { StandsFree work.old s 2 × (op ≡ operator_of_place self.list.now at) × (op < 4096) }
        requires up_to { UpTo self.list.now at }
        ensures { Turns work.old work.new result
            (want_by (walking self.entry) (want_class (entry_in self.entry.table.now op)) at (view_of work.old s)) }
    {
        match self.entry_of(op) % 8 {
            1 => Some(s.leaf(work, at)),
            2 => Some(s.wait(work, at, op * 32768)),
            5 => self.empty(work, s, at),
            _ => None,
        }
    }

    // The next token where an operand has been read.
    #[tactic(auto, using(crate::proofs::TurnLaws::given_up))]
    pub(crate) fn have(self, work: &mut [u32], s: State) -> Option<Turn>
        requires { CanMakeTurn self.list.now work.old s }
        ensures { Turns work.old work.new result (have_turn (walking self.entry) (view_of work.old s)) }
    {
        if s.out - s.depth < ROOM {
            return None;
        }
        if s.left == 0 {
            return s.end(work);
        }
        let at = s.left - 5;
        let op = self.op_at(at);
        if self.is_let(op) {
            return self.have_by(work, s, at, op);
        }
        None
    }

    // The next token where an operand is wanted.
    #[tactic(auto, using(crate::proofs::TurnLaws::given_up))]
    pub(crate) fn want(self, work: &mut [u32], s: State) -> Option<Turn>
        requires { CanMakeTurn self.list.now work.old s }
        ensures { Turns work.old work.new result (want_turn (walking self.entry) (view_of work.old s)) }
    {
        if s.out - s.depth < ROOM {
            return None;
        }
        if s.left == 0 {
            return None;
        }
        let at = s.left - 5;
        let op = self.op_at(at);
        if self.is_let(op) {
            return self.want_by(work, s, at, op);
        }
        None
    }
}
