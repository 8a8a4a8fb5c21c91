// An opener from the right: its section is laid down, with the name before it that takes it. Leans on given, stack, steps and look;
// specs/Turns says what each does.
ghost use Rattle.std.specs.Prelude.{◌≡◌, ◌/◌, ◌≤◌, ◌<◌, ◌+◌};
ghost use Rattle.scan.specs.Views.{View};
ghost use Rattle.scan.specs.Turns.{have, section_laid, call_laid, opened_turn, opener_turn, empty_turn};
ghost use Rattle.scan.specs.States.{view_of, HasTwo, StandsFree, Becomes, free_of, Turns, UpTo, walking};

use crate::given::Given;
use crate::stack::State;
use crate::steps::{LOWEST_OPERATOR, ONE, Turn};
use ops::op;

// A closed section in a record, and that it has a child.
const SECTION: u32 = 0x8000_0000;

const CHILD: u32 = 0x4000_0000;

impl State {
    // A closed section: its closer waits no more.
    fn lay_section(self, work: &mut [u32], at: usize, child: u32) -> State
        requires stands_free { StandsFree work.old self 1 × HasTwo self }
        requires at_bound { (at < 32768) × (child ≤ 1073741824) }
        ensures becomes { Becomes work.old work.new result (section_laid child at (view_of work.old self)) }
        ensures result_value { free_of result ≡ free_of self }
    {
        let node = SECTION + child + self.top % 32768 * 32768 + at as u32;
        let below = self.pop(work);
        let s = State { left: at, ..below };
        s.lay(work, node)
    }

    // A section without a name.
    fn section(self, work: &mut [u32], at: usize) -> Turn
        requires stands_free { StandsFree work.old self 1 × HasTwo self }
        requires at_bound { at < 32768 }
        ensures { Turns work.old work.new (Some result) (have (section_laid 1073741824 at (view_of work.old self))) }
    {
        Turn::Have(self.lay_section(work, at, CHILD))
    }

    // A section and the name before it, over it.
    fn call(self, work: &mut [u32], at: usize, child: u32) -> Turn
        requires stands_free { StandsFree work.old self 1 × HasTwo self }
        requires le_at { (5 ≤ at) × (at < 32768) × (child ≤ 1073741824) }
        ensures { Turns work.old work.new (Some result)
            (have (call_laid at (section_laid child at (view_of work.old self)))) }
    {
        let section = self.lay_section(work, at, child);
        let s = State {
            left: at - 5,
            ..section
        };
        Turn::Have(s.lay(work, (at - 5) as u32 + ONE))
    }
}

impl<'a> Given<'a> {
    // What an opener closes from the right, once everything in it is settled.
    #[tactic(auto, using(crate::proofs::TurnLaws::given_up))]
    fn opened(self, work: &mut [u32], s: State, at: usize, op: u32) -> Option<Turn>
        requires stands_free { StandsFree work.old s 1 × HasTwo s }
        requires up_to { UpTo self.list.now at }
        ensures { Turns work.old work.new result (opened_turn (walking self.entry) op at (view_of work.old s)) }
    {
        if self.is_plain(at, op) {
            return Some(s.section(work, at));
        }
        if self.is_callable(at) {
            return Some(s.call(work, at, CHILD));
        }
        None
    }

    // An opener of a block or a bracket: the closer that waits below the operators must be its own.
    #[tactic(auto, using(crate::proofs::TurnLaws::given_up))]
    pub(crate) fn opener(self, work: &mut [u32], s0: State, at: usize, op: u32) -> Option<Turn>
        requires stands_free { StandsFree work.old s0 1 × (op < 4096) }
        requires up_to { UpTo self.list.now at }
        ensures { Turns work.old work.new result (opener_turn (walking self.entry) op at (view_of work.old s0)) }
    {
        if op == op::LEFT_BRACKET {
            return None;
        }
        if op::LEFT_PARENTHESIS < op {
            return None;
        }
        let s = s0.settle(work, LOWEST_OPERATOR);
        if s.top / 32768 == op + 1 {
            return self.opened(work, s, at, op);
        }
        None
    }

    // A bracket with nothing in it, as a math call's.
    #[tactic(auto, using(crate::proofs::TurnLaws::given_up))]
    pub(crate) fn empty(self, work: &mut [u32], s: State, at: usize) -> Option<Turn>
        requires stands_free { StandsFree work.old s 1 }
        requires up_to { UpTo self.list.now at }
        ensures { Turns work.old work.new result (empty_turn (walking self.entry) at (view_of work.old s)) }
    {
        if self.is_empty_call(s.top, at) {
            return Some(s.call(work, at, 0));
        }
        None
    }
}
