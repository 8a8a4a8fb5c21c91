// A pass with what it holds of a list, and what a level makes of that list in one turn: one enum of states for the Rust's
// trait `Level`, its closures and its `Frame`. Leans on nodes (frames) and ops (classes).
ghost use Rattle.std.specs.Prelude.{◌≡◌};
ghost use Rattle.levels.specs.Passes.{walk_of, classes_of, held_of, split_or, resumed_with, waiting_of, begun_of};

use nodes::frames::{Held, List};
use ops::classes::TokenClasses;

// A pass, with what it holds of the list that it is on. Unary goes from the right, the others from the left.
#[derive(Clone, Copy)]
pub enum Pass {
    Calls,
    MathCalls,
    // Statements, in a list without semicolons.
    Unsplit,
    // Statements, in a list split at its semicolons: how many are done.
    Split { done: u32 },
    // `array` is the array whose index was entered last and that may take further ones, or 0; its children stand in a chain from the
    // last to the first. `lent` is the array that the contents of that index complete, or 0. Here and at `pending` 0 stands for none, as in
    // the words of a frame: an Option would be made of such a word and turned into one again at each (`resumed`, `held`).
    Arrays { array: u32, lent: u32 },
    Unary,
    // The level's classes, and the operator whose right side is entered, or 0.
    Binary { classes: TokenClasses, pending: u32 },
    // How many `?` and `:` stand in the list as far as it is read.
    Conditional { tokens: u32 },
    // `return`.
    Returns,
}

// Where a pass is: the list, and what it holds of it.
#[derive(Clone, Copy)]
pub struct Walk {
    pub list: List,
    pub pass: Pass,
}

// What a level makes of its list up to the next token or node that it works on, if it does not fail.
#[derive(Clone, Copy)]
pub enum Turn {
    On(Walk),
    // The children of this item come first.
    Enter(Walk, u32),
    // Every item is done.
    Over(Walk),
}

// What a level makes of a list whose items are all done, if it does not fail: where the finished items stand, and how many.
#[derive(Clone, Copy)]
pub struct Finished {
    pub from: usize,
    pub items: usize,
}

// The statement pass on a list that a frame held.
pub fn statements(split: u32, done: u32) -> Pass
    ensures { result ≡ split_or split done }
{
    if split == 0 {
        return Pass::Unsplit;
    }
    Pass::Split { done }
}

impl Pass {
    // The classes whose leaves the pass works on.
    pub fn classes(self) -> TokenClasses
        ensures { result.0 ≡ classes_of self }
    {
        match self {
            Pass::Calls => TokenClasses::CALL,
            Pass::MathCalls => TokenClasses::MATH,
            Pass::Unsplit => TokenClasses::SEMICOLON,
            Pass::Split { done: _ } => TokenClasses::SEMICOLON,
            Pass::Arrays { array: _, lent: _ } => TokenClasses::ARRAY,
            Pass::Unary => TokenClasses::UNARY,
            Pass::Binary {
                classes,
                pending: _,
            } => classes,
            Pass::Conditional { tokens: _ } => TokenClasses::CONDITIONAL,
            Pass::Returns => TokenClasses::RETURN,
        }
    }

    // What the pass holds of its list, as the words of a frame.
    pub fn held(self) -> Held
        ensures { result ≡ held_of self }
    {
        match self {
            Pass::Split { done } => Held {
                first: 1,
                second: done,
            },
            Pass::Arrays { array, lent: _ } => Held {
                first: array,
                second: 0,
            },
            Pass::Binary {
                classes: _,
                pending,
            } => Held {
                first: pending,
                second: 0,
            },
            Pass::Conditional { tokens } => Held {
                first: tokens,
                second: 0,
            },
            _ => Held::NONE,
        }
    }

    // The same pass with what a frame's words hold.
    pub fn resumed(self, held: Held) -> Self
        ensures { result ≡ resumed_with self held }
    {
        let first = held.first;
        let second = held.second;
        match self {
            Pass::Unsplit | Pass::Split { done: _ } => statements(first, second),
            Pass::Arrays { array: _, lent: _ } => Pass::Arrays {
                array: first,
                lent: 0,
            },
            Pass::Binary {
                classes,
                pending: _,
            } => Pass::Binary {
                classes,
                pending: first,
            },
            Pass::Conditional { tokens: _ } => Pass::Conditional { tokens: first },
            _ => self,
        }
    }

    // The same pass, put together anew: a whole copy would take along the bytes that no field has, at every turn of the driver.
    pub fn anew(self) -> Self
        ensures { result ≡ self }
    {
        match self {
            Pass::Calls => Pass::Calls,
            Pass::MathCalls => Pass::MathCalls,
            Pass::Unsplit => Pass::Unsplit,
            Pass::Split { done } => Pass::Split { done },
            Pass::Arrays { array, lent } => Pass::Arrays { array, lent },
            Pass::Unary => Pass::Unary,
            Pass::Binary { classes, pending } => Pass::Binary { classes, pending },
            Pass::Conditional { tokens } => Pass::Conditional { tokens },
            Pass::Returns => Pass::Returns,
        }
    }

    // The array that waits for an index.
    pub fn waiting(self) -> Option<u32>
        ensures { result ≡ waiting_of self }
    {
        match self {
            Pass::Arrays { array, lent: _ } => (array != 0).then_some(array),
            _ => None,
        }
    }

    // The pass at the start of a list, apart from the statement pass, which looks at the list first: it holds nothing but the
    // array that is lent to the list.
    pub fn begun(self) -> Self
        ensures { result ≡ begun_of self }
    {
        match self {
            Pass::Arrays { array: _, lent } => Pass::Arrays {
                array: lent,
                lent: 0,
            },
            Pass::Binary {
                classes,
                pending: _,
            } => Pass::Binary {
                classes,
                pending: 0,
            },
            Pass::Conditional { tokens: _ } => Pass::Conditional { tokens: 0 },
            _ => self,
        }
    }
}

// The level goes on with this list.
pub fn on(list: List, pass: Pass) -> Turn
    ensures { result ≡ Turn.On (walk_of list pass) }
{
    Turn::On(Walk { list, pass })
}

// The level goes on with this list after the children of `item`.
pub fn enter(list: List, pass: Pass, item: u32) -> Turn
    ensures { result ≡ Turn.Enter (walk_of list pass) item }
{
    Turn::Enter(Walk { list, pass }, item)
}

// The level is done with every item of this list.
pub fn over(list: List, pass: Pass) -> Turn
    ensures { result ≡ Turn.Over (walk_of list pass) }
{
    Turn::Over(Walk { list, pass })
}
