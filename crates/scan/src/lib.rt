// One walk over a list's tokens from the last to the first, which reads expressions and gives up on everything else: `walk` is the crate's
// entry. Leans on ops and words.
#![tactic(auto)]

mod emit;
mod given;
mod look;
mod scan;
mod sections;
mod stack;
mod steps;
mod table;
mod turns;
pub mod walk;
