// The definition of reading and writing stands in `specs/`, and what is shown of it in `proofs/`. Of code there is only the table of lines,
// which a program runs too.
#![tactic(auto)]

pub mod lines;
