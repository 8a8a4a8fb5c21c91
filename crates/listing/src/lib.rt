// What the programs that print answers share: the words of bytes, and the text of an answer. Leans on parse (the answer), text and words;
// specs/Lists and specs/Rows have the definitions.
#![tactic(auto)]

pub mod bytes;
pub mod rows;
