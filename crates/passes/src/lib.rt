// The levels of the passes over the node store, side by side with the Rust's parse modules: each turns one list, as levels says, and the
// driver of crate grouping (`driver`) runs them. Leans on levels (turns, items), nodes (slots, chains), ops (operators, classes) and words.
// What a function asks of a list (`AtToken`, `CanTurn` and so on) is a fact of the words as they are lent to it, which each call changes. A
// struct that held the words and the list would be built anew before each call, so these facts stand in the contracts.
#![tactic(auto)]

pub mod arrays;
pub mod binary;
pub mod calls;
pub mod conditional;
pub mod returns;
pub mod statements;
pub mod unary;
