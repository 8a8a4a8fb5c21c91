// What the driver of the passes and its levels share: a pass's states, what a level's turn leads to, and reading on in a list.
// Leans on nodes (slots, frames) and ops (classes).
#![tactic(auto)]

pub mod failure;
pub mod items;
pub mod turns;
