// The lent buffers around a reading: a list's tokens are loaded into the node store, a tree's words are laid out and copied to
// the caller's buffer, and the work buffer is cleared. Leans on nodes, ops and words.
#![tactic(auto)]

pub mod emit;
pub mod load;
