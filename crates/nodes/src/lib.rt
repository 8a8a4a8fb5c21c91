// The node store in the work buffer: slots of eight words, child lists as chains of slots, and the lists under work as
// arrays of slots on a stack above the slots. Leans on ops (classes) and words (fields and tokens).
#![tactic(auto)]

pub mod children;
pub mod frames;
pub mod slots;
pub mod stored;
