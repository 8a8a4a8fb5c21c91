// All passes over a list: the driver that every level runs on (driver.rs), and the passes in their order (mod.rs).
// Leans on passes (the passes' steps), sections, order (which pass is next), levels, nodes and ops.
#![tactic(auto)]

pub mod driver;
pub mod group;
