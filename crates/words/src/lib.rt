// The words of document 01's format: kinds and fields, the check of each word of a token, the words that the reader makes,
// message records, the refusals' numbers, and the extent of a node over preorder tree words. Leans on nothing.
#![tactic(auto)]

pub mod checks;
pub mod extent;
pub mod fields;
pub mod records;
pub mod refusals;
pub mod tokens;
