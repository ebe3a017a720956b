// Vectors: the trees of a table, of which some are members.

#![tactic(auto)]

pub mod collection;
mod included;
