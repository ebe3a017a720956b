// What a tree means, the traits that say it in code, and the definitions of the trees.

#![tactic(auto)]

pub mod collection;
pub mod reduction;
pub mod size_range;
pub mod traits;
