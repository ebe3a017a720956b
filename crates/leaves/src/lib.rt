// The trees that hold no other tree.

#![tactic(auto)]

pub mod stair;
