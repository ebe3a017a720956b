// Reductions: from a failing list to a short one that still fails, and verdicts.

#![tactic(auto)]

pub mod reduce;
pub mod trial;
pub mod verdicts;
