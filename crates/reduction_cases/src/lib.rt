// Reductions of a small vector, compared with what they should answer and leave.

#![tactic(auto)]

#[cfg(test)]
mod tests;
