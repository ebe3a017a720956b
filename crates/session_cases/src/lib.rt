// Sessions of plans of every shape, compared with the lines that they should print.

#![tactic(auto)]

#[cfg(test)]
mod tests;
