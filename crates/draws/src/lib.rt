// Where the numbers of a growth come from: sources of 64-bit words, the runner that draws from one,
// and the faults with which a draw, a rejection or a growth is refused.

#![tactic(auto)]

pub mod faults;
pub mod source;
pub mod test_runner;
