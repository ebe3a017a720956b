// The session as a library, and for hosts in Rust or C.

#![tactic(auto)]

pub mod host;
mod page;
pub mod session;
