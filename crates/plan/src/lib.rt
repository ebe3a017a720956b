// Plans: a text of four lines, read into sizes, draws and steps.

#![tactic(auto)]

mod line;
mod number;
mod parts;
mod plan;
mod step;
#[cfg(test)]
mod tests;
mod values;

pub use line::{PlanLine, read_line};
pub use plan::{Plan, PlanFault, read_plan};
pub use step::{Step, UnknownLetter};
pub use values::MOST_STEPS;
