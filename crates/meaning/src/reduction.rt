ghost use Rattle.std.specs.Prelude.{◌≡◌};
ghost use Rattle.meaning.specs.Reductions.{reduce_number};

use thiserror::Error;

// How a reduction came to its end: its first verdict passed; no step was left; or the verdicts were used up.
#[derive(Clone, Copy, Debug, PartialEq, Eq)]
pub enum End {
    Passes,
    Ended,
    Spent,
}

// Why a reduction is refused.
#[derive(Clone, Copy, Debug, PartialEq, Eq, Error)]
pub enum ReduceFault {
    #[error("the result buffer is shorter than the tree's stated longest")]
    TooShort,
    #[error("the budget is 0")]
    NoBudget,
    #[error("the tree is blank")]
    Blank,
}

impl ReduceFault {
    // A method of each fault and no `From`: other faults have the same numbers. No trait: nothing is generic over faults.
    pub fn number(self) -> u32
        ensures { result ≡ reduce_number self }
    {
        match self {
            ReduceFault::TooShort => 7,
            ReduceFault::NoBudget => 8,
            ReduceFault::Blank => 9,
        }
    }
}

// What a reduction answers: how it came to its end, how many verdicts it made, and how many items its result has, 0 where no
// list failed.
#[derive(Clone, Copy, Debug, PartialEq, Eq)]
pub struct Reduced {
    pub end: End,
    pub verdicts: u32,
    pub length: usize,
}

// What a witness is told of, beside a reduction's report: a step with its answer, a reading, a verdict that says whether the
// candidate failed, a refused reduction, or the start of one with its budget. An enum and no method or closure for each, since a
// history lists what happened.
#[derive(Clone, Copy, Debug, PartialEq, Eq)]
pub enum Notice {
    Simplified(bool),
    Complicated(bool),
    Looked,
    Judged(bool),
    Refused(ReduceFault),
    Started(u32),
}
