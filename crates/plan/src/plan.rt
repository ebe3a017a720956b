// A plan, read from its text.
ghost use Rattle.std.specs.Prelude.{◌≡◌, ◌≤◌, Some, None, MatchResult, length};
ghost use Rattle.plan.specs.Faithful.{Faithful};
ghost use Rattle.plan.specs.Lent.{line_seen};
ghost use Rattle.plan.specs.Plans.{plan_number, plan_of, first_line, after_line};
ghost use Rattle.plan.specs.declared.line.PlanLine.{PlanLine as Seen};

use crate::line::{PlanLine, read_line};
use crate::parts::cut;
use crate::step::Step;
use crate::values::{self, MOST_DRAWS, MOST_STEPS};
use arrayvec::ArrayVec;
use std::marker::Model;
use thiserror::Error;

// The sizes to draw from, the words of the draws, and the steps to take.
#[derive(Drop)]
pub struct Plan {
    low: usize,
    high: usize,
    draws: ArrayVec<u64, MOST_DRAWS>,
    steps: ArrayVec<Step, MOST_STEPS>,
}

impl Model for Plan {
    ghost use Rattle.plan.specs.Plans.{PlanText};

    ghost Value = { PlanText };

    ghost view = { λ p. record { low = p.low; high = p.high; draws = p.draws.items; steps = p.steps.items } };
}

impl Plan {
    // The low size, from 0 to 64.
    pub fn low(&self) -> usize
        ensures { result ≡ self.now.low }
    {
        self.low
    }

    // The high size, from 0 to 64; the low one may lie above it.
    pub fn high(&self) -> usize
        ensures { result ≡ self.now.high }
    {
        self.high
    }

    // The draws in their order, at most 256.
    pub fn draws(&self) -> &[u64]
        ensures values { result.now ≡ self.now.draws }
        ensures few { length result.now ≤ 256 }
    {
        &self.draws
    }

    // The steps in their order, at most 1,024.
    pub fn steps(&self) -> &[Step]
        ensures values { result.now ≡ self.now.steps }
        ensures few { length result.now ≤ 1024 }
    {
        &self.steps
    }
}

// The refusal of a plan: its first wrong line, from 1; text after the fourth line is line 5.
#[derive(Clone, Copy, Debug, PartialEq, Eq, Error)]
#[error("line {line} of the plan is wrong")]
pub struct PlanFault {
    line: u8,
}

impl Model for PlanFault {
    ghost use Rattle.std.specs.Prelude.{ℕ, ◌≤◌};

    ghost Value = { ℕ };

    ghost view = { λ f. f.line };

    ghost invariant = { λ f. (1 ≤ f.line) × (f.line ≤ 5) };

    ghost inverse = { λ line. record { line = line } };
}

impl PlanFault {
    // The refusal of a text that is not read at all, since it is longer than any plan may be.
    pub fn too_long() -> PlanFault
        ensures { result ≡ 1 }
    {
        PlanFault { line: 1 }
    }

    // The number of the line, from 1 to 5.
    pub fn line(self) -> u8
        ensures value { result ≡ self }
        ensures first { 1 ≤ result }
        ensures last { result ≤ 5 }
    {
        self.line
    }

    // The number of the refusal, the same for every line. No `From`: the number loses the line.
    pub fn number(self) -> u32
        ensures { result ≡ plan_number }
    {
        10
    }
}

// The line of this number, at the front of the text: what `reads` makes of it, and the text after it.
// A line that no line feed closes is wrong.
fn part<'a, T, F: FnOnce(PlanLine<'a>) -> Option<T>>(
    number: u8,
    text: &'a [u8],
    reads: F,
) -> Result<(T, &'a [u8]), PlanFault>
    requires first { 1 ≤ number }
    requires last { number ≤ 5 }
    requires callable { F.IsAlwaysCallable reads }
    ensures { (line : Seen) × (line_seen line ≡ first_line text.now)
        × MatchResult result (λ p. F.post reads line (Some p.0) × (p.1.now ≡ after_line text.now))
        (λ k. F.post reads line None × (k ≡ number)) }
{
    let (line, rest) = match cut(text, b'\n') {
        Some((line, rest)) => (read_line(line), rest),
        None => (PlanLine::Wrong, b"".as_slice()),
    };
    let value = reads(line).ok_or(PlanFault { line: number })?;
    Ok((value, rest))
}

// Reads a plan: four lines in this order, each closed by a line feed, and nothing after them.
//
//     low=N          a number from 0 to 64
//     high=N         the same
//     draws=N N ..   up to 256 numbers of 64 bits, one space between neighbours
//     steps=LETTERS  up to 1,024 letters, each v, s or c
//
// A number is written in decimal digits, with no leading zero.
pub fn read_plan(text: &[u8]) -> Result<Plan, PlanFault>
    ensures read { result ≡ plan_of text.now }
    ensures faithful { Faithful text.now result }
{
    let (low, text) = part(1, text, |line| match line {
        PlanLine::Low { value, .. } => values::size(value),
        _ => None,
    })?;
    let (high, text) = part(2, text, |line| match line {
        PlanLine::High { value, .. } => values::size(value),
        _ => None,
    })?;
    let (value, text) = part(3, text, |line| match line {
        PlanLine::Draws { value, .. } => Some(value),
        _ => None,
    })?;
    let mut draws = ArrayVec::new();
    let Some(()) = values::draws(value, &mut draws) else {
        return Err(PlanFault { line: 3 });
    };
    let (value, text) = part(4, text, |line| match line {
        PlanLine::Steps { value, .. } => Some(value),
        _ => None,
    })?;
    let mut steps = ArrayVec::new();
    let Some(()) = values::steps(value, &mut steps) else {
        return Err(PlanFault { line: 4 });
    };
    if !text.is_empty() {
        return Err(PlanFault { line: 5 });
    }
    Ok(Plan {
        low,
        high,
        draws,
        steps,
    })
}
