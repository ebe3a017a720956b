ghost use Rattle.std.specs.Prelude.{◌≡◌, ℕ, ◌≤◌, IfOk, nat_lt};
ghost use Rattle.draws.specs.Sources.{word};
ghost use Rattle.draws.specs.Draws.{drawn, answered};
ghost use Rattle.draws.specs.Runners.{run, advanced, cloned, parted, regenerated, rejection, rejected};

use crate::faults::{DrawFault, RejectFault};
use crate::source::Source;

// What a strategy grows from: a source of words, and three numbers up to 65,535: the cases that a
// flatten regrows, the regenerations left over, and the rejections left over.
//
// It has no model, since a model's value cannot be of a bound's type, as `D.State` is: clauses name `run`, which is given what the
// state of a source is.
#[derive(Drop)]
pub struct TestRunner<D> {
    source: D,
    cases: u16,
    regenerations: u16,
    rejections: u16,
}

impl<D: Source> TestRunner<D> {
    pub fn new(source: D, cases: u16, regenerations: u16, rejections: u16) -> TestRunner<D>
        ensures { run D.Source.state result ≡ record { source = D.Source.state source; cases = cases; regenerations = regenerations; rejections = rejections } }
    {
        TestRunner {
            source,
            cases,
            regenerations,
            rejections,
        }
    }

    // A draw from `low` to `high`, both included.
    pub fn draw(&mut self, low: u64, high: u64) -> Result<u64, DrawFault>
        ensures answer { result ≡ drawn low high (word D.Source.words (run D.Source.state self.old).source) }
        ensures left { run D.Source.state self.new ≡ advanced D.Source.words (run D.Source.state self.old) }
        ensures range { low ≤ high → IfOk result (λ v. (low ≤ v) × (v ≤ high)) }
    {
        let word = self.source.next_word().ok_or(DrawFault::Spent)?;
        match high.saturating_sub(low).checked_add(1) {
            Some(numbers) => Ok(low + word % numbers),
            None => Ok(word),
        }
    }

    // A yes or no: the lowest bit of one word.
    pub fn draw_bool(&mut self) -> Result<bool, DrawFault>
        ensures answer { result ≡ answered (word D.Source.words (run D.Source.state self.old).source) }
        ensures left { run D.Source.state self.new ≡ advanced D.Source.words (run D.Source.state self.old) }
    {
        let word = self.source.next_word().ok_or(DrawFault::Spent)?;
        Ok(word % 2 == 1)
    }

    // A runner of its own for a part that grows later: the source is split, the numbers are copied.
    pub fn partial_clone(&mut self) -> TestRunner<D>
        ensures child { run D.Source.state result ≡ cloned D.Source.words (run D.Source.state self.old) }
        ensures left { run D.Source.state self.new ≡ parted D.Source.words (run D.Source.state self.old) }
    {
        let source = self.source.split();
        TestRunner { source, ..*self }
    }

    // Whether a regeneration was left, of which one is then used.
    pub fn flat_map_regen(&mut self) -> bool
        ensures answer { result ≡ nat_lt 0 (run D.Source.state self.old).regenerations }
        ensures left { run D.Source.state self.new ≡ regenerated (run D.Source.state self.old) }
    {
        if self.regenerations > 0 {
            self.regenerations -= 1;
            true
        } else {
            false
        }
    }

    // Uses one rejection, and is refused where none is left.
    pub fn reject_local(&mut self) -> Result<(), RejectFault>
        ensures answer { result ≡ rejection (run D.Source.state self.old).rejections }
        ensures left { run D.Source.state self.new ≡ rejected (run D.Source.state self.old) }
    {
        self.rejections = self.rejections.checked_sub(1).ok_or(RejectFault::NoneLeft)?;
        Ok(())
    }
}
