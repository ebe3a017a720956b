ghost use Rattle.std.specs.Prelude.{◌≡◌, false, None};
ghost use Rattle.meaning.specs.Places.{Place};
ghost use Rattle.meaning.specs.Piles.Pile.{leaf};
ghost use Rattle.meaning.specs.Stairs.{StairTree, stair_steps, stair_growth};
ghost use Rattle.meaning.specs.StairLaws.{stair_total, stair_keeps, stair_roots};

use draws::faults::GrowFault;
use draws::source::Source;
use draws::test_runner::TestRunner;
use meaning::traits::{Strategy, ValueTree};

// A stair shows one number. It goes down one at a time, to its floor, and back up to where it last was.
#[derive(Clone, Copy, Debug, Default, PartialEq, Eq)]
pub struct Stair {
    // Beside the tree and not an `Option` of it, since the contract of `blank` pins that the place keeps the rest.
    grown: bool,
    value: u64,
    floor: u64,
    note: Option<u64>,
}

impl Stair {
    // A blank place for a stair.
    pub fn place() -> Stair
        ensures { result ≡ record { grown = false; value = 0; floor = 0; note = None } }
    {
        Stair::default()
    }
}

impl ValueTree for Stair {
    type Item = u64;

    type Grower = Stairs;

    ghost State = { Place StairTree };

    ghost state = { λ s. record { grown = s.grown; tree = record { value = s.value; floor = s.floor; note = s.note } } };

    ghost steps = { stair_steps };

    ghost short = { λ p s. false };

    ghost grows = { stair_growth (λ p. p.limit) };

    ghost stated = { λ p. 1 };

    ghost pile = { leaf stair_steps (λ p s. false) (stair_growth (λ p. p.limit)) (λ p. 1) (λ s. Unit {0}) stair_total stair_keeps (stair_roots (λ p. p.limit)) };

    fn is_grown(&self) -> bool {
        self.grown
    }

    fn longest(&self) -> usize {
        self.len()
    }

    fn len(&self) -> usize {
        usize::from(self.grown)
    }

    fn item(&self, i: usize) -> Option<u64> {
        (self.grown && i == 0).then_some(self.value)
    }

    fn copy_to(&self, buf: &mut [u64]) -> usize {
        if self.grown
            && let Some(first) = buf.first_mut()
        {
            *first = self.value;
            1
        } else {
            0
        }
    }

    fn blank(&mut self) {
        self.grown = false;
    }

    fn simplify(&mut self) -> bool {
        if self.grown && self.floor < self.value {
            self.note = Some(self.value);
            self.value -= 1;
            true
        } else {
            false
        }
    }

    fn complicate(&mut self) -> bool {
        if self.grown
            && let Some(value) = self.note.take()
        {
            self.value = value;
            self.floor = value;
            true
        } else {
            false
        }
    }
}

// Grows stairs by a draw from 0 to a limit.
#[derive(Clone, Copy, Debug, PartialEq, Eq)]
pub struct Stairs {
    limit: u64,
}

impl Stairs {
    // A stair shows one item.
    const LONGEST: usize = 1;

    pub fn new(limit: u64) -> Stairs
        ensures { result.limit ≡ limit }
    {
        Stairs { limit }
    }
}

impl Strategy for Stairs {
    type Tree = Stair;

    fn longest(&self) -> usize {
        Stairs::LONGEST
    }

    fn lacks_slots(&self, place: &Stair) -> bool {
        false
    }

    fn new_tree<D: Source>(
        &self,
        runner: &mut TestRunner<D>,
        place: &mut Stair,
    ) -> Result<(), GrowFault> {
        place.blank();
        let value = runner.draw(0, self.limit)?;
        *place = Stair {
            grown: true,
            value,
            ..Stair::place()
        };
        Ok(())
    }
}
