ghost use Rattle.std.specs.Prelude.{◌≡◌};
ghost use Rattle.reduction.specs.Verdicts.{numbered, holds, more_than};

use meaning::traits::{ValueTree, Verdict};

// Fails where a given number is among the items.
#[derive(Clone, Copy, Debug, PartialEq, Eq)]
pub struct Holds {
    number: u64,
}

impl Holds {
    pub fn new(number: u64) -> Holds
        ensures { result.number ≡ number }
    {
        Holds { number }
    }
}

impl Verdict<u64> for Holds {
    ghost judges = { λ v xs. holds v.number (numbered xs) };

    fn fails<T: ValueTree<Item = u64>>(&self, tree: &T) -> bool {
        (0..tree.len()).any(|i| tree.item(i) == Some(self.number))
    }
}

// Fails where there are more than so many items.
#[derive(Clone, Copy, Debug, PartialEq, Eq)]
pub struct MoreThan {
    most: usize,
}

impl MoreThan {
    pub fn new(most: usize) -> MoreThan
        ensures { result.most ≡ most }
    {
        MoreThan { most }
    }
}

impl<I> Verdict<I> for MoreThan {
    ghost judges = { λ v xs. more_than v.most xs };

    fn fails<T: ValueTree<Item = I>>(&self, tree: &T) -> bool {
        self.most < tree.len()
    }
}
