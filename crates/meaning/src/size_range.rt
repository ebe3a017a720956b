ghost use Rattle.std.specs.Prelude.{◌≡◌, ◌<◌, ◌≤◌, MatchResult};
ghost use Rattle.meaning.specs.Sizes.{size_number};

use thiserror::Error;

// A size was to go from a lowest above its highest.
#[derive(Clone, Copy, Debug, PartialEq, Eq, Error)]
pub enum SizeFault {
    #[error("the lowest size is above the highest")]
    Reversed,
}

impl SizeFault {
    // A method of each fault and no `From`: other faults have the same numbers. No trait: nothing is generic over faults.
    pub fn number(self) -> u32
        ensures { result ≡ size_number self }
    {
        match self {
            SizeFault::Reversed => 1,
        }
    }
}

// How many elements: from `low` to `high`, both included.
#[derive(Clone, Copy, Debug, PartialEq, Eq)]
pub struct SizeRange {
    low: usize,
    high: usize,
    ghost ordered: { low ≤ high },
}

impl SizeRange {
    pub fn new(low: usize, high: usize) -> Result<SizeRange, SizeFault>
        ensures { MatchResult result (λ s. (low ≤ high) × (s.low ≡ low) × (s.high ≡ high)) (λ _. high < low) }
    {
        if high < low {
            return Err(SizeFault::Reversed);
        }
        Ok(SizeRange { low, high })
    }

    pub fn low(&self) -> usize
        ensures value { result ≡ self.now.low }
        ensures ordered { result ≤ self.now.high }
    {
        self.low
    }

    pub fn high(&self) -> usize
        ensures { result ≡ self.now.high }
    {
        self.high
    }
}
