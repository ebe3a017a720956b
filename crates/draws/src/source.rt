ghost use Rattle.std.specs.Prelude.{◌≡◌, ℕ, ◌<◌};
ghost use Rattle.draws.specs.Sources.{Words, word, after, TapeState, tape_words, xorshift, seeded, generator_words};

// A source of 64-bit words. What it means is a `Words` over its states: the word that it gives next, if
// it is not spent, what it is after that, and what a split gives and leaves. Spent, it stays as it is.
pub trait Source: Sized {
    ghost State: { Type 0 };

    ghost state: { Self → State };

    ghost words: { Words State };

    fn next_word(&mut self) -> Option<u64>
        ensures given { result ≡ word words (state self.old) }
        ensures left { state self.new ≡ after words (state self.old) };

    fn split(&mut self) -> Self
        ensures child { state result ≡ (words.split (state self.old)).child }
        ensures left { state self.new ≡ (words.split (state self.old)).rest };
}

// A tape reads the words of a slice in the caller's memory, in order, and is spent after the last.
#[derive(Clone, Copy, Debug, PartialEq, Eq)]
pub struct Tape<'a> {
    words: &'a [u64],
    place: usize,
}

impl<'a> Tape<'a> {
    pub fn new(words: &'a [u64]) -> Tape<'a>
        ensures words { result.words.now ≡ words.now }
        ensures place { result.place ≡ 0 }
    {
        Tape { words, place: 0 }
    }
}

impl<'a> Source for Tape<'a> {
    ghost State = { TapeState };

    ghost state = { λ t. record { words = t.words.now; place = t.place } };

    ghost words = { tape_words };

    fn next_word(&mut self) -> Option<u64> {
        let word = *self.words.get(self.place)?;
        self.place += 1;
        Some(word)
    }

    fn split(&mut self) -> Tape<'a> {
        *self
    }
}

// A generator of 64-bit words by three shifts and exclusive ors. Its state is never 0, so it never gives zeros alone.
#[derive(Clone, Copy, Debug, PartialEq, Eq)]
pub struct XorShift {
    x: u64,
    ghost live: { 0 < x },
}

impl XorShift {
    // The seed 0, from which only zeros would come, counts as 1.
    pub fn new(seed: u64) -> XorShift
        ensures { result.x ≡ seeded seed }
    {
        XorShift { x: seed.max(1) }
    }

    fn step(&mut self) -> u64
        ensures given { result ≡ xorshift self.old.x }
        ensures left { self.new.x ≡ xorshift self.old.x }
    {
        let mut x = self.x;
        x ^= x << 13;
        x ^= x >> 7;
        x ^= x << 17;
        self.x = x;
        x
    }
}

impl Source for XorShift {
    ghost State = { ℕ };

    ghost state = { λ g. g.x };

    ghost words = { generator_words };

    // It is never spent.
    fn next_word(&mut self) -> Option<u64> {
        Some(self.step())
    }

    fn split(&mut self) -> XorShift {
        XorShift::new(self.step())
    }
}
