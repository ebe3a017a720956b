// The form of every line: a word, each of some numbers in decimal after one space, and a line feed.
//
// The whole is measured first, so that a buffer that is too short stays as it was.
ghost use Rattle.std.specs.Prelude.{◌≡◌, ℕ, ◌+◌, ◌-◌, ◌^◌, ◌<◌, ◌≤◌, List, min, length, decimal};
ghost use Rattle.lines.specs.Lines.{written, ending};
ghost use Rattle.buffers.specs.Over.{over, laid};

use super::LineFault;
use itoa::write_digits;
use std::marker::Model;

// A word, and the numbers behind it; to a contract, the bytes of their line.
#[derive(Drop)]
pub(super) struct Words<'a> {
    word: &'a [u8],
    numbers: &'a [u64],
}

impl<'a> Model for Words<'a> {
    ghost Value = { List ℕ };

    ghost view = { λ w. written w.word.now w.numbers.now };
}

impl<'a> Words<'a> {
    pub(super) fn new(word: &'a [u8], numbers: &'a [u64]) -> Words<'a>
        ensures { result ≡ written word.now numbers.now }
    {
        Words { word, numbers }
    }

    // How many bytes the line takes, or `usize::MAX` where that is more.
    pub(super) fn len(&self) -> usize
        ensures { result ≡ min (length self.now) (2 ^ 64 - 1) }
    {
        self.numbers.iter().fold(self.word.len() + 1, |len, n| {
            len.saturating_add(1 + digits(*n))
        })
    }

    // Writes the line to the start of `out`, and answers how many bytes it takes.
    pub(super) fn write(&self, out: &mut [u8]) -> Result<usize, LineFault>
        ensures answer { result ≡ ending (length self.now) out.old }
        ensures buffer { out.new ≡ laid self.now out.old }
    {
        let len = self.len();
        if len > out.len() {
            return Err(LineFault::TooShort);
        }
        self.lay(out);
        Ok(len)
    }

    // Lays the line down at the start of `out`.
    fn lay(&self, out: &mut [u8])
        requires { length self.now ≤ length out.old }
        ensures { out.new ≡ over self.now out.old }
    {
        let mut at = put(self.word, out);
        for n in self.numbers {
            at += put(b" ", &mut out[at..]);
            at += put_number(*n, &mut out[at..]);
        }
        put(b"\n", &mut out[at..]);
    }
}

// Puts the bytes at the start of `out`, and answers how many they are.
fn put(bytes: &[u8], out: &mut [u8]) -> usize
    requires { length bytes.now ≤ length out.old }
    ensures len { result ≡ length bytes.now }
    ensures buffer { out.new ≡ over bytes.now out.old }
{
    out[..bytes.len()].copy_from_slice(bytes);
    bytes.len()
}

// Puts `n` in decimal at the start of `out`, each digit where it stays, and answers how many digits there are.
fn put_number(n: u64, out: &mut [u8]) -> usize
    requires { length (decimal n) ≤ length out.old }
    ensures len { result ≡ length (decimal n) }
    ensures buffer { out.new ≡ over (decimal n) out.old }
{
    if n < 10 {
        put(&[b'0' + n as u8], out)
    } else {
        put_long(n, out)
    }
}

// How many digits `n` has in decimal. One or two, as in the lines of most steps, are told here; longer numbers have functions of
// their own, so that what is left is small enough to be inlined where a line is written.
fn digits(n: u64) -> usize
    ensures count { result ≡ length (decimal n) }
    ensures bounds { (1 ≤ result) × (result ≤ 20) }
{
    if n < 10 {
        1
    } else if n < 100 {
        2
    } else {
        long_digits(n)
    }
}

#[inline(never)]
fn long_digits(n: u64) -> usize
    ensures count { result ≡ length (decimal n) }
    ensures bounds { (1 ≤ result) × (result ≤ 20) }
{
    let mut left = n;
    let mut count = 0;
    while left >= 10_000 {
        left /= 10_000;
        count += 4;
    }
    count + short_digits(left)
}

fn short_digits(n: u64) -> usize
    requires { n < 10000 }
    ensures count { result ≡ length (decimal n) }
    ensures bounds { (1 ≤ result) × (result ≤ 4) }
{
    if n < 10 {
        1
    } else if n < 100 {
        2
    } else if n < 1_000 {
        3
    } else {
        4
    }
}

#[inline(never)]
fn put_long(n: u64, out: &mut [u8]) -> usize
    requires { length (decimal n) ≤ length out.old }
    ensures len { result ≡ length (decimal n) }
    ensures buffer { out.new ≡ over (decimal n) out.old }
{
    let len = digits(n);
    write_digits(n, out, len);
    len
}
