// What a session says in answer to one step of a plan, and writing it as a line into a caller's buffer.
//
// A line is ASCII and ends with a line feed. A view is `v` and then each item in decimal after one space; a simplify or a
// complicate is `s` or `c`, a space, and `1` for true or `0` for false; a refusal is `refused`, a space and its number, and,
// where it names a line of the plan, a space and the number of that line.

#![tactic(auto)]

ghost use Rattle.std.specs.Prelude.{◌≡◌, ◌+◌, ◌-◌, ◌^◌, min, length};
ghost use Rattle.lines.specs.Lines.{said, line_bytes, line_number, ending};
ghost use Rattle.buffers.specs.Over.{laid, laid_from};

#[cfg(test)]
mod tests;
mod words;

use thiserror::Error;
use words::Words;

// An enum can have no model yet: the contracts read what it says by `said`.
#[derive(Clone, Copy, Debug, PartialEq, Eq)]
pub enum Line<'a> {
    // The items of a candidate.
    View(&'a [u64]),
    // The answer of a simplify, and that of a complicate.
    Simplified(bool),
    Complicated(bool),
    // The number of a refusal, as it is printed, alone or with the line of the plan that it names: two forms of line.
    Refused(u32),
    RefusedAt(u32, u32),
}

impl Line<'_> {
    // What `form` answers to the words of the line. It is lent, since a caller's proof then knows what it left behind.
    fn with_words<R, F: FnMut(&Words<'_>) -> R>(self, form: &mut F) -> R
        requires { F.IsAlwaysCallable form.old }
        ensures { (words : _) × F.step form.old words result form.new × (words.now ≡ line_bytes (said self.entry)) }
    {
        match self {
            Line::View(items) => form(&Words::new(b"v", items)),
            Line::Simplified(moved) => form(&Words::new(b"s", &[u64::from(moved)])),
            Line::Complicated(moved) => form(&Words::new(b"c", &[u64::from(moved)])),
            Line::Refused(n) => form(&Words::new(b"refused", &[u64::from(n)])),
            Line::RefusedAt(n, at) => {
                form(&Words::new(b"refused", &[u64::from(n), u64::from(at)]))
            }
        }
    }
}

// Why a line is not written.
#[derive(Clone, Copy, Debug, PartialEq, Eq, Error)]
pub enum LineFault {
    #[error("the buffer is shorter than the line")]
    TooShort,
}

impl LineFault {
    // A method of each fault and no `From`: other faults have the same numbers. No trait: nothing is generic over faults.
    pub fn number(self) -> u32
        ensures { result ≡ line_number self }
    {
        match self {
            LineFault::TooShort => 7,
        }
    }
}

// How many bytes the line takes, its line feed counted, or `usize::MAX` where that is more: no buffer is so long.
pub fn line_len(line: Line<'_>) -> usize
    ensures { result ≡ min (length (line_bytes (said line.entry))) (2 ^ 64 - 1) }
{
    line.with_words(&mut |words| words.len())
}

// Writes the line to the start of `out`, and answers how many bytes it takes. The bytes behind it stay as they were, and so
// does a whole buffer that is too short.
pub fn write_line(line: Line<'_>, out: &mut [u8]) -> Result<usize, LineFault>
    ensures answer { result ≡ ending (length (line_bytes (said line.entry))) out.old }
    ensures buffer { out.new ≡ laid (line_bytes (said line.entry)) out.old }
{
    line.with_words(&mut |words| words.write(out))
}

// Writes the line into `out` from `at` on, and answers the place behind it, where the next line goes. The other bytes stay as
// they were, and so does a whole buffer that is too short. The place is the caller's, who keeps it beside the buffer in a type of
// its own, as the page of a session does; here it is one argument of one write.
pub fn write_at(line: Line<'_>, out: &mut [u8], at: usize) -> Result<usize, LineFault>
    ensures answer { result ≡ ending (at + length (line_bytes (said line.entry))) out.old }
    ensures buffer { out.new ≡ laid_from at (line_bytes (said line.entry)) out.old }
{
    if at > out.len() {
        return Err(LineFault::TooShort);
    }
    let len = write_line(line, &mut out[at..])?;
    Ok(at + len)
}
