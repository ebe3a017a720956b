// The page of a session: its lines, one behind another, in fixed memory.
ghost use Rattle.std.specs.Prelude.{◌≡◌, ℕ, List, []};
ghost use Rattle.lines.specs.Lines.{said as line_said};
ghost use Rattle.reducer.specs.Pages.{with_line, page_hears};

use lines::{Line, write_at};
use meaning::reduction::{Notice, Reduced};
use meaning::traits::{ValueTree, Witness};
use std::marker::Model;

// The most bytes that a session writes: 1,024 views of 64 items of one digit.
pub(crate) const LONGEST: usize = 133120;

// No ArrayVec: it lends no room behind its end, and a line is written there without a copy.
#[derive(Drop)]
pub(crate) struct Page {
    bytes: [u8; LONGEST],
    used: usize,
}

// Clauses see the bytes of its lines.
impl Model for Page {
    ghost use Rattle.std.specs.Prelude.{ℕ, ◌≤◌, List, take};
    ghost use Rattle.reducer.specs.Sessions.{longest_page};

    ghost Value = { List ℕ };

    ghost view = { λ p. take p.used p.bytes };

    ghost invariant = { λ p. p.used ≤ longest_page };
}

impl Page {
    pub(crate) fn new() -> Self
        ensures { result ≡ [] }
    {
        Page {
            bytes: [0; LONGEST],
            used: 0,
        }
    }

    // Writes a line behind the last one, where there is room for it.
    pub(crate) fn put(&mut self, line: Line<'_>)
        ensures { self.new ≡ with_line self.old (line_said line.entry) }
    {
        if let Ok(end) = write_at(line, &mut self.bytes, self.used) {
            self.used = end;
        }
    }

    pub(crate) fn as_slice(&self) -> &[u8]
        ensures { result.now ≡ self.now }
    {
        &self.bytes[..self.used]
    }
}

// A page writes a line of each step and each reading that it is told of. A view is read into an array, since a session allocates
// nothing.
impl Witness<u64> for Page {
    ghost State = { List ℕ };

    ghost state = { λ p. p };

    ghost hears = { page_hears };

    fn hear<T: ValueTree<Item = u64>>(&mut self, what: Notice, tree: &T) {
        match what {
            Notice::Simplified(moved) => self.put(Line::Simplified(moved)),
            Notice::Complicated(moved) => self.put(Line::Complicated(moved)),
            Notice::Looked => {
                let mut items = [0u64; 64];
                let n = tree.copy_to(&mut items);
                self.put(Line::View(&items[..n]));
            }
            Notice::Judged(_) | Notice::Refused(_) | Notice::Started(_) => {}
        }
    }

    fn hear_report<T: ValueTree<Item = u64>>(
        &mut self,
        report: Reduced,
        buffer: &[u64],
        tree: &T,
    ) {}
}
