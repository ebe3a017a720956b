// One line of a plan: its kind, by the key before the first '=', and its value.
ghost use Rattle.std.specs.Prelude.{◌≡◌};
ghost use Rattle.plan.specs.Lines.{line_of};
ghost use Rattle.plan.specs.Lent.{line_seen};

use crate::parts::cut;

// A line by its key, which is low, high, draws or steps; any other line is wrong. Whether the value reads is not asked here. `Wrong`
// is a case and no `Option` round the others: `read_line` answers every text, and a public call that cannot fail stays so.
#[derive(Clone, Copy, Debug, PartialEq, Eq)]
pub enum PlanLine<'a> {
    Low { key: &'a [u8], value: &'a [u8] },
    High { key: &'a [u8], value: &'a [u8] },
    Draws { key: &'a [u8], value: &'a [u8] },
    Steps { key: &'a [u8], value: &'a [u8] },
    Wrong,
}

// Reads one line, without its line feed: the key before the first '=', and the value after it.
pub fn read_line<'a>(line: &'a [u8]) -> PlanLine<'a>
    ensures { line_seen result ≡ line_of line.now }
{
    let Some((key, value)) = cut(line, b'=') else {
        return PlanLine::Wrong;
    };
    match key {
        b"low" => PlanLine::Low { key, value },
        b"high" => PlanLine::High { key, value },
        b"draws" => PlanLine::Draws { key, value },
        b"steps" => PlanLine::Steps { key, value },
        _ => PlanLine::Wrong,
    }
}
