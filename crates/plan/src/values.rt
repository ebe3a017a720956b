// The values of a plan's lines.
ghost use Rattle.std.specs.Prelude.{◌≡◌, []};
ghost use Rattle.std.specs.Option.{option_map};
ghost use Rattle.plan.specs.Values.{size_of, draws_of, steps_of};

use crate::number::number;
use crate::step::Step;
use arrayvec::ArrayVec;

pub const LARGEST_SIZE: u64 = 64;

pub const MOST_DRAWS: usize = 256;

// No plan has more steps.
pub const MOST_STEPS: usize = 1024;

// A size: one number.
pub fn size(value: &[u8]) -> Option<usize>
    ensures { result ≡ size_of value.now }
{
    Some(number(value, LARGEST_SIZE)? as usize)
}

// The draws: none in the empty value, else the numbers between its spaces. They go into an empty vector that is lent, since an
// `Option` of one would be written and copied whole at each move.
pub(crate) fn draws(value: &[u8], draws: &mut ArrayVec<u64, MOST_DRAWS>) -> Option<()>
    requires { draws.old.items ≡ [] }
    ensures { option_map (λ _. draws.new.items) result ≡ draws_of value.now }
{
    if value.is_empty() {
        return Some(());
    }
    for word in value.split(|byte| *byte == b' ') {
        draws.try_push(number(word, u64::MAX)?).ok()?;
    }
    Some(())
}

// The steps, a letter each, lent as the draws are. The loop is that of `draws` with another reading: one function of an iterator for
// both would be longer than the two.
pub(crate) fn steps(value: &[u8], steps: &mut ArrayVec<Step, MOST_STEPS>) -> Option<()>
    requires { steps.old.items ≡ [] }
    ensures { option_map (λ _. steps.new.items) result ≡ steps_of value.now }
{
    for letter in value {
        steps.try_push(Step::try_from(*letter).ok()?).ok()?;
    }
    Some(())
}
