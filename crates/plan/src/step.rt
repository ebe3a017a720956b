// The steps of a plan, a letter each.
ghost use Rattle.std.specs.Prelude.{◌≡◌};
ghost use Rattle.std.specs.Option.{ok_or};
ghost use Rattle.plan.specs.Values.{step_of};

use thiserror::Error;

// One step: show the value, or try to make it simpler or less simple. The default fills the unused places of an `ArrayVec`.
#[derive(Clone, Copy, Debug, Default, PartialEq, Eq)]
pub enum Step {
    #[default]
    View,
    Simplify,
    Complicate,
}

// A letter that no step has.
#[derive(Clone, Copy, Debug, PartialEq, Eq, Error)]
#[error("no step has the letter {0}")]
pub struct UnknownLetter(pub u8);

impl TryFrom<u8> for Step {
    type Error = UnknownLetter;

    ghost try_from_gives = { λ letter r. r ≡ ok_or (step_of letter) (record { 0 = letter }) };

    // The step of the letter v, s or c.
    fn try_from(letter: u8) -> Result<Step, UnknownLetter> {
        match letter {
            b'v' => Ok(Step::View),
            b's' => Ok(Step::Simplify),
            b'c' => Ok(Step::Complicate),
            _ => Err(UnknownLetter(letter)),
        }
    }
}
