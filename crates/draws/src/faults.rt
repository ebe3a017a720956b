ghost use Rattle.std.specs.Prelude.{◌≡◌, None};
ghost use Rattle.draws.specs.declared.faults.Cause.TheVariants.{Slots as slots, Draw as draw, Reject as reject};
ghost use Rattle.draws.specs.Faults.{draw_number, reject_number, grow_number, in_element};

use thiserror::Error;

// A draw found its source spent.
#[derive(Clone, Copy, Debug, PartialEq, Eq, Error)]
pub enum DrawFault {
    #[error("a draw found its source spent")]
    Spent,
}

impl DrawFault {
    // A method of each fault and no `From`: other faults have the same numbers. No trait: nothing is generic over faults.
    pub fn number(self) -> u32
        ensures { result ≡ draw_number self }
    {
        match self {
            DrawFault::Spent => 5,
        }
    }
}

// A candidate was rejected, and the runner had no rejection left.
#[derive(Clone, Copy, Debug, PartialEq, Eq, Error)]
pub enum RejectFault {
    #[error("a candidate was rejected, and no rejection was left")]
    NoneLeft,
}

impl RejectFault {
    // A method of each fault and no `From`: other faults have the same numbers. No trait: nothing is generic over faults.
    pub fn number(self) -> u32
        ensures { result ≡ reject_number self }
    {
        match self {
            RejectFault::NoneLeft => 6,
        }
    }
}

// Why a growth was refused: the place has too few slots, or the fault of the layer below, whole.
#[derive(Clone, Copy, Debug, PartialEq, Eq, Error)]
pub enum Cause {
    #[error("the place has too few slots")]
    Slots,
    #[error(transparent)]
    Draw(DrawFault),
    #[error(transparent)]
    Reject(RejectFault),
}

// A refused growth: why, and the number of the nearest element or option around that place, if any.
#[derive(Clone, Copy, Debug, PartialEq, Eq, Error)]
#[error("a growth is refused: {cause}")]
pub struct GrowFault {
    pub cause: Cause,
    pub element: Option<usize>,
}

impl GrowFault {
    pub fn too_few_slots() -> GrowFault
        ensures { result ≡ record { cause = slots; element = None } }
    {
        GrowFault {
            cause: Cause::Slots,
            element: None,
        }
    }

    // The same fault, met while element or option number `i` grew: the innermost number stays.
    pub fn in_element(self, i: usize) -> GrowFault
        ensures { result ≡ in_element i self }
    {
        GrowFault {
            cause: self.cause,
            element: self.element.or(Some(i)),
        }
    }

    // A method of each fault and no `From`: other faults have the same numbers. No trait: nothing is generic over faults.
    pub fn number(self) -> u32
        ensures { result ≡ grow_number self }
    {
        match self.cause {
            Cause::Slots => 2,
            Cause::Draw(fault) => fault.number(),
            Cause::Reject(fault) => fault.number(),
        }
    }
}

// By hand: the contracts of growth need to know which fault `?` makes, and a derived `From` has no `from_gives`. Not one impl for
// both: it would need a `From` for `Cause` of each, and be a third.
impl From<DrawFault> for GrowFault {
    ghost from_gives = { λ d r. r ≡ record { cause = draw d; element = None } };

    fn from(fault: DrawFault) -> GrowFault {
        GrowFault {
            cause: Cause::Draw(fault),
            element: None,
        }
    }
}

impl From<RejectFault> for GrowFault {
    ghost from_gives = { λ d r. r ≡ record { cause = reject d; element = None } };

    fn from(fault: RejectFault) -> GrowFault {
        GrowFault {
            cause: Cause::Reject(fault),
            element: None,
        }
    }
}
