ghost use Rattle.std.specs.Prelude.{◌≡◌, ◌≤◌, false, [], map, length, take, IfOk};
ghost use Rattle.buffers.specs.Over.{laid};
ghost use Rattle.lines.specs.Lines.{said as line_said, line_bytes, ending};
ghost use Rattle.reducer.specs.Pages.{ends};
ghost use Rattle.reducer.specs.Sessions.{session_number, refusal, session, answered, appended, session_bytes};
ghost use Rattle.reducer.specs.declared.session.SessionFault.TheVariants.{Plan as plan_fault, Size as size_fault, Strategy as strategy_fault, Growth as growth_fault};
ghost use Rattle.reducer.specs.States.{entry, vector_state};

use crate::page;
use crate::page::Page;
use draws::faults::GrowFault;
use draws::source::Tape;
use draws::test_runner::TestRunner;
use leaves::stair::{Stair, Stairs};
use lines::{Line, LineFault};
use meaning::size_range::{SizeFault, SizeRange};
use meaning::traits::{StrategyFault, ValueTree, Verdict};
use plan::{MOST_STEPS, Plan, PlanFault, Step, read_plan};
use reduction::trial::{Call, trial};
use tables::slice_table::SliceTable;
use thiserror::Error;
use vectors::collection::{VecValueTree, vec};

// No plan's text is longer.
pub const LONGEST_TEXT: usize = 8192;

// The most bytes that a session writes.
pub const LONGEST_PAGE: usize = page::LONGEST;

// Why a session is refused: the fault of the layer below, whole.
#[derive(Clone, Copy, Debug, PartialEq, Eq, Error)]
pub enum SessionFault {
    #[error(transparent)]
    Plan(PlanFault),
    #[error(transparent)]
    Size(SizeFault),
    #[error(transparent)]
    Strategy(StrategyFault),
    #[error(transparent)]
    Growth(GrowFault),
}

impl SessionFault {
    // A method of each fault and no `From`: other faults have the same numbers. No trait: nothing is generic over faults.
    pub fn number(self) -> u32
        ensures { result ≡ session_number self }
    {
        match self {
            Self::Plan(fault) => fault.number(),
            Self::Size(fault) => fault.number(),
            Self::Strategy(fault) => fault.number(),
            Self::Growth(fault) => fault.number(),
        }
    }

    // The line that a refused session prints.
    pub fn line(self) -> Line<'static>
        ensures says { line_said result ≡ refusal self }
        ensures short { length (line_bytes (line_said result)) ≤ 64 }
    {
        match self {
            Self::Plan(fault) => Line::RefusedAt(fault.number(), u32::from(fault.line())),
            Self::Size(_) | Self::Strategy(_) | Self::Growth(_) => Line::Refused(self.number()),
        }
    }
}

// By hand: `begun` names the fault that a `?` makes, and a derived `From` says nothing of it.
impl From<PlanFault> for SessionFault {
    ghost from_gives = { λ f r. r ≡ plan_fault f };

    fn from(fault: PlanFault) -> SessionFault {
        SessionFault::Plan(fault)
    }
}

impl From<SizeFault> for SessionFault {
    ghost from_gives = { λ f r. r ≡ size_fault f };

    fn from(fault: SizeFault) -> SessionFault {
        SessionFault::Size(fault)
    }
}

impl From<StrategyFault> for SessionFault {
    ghost from_gives = { λ f r. r ≡ strategy_fault f };

    fn from(fault: StrategyFault) -> SessionFault {
        SessionFault::Strategy(fault)
    }
}

impl From<GrowFault> for SessionFault {
    ghost from_gives = { λ f r. r ≡ growth_fault f };

    fn from(fault: GrowFault) -> SessionFault {
        SessionFault::Growth(fault)
    }
}

// The verdict of a script that asks for no reduction, as that of a plan: with none to keep, the calls of a script take the least
// room.
#[derive(Clone, Copy)]
struct Unasked;

impl Verdict<u64> for Unasked {
    ghost judges = { λ v xs. false };

    fn fails<T: ValueTree<Item = u64>>(&self, tree: &T) -> bool {
        false
    }
}

// The call that a step asks for. A function and no `From`, since both types are of other crates; a match and no closures, since
// steps are the letters of a plan.
fn call(step: Step) -> Call<Unasked>
    ensures { result ≡ entry step }
{
    match step {
        Step::View => Call::Look,
        Step::Simplify => Call::Simplify,
        Step::Complicate => Call::Complicate,
    }
}

// The script of some steps, a call each, laid into an array that is lent: a session allocates nothing, and an `ArrayVec` of so many
// calls would be copied on the stack on its way out of here.
fn script<'a>(steps: &[Step], calls: &'a mut [Call<Unasked>; MOST_STEPS]) -> &'a [Call<Unasked>]
    requires { length steps.now ≤ 1024 }
    ensures { result.now ≡ map entry steps.now }
{
    for (i, step) in steps.iter().enumerate() {
        calls[i] = call(*step);
    }
    &calls[..steps.len()]
}

// The trial of a plan: it grows the vector, from low to high stairs with the limit 9, from a tape over the draws, and makes the
// steps; the page is the witness and writes their lines.
fn play<'a>(
    plan: &Plan,
    place: &mut VecValueTree<SliceTable<'a, Stair>>,
    page: &mut Page,
) -> Result<(), SessionFault>
    ensures { record { answer = result; page = page.new } ≡ ends plan.now (vector_state place.old) page.old }
{
    let size = SizeRange::new(plan.low(), plan.high())?;
    let strategy = vec(Stairs::new(9), size)?;
    let mut runner = TestRunner::new(Tape::new(plan.draws()), 0, 0, 0);
    let mut calls = [Call::Look; MOST_STEPS];
    let script = script(plan.steps(), &mut calls);
    trial(&strategy, &mut runner, place, script, &mut [], page)?;
    Ok(())
}

// Runs the plan's session and writes the lines of its steps; refused, it writes nothing. The slots are an array, since a session
// allocates nothing.
fn run(text: &[u8], page: &mut Page) -> Result<(), SessionFault>
    requires { page.old ≡ [] }
    ensures answer { result ≡ answered (session text.now) }
    ensures page { page.new ≡ appended (session text.now) page.old }
{
    if text.len() > LONGEST_TEXT {
        return Err(PlanFault::too_long().into());
    }
    let plan = read_plan(text)?;
    let mut slots = [Stair::place(); 64];
    let mut tree = VecValueTree::place(SliceTable::new(&mut slots));
    play(&plan, &mut tree, page)
}

// Writes what the session says, refused or not.
fn write_page(text: &[u8], page: &mut Page)
    requires { page.old ≡ [] }
    ensures { page.new ≡ session_bytes text.now }
{
    if let Err(fault) = run(text, page) {
        page.put(fault.line());
    }
}

// Runs the session of a plan's text and writes its lines to the start of `out`; answers how many bytes they have. Refused, and
// `out` unchanged, where `out` is shorter than that.
pub fn run_plan(text: &[u8], out: &mut [u8]) -> Result<usize, LineFault>
    ensures answer { result ≡ ending (length (session_bytes text.now)) out.old }
    ensures buffer { out.new ≡ laid (session_bytes text.now) out.old }
    ensures within { IfOk result (λ n. n ≤ length out.old) }
{
    let mut page = Page::new();
    write_page(text, &mut page);
    let lines = page.as_slice();
    // Tested by hand: after a `get_mut` by range the check does not know what `out` holds.
    if out.len() < lines.len() {
        return Err(LineFault::TooShort);
    }
    out[..lines.len()].copy_from_slice(lines);
    Ok(lines.len())
}
