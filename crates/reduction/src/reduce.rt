ghost use Rattle.std.specs.Prelude.{◌≡◌, true, [], ◌∷◌, length, Ok};
ghost use Rattle.meaning.specs.Reductions.{reduction, done_after, reduces, refusal as refused_for};
ghost use Rattle.meaning.specs.Runs.{history};
ghost use Rattle.meaning.specs.Runs.Call.{reducing};
ghost use Rattle.reduction.specs.Trials.{roomy, heard};

use meaning::reduction::{End, Notice, ReduceFault, Reduced};
use meaning::traits::{ValueTree, Verdict, Witness};

// A witness that takes no note of anything.
#[derive(Clone, Copy, Debug, PartialEq, Eq)]
pub struct Silent;

impl<I> Witness<I> for Silent {
    ghost State = { Unit {0} };

    ghost state = { λ _. tt };

    ghost hears = { λ w _ _. w };

    fn hear<T: ValueTree<Item = I>>(&mut self, what: Notice, tree: &T) {}

    fn hear_report<T: ValueTree<Item = I>>(&mut self, report: Reduced, buffer: &[I], tree: &T) {}
}

// A reduction that is not refused: its own events, from the first verdict on, are told to the witness. What it takes is what
// `reduce_before` takes, borrow by borrow: a struct of these borrows would be no plainer, as beside `play` of a trial.
fn reduce_grown<T: ValueTree, V: Verdict<T::Item>, W: Witness<T::Item>>(
    tree: &mut T,
    verdict: &V,
    budget: u32,
    buffer: &mut [T::Item],
    witness: &mut W,
) -> Reduced
    ensures outcome { record { answer = Ok result; tree = T.ValueTree.state tree.new; buffer = buffer.new } ≡ done_after T.ValueTree.steps 0 (reduction T.ValueTree.steps (V.Verdict.judges verdict.now) budget true [] (T.ValueTree.state tree.old)) buffer.old }
    ensures told { W.Witness.state witness.new ≡ heard T.ValueTree.steps (roomy (length buffer.old) W.Witness.hears) (reduction T.ValueTree.steps (V.Verdict.judges verdict.now) budget true [] (T.ValueTree.state tree.old)).own (W.Witness.state witness.old) }
{
    let mut length = 0;
    for verdicts in 1..=budget {
        let failed = verdict.fails(tree);
        witness.hear(Notice::Judged(failed), tree);
        let moved = if failed {
            length = tree.copy_to(buffer);
            let moved = tree.simplify();
            witness.hear(Notice::Simplified(moved), tree);
            moved
        } else if verdicts == 1 {
            return Reduced {
                end: End::Passes,
                verdicts,
                length: 0,
            };
        } else {
            let moved = tree.complicate();
            witness.hear(Notice::Complicated(moved), tree);
            moved
        };
        if !moved {
            return Reduced {
                end: End::Ended,
                verdicts,
                length,
            };
        }
    }
    Reduced {
        end: End::Spent,
        verdicts: budget,
        length,
    }
}

// Why a reduction is refused, if it is.
fn refusal<T: ValueTree>(tree: &T, budget: u32, room: usize) -> Option<ReduceFault>
    ensures { result ≡ refused_for T.ValueTree.steps budget room (T.ValueTree.state tree.now) }
{
    if room < tree.longest() {
        Some(ReduceFault::TooShort)
    } else if budget == 0 {
        Some(ReduceFault::NoBudget)
    } else if !tree.is_grown() {
        Some(ReduceFault::Blank)
    } else {
        None
    }
}

// Reduces as `reduce` does, before a witness, which is told of the refusal, or of the start, each of the reduction's own events and
// its report.
pub fn reduce_before<T: ValueTree, V: Verdict<T::Item>, W: Witness<T::Item>>(
    tree: &mut T,
    verdict: &V,
    budget: u32,
    buffer: &mut [T::Item],
    witness: &mut W,
) -> Result<Reduced, ReduceFault>
    ensures outcome { record { answer = result; tree = T.ValueTree.state tree.new; buffer = buffer.new } ≡ reduces T.ValueTree.steps (V.Verdict.judges verdict.now) budget (T.ValueTree.state tree.old) buffer.old }
    ensures told { W.Witness.state witness.new ≡ heard T.ValueTree.steps (roomy (length buffer.old) W.Witness.hears) (history T.ValueTree.steps (reducing (V.Verdict.judges verdict.now) budget (length buffer.old) ∷ []) (T.ValueTree.state tree.old)) (W.Witness.state witness.old) }
{
    if let Some(fault) = refusal(tree, budget, buffer.len()) {
        witness.hear(Notice::Refused(fault), tree);
        return Err(fault);
    }
    witness.hear(Notice::Started(budget), tree);
    let reduced = reduce_grown(tree, verdict, budget, buffer, witness);
    witness.hear_report(reduced, buffer, tree);
    Ok(reduced)
}

// Reduces the tree's candidate: as long as it fails it is made simpler, and where it passes more complex again, until no step is
// left or the budget of verdicts is used. The last list that failed is then the first items of `buffer`.
pub fn reduce<T: ValueTree, V: Verdict<T::Item>>(
    tree: &mut T,
    verdict: &V,
    budget: u32,
    buffer: &mut [T::Item],
) -> Result<Reduced, ReduceFault>
    ensures { record { answer = result; tree = T.ValueTree.state tree.new; buffer = buffer.new } ≡ reduces T.ValueTree.steps (V.Verdict.judges verdict.now) budget (T.ValueTree.state tree.old) buffer.old }
{
    reduce_before(tree, verdict, budget, buffer, &mut Silent)
}
