ghost use Rattle.std.specs.Prelude.{◌≡◌, [], ◌∷◌, map, length};
ghost use Rattle.draws.specs.Runners.{run};
ghost use Rattle.meaning.specs.Piles.{Promise};
ghost use Rattle.reduction.specs.Trials.{called, played, tried};

use crate::reduce::reduce_before;
use draws::faults::GrowFault;
use draws::source::Source;
use draws::test_runner::TestRunner;
use meaning::reduction::Notice;
use meaning::traits::{Strategy, ValueTree, Verdict, Witness};

// A call that a script asks for: a step, a reading, or a reduction by a verdict with a budget.
// It is data, and no table of closures, since the history of a trial is read from it. The default fills unused places of a script.
#[derive(Clone, Copy, Debug, Default, PartialEq, Eq)]
pub enum Call<V> {
    Simplify,
    Complicate,
    #[default]
    Look,
    Reduce(V, u32),
}

// Makes one call.
// The three borrows stay parameters: each method of a struct of them would have to promise besides that they stay the same ones.
fn play<T: ValueTree, V: Verdict<T::Item>, W: Witness<T::Item>>(
    tree: &mut T,
    call: &Call<V>,
    buffer: &mut [T::Item],
    witness: &mut W,
)
    ensures { record { tree = T.ValueTree.state tree.new; buffer = buffer.new; witness = W.Witness.state witness.new } ≡ played T.ValueTree.steps V.Verdict.judges W.Witness.hears (call.now ∷ []) (record { tree = T.ValueTree.state tree.old; buffer = buffer.old; witness = W.Witness.state witness.old }) }
{
    match call {
        Call::Simplify => {
            let moved = tree.simplify();
            witness.hear(Notice::Simplified(moved), tree);
        }
        Call::Complicate => {
            let moved = tree.complicate();
            witness.hear(Notice::Complicated(moved), tree);
        }
        Call::Look => witness.hear(Notice::Looked, tree),
        Call::Reduce(verdict, budget) => {
            let _ = reduce_before(tree, verdict, *budget, buffer, witness);
        }
    }
}

// Makes the calls of a script, one after another.
fn play_all<T: ValueTree, V: Verdict<T::Item>, W: Witness<T::Item>>(
    tree: &mut T,
    script: &[Call<V>],
    buffer: &mut [T::Item],
    witness: &mut W,
)
    ensures { record { tree = T.ValueTree.state tree.new; buffer = buffer.new; witness = W.Witness.state witness.new } ≡ played T.ValueTree.steps V.Verdict.judges W.Witness.hears script.now (record { tree = T.ValueTree.state tree.old; buffer = buffer.old; witness = W.Witness.state witness.old }) }
{
    for call in script {
        play(tree, call, buffer, witness);
    }
}

// Grows a tree into `place`, makes each call of the script, and tells a witness what came of each. Where growth is refused,
// nothing is called. The promise over whole runs: where growth is accepted, every list of steps, readings and reductions from then
// on has one way back, shows what each layer is to show, and reports its reductions truly. What the trial did and told is the
// history of its own script, which is such a run.
pub fn trial<
    S: Strategy,
    D: Source,
    V: Verdict<<S::Tree as ValueTree>::Item>,
    W: Witness<<S::Tree as ValueTree>::Item>,
>(
    strategy: &S,
    runner: &mut TestRunner<D>,
    place: &mut S::Tree,
    script: &[Call<V>],
    buffer: &mut [<S::Tree as ValueTree>::Item],
    witness: &mut W,
) -> Result<(), GrowFault>
    ensures promise { Promise S.Tree.ValueTree.pile strategy.now D.Source.State D.Source.words (run D.Source.state runner.old) (S.Tree.ValueTree.state place.old) }
    ensures did { record { answer = result; runner = run D.Source.state runner.new; left = record { tree = S.Tree.ValueTree.state place.new; buffer = buffer.new; witness = W.Witness.state witness.new } } ≡ tried S.Tree.ValueTree.steps W.Witness.hears (map (called V.Verdict.judges (length buffer.old)) script.now) (S.Tree.ValueTree.grows strategy.now D.Source.State D.Source.words (run D.Source.state runner.old) (S.Tree.ValueTree.state place.old)) buffer.old (W.Witness.state witness.old) }
{
    strategy.new_tree(runner, place)?;
    play_all(place, script, buffer, witness);
    Ok(())
}
