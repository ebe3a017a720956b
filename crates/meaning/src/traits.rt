ghost use Rattle.std.specs.Prelude.{◌≡◌, ℕ, ◌≤◌, min, Bool, List, length, Option as option};
ghost use Rattle.buffers.specs.Over.{over};
ghost use Rattle.draws.specs.Runners.{run};
ghost use Rattle.meaning.specs.Trees.{Steps};
ghost use Rattle.meaning.specs.Growths.{Growth};
ghost use Rattle.meaning.specs.Tables.{TableGrowth};
ghost use Rattle.meaning.specs.Piles.{Pile, TablePile, Promise};
ghost use Rattle.meaning.specs.Faults.{strategy_number};
ghost use Rattle.meaning.specs.Reductions.{Happening, noticed, reported};
ghost use Rattle.meaning.specs.Readings.{counted, item_at, reading, read_into, read_number};

use crate::reduction::{Notice, Reduced};
use draws::faults::GrowFault;
use draws::source::Source;
use draws::test_runner::TestRunner;
use thiserror::Error;

// A candidate is longer than the buffer into which it was to be read.
#[derive(Clone, Copy, Debug, PartialEq, Eq, Error)]
pub enum ReadFault {
    #[error("the buffer is shorter than the candidate")]
    TooShort,
}

impl ReadFault {
    // A method of each fault and no `From`: other faults have the same numbers. No trait: nothing is generic over faults.
    pub fn number(self) -> u32
        ensures { result ≡ read_number self }
    {
        match self {
            ReadFault::TooShort => 7,
        }
    }
}

// Why a strategy cannot be made.
#[derive(Clone, Copy, Debug, PartialEq, Eq, Error)]
pub enum StrategyFault {
    #[error("a highest size is above what there is room for")]
    TooLarge,
    #[error("the stated longest would pass 4,096 items")]
    TooLong,
}

impl StrategyFault {
    // A method of each fault and no `From`: other faults have the same numbers. No trait: nothing is generic over faults.
    pub fn number(self) -> u32
        ensures { result ≡ strategy_number self }
    {
        match self {
            StrategyFault::TooLarge => 2,
            StrategyFault::TooLong => 4,
        }
    }
}

// A tree that shows a candidate, a list of items, and can make it simpler and more complex again. Its
// value is also the place into which its strategy grows it: blank at first and after a refused growth.
//
// What it means is said by ghost members: `steps` over the model's states, and what growing by its
// strategy means (`short`, where the place has too few slots; `grows`; `stated`, the longest).
//
// The list that a tree shows is `steps.candidate (state tree)` in every clause: a ghost member of its own would need a law that
// each tree proves, to say no more.
pub trait ValueTree {
    type Item: Drop;

    // The strategy that grows such trees.
    type Grower;

    ghost State: { Type 0 };

    ghost state: { Self → State };

    ghost steps: { Steps State Self.Item };

    ghost short: { Self.Grower → State → Bool };

    ghost grows: { Growth Self.Grower State };

    ghost stated: { Self.Grower → ℕ };

    // Which pile it is: a leaf with the laws that it keeps, or a combinator over piles.
    ghost pile: { Pile State Self.Item Self.Grower steps short grows stated };

    fn is_grown(&self) -> bool
        ensures { result ≡ steps.grown (state self.now) };

    // The stated longest: no candidate of this tree has more items. A blank place states 0.
    fn longest(&self) -> usize
        ensures { result ≡ steps.longest (state self.now) };

    // How many items the candidate has.
    fn len(&self) -> usize
        ensures { result ≡ counted (length (steps.candidate (state self.now))) };

    // Item number `i` of the candidate, from 0, or none past its end.
    fn item(&self, i: usize) -> Option<Self::Item>
        ensures { result ≡ item_at (steps.candidate (state self.now)) i };

    // Copies the candidate into `buf`, as far as that goes, and says how many items it copied.
    fn copy_to(&self, buf: &mut [Self::Item]) -> usize
        ensures count { result ≡ min (length (steps.candidate (state self.now))) (length buf.old) }
        ensures buffer { buf.new ≡ over (steps.candidate (state self.now)) buf.old };

    // Reads the whole candidate into `buf` and says how many items it has; refused where `buf` is shorter.
    fn current(&self, buf: &mut [Self::Item]) -> Result<usize, ReadFault>
        ensures answer { result ≡ reading (steps.candidate (state self.now)) (length buf.old) }
        ensures buffer { buf.new ≡ read_into (steps.candidate (state self.now)) buf.old }
    {
        let n = self.len();
        if buf.len() < n {
            return Err(ReadFault::TooShort);
        }
        self.copy_to(buf);
        Ok(n)
    }

    // Makes the place blank.
    fn blank(&mut self)
        ensures { state self.new ≡ steps.blank (state self.old) };

    fn simplify(&mut self) -> bool
        ensures { record { answer = result; tree = state self.new } ≡ steps.simplify (state self.old) };

    fn complicate(&mut self) -> bool
        ensures { record { answer = result; tree = state self.new } ≡ steps.complicate (state self.old) };
}

// A strategy grows trees of one kind from the words that a runner draws.
pub trait Strategy: Sized {
    type Tree: ValueTree<Grower = Self>;

    // The longest that its trees state.
    fn longest(&self) -> usize
        ensures { result ≡ Self.Tree.ValueTree.stated self.now };

    // Whether `place` has too few slots for this strategy, so that growing into it is refused before any draw.
    fn lacks_slots(&self, place: &Self::Tree) -> bool
        ensures { result ≡ Self.Tree.ValueTree.short self.now (Self.Tree.ValueTree.state place.now) };

    // Grows a tree into `place`. Refused for too few slots, the place stays as it was; else it is then blank. Runner and place
    // are no struct: one runner grows many places, and a place is stepped without a runner.
    fn new_tree<D: Source>(
        &self,
        runner: &mut TestRunner<D>,
        place: &mut Self::Tree,
    ) -> Result<(), GrowFault>
        ensures { record { answer = result; runner = run D.Source.state runner.new; place = Self.Tree.ValueTree.state place.new } ≡ Self.Tree.ValueTree.grows self.now D.Source.State D.Source.words (run D.Source.state runner.old) (Self.Tree.ValueTree.state place.old) };
}

// A verdict on a list of items: whether it fails. Like a rule, a map and a chooser, it is a fixed function of the list, which is
// read from the tree that shows it and not copied out.
pub trait Verdict<I> {
    ghost judges: { Self → List I → Bool };

    fn fails<T: ValueTree<Item = I>>(&self, tree: &T) -> bool
        ensures { result ≡ judges self.now (T.ValueTree.steps.candidate (T.ValueTree.state tree.now)) };
}

// A witness of what happens to a tree. It is told each event in turn, and may read the tree as it is then; what it makes of it is
// a fixed function of the event and the candidate.
pub trait Witness<I> {
    ghost State: { Type 0 };

    ghost state: { Self → State };

    ghost hears: { State → Happening I → List I → State };

    fn hear<T: ValueTree<Item = I>>(&mut self, what: Notice, tree: &T)
        ensures { state self.new ≡ hears (state self.old) (noticed what) (T.ValueTree.steps.candidate (T.ValueTree.state tree.now)) };

    // The report of a reduction: the list that it gave is the first items of `buffer`, as many as the report says. They are two
    // arguments, since a report is the caller's to keep when the buffer is lent no more.
    fn hear_report<T: ValueTree<Item = I>>(&mut self, report: Reduced, buffer: &[I], tree: &T)
        ensures { state self.new ≡ hears (state self.old) (reported report buffer.now) (T.ValueTree.steps.candidate (T.ValueTree.state tree.now)) };
}

// A rule on lists of items: whether it accepts one. A trait beside `Verdict`, since true means the opposite: a verdict that says
// true fails its list.
pub trait Rule<I> {
    ghost allows: { Self → List I → Bool };

    fn accepts<T: ValueTree<Item = I>>(&self, tree: &T) -> bool
        ensures { result ≡ allows self.now (T.ValueTree.steps.candidate (T.ValueTree.state tree.now)) };
}

// A map from lists of items to one item of a type of its own, or to none.
pub trait Map<I> {
    type Output: Drop;

    ghost maps: { Self → List I → option Self.Output };

    fn apply<T: ValueTree<Item = I>>(&self, tree: &T) -> Option<Self::Output>
        ensures { result ≡ maps self.now (T.ValueTree.steps.candidate (T.ValueTree.state tree.now)) };
}

// A chooser gives a strategy for a list of items, and states a longest that all its strategies keep.
pub trait Chooser<I, S: Strategy> {
    ghost chooses: { Self → List I → S };

    ghost most: { Self → ℕ };

    fn longest(&self) -> usize
        ensures { result ≡ most self.now };

    fn choose<T: ValueTree<Item = I>>(&self, tree: &T) -> S
        ensures chosen { result ≡ chooses self.now (T.ValueTree.steps.candidate (T.ValueTree.state tree.now)) }
        ensures kept { S.Tree.ValueTree.stated result ≤ most self.now };
}

// Grows a tree into `place`, as `new_tree` does, with the promise over whole runs: where growth is accepted, every list of steps,
// readings and reductions from then on has one way back, shows what each layer is to show, and reports its reductions truly.
pub fn grow<S: Strategy, D: Source>(
    strategy: &S,
    runner: &mut TestRunner<D>,
    place: &mut S::Tree,
) -> Result<(), GrowFault>
    ensures outcome { record { answer = result; runner = run D.Source.state runner.new; place = S.Tree.ValueTree.state place.new } ≡ S.Tree.ValueTree.grows strategy.now D.Source.State D.Source.words (run D.Source.state runner.old) (S.Tree.ValueTree.state place.old) }
    ensures promise { Promise S.Tree.ValueTree.pile strategy.now D.Source.State D.Source.words (run D.Source.state runner.old) (S.Tree.ValueTree.state place.old) }
{
    strategy.new_tree(runner, place)
}

// A numbered list of trees that show items of one type. What it means is said by `rows`: tree number i as
// steps of the whole table, of which a call on number i is that tree's own call and changes no other.
pub trait Table {
    type Item: Drop;

    // The strategy that grows such tables, tree by tree.
    type Grower;

    ghost State: { Type 0 };

    ghost state: { Self → State };

    ghost rows: { ℕ → Steps State Self.Item };

    ghost short: { Self.Grower → ℕ → State → Bool };

    ghost grows: { TableGrowth Self.Grower State };

    ghost stated: { Self.Grower → ℕ → ℕ };

    // Which table of piles it is.
    ghost pile: { TablePile State Self.Item Self.Grower rows short grows stated };

    // How many items tree number `i` shows.
    fn len_at(&self, i: usize) -> usize
        ensures { result ≡ counted (length ((rows i).candidate (state self.now))) };

    // Item number `k` of tree number `i`.
    fn item_at(&self, i: usize, k: usize) -> Option<Self::Item>
        ensures { result ≡ item_at ((rows i).candidate (state self.now)) k };

    // Copies the candidate of tree number `i` into `buf`, as far as that goes.
    fn copy_at(&self, i: usize, buf: &mut [Self::Item]) -> usize
        ensures count { result ≡ min (length ((rows i).candidate (state self.now))) (length buf.old) }
        ensures buffer { buf.new ≡ over ((rows i).candidate (state self.now)) buf.old };

    fn simplify_at(&mut self, i: usize) -> bool
        ensures { record { answer = result; tree = state self.new } ≡ (rows i).simplify (state self.old) };

    fn complicate_at(&mut self, i: usize) -> bool
        ensures { record { answer = result; tree = state self.new } ≡ (rows i).complicate (state self.old) };
}

// A strategy for the trees of a table.
pub trait TableStrategy: Sized {
    type Trees: Table<Grower = Self>;

    // The longest that its first `n` trees state together.
    fn longest(&self, n: usize) -> usize
        ensures { result ≡ counted (Self.Trees.Table.stated self.now n) };

    // Whether the table has too few slots for its first `n` trees.
    fn lacks_slots(&self, n: usize, table: &Self::Trees) -> bool
        ensures { result ≡ Self.Trees.Table.short self.now n (Self.Trees.Table.state table.now) };

    // Grows tree number `i` in its place in the table.
    fn grow_at<D: Source>(
        &self,
        i: usize,
        runner: &mut TestRunner<D>,
        table: &mut Self::Trees,
    ) -> Result<(), GrowFault>
        ensures { record { answer = result; runner = run D.Source.state runner.new; place = Self.Trees.Table.state table.new } ≡ Self.Trees.Table.grows self.now D.Source.State D.Source.words i (run D.Source.state runner.old) (Self.Trees.Table.state table.old) };
}
