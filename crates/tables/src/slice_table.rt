ghost use Rattle.std.specs.Prelude.{◌≡◌, false, List, map, MatchOption, slice_get, slice_set};
ghost use Rattle.std.specs.Fn.{FnOnceReturnsAtMut};
ghost use Rattle.meaning.specs.Piles.TablePile.{slice};
ghost use Rattle.meaning.specs.Tables.{slice_table, slice_growth, slice_short, slice_stated};

use draws::faults::GrowFault;
use draws::source::Source;
use draws::test_runner::TestRunner;
use meaning::traits::{Strategy, Table, TableStrategy, ValueTree};
use std::marker::PhantomData;

// The table of trees in a slice that the caller supplies. A tree is copied out of its slot, stepped, and stored
// back. Being `Copy`, it holds no slice of its own: a vector over a slice cannot lie in a table.
#[derive(Drop)]
pub struct SliceTable<'a, T> {
    slots: &'a mut [T],
}

impl<'a, T> SliceTable<'a, T> {
    pub fn new(slots: &'a mut [T]) -> SliceTable<'a, T>
        ensures { result.slots.now ≡ slots.old }
    {
        SliceTable { slots }
    }
}

// Steps the tree in slot `i`: it is copied out, stepped, and stored back, the form in which the project wants its tables, with one
// store of a whole tree. Past the end nothing is stepped.
fn step_at<T: Copy, F: FnOnce(&mut T) -> bool>(slots: &mut [T], i: usize, step: F) -> bool
    requires { F.IsAlwaysCallable step }
    ensures { MatchOption (slice_get slots.old i) ((result ≡ false) × (slots.new ≡ slots.old)) (λ x. (y : T) × FnOnceReturnsAtMut F.FnOnce step x result y × (slots.new ≡ slice_set slots.old i y)) }
{
    let Some(mut tree) = slots.get(i).copied() else {
        return false;
    };
    let moved = step(&mut tree);
    slots[i] = tree;
    moved
}

impl<'a, T: ValueTree + Copy> Table for SliceTable<'a, T> {
    type Item = T::Item;

    type Grower = SliceStrategy<'a, T::Grower>;

    ghost State = { List T.ValueTree.State };

    ghost state = { λ t. map T.ValueTree.state t.slots.now };

    ghost rows = { slice_table T.ValueTree.steps };

    ghost short = { slice_short (λ p. p.element) T.ValueTree.short };

    ghost grows = { slice_growth (λ p. p.element) T.ValueTree.grows };

    ghost stated = { slice_stated (λ p. p.element) T.ValueTree.stated };

    ghost pile = { slice T.ValueTree.steps T.ValueTree.short T.ValueTree.grows T.ValueTree.stated _ (λ p. p.element) T.ValueTree.pile };

    fn len_at(&self, i: usize) -> usize {
        self.slots.get(i).map_or(0, T::len)
    }

    fn item_at(&self, i: usize, k: usize) -> Option<T::Item> {
        self.slots.get(i)?.item(k)
    }

    fn copy_at(&self, i: usize, buf: &mut [T::Item]) -> usize {
        // By `match`: of a buffer that a closure in `map_or` wrote, a proof would know nothing.
        match self.slots.get(i) {
            Some(tree) => tree.copy_to(buf),
            None => 0,
        }
    }

    fn simplify_at(&mut self, i: usize) -> bool {
        step_at(self.slots, i, T::simplify)
    }

    fn complicate_at(&mut self, i: usize) -> bool {
        step_at(self.slots, i, T::complicate)
    }
}

// Grows every tree of a slice by one strategy.
#[derive(Drop)]
pub struct SliceStrategy<'a, S> {
    element: S,
    slots: PhantomData<&'a u8>,
}

impl<'a, S> SliceStrategy<'a, S> {
    pub fn new(element: S) -> SliceStrategy<'a, S>
        ensures { result.element ≡ element }
    {
        SliceStrategy {
            element,
            slots: PhantomData,
        }
    }
}

impl<'a, S: Strategy> TableStrategy for SliceStrategy<'a, S>
where
    S::Tree: Copy + 'a,
{
    type Trees = SliceTable<'a, S::Tree>;

    fn longest(&self, n: usize) -> usize {
        n.saturating_mul(self.element.longest())
    }

    fn lacks_slots(&self, n: usize, table: &SliceTable<'a, S::Tree>) -> bool {
        let Some(slots) = table.slots.get(..n) else {
            return true;
        };
        slots.iter().any(|slot| self.element.lacks_slots(slot))
    }

    fn grow_at<D: Source>(
        &self,
        i: usize,
        runner: &mut TestRunner<D>,
        table: &mut SliceTable<'a, S::Tree>,
    ) -> Result<(), GrowFault> {
        // By index: of a slot that `get_mut` lent, a proof would not know what the slice ends as.
        if i >= table.slots.len() {
            return Err(GrowFault::too_few_slots());
        }
        self.element.new_tree(runner, &mut table.slots[i])
    }
}
