ghost use Rattle.std.specs.Prelude.{◌≡◌, ◌*◌, ◌≤◌, true, false, Ok, Err, MatchResult};
ghost use Rattle.meaning.specs.Places.{Place};
ghost use Rattle.meaning.specs.Vectors.{VecTree, vec_blank, vec_steps, vec_making, vec_short, vec_stated, vec_growth};
ghost use Rattle.meaning.specs.Piles.Pile.{vec as vec_pile};
ghost use Rattle.vectors.specs.Members.{vec_state};

use crate::included::{Included, MOST_ELEMENTS};
use draws::faults::GrowFault;
use draws::source::Source;
use draws::test_runner::TestRunner;
use meaning::collection::Shrink;
use meaning::size_range::SizeRange;
use meaning::traits::{Strategy, StrategyFault, Table, TableStrategy, ValueTree};
use tables::slice_table::SliceStrategy;

// The most items that a strategy made here may state.
const MOST_ITEMS: usize = 4096;

// A vector: the elements of a table, of which the included ones are members. Its candidate joins theirs.
#[derive(Drop)]
pub struct VecValueTree<B> {
    elements: B,
    included_elements: Included,
    min_size: usize,
    shrink: Shrink,
    prev_shrink: Option<Shrink>,
    longest: usize,
    // A flag and not an `Option` round the rest: a blank place keeps what it held, as `blank` promises.
    grown: bool,
}

impl<B: Table> VecValueTree<B> {
    // A blank place for a vector over a table.
    pub fn place(elements: B) -> VecValueTree<B>
        ensures { vec_state B.Table.state result ≡ vec_blank (B.Table.state elements) }
    {
        VecValueTree {
            elements,
            included_elements: Included::saturated(0),
            min_size: 0,
            shrink: Shrink::DeleteElement(0),
            prev_shrink: None,
            longest: 0,
            grown: false,
        }
    }
}

impl<B: Table> ValueTree for VecValueTree<B> {
    type Item = B::Item;

    type Grower = VecStrategy<B::Grower>;

    ghost State = { Place (VecTree B.Table.State) };

    ghost state = { vec_state B.Table.state };

    ghost steps = { vec_steps B.Table.rows };

    ghost short = { λ p v. vec_short (B.Table.short p.elements) (B.Table.stated p.elements) p.size.high v };

    ghost grows = { vec_growth (λ p. p.elements) (λ p. p.size.low) (λ p. p.size.high) B.Table.stated B.Table.short B.Table.grows };

    ghost stated = { λ p. vec_stated (B.Table.stated p.elements) p.size.high };

    ghost pile = { vec_pile B.Table.rows B.Table.short B.Table.grows B.Table.stated _ (λ p. p.elements) (λ p. p.size.low) (λ p. p.size.high) (λ p. (p.size.ordered, p.few)) B.Table.pile };

    fn is_grown(&self) -> bool {
        self.grown
    }

    fn longest(&self) -> usize {
        if self.grown { self.longest } else { 0 }
    }

    fn len(&self) -> usize {
        if !self.grown {
            return 0;
        }
        let mut len: usize = 0;
        for ix in self.included_elements.iter_from(0) {
            len = len.saturating_add(self.elements.len_at(ix));
        }
        len
    }

    fn item(&self, i: usize) -> Option<B::Item> {
        if !self.grown {
            return None;
        }
        let mut rest = i;
        for ix in self.included_elements.iter_from(0) {
            if let Some(item) = self.elements.item_at(ix, rest) {
                return Some(item);
            }
            rest -= self.elements.len_at(ix);
        }
        None
    }

    fn copy_to(&self, buf: &mut [B::Item]) -> usize {
        if !self.grown {
            return 0;
        }
        let mut copied: usize = 0;
        for member in self.included_elements.iter_from(0) {
            copied += self.elements.copy_at(member, &mut buf[copied..]);
        }
        copied
    }

    fn blank(&mut self) {
        self.grown = false;
    }

    fn simplify(&mut self) -> bool {
        if !self.grown {
            return false;
        }
        let from = match self.shrink {
            Shrink::DeleteElement(ix)
                if ix < self.included_elements.len()
                    && self.included_elements.count() != self.min_size => {
                self.included_elements.clear(ix);
                self.prev_shrink = Some(self.shrink);
                self.shrink = Shrink::DeleteElement(ix + 1);
                return true;
            }
            Shrink::DeleteElement(_) => 0,
            Shrink::ShrinkElement(ix) => ix,
        };
        for ix in self.included_elements.iter_from(from) {
            if self.elements.simplify_at(ix) {
                self.shrink = Shrink::ShrinkElement(ix);
                self.prev_shrink = Some(self.shrink);
                return true;
            }
        }
        self.shrink = Shrink::ShrinkElement(from.max(self.included_elements.len()));
        false
    }

    fn complicate(&mut self) -> bool {
        if !self.grown {
            return false;
        }
        match self.prev_shrink.take() {
            None => false,
            Some(Shrink::DeleteElement(ix)) => {
                self.included_elements.set(ix);
                true
            }
            Some(Shrink::ShrinkElement(ix)) => {
                let moved = self.elements.complicate_at(ix);
                if moved {
                    self.prev_shrink = Some(Shrink::ShrinkElement(ix));
                }
                moved
            }
        }
    }
}

// Grows vectors whose elements are a table's, of a size within a range of up to 256.
#[derive(Drop)]
pub struct VecStrategy<G> {
    elements: G,
    size: SizeRange,
    ghost few: { size.high ≤ 256 },
}

impl<G: TableStrategy + Drop> VecStrategy<G> {
    pub fn new(elements: G, size: SizeRange) -> Result<VecStrategy<G>, StrategyFault>
        ensures { MatchResult result (λ s. (vec_making size.high (G.Trees.Table.stated elements size.high) ≡ Ok tt) × (s.elements ≡ elements) × (s.size ≡ size)) (λ fault. vec_making size.high (G.Trees.Table.stated elements size.high) ≡ Err fault) }
    {
        let high = size.high();
        if high > MOST_ELEMENTS {
            return Err(StrategyFault::TooLarge);
        }
        if elements.longest(high) > MOST_ITEMS {
            return Err(StrategyFault::TooLong);
        }
        Ok(VecStrategy { elements, size })
    }
}

// Vectors over a slice: a strategy for all its trees, and how many of them there are to be.
pub fn vec<'a, S: Strategy + Drop>(
    element: S,
    size: SizeRange,
) -> Result<VecStrategy<SliceStrategy<'a, S>>, StrategyFault>
where
    S::Tree: Copy + 'a,
    ensures { MatchResult result (λ s. (vec_making size.high (size.high * S.Tree.ValueTree.stated element) ≡ Ok tt) × (s.elements.element ≡ element) × (s.size ≡ size)) (λ fault. vec_making size.high (size.high * S.Tree.ValueTree.stated element) ≡ Err fault) }
{
    VecStrategy::new(SliceStrategy::new(element), size)
}

impl<G: TableStrategy> Strategy for VecStrategy<G> {
    type Tree = VecValueTree<G::Trees>;

    fn longest(&self) -> usize {
        self.elements.longest(self.size.high()).min(MOST_ITEMS)
    }

    fn lacks_slots(&self, place: &VecValueTree<G::Trees>) -> bool {
        let high = self.size.high();
        self.elements.lacks_slots(high, &place.elements) || self.elements.longest(high) > MOST_ITEMS
    }

    fn new_tree<D: Source>(
        &self,
        runner: &mut TestRunner<D>,
        place: &mut VecValueTree<G::Trees>,
    ) -> Result<(), GrowFault> {
        if self.lacks_slots(place) {
            return Err(GrowFault::too_few_slots());
        }
        place.blank();
        let low = self.size.low();
        let size = runner.draw(low as u64, self.size.high() as u64)? as usize;
        // by number, as a table grows its trees, and as a fault names them
        for i in 0..size {
            self.elements
                .grow_at(i, runner, &mut place.elements)
                .map_err(|fault| fault.in_element(i))?;
        }
        place.included_elements = Included::saturated(size);
        place.min_size = low;
        place.shrink = Shrink::DeleteElement(0);
        place.prev_shrink = None;
        place.longest = self.longest();
        place.grown = true;
        Ok(())
    }
}
