ghost use Rattle.std.specs.Prelude.{◌≡◌, ◌≤◌, min, true, false, length, drop, set as put, slice_index_or};
ghost use Rattle.std.specs.Iterator.{YieldsFirst, item_count};
ghost use Rattle.meaning.specs.Vectors.{members, all_of};
ghost use Rattle.vectors.specs.Numbers.{numbers};

use arrayvec::ArrayVec;
use std::marker::Model;

// The most elements that a vector has.
pub const MOST_ELEMENTS: usize = 256;

// Which of the elements of a vector, of which it has up to 256, are members: for each element, in their order, whether it is one.
#[derive(Drop)]
pub struct Included {
    bits: ArrayVec<bool, MOST_ELEMENTS>,
}

impl Model for Included {
    ghost use Rattle.std.specs.Prelude.{Bool, List};

    ghost Value = { List Bool };

    ghost view = { λ included. included.bits.items };
}

impl Included {
    // The first `len` elements, up to 256, all of them members.
    pub fn saturated(len: usize) -> Included
        ensures { result ≡ all_of (min len 256) }
    {
        let mut bits = ArrayVec::from([true; MOST_ELEMENTS]);
        bits.truncate(len);
        Included { bits }
    }

    // How many elements there are, members or not.
    pub fn len(&self) -> usize
        ensures value { result ≡ length self.now }
        ensures bound { result ≤ 256 }
    {
        self.bits.len()
    }

    pub fn test(&self, i: usize) -> bool
        ensures { result ≡ slice_index_or self.now i false }
    {
        self.bits.get(i) == Some(&true)
    }

    // `clear` and `set` are two calls and not one with a truth, as in the bit sets of proptest.
    pub fn clear(&mut self, i: usize)
        ensures { self.new ≡ put self.old i false }
    {
        if let Some(bit) = self.bits.get_mut(i) {
            *bit = false;
        }
    }

    pub fn set(&mut self, i: usize)
        ensures { self.new ≡ put self.old i true }
    {
        if let Some(bit) = self.bits.get_mut(i) {
            *bit = true;
        }
    }

    // How many are members. A loop over the truths, in which many are added at once, as they are not along `filter` and `count`.
    pub fn count(&self) -> usize
        ensures { result ≡ members self.now }
    {
        let mut count = 0;
        for bit in self.bits.as_slice() {
            count += usize::from(*bit);
        }
        count
    }

    // The numbers of the members from number `next` on.
    pub fn iter_from(&self, next: usize) -> Members<'_>
        ensures { result ≡ numbers next (drop next self.now) }
    {
        Members {
            included: self,
            next,
        }
    }
}

// The numbers of members, in order, seen as the list of those that are left.
#[derive(Drop)]
pub struct Members<'a> {
    included: &'a Included,
    next: usize,
}

impl<'a> Model for Members<'a> {
    ghost use Rattle.std.specs.Prelude.{ℕ, List, drop};
    ghost use Rattle.vectors.specs.Numbers.{numbers};

    ghost Value = { List ℕ };

    ghost view = { λ left. numbers left.next (drop left.next left.included.now) };
}

impl<'a> Iterator for Members<'a> {
    type Item = usize;

    ghost next_gives = { YieldsFirst (λ left. left) };

    ghost remaining = { item_count (λ left. left) };

    // By the part that is left, and not along a range, where each number would be compared with the length once more.
    fn next(&mut self) -> Option<usize> {
        let included = self.included;
        let left = included.bits.as_slice().get(self.next..)?;
        let number = self.next + left.iter().position(|&bit| bit)?;
        self.next = number + 1;
        Some(number)
    }
}
