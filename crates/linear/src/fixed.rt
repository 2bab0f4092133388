// Lists of at most so many items, which lie in the value itself: the project's tables are of fixed size.
ghost use Rattle.std.specs.Prelude.{◌≡◌, ◌≤◌, ◌<◌, ◌++◌, ◌∷◌, ⊤, [], length, min, nat_lt, slice_get, slice_index_or, slice_set, take};
ghost use Rattle.linear.specs.Shown.{shown};

use crate::item::Item;
use std::alloc::AllocError;
use std::marker::Model;

// The places that hold no item are blank, so that the list says all of what lies in them: that lets it be copied. The
// count is short to keep tables small.
pub struct FixedList<T: Item, const MOST: usize> {
    places: [T; MOST],
    count: u16,
}

// A clause sees the list of the items.
impl<T: Item, const MOST: usize> Model for FixedList<T, MOST> {
    ghost use Rattle.std.specs.Prelude.{◌≡◌, ◌≤◌, List, length, take};
    ghost use Rattle.std.proofs.Common.{sym};
    ghost use Rattle.linear.specs.Places.{filled, item_count};

    ghost Value = { List T };

    ghost view = { λ l. take l.count l.places };

    ghost invariant = { λ l. (l.count ≤ MOST) × (l.places ≡ filled T.blank MOST (take l.count l.places)) };

    ghost inverse = { λ xs. record { places = filled T.blank MOST xs; count = length xs } };

    ghost inverse_ok = { λ l h i. record { places = sym h.1 i; count = item_count T.blank MOST l.count l.places h.0 h.1 i } };
}

impl<T: Item, const MOST: usize> Copy for FixedList<T, MOST> {}

impl<T: Item, const MOST: usize> Clone for FixedList<T, MOST> {
    ghost is_clone = { λ l copy. copy ≡ l };

    ghost is_infallible = { λ _. ⊤ };

    fn clone(&self) -> Result<Self, AllocError> {
        Ok(*self)
    }
}

impl<T: Item, const MOST: usize> Default for FixedList<T, MOST> {
    ghost is_default = { λ l. l ≡ [] };

    fn default() -> Self {
        FixedList {
            places: [T::blank(); MOST],
            count: 0,
        }
    }
}

impl<T: Item, const MOST: usize> FixedList<T, MOST> {
    // The first of the items, as many as there is room for; the others are left out. A loop that makes many lists fills an
    // array and hands it over: with a count this short each push waits for what the one before it stored.
    pub fn new(items: &[T]) -> Self
        ensures answer { result ≡ take (min MOST 65535) items.now }
    {
        let count = items.len().min(MOST).min(65535);
        let mut places = [T::blank(); MOST];
        places[..count].copy_from_slice(&items[..count]);
        FixedList {
            places,
            count: count as u16,
        }
    }

    // One item more, if there is room.
    pub fn push(&mut self, item: T) -> bool
        ensures answer { result ≡ nat_lt (length self.old) (min MOST 65535) }
        ensures room { length self.old < min MOST 65535 → self.new ≡ self.old ++ item ∷ [] }
        ensures full { min MOST 65535 ≤ length self.old → self.new ≡ self.old }
    {
        if self.count as usize >= MOST || self.count == u16::MAX {
            return false;
        }
        self.places[self.count as usize] = item;
        self.count += 1;
        true
    }

    // Another item in the place of the one at an index; one beyond the list is left out.
    pub fn set(&mut self, index: usize, item: T)
        ensures leaves { self.new ≡ slice_set self.old index item }
    {
        if index < self.count as usize {
            self.places[index] = item;
        }
    }

    // The items in their order.
    pub fn as_slice(&self) -> &[T]
        ensures answer { result.now ≡ self.now }
        ensures small { length result.now ≤ MOST }
    {
        &self.places[..self.count as usize]
    }

    // How many items there are.
    pub fn len(&self) -> usize
        ensures answer { result ≡ length self.now }
        ensures small { result ≤ MOST }
    {
        self.as_slice().len()
    }

    // The item at an index; none from their number up.
    pub fn get(&self, index: usize) -> Option<&T>
        ensures answer { shown result ≡ slice_get self.now index }
    {
        self.as_slice().get(index)
    }

    // The item at an index; beyond the list this other one.
    pub fn get_or(&self, index: usize, otherwise: T) -> T
        ensures answer { result ≡ slice_index_or self.now index otherwise }
    {
        let items = self.as_slice();
        items.get(index).copied().unwrap_or(otherwise)
    }
}
