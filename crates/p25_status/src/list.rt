//! A list of bounded length over any type with a default.

ghost use Rattle.std.specs.Prelude.{◌≡◌, ◌+◌, ◌<◌, ◌≤◌, ◌↔◌, IsTrue, List, [], ◌∷◌, ◌++◌, length, slice_get, replicate, Some};

use arrayvec::ArrayVec;
use std::marker::Model;

/// A list of at most `MOST` items. Contracts see it as the list.
#[derive(Clone, Debug, Default, Drop, PartialEq, Eq)]
pub struct BoundedList<T: Default, const MOST: usize> {
    items: ArrayVec<T, MOST>,
}

impl<T: Default, const MOST: usize> Model for BoundedList<T, MOST> {
    ghost Value = { List T };

    ghost view = { λ s. s.items.items };

    ghost inverse = { λ list. record { items = record { items = list } } };
}

impl<T: Copy + Default, const MOST: usize> BoundedList<T, MOST> {
    /// Returns an empty list.
    pub fn new() -> BoundedList<T, MOST>
        ensures { result ≡ [] }
    {
        BoundedList {
            items: ArrayVec::new(),
        }
    }

    /// Returns the list of one item.
    pub fn one(item: T) -> BoundedList<T, MOST>
        requires { 0 < MOST }
        ensures { result ≡ item ∷ [] }
    {
        let mut list = BoundedList::new();
        list.push(item);
        list
    }

    /// Returns a list of `count` copies of one item.
    pub fn filled(item: T, count: usize) -> BoundedList<T, MOST>
        requires { count ≤ MOST }
        ensures list { result ≡ replicate count item }
        ensures len { length result ≡ count }
    {
        let mut list = BoundedList::new();
        for _added in 0..count {
            list.push(item);
        }
        list
    }

    /// Returns the number of items held.
    pub fn len(&self) -> usize
        ensures value { result ≡ length self.now }
        ensures most { result ≤ MOST }
    {
        self.items.len()
    }

    /// Returns whether the list holds no item.
    pub fn is_empty(&self) -> bool
        ensures { IsTrue result ↔ (self.now ≡ []) }
    {
        self.len() == 0
    }

    /// Returns a copy of item `i`.
    pub fn get(&self, i: usize) -> T
        requires { i < length self.now }
        ensures { slice_get self.now i ≡ Some result }
    {
        self.items.as_slice()[i]
    }

    /// Returns all items, in order.
    pub fn as_slice(&self) -> &[T]
        ensures value { result.now ≡ self.now }
        ensures most { length self.now ≤ MOST }
    {
        self.items.as_slice()
    }

    /// Appends an item.
    pub fn push(&mut self, item: T)
        requires { length self.old < MOST }
        ensures list { self.new ≡ self.old ++ item ∷ [] }
        ensures len { length self.new ≡ length self.old + 1 }
    {
        self.items.push(item);
    }

    /// Empties the list.
    pub fn clear(&mut self)
        ensures { self.new ≡ [] }
    {
        self.items.clear();
    }
}

impl<const MOST: usize> BoundedList<u8, MOST> {
    /// Returns all octets, in order, as `as_slice` does.
    pub fn octets(&self) -> &[u8]
        ensures value { result.now ≡ self.now }
        ensures most { length self.now ≤ MOST }
    {
        self.items.as_slice()
    }

    /// Appends octets, in order.
    pub fn extend(&mut self, more: &[u8])
        requires { length self.old + length more.now ≤ MOST }
        ensures list { self.new ≡ self.old ++ more.now }
        ensures len { length self.new ≡ length self.old + length more.now }
    {
        self.items.try_extend_from_slice(more).unwrap();
    }
}
