//! The positions of the bit errors of a transmission.

ghost use Rattle.std.specs.Prelude.{◌≡◌, ℕ, ◌+◌, ◌<◌, ◌≤◌, ◌↔◌, IsTrue, Some, List, [], ◌∷◌, ◌++◌, length, slice_get, All};
ghost use Rattle.std.specs.List.Sorted.{IsStrictlyIncreasing};

use p25_status::BoundedList;
use std::marker::Model;

/// The positions of bit errors in a transmission: a strictly ascending list of at most 4,096 numbers below 25,920, the
/// length of the longest data unit as transmitted.
#[derive(Clone, Debug, PartialEq, Eq, Drop)]
pub struct Flips {
    places: BoundedList<u16, 4096>,
}

impl Model for Flips {
    ghost Value = { List ℕ };

    ghost view = { λ s. s.places };

    ghost invariant = { λ s. IsStrictlyIncreasing s.places × All (λ place. place < 25920) s.places };

    ghost inverse = { λ places. record { places = places } };
}

impl Flips {
    /// Returns an empty list.
    pub fn new() -> Flips
        ensures { result ≡ [] }
    {
        Flips {
            places: BoundedList::new(),
        }
    }

    /// Returns the number of positions held.
    pub fn len(&self) -> usize
        ensures value { result ≡ length self.now }
        ensures most { result ≤ 4096 }
        ensures ascending { IsStrictlyIncreasing self.now }
        ensures below { All (λ place. place < 25920) self.now }
    {
        self.places.len()
    }

    /// Returns whether the list holds no position.
    pub fn is_empty(&self) -> bool
        ensures { IsTrue result ↔ (self.now ≡ []) }
    {
        self.len() == 0
    }

    /// Returns all positions, in order.
    pub fn as_slice(&self) -> &[u16]
        ensures value { result.now ≡ self.now }
        ensures most { length self.now ≤ 4096 }
    {
        self.places.as_slice()
    }

    /// Returns position `i` of the list.
    pub fn get(&self, i: usize) -> u16
        requires { i < length self.now }
        ensures place { slice_get self.now i ≡ Some result }
        ensures below { result < 25920 }
    {
        self.places.get(i)
    }

    /// Appends a position. It requires a position below 25,920 and above all positions held.
    pub fn push(&mut self, entry: u16)
        requires room { length self.old < 4096 }
        requires below { entry < 25920 }
        requires above { All (λ place. place < entry) self.old }
        ensures list { self.new ≡ self.old ++ entry ∷ [] }
        ensures len { length self.new ≡ length self.old + 1 }
    {
        self.places.push(entry);
    }
}
