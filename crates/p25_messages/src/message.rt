//! Messages: lists of octets of bounded length.

ghost use Rattle.std.specs.Prelude.{◌≡◌, ℕ, ⊤, ◌≤◌, ◌↔◌, List, length, take, IsSome, IfSome};

use arrayvec::ArrayVec;
use std::alloc::AllocError;
use std::marker::Model;

/// A message: a list of at most 2,028 octets, as many as 127 blocks of 16 carry besides the four of the packet CRC.
pub type Message = MessageOf<2028>;

/// A list of at most `MOST` octets.
#[derive(Debug, PartialEq, Eq, Drop)]
pub struct MessageOf<const MOST: usize> {
    items: ArrayVec<u8, MOST>,
}

impl<const MOST: usize> Model for MessageOf<MOST> {
    ghost Value = { List ℕ };

    ghost view = { λ s. s.items.items };

    ghost inverse = { λ octets. record { items = record { items = octets } } };
}

impl<const MOST: usize> MessageOf<MOST> {
    /// Returns the message of these octets, or `None` if and only if there are more than `MOST`.
    pub fn new(octets: &[u8]) -> Option<MessageOf<MOST>>
        ensures fits { IsSome result ↔ (length octets.now ≤ MOST) }
        ensures message { IfSome result (λ message. message ≡ octets.now) }
    {
        Some(MessageOf {
            items: ArrayVec::try_from(octets).ok()?,
        })
    }

    /// Returns the message of the first `count` octets, or of all if there are fewer. The octets are not moved.
    pub fn beginning_of(octets: [u8; MOST], count: usize) -> MessageOf<MOST>
        ensures { result ≡ take count octets.entry }
    {
        let mut items = ArrayVec::from(octets);
        items.truncate(count);
        MessageOf { items }
    }

    /// Returns the octets of the message, in order.
    pub fn octets(&self) -> &[u8]
        ensures octets { result.now ≡ self.now }
        ensures most { length result.now ≤ MOST }
    {
        self.items.as_slice()
    }
}

impl<const MOST: usize> Clone for MessageOf<MOST> {
    ghost is_clone = { λ message copy. copy ≡ message };

    ghost is_infallible = { λ _. ⊤ };

    // Returns a copy of the octets. It allocates no memory, so the result is always `Ok`.
    fn clone(&self) -> Result<Self, AllocError> {
        Ok(MessageOf {
            items: ArrayVec::try_from(self.octets()).unwrap(),
        })
    }
}
