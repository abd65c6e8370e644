//! Lists of messages, which are stored as one list of octets.

ghost use Rattle.std.specs.Prelude.{◌≡◌, ◌+◌, ◌^◌, ◌<◌, ◌≤◌, ◌↔◌, IsTrue, Some, [], ◌∷◌, ◌++◌, length, slice_get, vec_len, OnOk, OnErr};
ghost use Rattle.p25_messages.specs.MessageList.{ListParts, pieces_between, start_before, room_for, IsKept};

use crate::message::MessageOf;
use std::alloc::{AllocError, Global};
use std::marker::Model;

/// A list of messages of at most 2,028 octets.
pub type MessageList = MessageListOf<2028>;

/// A list of messages of at most `MOST` octets. Contracts see it as the list, `list`, and the number of messages for
/// which there is capacity, `spare`.
#[derive(Debug, Drop)]
pub struct MessageListOf<const MOST: usize> {
    // the octets of all messages, one after another
    octets: Vec<u8>,
    // the position after the last octet of each message
    ends: Vec<usize>,
}

impl<const MOST: usize> Model for MessageListOf<MOST> {
    ghost Value = { ListParts };

    ghost view = { λ s. record { list = pieces_between 0 s.ends.items s.octets.items; spare = room_for MOST s.octets s.ends } };

    ghost invariant = { λ s. IsKept MOST s.ends.items (vec_len s.octets) };
}

// Returns the position of the first octet of message `i`, which is the position after the message before it.
fn start(ends: &[usize], i: usize) -> usize
    requires { i ≤ length ends.now }
    ensures { result ≡ start_before 0 ends.now i }
{
    if i == 0 { 0 } else { ends[i - 1] }
}

impl<const MOST: usize> MessageListOf<MOST> {
    /// Returns an empty list, without an allocation. It requires `MOST` from 1 to 2^32.
    pub fn new(alloc: Global) -> MessageListOf<MOST>
        requires some { 0 < MOST }
        requires most { MOST ≤ 2 ^ 32 }
        ensures { result.list ≡ [] }
    {
        MessageListOf {
            octets: Vec::new(alloc),
            ends: Vec::new(alloc),
        }
    }

    /// Returns the number of messages.
    pub fn len(&self) -> usize
        ensures { result ≡ length self.now.list }
    {
        self.ends.len()
    }

    /// Returns whether the list holds no message.
    pub fn is_empty(&self) -> bool
        ensures { IsTrue result ↔ (self.now.list ≡ []) }
    {
        self.len() == 0
    }

    /// Returns the octets of message `i`, counted from 0.
    pub fn get(&self, i: usize) -> &[u8]
        requires { i < length self.now.list }
        ensures { slice_get self.now.list i ≡ Some result.now }
    {
        let ends = self.ends.as_slice();
        &self.octets.as_slice()[start(ends, i)..start(ends, i + 1)]
    }

    /// Reserves capacity for 1 to 16 more messages. `AllocError` is returned if the allocation fails, which can happen
    /// only if there was no such capacity; the messages are unchanged, and no capacity is lost.
    pub fn reserve(&mut self, messages: u32) -> Result<(), AllocError>
        requires some { 0 < messages }
        requires most { messages ≤ 16 }
        ensures list { self.new.list ≡ self.old.list }
        ensures spare { self.old.spare ≤ self.new.spare }
        ensures ok { OnOk result (messages ≤ self.new.spare) }
        ensures err { OnErr result (self.old.spare < messages) }
    {
        self.ends.reserve(messages as usize)?;
        self.octets.reserve(MOST * messages as usize)
    }

    /// Appends a message, without an allocation.
    pub fn push(&mut self, message: &MessageOf<MOST>)
        requires { 0 < self.old.spare }
        ensures list { self.new.list ≡ self.old.list ++ message.now ∷ [] }
        ensures spare { self.old.spare ≤ self.new.spare + 1 }
    {
        self.octets.extend_from_slice(message.octets()).unwrap();
        self.ends.push(self.octets.len()).unwrap();
    }
}
