//! The joiner, which makes long messages of their parts.

ghost use Rattle.std.specs.Prelude.{◌≡◌};
ghost use Rattle.p25_fragments.specs.Joining.{first_joining, is_refused, part_taken, message_taken};

use arrayvec::ArrayVec;
use p25_messages::{LAST_PART, LongMessage, MOST_LONG, Message, PART_OCTETS};
use std::marker::Model;

/// The result of a message that a joiner takes.
#[derive(Clone, Debug, PartialEq, Eq, Drop)]
pub enum Joined {
    /// The last part of a long message, which is whole now.
    Whole(LongMessage),
    /// A part other than the last, with this number.
    Part { number: u8 },
    /// Not a part, or not the expected part.
    Refused,
}

/// Joins the parts of long messages, which arrive in order.
#[derive(Clone, Debug, PartialEq, Eq, Drop)]
pub struct Joiner {
    // the number of the expected part
    next: u8,
    // the octets of the parts before it
    items: ArrayVec<u8, MOST_LONG>,
}

impl Model for Joiner {
    ghost use Rattle.p25_fragments.specs.Joining.{Joining, IsJoining};

    ghost Value = { Joining };

    ghost view = { λ s. record { next = s.next; octets = s.items.items } };

    ghost invariant = { λ s. IsJoining (record { next = s.next; octets = s.items.items }) };

    ghost inverse = { λ s. record { next = s.next; items = record { items = s.octets } } };
}

// Returns whether a part is refused, if `count` octets follow its first one.
fn is_refused(next: u8, is_last: bool, number: u8, count: usize) -> bool
    ensures { result ≡ is_refused next is_last number count }
{
    number != next
        || if is_last {
            count > PART_OCTETS || number > 0 && count == 0
        } else {
            count != PART_OCTETS || number == MOST_NUMBER
        }
}

// The highest number of a part.
const MOST_NUMBER: u8 = 7;

impl Joiner {
    /// Returns a joiner that expects the part with number 0.
    pub fn new() -> Joiner
        ensures { result ≡ first_joining }
    {
        Joiner {
            next: 0,
            items: ArrayVec::new(),
        }
    }

    /// Resets the joiner: it expects the part with number 0, and holds nothing.
    pub fn reset(&mut self)
        ensures { self.new ≡ first_joining }
    {
        self.next = 0;
        self.items.clear();
    }

    /// Takes a message, and returns the result: the last part of a long message, which is whole then; another part; or
    /// `Refused`. The first octet is the number of the part, plus 80 hex for the last. `Refused` is returned in exactly
    /// these cases:
    ///
    /// - The message is empty, or its number is not the expected one.
    /// - It is not the last part, and has other than 500 octets after the first or the number 7.
    /// - It is the last part, and has more than 500 octets after the first, or none although its number is above 0.
    ///
    /// After a part the next number is expected, and otherwise 0, with nothing held.
    #[tactic(auto, unfolding(crate::specs::Joining::message_taken))]
    pub fn take(&mut self, message: &Message) -> Joined
        ensures { (self.new, result) ≡ message_taken self.old message.now }
    {
        let Some((mark, octets)) = message.octets().split_first() else {
            self.reset();
            return Joined::Refused;
        };
        self.take_part(*mark >= LAST_PART, *mark % LAST_PART, octets)
    }

    // Takes a part with a number.
    #[tactic(auto, unfolding(crate::specs::Joining::part_taken, crate::specs::Joining::taken_as))]
    fn take_part(&mut self, is_last: bool, number: u8, octets: &[u8]) -> Joined
        ensures { (self.new, result) ≡ part_taken is_last self.old number octets.now }
    {
        if is_refused(self.next, is_last, number, octets.len()) {
            self.reset();
            return Joined::Refused;
        }
        self.items.try_extend_from_slice(octets).unwrap();
        if is_last {
            let whole = LongMessage::new(self.items.as_slice()).unwrap();
            self.next = 0;
            self.items.clear();
            Joined::Whole(whole)
        } else {
            self.next += 1;
            Joined::Part { number }
        }
    }
}
