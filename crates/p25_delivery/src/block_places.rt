//! The blocks of a message that a receiver holds, each at the index of its serial number.

ghost use Rattle.std.specs.Prelude.{◌≡◌, ◌<◌, ◌≤◌, ◌&&◌, ◌==◌, length, IfSome};
ghost use Rattle.p25_delivery.specs.{Places.{put_slots, put_block, all_octets, held_flags}, Halves.{Keeping}, ReceiverRules.{empty_places}};

use crate::message_octets::MessageOctets;
use arrayvec::ArrayVec;
use p25_packet_blocks::{Block, Flags, Slot, Slots};
use std::marker::Model;

// The entries for a message's blocks, from 1 to 127 of them, each empty or with its block, and the number of pad
// octets.
#[derive(Clone, Debug, PartialEq, Eq, Drop)]
pub(crate) struct BlockPlaces {
    places: ArrayVec<Option<Block>, 127>,
    pad: u8,
}

impl Model for BlockPlaces {
    ghost Value = { Keeping };

    ghost view = { λ kept. record { places = kept.places.items; pad = kept.pad } };

    ghost invariant = { λ kept. 0 < length kept.places.items };

    ghost inverse = { λ kept. record { places = record { items = kept.places }; pad = kept.pad } };
}

impl BlockPlaces {
    // Returns `blocks` empty entries, and a pad.
    pub(crate) fn new(blocks: u8, pad: u8) -> BlockPlaces
        requires some { 0 < blocks }
        requires most { blocks ≤ 127 }
        ensures { result ≡ empty_places blocks pad }
    {
        let mut places = ArrayVec::new();
        for _place in 0..blocks {
            places.push(None);
        }
        BlockPlaces { places, pad }
    }

    // Returns whether there are this number of entries and this pad.
    pub(crate) fn is_of(&self, blocks: u8, pad: u8) -> bool
        ensures { result ≡ (length self.now.places == blocks && self.now.pad == pad) }
    {
        self.places.len() == blocks as usize && self.pad == pad
    }

    // Stores the `Good` blocks of slots in their entries.
    pub(crate) fn put(&mut self, slots: &Slots)
        ensures places { self.new.places ≡ put_slots self.old.places slots.now }
        ensures pad { self.new.pad ≡ self.old.pad }
    {
        for j in 0..slots.len() {
            if let Slot::Good(block) = slots.get(j) {
                put_at(&mut self.places, block);
            }
        }
    }

    // Returns the octets of all blocks, or `None` if an entry is empty.
    pub(crate) fn octets(&self) -> Option<MessageOctets>
        ensures octets { result ≡ all_octets self.now.places }
        ensures some { IfSome result (λ octets. 16 ≤ length octets) }
    {
        MessageOctets::joined(self.places.as_slice())
    }

    // Returns the number of pad octets.
    pub(crate) fn pad(&self) -> u8
        ensures { result ≡ self.now.pad }
    {
        self.pad
    }

    // Returns a flag for each entry, true if its block is held.
    #[tactic(auto, unfolding(crate::specs::Places::held_flags))]
    pub(crate) fn flags(&self) -> Flags
        ensures { result ≡ held_flags self.now.places }
    {
        let count = if self.places.len() <= 64 { 64 } else { 128 };
        let mut flags = Flags::new(count);
        for (i, place) in self.places.as_slice().iter().enumerate() {
            flags.set(i, place.is_some());
        }
        flags
    }
}

// Stores a block in the entry of its serial number, if there is such an entry.
#[tactic(auto, unfolding(crate::specs::Places::put_block))]
fn put_at(places: &mut ArrayVec<Option<Block>, 127>, block: Block)
    ensures { places.new.items ≡ put_block places.old.items block }
{
    let serial = block.serial() as usize;
    if serial < places.len() {
        places.as_mut_slice()[serial] = Some(block);
    }
}
