//! The items into which a stream is divided.

ghost use Rattle.std.specs.Prelude.{◌≡◌, ◌^◌, ◌<◌, ◌≤◌, ℕ, length, drop};
ghost use Rattle.p25_bits.specs.Bits.{part};
ghost use Rattle.p25_units.specs.{Begins.{IsBegun}, Items.{IsSoundItem, covered, place_of, unit_item_of}, Needs.{need_of}, declared.frame.Frame.{Frame}};
ghost use Rattle.p25_units.specs.{declared.item.Item.TheVariants.{Broken, Cut, Whole}, declared.needs.Need.TheVariants.{Length}};

use crate::begun::Begun;
use crate::frame::{Frame, frame_length};
use crate::read::read_frame;
use p25_bch_nid::Nid;
use p25_bits::BitBuf;
use p25_status::{Field, FieldList, ReadOutcome};

/// A part of a stream. Positions count bits from the beginning of the stream.
#[derive(Clone, Debug, Drop, PartialEq, Eq)]
pub enum Item {
    /// A data unit without a failing field, and its fixes.
    Whole {
        place: u64,
        frame: Frame,
        fixes: u32,
    },
    /// A data unit of `length` bits, its network identifier (NID), and exactly the fields that fail, in order. For a
    /// packet (PDU) these are its format or its packet CRC alone, or each of its blocks whose CRC-9 does not agree.
    Broken {
        place: u64,
        length: u32,
        nac: u16,
        duid: u8,
        fields: FieldList,
    },
    /// One bit at which a sync begins, but no data unit, because a field that determines its length fails.
    NoUnit {
        place: u64,
        field: Field,
    },
    /// Bits at none of which a sync begins.
    Gap {
        place: u64,
        length: u32,
    },
    /// A sync with too few bits after it.
    Cut {
        place: u64,
        have: u32,
    },
}

impl Item {
    /// Returns an item of no bits, as a buffer into which an item is decoded.
    pub fn empty() -> Item
        ensures { result ≡ Cut 0 0 }
    {
        Item::Cut { place: 0, have: 0 }
    }

    /// Returns the number of bits that the item covers.
    pub fn covered(&self) -> u64
        ensures value { result ≡ covered self.now }
        ensures short { result < 2 ^ 32 }
    {
        match self {
            Item::Whole { frame, .. } => frame_length(&frame.unit) as u64,
            Item::Broken { length, .. } => u64::from(*length),
            Item::NoUnit { .. } => 1,
            Item::Gap { length, .. } => u64::from(*length),
            Item::Cut { have, .. } => u64::from(*have),
        }
    }

    /// Returns the position in the stream at which the item begins.
    pub fn place(&self) -> u64
        ensures { result ≡ place_of self.now }
    {
        match self {
            Item::Whole { place, .. } => *place,
            Item::Broken { place, .. } => *place,
            Item::NoUnit { place, .. } => *place,
            Item::Gap { place, .. } => *place,
            Item::Cut { place, .. } => *place,
        }
    }

    // Makes it a whole data unit, unless it is one, as a buffer into which a data unit is decoded. It is large, so it
    // is made apart from its caller.
    #[inline(never)]
    fn make_whole(&mut self)
        ensures { (place : ℕ) × (frame : Frame) × (fixes : ℕ) × (self.new ≡ Whole place frame fixes) }
    {
        match self {
            Item::Whole { .. } => {}
            _ => {
                *self = Item::Whole {
                    place: 0,
                    frame: Frame::blank(),
                    fixes: 0,
                };
            }
        }
    }

    // Makes it a broken data unit. It is large, so it is made apart from its caller.
    #[inline(never)]
    fn make_broken(&mut self, place: u64, length: u32, nid: &Nid, fields: FieldList)
        ensures { self.new ≡ Broken place length nid.now.nac nid.now.duid fields }
    {
        *self = Item::Broken {
            place,
            length,
            nac: nid.nac,
            duid: nid.duid,
            fields,
        };
    }
}

/// Returns the item of the data unit whose `count` transmitted bits begin at position `at`; `place` counts from the
/// beginning of the stream. It requires that `need` returns that length there, and that `begun` is true of the data
/// unit. The item is `Whole` if no field fails, and otherwise `Broken`.
pub fn unit_item(bits: &BitBuf, at: usize, count: usize, begun: Begun, place: u64) -> Item
    requires there { at ≤ length bits.now }
    requires needed { need_of (drop at bits.now) ≡ Length count }
    requires begun { IsBegun begun (drop at bits.now) }
    ensures item { result ≡ unit_item_of place (part at count bits.now) }
    ensures sound { IsSoundItem result }
{
    let mut item = Item::empty();
    unit_item_in(bits, at, count, begun, place, &mut BitBuf::new(), &mut item);
    item
}

/// Writes to `item` the item that `unit_item` returns. An item is large, so it is written in its buffer and not moved;
/// if a voice data unit replaces a voice data unit, only that is written. `room` is a buffer for the data unit's bits
/// without status symbols; its contents before and after the call have no meaning.
pub fn unit_item_in(
    bits: &BitBuf,
    at: usize,
    count: usize,
    begun: Begun,
    place: u64,
    room: &mut BitBuf,
    item: &mut Item,
)
    requires there { at ≤ length bits.now }
    requires needed { need_of (drop at bits.now) ≡ Length count }
    requires begun { IsBegun begun (drop at bits.now) }
    ensures item { item.new ≡ unit_item_of place (part at count bits.now) }
    ensures sound { IsSoundItem item.new }
{
    let mut begun = begun;
    match begun.identify(bits, at) {
        None => unreachable!(),
        Some(read) => {
            item.make_whole();
            match item {
                Item::Whole {
                    place: held_place,
                    frame,
                    fixes,
                } => {
                    *held_place = place;
                    match read_frame(bits, at, count, &read, &mut begun, room, frame) {
                        ReadOutcome::Read { wrong } => *fixes = wrong,
                        ReadOutcome::Failing { fields } => {
                            item.make_broken(place, count as u32, &read.nid, fields);
                        }
                    }
                }
                _ => unreachable!(),
            }
        }
    }
}
