//! Decoding of data units from their transmitted bits.

ghost use Rattle.std.specs.Prelude.{◌≡◌, ◌+◌, ◌<◌, ◌≤◌, ℕ, IfErr, List, Some, length, drop};
ghost use Rattle.p25_bits.specs.Bits.{part};
ghost use Rattle.p25_status.specs.{Outcomes.{IfRead, read_or}, declared.fields.Field.{Field}, declared.read_outcome.ReadOutcome.TheVariants.{Read, Failing}};
ghost use Rattle.p25_unit_front.specs.Front.{front_fixes_of};
ghost use Rattle.p25_units.specs.{Begins.{IsBegun}, Fixes.{fixes_of}, Needs.{kind_need, need_of}, declared.needs.Need.TheVariants.{Length}};
ghost use Rattle.p25_units.specs.Readings.{reading_from, unit_reading_of};

use crate::begun::Begun;
use crate::frame::Frame;
use crate::item::{Item, unit_item};
use p25_bch_nid::{PDU, ReadNid};
use p25_bits::BitBuf;
use p25_status::{FieldList, ReadOutcome, unweave};

/// Decodes the `count` transmitted bits from position `at` on to a frame. It requires that `need` returns that length
/// there. The error is the list of exactly the fields that fail, in order, and is never empty. For a packet (PDU) these
/// are its format or its packet CRC alone, or each block whose CRC-9 does not agree.
pub fn read_unit(bits: &BitBuf, at: usize, count: usize) -> Result<Frame, FieldList>
    requires there { at ≤ length bits.now }
    requires needed { need_of (drop at bits.now) ≡ Length count }
    ensures reading { result ≡ unit_reading_of (part at count bits.now) }
    ensures some { IfErr result (λ fields. 0 < length fields) }
{
    match unit_item(bits, at, count, Begun::new(), 0) {
        Item::Whole { frame, .. } => Ok(frame),
        Item::Broken { fields, .. } => Err(fields),
        _ => unreachable!(),
    }
}

// Decodes into `frame` the frame of a data unit whose network identifier (NID) was decoded; `begun` holds its other
// decoded parts. `room` is a buffer for its bits without status symbols.
pub(crate) fn read_frame(
    bits: &BitBuf,
    at: usize,
    count: usize,
    read: &ReadNid,
    begun: &mut Begun,
    room: &mut BitBuf,
    frame: &mut Frame,
) -> ReadOutcome
    requires there { at ≤ length bits.now }
    requires kind { kind_need read.now.nid.duid (drop at bits.now) ≡ Length count }
    requires front { read.now.wrong ≡ front_fixes_of (read.now.nid.nac, read.now.nid.duid) (drop at bits.now) }
    requires begun { IsBegun begun.old (drop at bits.now) }
    ensures frame { read_or result frame.new ≡ reading_from (Some (read.now.nid.nac, read.now.nid.duid)) (part at count bits.now) }
    ensures wrong { IfRead result (λ wrong. wrong ≡ fixes_of frame.new (part at count bits.now)) }
{
    unweave(bits, at, count, room, &mut frame.statuses);
    let unit = &mut frame.unit;
    if read.nid.duid != PDU {
        return with_front(unit.read_voice(&read.nid, room), read.wrong);
    }
    match begun.read_head(bits, at) {
        Ok(head) => with_front(unit.read_packet(read.nid.nac, head, room), read.wrong),
        Err(_) => unreachable!(),
    }
}

// Returns the outcome of a data unit by that of the bits after sync and NID, with the bit errors of sync and NID.
fn with_front(outcome: ReadOutcome, front: u32) -> ReadOutcome
    requires few { IfRead outcome (λ wrong. wrong ≤ 25200) }
    requires front { front ≤ 111 }
    ensures read { (wrong : ℕ) → outcome ≡ Read wrong → result ≡ Read (front + wrong) }
    ensures failing { (fields : List Field) → outcome ≡ Failing fields → result ≡ Failing fields }
{
    match outcome {
        ReadOutcome::Read { wrong } => ReadOutcome::Read {
            wrong: front + wrong,
        },
        ReadOutcome::Failing { fields } => ReadOutcome::Failing { fields },
    }
}
