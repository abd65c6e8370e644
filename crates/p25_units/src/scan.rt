//! The data unit at a position, as far as the bits from there on determine it.

ghost use Rattle.std.specs.Prelude.{◌≡◌, ◌≤◌, true, length, drop};
ghost use Rattle.p25_status.specs.Sync.{has_sync};
ghost use Rattle.p25_units.specs.{Begins.{IsBegun}, Needs.{length_need, need_of}};

use crate::begun::Begun;
use crate::needs::Need;
use p25_bch_nid::PDU;
use p25_bits::BitBuf;
use p25_packet_blocks::packet_length;
use p25_status::{BARE_BLOCK_LENGTH, Field, SENT_BLOCK_LENGTH, is_sync};
use p25_unit_front::SENT_FRONT_LENGTH;
use p25_voice_units::voice_length;

// The number of bits from which the header of a packet (PDU) can be decoded: those up to the last of its block, with
// four status symbols.
const HEADED: usize = 316;

/// Returns the first missing requirement for a data unit at position `at`. The requirements are, in this order:
///
/// - 48 bits, and a sync in them (`NoSync` without one).
/// - 114 bits, and a correctable network identifier (NID) in them (`NoLength` of `Nid`), which is that of a known type
///   (`NoLength` of `Duid`).
/// - For a packet (PDU) 316 bits, and a header whose CRC agrees (`NoLength` of `PacketHeader`).
/// - All bits of that data unit.
///
/// `More` has the number of bits that are required from the position on. If nothing is missing, `Length` is returned.
pub fn need(bits: &BitBuf, at: usize) -> Need
    requires { at ≤ length bits.now }
    ensures { result ≡ need_of (drop at bits.now) }
{
    need_with(bits, at, &mut Begun::new())
}

/// Returns what `need` returns for position `at`, given the parts in `begun` that were decoded at this position before.
/// Replaces `begun` by the parts that are decoded now.
pub fn need_with(bits: &BitBuf, at: usize, begun: &mut Begun) -> Need
    requires there { at ≤ length bits.now }
    requires begun { IsBegun begun.old (drop at bits.now) }
    ensures need { result ≡ need_of (drop at bits.now) }
    ensures begun { IsBegun begun.new (drop at bits.now) }
{
    if bits.len() - at < 48 {
        return Need::More(48);
    }
    if !is_sync(bits, at) {
        return Need::NoSync;
    }
    need_synced(bits, at, begun)
}

/// Returns what `need_with` returns. It requires that a sync was detected at position `at` before.
pub fn need_synced(bits: &BitBuf, at: usize, begun: &mut Begun) -> Need
    requires there { at ≤ length bits.now }
    requires synced { has_sync (drop at bits.now) ≡ true }
    requires begun { IsBegun begun.old (drop at bits.now) }
    ensures need { result ≡ need_of (drop at bits.now) }
    ensures begun { IsBegun begun.new (drop at bits.now) }
{
    if bits.len() - at < SENT_FRONT_LENGTH {
        return Need::More(SENT_FRONT_LENGTH);
    }
    let Some(read) = begun.identify(bits, at) else {
        return Need::NoLength(Field::Nid);
    };
    let have = bits.len() - at;
    if read.nid.duid != PDU {
        return match voice_length(read.nid.duid) {
            None => Need::NoLength(Field::Duid),
            Some(bare) => need_of_length(bare / BARE_BLOCK_LENGTH * SENT_BLOCK_LENGTH, have),
        };
    }
    if have < HEADED {
        return Need::More(HEADED);
    }
    match begun.read_head(bits, at) {
        Err(field) => Need::NoLength(field),
        Ok(read) => need_of_length(packet_length(&read.head), have),
    }
}

// Returns the need of a data unit of a known length if `have` bits are there.
fn need_of_length(length: usize, have: usize) -> Need
    ensures { result ≡ length_need length have }
{
    if have < length {
        Need::More(length)
    } else {
        Need::Length(length)
    }
}
