//! Frame sync and network identifier (NID) of a data unit: encoding, decoding and comparison.

ghost use Rattle.std.specs.Prelude.{◌≡◌, ◌+◌, ◌^◌, ◌<◌, ◌≤◌, ◌++◌, IfSome, length, drop, option_map};
ghost use Rattle.p25_bits.specs.Bits.{field_of};
ghost use Rattle.p25_unit_front.specs.Front.{front_fixes_of, identifier_bits, identifier_of, unit_front};

use p25_bch_nid::{Nid, ReadNid, nid_bits, nid_distance, read_nid_counted};
use p25_bits::BitBuf;
use p25_status::{SENT_BLOCK_LENGTH, SYNC, sync_distance};

/// The number of bits of sync and NID without the status symbol. TIA-102.BAAA, Frame Synchronization, Network
/// Identifier.
pub const FRONT_LENGTH: usize = 112;

/// The number of transmitted bits of sync and NID, with the status symbol within the NID.
pub const SENT_FRONT_LENGTH: usize = 114;

/// The number of bits of the network identifier (NID) before the status symbol within it.
pub const BEFORE_STATUS: u32 = 22;

/// The number of bits of the network identifier (NID) after the status symbol within it.
pub const AFTER_STATUS: u32 = 42;

// The position at which the network identifier (NID) begins in a transmitted data unit.
const IDENTIFIER_AT: usize = 48;

/// Appends the beginning of a data unit: the 48 bits of the frame sync and the 64 bits of the network identifier (NID),
/// first to last, without a status symbol. TIA-102.BAAA, Frame Synchronization, Network Identifier.
pub fn put_front(nid: &Nid, out: &mut BitBuf)
    requires { length out.old + 112 ≤ 25928 }
    ensures list { out.new ≡ out.old ++ unit_front nid.now.nac nid.now.duid }
    ensures len { length out.new ≡ length out.old + 112 }
{
    out.put_field(SYNC, 48);
    out.put_field(nid_bits(nid), 64);
}

/// Decodes the network identifier (NID) of the data unit whose transmitted bits begin at position `at`. The result is
/// the NAC and the DUID of the codeword of the BCH code (63,16) within 11 bits of the first 63 bits of the NID. It
/// includes the number of bit errors in the sync and in those 63 bits, which `front_fixes` returns for it; nothing is
/// encoded to count them. `None` is returned if and only if no codeword is that near. TIA-102.BAAA, Network Identifier.
pub fn read_front(bits: &BitBuf, at: usize) -> Option<ReadNid>
    requires { at + 114 ≤ length bits.now }
    ensures value { option_map (λ read. (read.nid.nac, read.nid.duid)) result ≡ identifier_of (drop at bits.now) }
    ensures wrong { IfSome result (λ read. read.wrong ≡ front_fixes_of (read.nid.nac, read.nid.duid) (drop at bits.now)) }
{
    match read_nid_counted(identifier(bits, at)) {
        Some(read) => Some(ReadNid {
            nid: read.nid,
            wrong: sync_distance(bits.field(at, 48)) + read.wrong,
        }),
        None => None,
    }
}

/// Returns the number of positions in which the sync and the first 63 bits of the network identifier (NID) of a data
/// unit differ from those transmitted for a given NID. The transmitted bits of the data unit begin at position `at`.
/// TIA-102.BAAA, Frame Synchronization, Network Identifier.
pub fn front_fixes(bits: &BitBuf, at: usize, nid: &Nid) -> u32
    requires { at + 114 ≤ length bits.now }
    ensures value { result ≡ front_fixes_of (nid.now.nac, nid.now.duid) (drop at bits.now) }
    ensures most { result ≤ 111 }
{
    sync_distance(bits.field(at, 48)) + nid_distance(identifier(bits, at), nid)
}

// Returns the 64 bits of the network identifier (NID) of the data unit whose transmitted bits begin at a position, as a
// number.
fn identifier(bits: &BitBuf, at: usize) -> u64
    requires { at + 114 ≤ length bits.now }
    ensures value { result ≡ field_of (identifier_bits (drop at bits.now)) }
    ensures fits { result < 2 ^ 64 }
{
    // For the prover: the number of bits held bounds every position below.
    let _ = bits.len();
    let before = bits.field(at + IDENTIFIER_AT, BEFORE_STATUS);
    before * (1 << AFTER_STATUS) + bits.field(at + SENT_BLOCK_LENGTH, AFTER_STATUS)
}
