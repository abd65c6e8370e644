//! The frame sync: its bits, its length and the distance at which it is still detected.

ghost use Rattle.std.specs.Prelude.{◌≡◌, ◌+◌, ◌^◌, ◌<◌, ◌≤◌, ◌↔◌, IsTrue, length};
ghost use Rattle.p25_bits.specs.{Bits.{bits_of, part}, Distance.{distance_of}};
ghost use Rattle.p25_status.specs.Sync.{sync_bits, sync_slack, sync_length, identifier_length};

use p25_bits::BitBuf;

/// The 48 bits of the frame sync as a number, the first bit highest. TIA-102.BAAA, Frame Synchronization.
pub const SYNC: u64 = 0x5575_F5FF_77FF;

/// The number of bits of a frame sync. TIA-102.BAAA, Frame Synchronization.
pub const SYNC_LENGTH: usize = 48;

/// The most bit errors of a frame sync that is detected. This number is this project's choice.
pub const SYNC_SLACK: u32 = 4;

/// The number of bits of the network identifier (NID), which follows the sync. TIA-102.BAAA, Network Identifier.
pub const IDENTIFIER_LENGTH: usize = 64;

/// Returns the number of positions in which 48 bits differ from the frame sync. `window` is the number of the bits, the
/// first bit highest.
pub fn sync_distance(window: u64) -> u32
    requires { window < 2 ^ 48 }
    ensures distance { result ≡ distance_of (bits_of 48 window) sync_bits }
    ensures most { result ≤ 48 }
    ensures sync { bits_of 48 SYNC ≡ sync_bits }
    ensures slack { SYNC_SLACK ≡ sync_slack }
    ensures lengths { (SYNC_LENGTH ≡ sync_length) × (IDENTIFIER_LENGTH ≡ identifier_length) }
{
    (window ^ SYNC).count_ones()
}

/// Returns whether 48 bits differ from the frame sync in at most four positions. `window` is the number of the bits,
/// the first bit highest. The threshold of four bit errors is this project's choice.
pub fn is_sync_window(window: u64) -> bool
    requires { window < 2 ^ 48 }
    ensures { IsTrue result ↔ (distance_of (bits_of 48 window) sync_bits ≤ sync_slack) }
{
    sync_distance(window) <= SYNC_SLACK
}

/// Returns whether the 48 bits from position `at` on differ from the frame sync in at most four positions. TIA-102.BAAA, Frame
/// Synchronization.
pub fn is_sync(bits: &BitBuf, at: usize) -> bool
    requires { at + 48 ≤ length bits.now }
    ensures { IsTrue result ↔ (distance_of (part at 48 bits.now) sync_bits ≤ sync_slack) }
{
    is_sync_window(bits.field(at, SYNC_LENGTH as u32))
}
