//! The three checks of packet data: the header CRC, the CRC of a confirmed block and the CRC of a whole packet.
//!
//! A message is a polynomial over GF(2) whose highest coefficient is its first bit; the most significant bit of an
//! octet is its first. Its check is the remainder of x^width times the message by a divisor of degree `width`, with all
//! bits inverted. The register starts at 0, nothing is reflected, and a check is a number whose highest bit is
//! transmitted first. There is exactly one check of each message. A check is computed four octets at a time, by tables
//! of remainders.
//!
//! ```
//! let octets = b"123456789";
//! let check = crc16(octets);
//! assert_eq!(rt; check.to_be_bytes(), [0xCE, 0x3C]);
//! ```
//!
//! | call | width, divisor without its highest term | in the catalogs of checksums | of the text 123456789 |
//! |---|---|---|---|
//! | `crc9` | 9, 059 hex | width 9 | serial 0 and sixteen octets of 0: 1FF hex |
//! | `crc16` | 16, 1021 hex | CRC-16/GSM | CE3C hex |
//! | `crc32` | 32, 04C11DB7 hex | CRC-32/CKSUM | 765E7680 hex |
#![tactic(auto)]

ghost use Rattle.std.specs.Prelude.{◌≡◌, ℕ, ◌^◌, ◌<◌};
ghost use Rattle.p25_crc.specs.{Checks.{IsCrc9, IsCrc16, IsCrc32}, Values.{crc9_of, crc16_of, crc32_of}};

pub mod laws;
mod register;
mod remainders;
#[cfg(test)]
mod tests;

use register::take_octets;
use remainders::{BLOCK, HEADER, PACKET};

/// Returns the nine check bits of a confirmed block: of its serial number in seven bits, followed by its sixteen
/// octets. It requires a serial number below 128. TIA-102.BAAA, Packet Data, CRC-9.
pub fn crc9(serial: u8, octets: &[u8; 16]) -> u16
    requires { serial < 128 }
    ensures value { result ≡ crc9_of serial octets.now }
    ensures check { IsCrc9 serial octets.now result }
    ensures only { (other : ℕ) → IsCrc9 serial octets.now other → other ≡ result }
    ensures width { result < 2 ^ 9 }
{
    // A serial number below 128 is the same number in eight bits.
    let register = take_octets(0, &[serial], &BLOCK);
    (take_octets(register, octets, &BLOCK) >> 23) as u16 ^ 0x1FF
}

/// Returns the sixteen check bits of a packet header's octets. TIA-102.BAAA, Packet Data, Header CRC.
pub fn crc16(octets: &[u8]) -> u16
    ensures value { result ≡ crc16_of octets.now }
    ensures check { IsCrc16 octets.now result }
    ensures only { (other : ℕ) → IsCrc16 octets.now other → other ≡ result }
{
    (take_octets(0, octets, &HEADER) >> 16) as u16 ^ 0xFFFF
}

/// Returns the 32 check bits of a packet's data and pad octets. TIA-102.BAAA, Packet Data, Packet CRC.
pub fn crc32(octets: &[u8]) -> u32
    ensures value { result ≡ crc32_of octets.now }
    ensures check { IsCrc32 octets.now result }
    ensures only { (other : ℕ) → IsCrc32 octets.now other → other ≡ result }
{
    take_octets(0, octets, &PACKET) ^ 0xFFFF_FFFF
}
