//! CRCs of packets

ghost use Rattle.std.specs.Prelude.{◌≡◌, ◌<◌, ◌≤◌};
ghost use Rattle.p25_crc.specs.Values.{crc9_of, crc16_of, crc32_of};

/// What `p25_crc9` returns if the serial number is above 127.
const NO_CRC9: u16 = 0xFFFF;

/// Returns the nine check bits (CRC-9) of a block of a confirmed packet (PDU), by its serial number, 0 to 127, and its sixteen
/// octets. Returns `P25_NO_CRC9` if the serial number is larger.
#[unsafe(no_mangle)]
pub extern "C" fn p25_crc9(serial: u8, octets: &[u8; 16]) -> u16
    ensures check { serial < 128 → result ≡ crc9_of serial octets.now }
    ensures refused { 128 ≤ serial → result ≡ 0xFFFF }
{
    if serial >= 128 {
        return NO_CRC9;
    }
    p25_crc::crc9(serial, octets)
}

/// Returns the sixteen check bits of the header of a packet (PDU), by its ten octets; of any other number of octets too.
#[unsafe(no_mangle)]
pub extern "C" fn p25_crc16(octets: &[u8]) -> u16
    ensures { result ≡ crc16_of octets.now }
{
    p25_crc::crc16(octets)
}

/// Returns the 32 check bits of the data and pad octets of a packet (PDU).
#[unsafe(no_mangle)]
pub extern "C" fn p25_crc32(octets: &[u8]) -> u32
    ensures { result ≡ crc32_of octets.now }
{
    p25_crc::crc32(octets)
}

#[cfg(test)]
mod tests;
