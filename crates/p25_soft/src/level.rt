//! Levels (soft symbols), and the dibits that they represent.

ghost use Rattle.std.specs.Prelude.{◌≡◌, ◌*◌, ◌<◌, ◌≤◌, length};
ghost use Rattle.p25_soft.specs.Levels.{hard_bits, hard_dibit, nominal_level, squared_deviation};

use p25_bits::BitBuf;

/// Returns the level that represents a dibit: 96 for 01, 32 for 00, -32 for 10 and -96 for 11. It requires a dibit
/// below 4. The levels are this project's own.
pub fn nominal(dibit: u8) -> i8
    requires { dibit < 4 }
    ensures { result ≡ nominal_level dibit }
{
    match dibit {
        0 => 32,
        1 => 96,
        2 => -32,
        _ => -96,
    }
}

/// Returns the dibit whose nominal level is nearest to a level (hard decision): 01 from 64 up, 00 from 0 to 63, 10 from
/// -64 to -1 and 11 below -64.
pub fn hard(level: i8) -> u8
    ensures dibit { result ≡ hard_dibit level }
    ensures below { result < 4 }
{
    if level >= 64 {
        1
    } else if level >= 0 {
        0
    } else if level >= -64 {
        2
    } else {
        3
    }
}

/// Returns the bits of the dibits whose nominal levels are nearest to the given ones. It requires at most 12,960
/// levels.
pub fn hard_bits_of(levels: &[i8]) -> BitBuf
    requires { length levels.now ≤ 12960 }
    ensures list { result ≡ hard_bits levels.now }
    ensures len { length result ≡ 2 * length levels.now }
{
    let mut bits = BitBuf::new();
    for level in levels {
        bits.put_field(u64::from(hard(*level)), 2);
    }
    bits
}

// Returns the square of the difference between a level and that of a dibit.
pub(crate) fn deviation(dibit: u8, level: i8) -> u32
    requires { dibit < 4 }
    ensures square { result ≡ squared_deviation dibit level }
    ensures most { result ≤ 65025 }
{
    let apart = (i32::from(level) - i32::from(nominal(dibit))).unsigned_abs();
    apart * apart
}
