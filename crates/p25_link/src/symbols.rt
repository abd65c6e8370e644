//! Symbols of six bits and octets, by the numbers that their bits write.

ghost use Rattle.std.specs.Prelude.{◌≡◌, ◌+◌, ◌-◌, ◌*◌, ◌^◌, ◌<◌, ◌≤◌, ◌++◌, length};
ghost use Rattle.p25_bits.specs.{Bits.{bits_of, field_of, octet_bits}, Numbers.{octets_from}};
ghost use Rattle.p25_link.specs.{Words.{AreNineOctets}, Symbols.{symbols_in, symbol_bits}};

use p25_gf64::Sym;

// Returns the symbols of nine octets and of the last bits of a number after them, as many bits as fill the symbols.
pub(crate) fn symbols_of<const N: usize>(octets: &[u8; 9], rest: u64) -> [Sym; N]
    requires least { 12 ≤ N }
    requires most { N ≤ 20 }
    requires fits { rest < 2 ^ (6 * N - 72) }
    ensures list { result ≡ symbols_in N (octet_bits octets.now ++ bits_of (6 * N - 72) rest) }
    ensures len { length result ≡ N }
    ensures nine { AreNineOctets octets.now }
{
    let mut number = 0;
    for octet in octets {
        number = 256 * number + u128::from(*octet);
    }
    let mut symbols = [Sym::ZERO; N];
    put_symbols((number << (6 * N - 72)) + u128::from(rest), &mut symbols);
    symbols
}

// Returns the nine octets that the bits of the first twelve symbols write.
pub(crate) fn first_octets(symbols: &[Sym]) -> [u8; 9]
    requires { 12 ≤ length symbols.now }
    ensures list { result ≡ octets_from 9 (symbol_bits symbols.now) }
    ensures len { length result ≡ 9 }
{
    let number = symbols_number(&symbols[..12]);
    let mut octets = [0; 9];
    for i in 0..9 {
        octets[i] = ((number >> (64 - 8 * i as u32)) % 256) as u8;
    }
    octets
}

/// Writes the symbols of the last bits of a number, six bits each, the last bits in the last symbol.
pub fn put_symbols(number: u128, symbols: &mut [Sym])
    requires { length symbols.old ≤ 21 }
    ensures { symbols.new ≡ symbols_in (length symbols.old) (bits_of (6 * length symbols.old) number) }
{
    let count = symbols.len();
    for i in 0..count {
        symbols[i] = Sym::of_low_bits(number >> (6 * (count - 1 - i)));
    }
}

/// Returns the number that the bits of the symbols write, six bits each.
pub fn symbols_number(symbols: &[Sym]) -> u128
    requires { length symbols.now ≤ 21 }
    ensures value { result ≡ field_of (symbol_bits symbols.now) }
    ensures fits { result < 2 ^ (6 * length symbols.now) }
{
    let mut number = 0;
    for symbol in symbols {
        number = 64 * number + u128::from(symbol.value());
    }
    number
}
