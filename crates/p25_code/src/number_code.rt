//! Binary codes whose codewords are also numbers.

ghost use Rattle.std.specs.Prelude.{◌≡◌, ◌^◌, ◌<◌, ◌≤◌, Bool, List, length, IfSome, MatchOption};
ghost use Rattle.p25_bits.specs.{Bits.{bits_of, field_of}, Distance.{distance_of}};

use crate::code::{BlockCode, Reading};
use p25_bits::put_number;

/// A binary block code whose codewords and information are also numbers, of at most 32 bits, the first bit highest.
pub trait NumberCode: BlockCode<Letter = bool> {
    ghost use Rattle.std.specs.Option.{option_map};
    ghost use Rattle.p25_code.specs.Words.{IsEncoding};

    /// Returns the one codeword whose first K bits write `info`.
    fn encode_number(info: u32) -> u32
        requires code { Self.HasCode }
        requires info { info < 2 ^ Self.K }
        ensures encoding { bits_of Self.N result ≡ Self.encoding_is (bits_of Self.K info) }
        ensures fits { result < 2 ^ Self.N };

    /// Returns the codeword within the correction radius of a received word (bounded-distance decoding). `None` is
    /// returned if and only if there is none.
    fn read_number(received: u32) -> Option<u32>
        requires code { Self.HasCode }
        requires received { received < 2 ^ Self.N }
        ensures reading { option_map (bits_of Self.N) result ≡ Self.reading_is (bits_of Self.N received) }
        ensures fits { IfSome result (λ sent. sent < 2 ^ Self.N) };

    // The encoding is a codeword that begins with the information.
    ghost encodes: { Self.HasCode → (info : List Bool) → length info ≡ Self.K → IsEncoding Self.IsWord Self.K info (Self.encoding_is info) };

    // A codeword has at most 32 bits.
    ghost fits_number: { Self.HasCode → Self.N ≤ 32 };
}

/// Writes the decoded codeword, if there is one, to the bits of the received number, and returns the result: `Found`
/// with the number of bits that changed, or `Beyond`.
pub fn put_reading(received: u32, sent: Option<u32>, word: &mut [bool]) -> Reading
    requires few { length word.old ≤ 32 }
    requires received { received ≡ field_of word.old }
    requires fits { IfSome sent (λ number. number < 2 ^ length word.old) }
    ensures { MatchOption sent ((result ≡ Reading.Beyond) × (word.new ≡ word.old))
        (λ number. (word.new ≡ bits_of (length word.old) number) × (result ≡ Reading.Found (distance_of word.old word.new))) }
{
    match sent {
        Some(number) => {
            let fixes = (received ^ number).count_ones();
            if fixes > 0 {
                put_number(u64::from(number), word);
            }
            Reading::Found { fixes }
        }
        None => Reading::Beyond,
    }
}

#[cfg(test)]
mod tests {
    use super::*;
    use p25_bits::number_of;

    #[test]
    fn puts_readings(rt: HostRuntime) {
        for (sent, reading, left) in [
            (
                Some(0b101),
                Reading::Found { fixes: 0 },
                [true, false, true],
            ),
            (Some(0b111), Reading::Found { fixes: 1 }, [true, true, true]),
            (None, Reading::Beyond, [true, false, true]),
        ] {
            let mut word = [true, false, true];
            let received = number_of(&word) as u32;
            assert_eq!(rt; put_reading(received, sent, &mut word), reading);
            assert_eq!(rt; word, left);
        }
    }
}
