//! The number of bit errors in the inner words of a field.

ghost use Rattle.std.specs.Prelude.{◌≡◌, ◌+◌, ◌*◌, ◌/◌, ◌≤◌, All, length};
ghost use Rattle.p25_bits.specs.{Bits.{part}, Distance.{distance_of}};
ghost use Rattle.p25_link.specs.Symbols.{symbol_bits};
ghost use Rattle.p25_coded_fields.specs.Fixes.{field_fixes_of};

use p25_bits::BitBuf;
use p25_code::NumberCode;
use p25_gf64::Sym;
use p25_link::symbols_number;

/// Counts the bit errors of a field with a decoded outer word: the bits in which its received inner words differ from
/// those transmitted for the symbols of `word`.
pub(crate) fn field_fixes<I: NumberCode>(bare: &BitBuf, places: &[usize], word: &[Sym]) -> u32
    requires code { I.HasCode }
    requires small { I.N ≤ 24 }
    requires sixes { 6 * (I.K / 6) ≡ I.K }
    requires few { length places.now ≤ 36 }
    requires word { length places.now * (I.K / 6) ≡ length word.now }
    requires there { All (λ at. at + I.N ≤ length bare.now) places.now }
    ensures { result ≡ field_fixes_of I.encoding_is I.N (I.K / 6) places.now word.now bare.now }
{
    let each = I::K / 6;
    let mut wrong = 0;
    for (i, at) in places.iter().enumerate() {
        let more = inner_fixes::<I>(bare, *at, &word[each * i..each * i + each]);
        wrong += more;
    }
    wrong
}

// Returns the number of bits in which the received inner word at a position differs from the codeword of the symbols,
// by encoding them.
fn inner_fixes<I: NumberCode>(bare: &BitBuf, at: usize, symbols: &[Sym]) -> u32
    requires code { I.HasCode }
    requires small { I.N ≤ 24 }
    requires sixes { 6 * length symbols.now ≡ I.K }
    requires there { at + I.N ≤ length bare.now }
    ensures { result ≡ distance_of (part at I.N bare.now) (I.encoding_is (symbol_bits symbols.now)) }
{
    let received = bare.field(at, I::N as u32) as u32;
    let sent = I::encode_number(symbols_number(symbols) as u32);
    (received ^ sent).count_ones()
}
