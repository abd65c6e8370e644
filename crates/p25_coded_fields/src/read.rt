//! Decoding of fields.

ghost use Rattle.std.specs.Prelude.{◌≡◌, ℕ, ◌+◌, ◌*◌, ◌/◌, ◌<◌, ◌≤◌, All, length};
ghost use Rattle.p25_bits.specs.Bits.{part};
ghost use Rattle.p25_code.specs.{Erasures.{without_erased}, Readings.{word_read}};
ghost use Rattle.p25_coded_fields.specs.{Fixes.{field_fixes_of}, Layouts.{field_layout, symbols_or_erasures, outer_word_of}};

use crate::fixes::field_fixes;
use p25_bits::BitBuf;
use p25_code::{ErasedCode, NumberCode, Reading};
use p25_gf64::Sym;
use p25_link::put_symbols;

// Decodes the inner word at a position. The symbols become those of its information. If the word is uncorrectable, all
// are erased.
fn read_inner<I: NumberCode>(bare: &BitBuf, at: usize, symbols: &mut [Sym], erased: &mut [bool])
    requires code { I.HasCode }
    requires small { I.N ≤ 24 }
    requires sixes { 6 * length symbols.old ≡ I.K }
    requires same { length erased.old ≡ length symbols.old }
    requires there { at + I.N ≤ length bare.now }
    ensures { without_erased symbols.new erased.new ≡ symbols_or_erasures (length symbols.old) (I.reading_is (part at I.N bare.now)) }
{
    let received = bare.field(at, I::N as u32) as u32;
    match I::read_number(received) {
        Some(sent) => {
            put_symbols(u128::from(sent >> (I::N - I::K)), symbols);
            erased.fill(false);
        }
        None => erased.fill(true),
    }
}

/// Decodes a field of a data unit: the inner words at the positions, in order, and then the outer word of their
/// symbols. If no codeword of the inner code lies within the correction radius of the received word at a position, the
/// symbols there are erasures.
///
/// `word` receives the N symbols of the outer word. If the result is `Found`, they are those of the codeword that costs
/// at most N - K, two for each symbol error and one for each erasure. If the result is `Beyond`, there is no such
/// codeword, and the contract leaves `word` open. The fixes of `Found` are the bits in which the received inner words
/// differ from those transmitted for that codeword. TIA-102.BAAA, Voice Data Units.
pub fn read_field<I: NumberCode, O: ErasedCode<Letter = Sym>>(
    bare: &BitBuf,
    places: &[usize],
    word: &mut [Sym],
) -> Reading
    requires inner { I.HasCode }
    requires outer { O.HasCode }
    requires small { I.N ≤ 24 }
    requires sixes { 6 * (I.K / 6) ≡ I.K }
    requires short { O.N ≤ 36 }
    requires word { length word.old ≡ O.N }
    requires places { length places.now * (I.K / 6) ≡ O.N }
    requires there { All (λ at. at + I.N ≤ length bare.now) places.now }
    ensures value { word_read result word.new ≡ outer_word_of (field_layout places.now I.N (I.K / 6) I.reading_is O.erased_reading_is O.K) bare.now }
    ensures fixes { 0 < I.K → (fixes : ℕ) → result ≡ Reading.Found fixes
        → fixes ≡ field_fixes_of I.encoding_is I.N (I.K / 6) places.now word.new bare.now }
    ensures most { 0 < I.K → (fixes : ℕ) → result ≡ Reading.Found fixes → fixes ≤ 24 * length places.now }
{
    let each = I::K / 6;
    // If an inner word carries no symbol, the outer word has none.
    if each == 0 {
        return O::read_erased(word, &[]);
    }
    let mut gone = [false; 36];
    let erased = &mut gone[..word.len()];
    for (i, at) in places.iter().enumerate() {
        let (start, end) = (each * i, each * i + each);
        read_inner::<I>(bare, *at, &mut word[start..end], &mut erased[start..end]);
    }
    match O::read_erased(word, erased) {
        Reading::Found { .. } => Reading::Found {
            fixes: field_fixes::<I>(bare, places, word),
        },
        Reading::Beyond => Reading::Beyond,
    }
}
