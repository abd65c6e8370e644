//! Codewords of the Reed-Solomon codes with erasures as octets

ghost use Rattle.std.specs.Prelude.{◌≡◌, length, map};
ghost use Rattle.p25_c.specs.Marks.{is_marked};
ghost use Rattle.p25_code.specs.Erasures.{without_erased};
ghost use Rattle.p25_reed_solomon.specs.RsReadings.{rs_erased_reading_of};
ghost use Rattle.p25_c.specs.Symbols.{IsSymbolReading};

use crate::word_calls::read_with_erased;

/// Decodes a received word of the code (36,20) as `p25_rs_36_20_read_erased` does. A symbol whose mark is not 0 is erased.
/// Since 1.1.
#[unsafe(no_mangle)]
pub extern "C" fn p25_rs_36_20_read_marked(symbols: &mut [u8; 36], marks: &[u8; 36]) -> i32
    ensures { IsSymbolReading (λ received. rs_erased_reading_of 36 20 (without_erased received (map is_marked marks.now))) symbols.old symbols.new result }
{
    let mut erased = [false; 36];
    set_erased(marks, &mut erased);
    read_with_erased::<36, 20>(symbols, &erased)
}

/// Decodes a received word of the code (24,12) as `p25_rs_24_12_read_erased` does. A symbol whose mark is not 0 is erased.
/// Since 1.1.
#[unsafe(no_mangle)]
pub extern "C" fn p25_rs_24_12_read_marked(symbols: &mut [u8; 24], marks: &[u8; 24]) -> i32
    ensures { IsSymbolReading (λ received. rs_erased_reading_of 24 12 (without_erased received (map is_marked marks.now))) symbols.old symbols.new result }
{
    let mut erased = [false; 24];
    set_erased(marks, &mut erased);
    read_with_erased::<24, 12>(symbols, &erased)
}

/// Decodes a received word of the code (24,16) as `p25_rs_24_16_read_erased` does. A symbol whose mark is not 0 is erased.
/// Since 1.1.
#[unsafe(no_mangle)]
pub extern "C" fn p25_rs_24_16_read_marked(symbols: &mut [u8; 24], marks: &[u8; 24]) -> i32
    ensures { IsSymbolReading (λ received. rs_erased_reading_of 24 16 (without_erased received (map is_marked marks.now))) symbols.old symbols.new result }
{
    let mut erased = [false; 24];
    set_erased(marks, &mut erased);
    read_with_erased::<24, 16>(symbols, &erased)
}

// Sets which symbols are erased: those whose mark is not 0.
fn set_erased(marks: &[u8], erased: &mut [bool])
    requires { length erased.old ≡ length marks.now }
    ensures { erased.new ≡ map is_marked marks.now }
{
    for i in 0..marks.len() {
        erased[i] = marks[i] != 0;
    }
}
