//! Encoding of fields.

ghost use Rattle.std.specs.Prelude.{◌≡◌, ◌+◌, ◌*◌, ◌/◌, ◌≤◌, ◌++◌, length};
ghost use Rattle.p25_link.specs.Symbols.{symbol_bits};
ghost use Rattle.p25_coded_fields.specs.Layouts.{field_bits};

use p25_bits::BitBuf;
use p25_code::NumberCode;
use p25_gf64::Sym;
use p25_link::symbols_number;

// Appends the inner codeword whose information is the symbols.
fn put_inner<I: NumberCode>(symbols: &[Sym], out: &mut BitBuf)
    requires code { I.HasCode }
    requires small { I.N ≤ 24 }
    requires sixes { 6 * length symbols.now ≡ I.K }
    requires room { length out.old + I.N ≤ 25928 }
    ensures list { out.new ≡ out.old ++ I.encoding_is (symbol_bits symbols.now) }
    ensures len { length out.new ≡ length out.old + I.N }
{
    let word = I::encode_number(symbols_number(symbols) as u32);
    out.put_field(u64::from(word), I::N as u32);
}

/// Encodes symbols: appends `count` inner codewords, whose information is the symbols in order, each with as many
/// symbols as its information has. TIA-102.BAAA, Voice Data Units.
pub fn put_coded<I: NumberCode>(symbols: &[Sym], count: usize, out: &mut BitBuf)
    requires code { I.HasCode }
    requires small { I.N ≤ 24 }
    requires sixes { 6 * (I.K / 6) ≡ I.K }
    requires symbols { (I.K / 6) * count ≡ length symbols.now }
    requires room { length out.old + I.N * count ≤ 25928 }
    ensures list { out.new ≡ out.old ++ field_bits I.encoding_is (I.K / 6) count symbols.now }
    ensures len { length out.new ≡ length out.old + I.N * count }
{
    let each = I::K / 6;
    for i in 0..count {
        put_inner::<I>(&symbols[each * i..each * i + each], out);
    }
}
