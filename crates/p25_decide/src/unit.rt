//! The coded fields of a voice unit, written as they are decoded from its soft symbols.

ghost use Rattle.std.specs.Prelude.{◌≡◌, ◌+◌, ◌*◌, ◌/◌, ◌^◌, ◌<◌, ◌≤◌, All, Some, length};
ghost use Rattle.p25_bits.specs.Bits.{bits_of};
ghost use Rattle.p25_coded_fields.specs.Decided.{inner_words};
ghost use Rattle.p25_status.specs.Woven.{bare_of, statuses_of};
ghost use Rattle.p25_voice_units.specs.Lengths.{voice_length_of};
ghost use Rattle.p25_decide.specs.DecidedUnits.{decided_bare, decided_sent, low_decided, with_field, with_low_speed};

use crate::costs::{put_costs, put_field_costs};
use crate::words::put_words;
use p25_bch_nid::{HDU, LDU1, LDU2, TDULC};
use p25_bits::BitBuf;
use p25_code::{ErasedCode, NumberCode, cheapest};
use p25_coded_fields::{decide_field, put_coded};
use p25_gf64::Sym;
use p25_golay::{Golay18, Golay24};
use p25_hamming::{Hamming10, Lsd16};
use p25_reed_solomon::Rs;
use p25_status::{Statuses, unweave, weave};
use p25_voice_units::{HDU_WORDS, LDU_WORDS, LOW_WORDS, TDULC_WORDS};

// The most costs of a field: 36 words of nine dibits.
const FIELD_COSTS: usize = 1296;

// The number of costs of a codeword of low speed data (LSD), and of both.
const LOW_COSTS: usize = 32;

const BOTH_COSTS: usize = 64;

// The number of bits of a codeword of low speed data (LSD).
const LOW_BITS: u32 = 16;

// How many pairs of symbols are erased at most.
const HDU_PAIRS: usize = 3;

const LDU1_PAIRS: usize = 2;

const LDU2_PAIRS: usize = 1;

const TDULC_PAIRS: usize = 3;

// Writes a coded field as it is decoded from the soft symbols of the unit. `word` has capacity for the symbols of the outer codeword.
fn decide_coded<I: NumberCode, O: ErasedCode<Letter = Sym>>(
    places: &[usize],
    most: usize,
    levels: &[i8],
    word: &mut [Sym],
    bare: &mut BitBuf,
)
    requires inner { I.HasCode }
    requires outer { O.HasCode }
    requires pairs { 2 * (I.N / 2) ≡ I.N }
    requires small { I.N ≤ 24 }
    requires sixes { 6 * (I.K / 6) ≡ I.K }
    requires some { 0 < I.K }
    requires two { I.K ≤ 12 }
    requires short { O.N ≤ 36 }
    requires most { most ≤ 36 }
    requires few { length places.now ≤ 36 }
    requires room { 2 * I.N * length places.now ≤ 1296 }
    requires word { length word.old ≡ O.N }
    requires count { (I.K / 6) * length places.now ≡ O.N }
    requires bare { length bare.old ≡ 70 * (length levels.now / 36) }
    requires there { All (λ at. at + I.N ≤ length bare.old) places.now }
    ensures list { bare.new ≡ with_field (inner_words (length places.now) I.N (I.K / 6) I.encoding_is) O.erased_reading_is most places.now levels.now bare.old }
    ensures len { length bare.new ≡ length bare.old }
{
    let mut room = [0; FIELD_COSTS];
    let costs = &mut room[..2 * I::N * places.len()];
    put_field_costs(levels, places, I::N, costs);
    let _ = decide_field::<I, O>(costs, places.len(), most, word);
    let mut words = BitBuf::new();
    put_coded::<I>(word, places.len(), &mut words);
    put_words(&words, I::N, places, bare);
}

// Returns the codeword of low speed data (LSD) at a position as it is decoded from the soft symbols of the unit.
fn low_word(levels: &[i8], at: usize) -> u32
    requires { at / 2 + 8 ≤ 35 * (length levels.now / 36) }
    ensures word { bits_of 16 result ≡ low_decided levels.now at }
    ensures fits { result < 2 ^ 16 }
{
    let mut costs = [0; LOW_COSTS];
    put_costs(levels, at, &mut costs);
    Lsd16::encode_number(cheapest::<Lsd16>(&costs))
}

// Writes both codewords of low speed data (LSD) as they are decoded from the soft symbols of the unit.
fn decide_low_speed(levels: &[i8], bare: &mut BitBuf)
    requires levels { 1680 ≤ 70 * (length levels.now / 36) }
    requires bare { length bare.old ≡ 1680 }
    ensures list { bare.new ≡ with_low_speed levels.now bare.old }
    ensures len { length bare.new ≡ length bare.old }
{
    let mut words = BitBuf::new();
    words.put_field(u64::from(low_word(levels, LOW_WORDS[0])), LOW_BITS);
    words.put_field(u64::from(low_word(levels, LOW_WORDS[1])), LOW_BITS);
    put_words(&words, LOW_BITS as usize, &LOW_WORDS, bare);
}

// Writes the coded fields of a unit of a DUID without its status symbols.
fn decide_bare(duid: u8, levels: &[i8], bare: &mut BitBuf)
    requires kind { voice_length_of duid ≡ Some (length bare.old) }
    requires levels { length bare.old ≡ 70 * (length levels.now / 36) }
    ensures list { bare.new ≡ decided_bare duid levels.now bare.old }
    ensures len { length bare.new ≡ length bare.old }
{
    match duid {
        HDU => {
            let mut word = [Sym::ZERO; 36];
            decide_coded::<Golay18, Rs<36, 20>>(&HDU_WORDS, HDU_PAIRS, levels, &mut word, bare);
        }
        LDU1 => {
            let mut word = [Sym::ZERO; 24];
            decide_coded::<Hamming10, Rs<24, 12>>(&LDU_WORDS, LDU1_PAIRS, levels, &mut word, bare);
            decide_low_speed(levels, bare);
        }
        LDU2 => {
            let mut word = [Sym::ZERO; 24];
            decide_coded::<Hamming10, Rs<24, 16>>(&LDU_WORDS, LDU2_PAIRS, levels, &mut word, bare);
            decide_low_speed(levels, bare);
        }
        TDULC => {
            let mut word = [Sym::ZERO; 24];
            decide_coded::<Golay24, Rs<24, 12>>(&TDULC_WORDS, TDULC_PAIRS, levels, &mut word, bare);
        }
        _ => {}
    }
}

/// Writes the coded fields of a voice unit as they are decoded from its soft symbols. `raw` has the transmitted bits of the unit, with its
/// status symbols, and `levels` one level for each two of them. Each inner codeword is the one of least cost, of equal ones that with the
/// lowest information. The outer codeword is decoded with as few of the least reliable symbols erased as find one, at most 6 of an HDU, 4
/// of an LDU1, 2 of an LDU2 and 6 of a TDULC. If none is found, the inner codewords are written as they were decoded. All other bits stay,
/// as all bits of a terminator (TDU) do. TIA-102.BAAA, Voice Data Units; the soft symbols are this project's own.
pub fn decide_unit(duid: u8, levels: &[i8], raw: &mut BitBuf)
    requires kind { voice_length_of duid ≡ Some (70 * (length levels.now / 36)) }
    requires whole { 36 * (length levels.now / 36) ≡ length levels.now }
    requires levels { length raw.old ≡ 2 * length levels.now }
    ensures bits { raw.new ≡ decided_sent duid levels.now raw.old }
    ensures bare { bare_of raw.new ≡ decided_bare duid levels.now (bare_of raw.old) }
    ensures statuses { statuses_of raw.new ≡ statuses_of raw.old }
    ensures len { length raw.new ≡ length raw.old }
{
    let mut bare = BitBuf::new();
    let mut statuses = Statuses::new();
    unweave(raw, 0, raw.len(), &mut bare, &mut statuses);
    decide_bare(duid, levels, &mut bare);
    weave(&bare, &statuses, raw);
}
