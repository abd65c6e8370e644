//! Decoding of voice data units (HDU, LDU1, LDU2, TDU and TDULC) from bits.

ghost use Rattle.std.specs.Prelude.{◌≡◌, ◌⊎◌, ◌+◌, ◌*◌, ◌/◌, ◌<◌, ◌≤◌, ◌++◌, All, List, Some, IfErr, IfSome, length, option_map, slice_index, ℕ};
ghost use Rattle.p25_gf64.specs.declared.symbol.Sym.{Sym as symbol};
ghost use Rattle.p25_bch_nid.specs.Duids.{duid_ldu1, duid_ldu2};
ghost use Rattle.p25_hamming.specs.Hamming10Laws.{hamming10_reading_of};
ghost use Rattle.p25_reed_solomon.specs.{Encoding.{rs_word}, Words.{IsCode}, RsReadings.{rs_erased_reading_of}};
ghost use Rattle.p25_coded_fields.specs.{Fixes.{field_fixes_of}, Layouts.{field_layout, field_reading_of}};
ghost use Rattle.p25_hamming.specs.Hamming10.{hamming10_word};
ghost use Rattle.p25_voice_units.specs.{FieldLayouts.{tdulc_layout, word_places}, Fixes.{AreFixes, low_fixes_of}, Layouts.{ldu_rows}};
ghost use Rattle.p25_voice_units.specs.{Lengths.{voice_length_of}, Pieces.{IsInnerCode}};
ghost use Rattle.p25_voice_units.specs.Readings.{voice_in, low_in, header_in, link_in, missing, failing, header_from, ldu_from, tdulc_from, voice_reading_of};
ghost use Rattle.p25_voice_units.specs.declared.unit.VoiceUnit.{VoiceUnit as voice_unit};
ghost use Rattle.p25_status.specs.Outcomes.{read_or, IfRead};

use crate::places::{FRAMES, HDU_WORDS, LDU_WORDS, LOW_WORDS, TDULC_WORDS};
use crate::unit::VoiceUnit;
use crate::voice::{Voice, VoiceFrame};
use p25_bch_nid::{HDU, LDU1, LDU2, TDU, TDULC};
use p25_bits::BitBuf;
use p25_code::{NumberCode, Reading};
use p25_coded_fields::read_field;
use p25_gf64::Sym;
use p25_golay::{Golay18, Golay24};
use p25_hamming::{Hamming10, Lsd16};
use p25_link::{EncryptionSync, HeaderWord, LinkControl};
use p25_reed_solomon::Rs;
use p25_status::{Field, FieldList, ReadOutcome};

// Decodes a coded field, whose inner words are at the positions, to the symbols of its information. Returns the number
// of corrected bits of its inner words, or `None` if and only if the field fails.
fn read_symbols<I: NumberCode, const N: usize, const K: usize>(
    bare: &BitBuf,
    places: &[usize],
    symbols: &mut [Sym],
) -> Option<u32>
    requires inner { IsInnerCode I.HasCode I.N I.K }
    requires outer { IsCode N K }
    requires some { 0 < I.K }
    requires short { N ≤ 36 }
    requires places { length places.now * (I.K / 6) ≡ N }
    requires there { All (λ at. at + I.N ≤ length bare.now) places.now }
    requires room { length symbols.old ≡ K }
    ensures value { option_map (λ wrong. symbols.new) result
        ≡ field_reading_of (field_layout places.now I.N (I.K / 6) I.reading_is (rs_erased_reading_of N K) K) bare.now }
    ensures wrong { IfSome result (λ wrong. wrong ≡ field_fixes_of I.encoding_is I.N (I.K / 6) places.now (rs_word N K symbols.new) bare.now) }
    ensures most { IfSome result (λ wrong. wrong ≤ 24 * length places.now) }
{
    let mut word = [Sym::ZERO; N];
    match read_field::<I, Rs<N, K>>(bare, places, &mut word) {
        Reading::Found { fixes } => {
            symbols.copy_from_slice(&word[..K]);
            Some(fixes)
        }
        Reading::Beyond => None,
    }
}

// Decodes the low speed data (LSD) word of an index of an LDU1 or an LDU2 to its octet. Returns the number of its
// corrected bits, or `None` if and only if no codeword lies within 2 bits.
fn read_low(bare: &BitBuf, i: usize, octet: &mut u8) -> Option<u32>
    requires i { i < 2 }
    requires there { 1680 ≤ length bare.now }
    ensures value { option_map (λ wrong. octet.new) result ≡ low_in i bare.now }
    ensures wrong { IfSome result (λ wrong. wrong ≡ low_fixes_of i octet.new bare.now) }
    ensures most { IfSome result (λ wrong. wrong ≤ 16) }
{
    let received = bare.field(LOW_WORDS[i], 16) as u32;
    match Lsd16::read_number(received) {
        Some(sent) => {
            *octet = (sent >> 8) as u8;
            Some((received ^ sent).count_ones())
        }
        None => None,
    }
}

// Returns the nine voice frames of an LDU1 or an LDU2.
fn read_frames(bare: &BitBuf) -> Voice
    requires { 1680 ≤ length bare.now }
    ensures { result ≡ voice_in bare.now }
{
    let mut frames = [VoiceFrame([0; 18]); 9];
    for i in 0..9 {
        let mut octets = [0; 18];
        bare.take_numbers(FRAMES[i], 8, &mut octets);
        frames[i] = VoiceFrame(octets);
    }
    Voice::new(frames)
}

// Appends a field, if it is uncorrectable.
fn note(fields: &mut FieldList, field: Field, part: Option<u32>)
    requires { length fields.old < 127 }
    ensures list { fields.new ≡ fields.old ++ missing field part }
    ensures len { length fields.new ≤ length fields.old + 1 }
{
    if part.is_none() {
        fields.push(field);
    }
}

// Returns the failing fields of an LDU1 or an LDU2, in order.
fn failing_of(field: Field, word: Option<u32>, first: Option<u32>, second: Option<u32>) -> FieldList
    ensures { result ≡ failing field word first second }
{
    let mut fields = FieldList::new();
    note(&mut fields, field, word);
    note(&mut fields, Field::LowSpeed1, first);
    note(&mut fields, Field::LowSpeed2, second);
    fields
}

// Decodes the coded field of an LDU1 or an LDU2 to the symbols of its information, and the low speed data (LSD) words
// to their octets. `field` fails if the outer word is uncorrectable.
fn read_ldu<const K: usize>(
    bare: &BitBuf,
    field: Field,
    symbols: &mut [Sym],
    low: &mut [u8; 2],
) -> ReadOutcome
    requires code { IsCode 24 K }
    requires there { 1680 ≤ length bare.now }
    requires room { length symbols.old ≡ K }
    ensures value { (unit : List symbol → List ℕ → voice_unit) → read_or result (unit symbols.new low.new) ≡ ldu_from field unit
        (field_reading_of (field_layout (word_places 10 ldu_rows) 10 1 hamming10_reading_of (rs_erased_reading_of 24 K) K) bare.now)
        (low_in 0 bare.now) (low_in 1 bare.now) }
    ensures wrong { IfRead result (λ wrong. wrong ≡ field_fixes_of hamming10_word 10 1 (word_places 10 ldu_rows) (rs_word 24 K symbols.new) bare.now
        + (low_fixes_of 0 (slice_index low.new 0) bare.now + low_fixes_of 1 (slice_index low.new 1) bare.now)) }
    ensures most { IfRead result (λ wrong. wrong ≤ 608) }
{
    let (mut first, mut second) = (0, 0);
    let word = read_symbols::<Hamming10, 24, K>(bare, &LDU_WORDS, symbols);
    let low1 = read_low(bare, 0, &mut first);
    let low2 = read_low(bare, 1, &mut second);
    *low = [first, second];
    match (word, low1, low2) {
        (Some(word), Some(low1), Some(low2)) => ReadOutcome::Read {
            wrong: word + low1 + low2,
        },
        _ => ReadOutcome::Failing {
            fields: failing_of(field, word, low1, low2),
        },
    }
}

// Decodes an HDU, a header, into `unit`.
fn read_hdu(bare: &BitBuf, unit: &mut VoiceUnit) -> ReadOutcome
    requires { 770 ≤ length bare.now }
    ensures value { read_or result unit.new ≡ header_from (header_in bare.now) }
    ensures wrong { IfRead result (λ wrong. AreFixes unit.new bare.now wrong) }
    ensures most { IfRead result (λ wrong. wrong ≤ 864) }
{
    let mut symbols = [Sym::ZERO; 20];
    match read_symbols::<Golay18, 36, 20>(bare, &HDU_WORDS, &mut symbols) {
        Some(wrong) => {
            *unit = VoiceUnit::Header(HeaderWord::from_symbols(&symbols));
            ReadOutcome::Read { wrong }
        }
        None => ReadOutcome::failing(Field::HeaderWord),
    }
}

// Decodes a TDULC, a terminator with link control (LC), into `unit`.
fn read_tdulc(bare: &BitBuf, unit: &mut VoiceUnit) -> ReadOutcome
    requires { 420 ≤ length bare.now }
    ensures value { read_or result unit.new ≡ tdulc_from (link_in tdulc_layout bare.now) }
    ensures wrong { IfRead result (λ wrong. AreFixes unit.new bare.now wrong) }
    ensures most { IfRead result (λ wrong. wrong ≤ 864) }
{
    let mut symbols = [Sym::ZERO; 12];
    match read_symbols::<Golay24, 24, 12>(bare, &TDULC_WORDS, &mut symbols) {
        Some(wrong) => {
            *unit = VoiceUnit::EndLink {
                link: LinkControl::from_symbols(&symbols),
            };
            ReadOutcome::Read { wrong }
        }
        None => ReadOutcome::failing(Field::LinkControl),
    }
}

// Decodes a logical link data unit into `unit`: by its data unit identifier (DUID) an LDU1 or an LDU2.
fn read_logical_link(duid: u8, bare: &BitBuf, unit: &mut VoiceUnit) -> ReadOutcome
    requires kind { (duid ≡ duid_ldu1) ⊎ (duid ≡ duid_ldu2) }
    requires there { 1680 ≤ length bare.now }
    ensures value { read_or result unit.new ≡ voice_reading_of duid bare.now }
    ensures wrong { IfRead result (λ wrong. AreFixes unit.new bare.now wrong) }
    ensures most { IfRead result (λ wrong. wrong ≤ 864) }
{
    let (mut link, mut sync, mut low) = ([Sym::ZERO; 12], [Sym::ZERO; 16], [0; 2]);
    let outcome = if duid == LDU1 {
        read_ldu::<12>(bare, Field::LinkControl, &mut link, &mut low)
    } else {
        read_ldu::<16>(bare, Field::EncryptionSync, &mut sync, &mut low)
    };
    if let ReadOutcome::Read { .. } = outcome {
        let voice = read_frames(bare);
        *unit = if duid == LDU1 {
            let link = LinkControl::from_symbols(&link);
            VoiceUnit::Link1 { link, low, voice }
        } else {
            let sync = EncryptionSync::from_symbols(&sync);
            VoiceUnit::Link2 { sync, low, voice }
        };
    }
    outcome
}

/// Decodes bits without status symbols to the voice data unit (HDU, LDU1, LDU2, TDU or TDULC) of a data unit identifier
/// (DUID). It requires as many bits as a data unit of that type has. Each field is decoded by its own codes. The header
/// word, the link control and the encryption sync are decoded as `read_field` does, and each low speed data word if a
/// codeword lies within 2 bits. Voice frames are returned as received; the bits of sync and NID and the nulls are
/// ignored.
///
/// The error is the list of exactly the fields that fail, in order, and never empty. The field of an HDU is
/// `HeaderWord`. Those of an LDU1 are `LinkControl`, `LowSpeed1` and `LowSpeed2`, and those of an LDU2
/// `EncryptionSync`, `LowSpeed1` and `LowSpeed2`. That of a TDULC is `LinkControl`, and a TDU has no field that fails.
/// TIA-102.BAAA, Voice Data Units.
pub fn read_voice(duid: u8, bare: &BitBuf) -> Result<VoiceUnit, FieldList>
    requires { voice_length_of duid ≡ Some (length bare.now) }
    ensures reading { result ≡ voice_reading_of duid bare.now }
    ensures some { IfErr result (λ fields. 0 < length fields) }
{
    let mut unit = VoiceUnit::End;
    match read_voice_in(duid, bare, &mut unit) {
        ReadOutcome::Read { .. } => Ok(unit),
        ReadOutcome::Failing { fields } => Err(fields),
    }
}

/// Decodes bits into `unit`, to the voice data unit that `read_voice` returns. The outcome is `Failing` if and only if
/// that call refuses, with the same fields. Otherwise it is `Read` with the number of bit errors in the inner words and
/// the low speed data words. `voice_fixes` returns the same number for the data unit, whatever network access code its
/// image has. No image is made.
pub fn read_voice_in(duid: u8, bare: &BitBuf, unit: &mut VoiceUnit) -> ReadOutcome
    requires { voice_length_of duid ≡ Some (length bare.now) }
    ensures value { read_or result unit.new ≡ voice_reading_of duid bare.now }
    ensures wrong { IfRead result (λ wrong. AreFixes unit.new bare.now wrong) }
    ensures most { IfRead result (λ wrong. wrong ≤ 864) }
{
    match duid {
        HDU => read_hdu(bare, unit),
        TDU => {
            *unit = VoiceUnit::End;
            ReadOutcome::Read { wrong: 0 }
        }
        LDU1 => read_logical_link(duid, bare, unit),
        LDU2 => read_logical_link(duid, bare, unit),
        TDULC => read_tdulc(bare, unit),
        _ => unreachable!(),
    }
}
