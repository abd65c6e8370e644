//! Voice data units (HDU, LDU1, LDU2, TDU and TDULC) as bits.

ghost use Rattle.std.specs.{Prelude.{◌≡◌, ◌+◌, ◌/◌, ◌<◌, ◌≤◌, ◌++◌, Ok, Some, true, length, sum_by}, List.{list_all}};
ghost use Rattle.p25_bits.specs.Bits.{octet_bits};
ghost use Rattle.p25_reed_solomon.specs.{Encoding.{rs_word}, Words.{IsCode}};
ghost use Rattle.p25_voice_units.specs.{Images.{piece_bits, rows_bits, contents, voice_body, voice_image_of}, Lengths.{voice_duid, voice_length_of}};
ghost use Rattle.p25_voice_units.specs.{Readings.{voice_reading_of}, Pieces.{piece_fits, piece_length, IsInnerCode}, Sendable.{IsSendableVoice, IsSpeech}};

use crate::layout::{HDU_ROWS, LDU_ROWS, Piece, TDU_ROWS, TDULC_ROWS};
use crate::unit::VoiceUnit;
use crate::voice::{Voice, VoiceFrame};
use p25_bch_nid::Nid;
use p25_bits::BitBuf;
use p25_bits::laws::octets_fit;
use p25_code::{BlockCode, NumberCode};
use p25_coded_fields::put_coded;
use p25_gf64::Sym;
use p25_golay::{Golay18, Golay24};
use p25_hamming::{Hamming10, Lsd16};
use p25_reed_solomon::Rs;
use p25_unit_front::put_front;

// Appends the octets of a voice frame.
fn put_frame(octets: &[u8; 18], out: &mut BitBuf)
    requires { length out.old + 144 ≤ 25928 }
    ensures list { out.new ≡ out.old ++ octet_bits octets.now }
    ensures len { length out.new ≡ length out.old + 144 }
{
    // For the prover: octets are below 256.
    octets_fit(octets);
    out.put_eight(octets);
    out.put_eight(&octets[8..]);
    out.put_numbers(&octets[16..], 8);
}

// Appends a part of a data unit, whose inner codewords carry the symbols.
fn put_piece<I: NumberCode>(
    piece: Piece,
    symbols: &[Sym],
    low: &[u8],
    frames: &[VoiceFrame],
    out: &mut BitBuf,
)
    requires inner { IsInnerCode I.HasCode I.N I.K }
    requires fits { piece_fits (I.K / 6) (length symbols.now) (length low.now) (length frames.now) piece ≡ true }
    requires room { length out.old + piece_length I.N piece ≤ 25928 }
    ensures list { out.new ≡ out.old ++ piece_bits (contents I.encoding_is (I.K / 6) symbols.now low.now frames.now) piece }
    ensures len { length out.new ≡ length out.old + piece_length I.N piece }
{
    let each = I::K / 6;
    match piece {
        Piece::Words(first, count) => {
            let start = each * first;
            put_coded::<I>(&symbols[start..start + each * count], count, out);
        }
        Piece::Frame(i) => put_frame(&frames[i].0, out),
        Piece::LowSpeed(i) => {
            let word = Lsd16::encode_number(u32::from(low[i]));
            out.put_field(u64::from(word), 16);
        }
        Piece::Nulls(count) => out.put_field(0, count as u32),
    }
}

// Appends the parts of the rows of a layout, in order.
fn put_rows<I: NumberCode>(
    rows: &[(usize, Piece)],
    symbols: &[Sym],
    low: &[u8],
    frames: &[VoiceFrame],
    out: &mut BitBuf,
)
    requires inner { IsInnerCode I.HasCode I.N I.K }
    requires fits { list_all (λ row. piece_fits (I.K / 6) (length symbols.now) (length low.now) (length frames.now) row.1) rows.now ≡ true }
    requires room { length out.old + sum_by (λ row. piece_length I.N row.1) rows.now ≤ 25928 }
    ensures list { out.new ≡ out.old ++ rows_bits (contents I.encoding_is (I.K / 6) symbols.now low.now frames.now) rows.now }
    ensures len { length out.new ≡ length out.old + sum_by (λ row. piece_length I.N row.1) rows.now }
{
    for row in rows {
        put_piece::<I>(row.1, symbols, low, frames, out);
    }
}

// Appends the parts of the rows of a layout, whose inner codewords carry the outer codeword of an information.
fn put_coded_rows<I: NumberCode, const N: usize, const K: usize>(
    rows: &[(usize, Piece)],
    information: &[Sym],
    low: &[u8],
    frames: &[VoiceFrame],
    out: &mut BitBuf,
)
    requires outer { IsCode N K }
    requires inner { IsInnerCode I.HasCode I.N I.K }
    requires information { length information.now ≡ K }
    requires fits { list_all (λ row. piece_fits (I.K / 6) N (length low.now) (length frames.now) row.1) rows.now ≡ true }
    requires room { length out.old + sum_by (λ row. piece_length I.N row.1) rows.now ≤ 25928 }
    ensures list { out.new ≡ out.old ++ rows_bits (contents I.encoding_is (I.K / 6) (rs_word N K information.now) low.now frames.now) rows.now }
    ensures len { length out.new ≡ length out.old + sum_by (λ row. piece_length I.N row.1) rows.now }
{
    let mut symbols = [Sym::ZERO; N];
    Rs::<N, K>::encode(information, &mut symbols);
    put_rows::<I>(rows, &symbols, low, frames, out);
}

// For the prover: the octets of low speed data (LSD) and of voice frames are below 256. The function has no effect.
fn fit_speech(low: &[u8; 2], voice: &Voice)
    ensures { IsSpeech low.now voice.now }
{
    octets_fit(low);
    for frame in voice.frames() {
        octets_fit(&frame.0);
    }
}

// Appends the bits after sync and NID: the parts of the data unit's layout.
fn put_body(unit: &VoiceUnit, out: &mut BitBuf)
    requires { length out.old ≡ 112 }
    ensures list { out.new ≡ out.old ++ voice_body unit.now }
    ensures len { voice_length_of (voice_duid unit.now) ≡ Some (length out.new) }
    ensures sendable { IsSendableVoice unit.now }
{
    match unit {
        VoiceUnit::Header(word) => {
            put_coded_rows::<Golay18, 36, 20>(&HDU_ROWS, &word.symbols(), &[], &[], out);
        }
        VoiceUnit::Link1 { link, low, voice } => {
            fit_speech(low, voice);
            let information = link.symbols();
            put_coded_rows::<Hamming10, 24, 12>(&LDU_ROWS, &information, low, voice.frames(), out);
        }
        VoiceUnit::Link2 { sync, low, voice } => {
            fit_speech(low, voice);
            let information = sync.symbols();
            put_coded_rows::<Hamming10, 24, 16>(&LDU_ROWS, &information, low, voice.frames(), out);
        }
        VoiceUnit::End => put_rows::<Golay18>(&TDU_ROWS, &[], &[], &[], out),
        VoiceUnit::EndLink { link } => {
            put_coded_rows::<Golay24, 24, 12>(&TDULC_ROWS, &link.symbols(), &[], &[], out);
        }
    }
}

/// Encodes a voice data unit (HDU, LDU1, LDU2, TDU or TDULC): writes to `out` its bits without status symbols, first to
/// last. They are sync and NID and the parts of its layout. It requires a network access code below 4,096.
/// TIA-102.BAAA, Voice Data Units.
pub fn voice_image(nac: u16, unit: &VoiceUnit, out: &mut BitBuf)
    requires { nac < 4096 }
    ensures list { out.new ≡ voice_image_of nac unit.now }
    ensures len { voice_length_of (voice_duid unit.now) ≡ Some (length out.new) }
    ensures sendable { IsSendableVoice unit.now }
    ensures again { voice_reading_of (voice_duid unit.now) out.new ≡ Ok unit.now }
{
    out.clear();
    let duid = unit.duid();
    put_front(&Nid { nac, duid }, out);
    put_body(unit, out);
}
