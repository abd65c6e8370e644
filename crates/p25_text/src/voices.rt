//! The lines of voice data units (HDU, LDU1, LDU2, TDU and TDULC): written, and their values read from words.

ghost use Rattle.std.specs.Prelude.{◌≡◌, ◌+◌, ◌*◌, ◌≤◌, ◌++◌, length, take, drop};
ghost use Rattle.hex.specs.Hex.{encode_lower};
ghost use Rattle.p25_text.specs.{Grammar.{text_of}, Voices.{frame_octets, frames_of, voice_in}, declared.names.UnitKind.TheVariants.{Hdu, Ldu1, Ldu2, Tdulc}};

use super::names::UnitKind;
use super::values::{Values, octets_value};
use super::write::{put_key, put_start, put_value};
use p25_line::Line;
use p25_link::{EncryptionSync, HeaderWord, LinkControl};
use p25_units::Body;
use p25_voice_units::{Voice, VoiceFrame, VoiceUnit};

/// Appends the line of a voice data unit.
pub fn put_voice(nac: u16, unit: &VoiceUnit, out: &mut Line)
    requires { length out.old + 4700 ≤ 8192 }
    ensures text { out.new ≡ out.old ++ text_of (record { nac = nac; body = Body.Voice unit.now }) }
    ensures short { length out.new ≤ length out.old + 4700 }
{
    match unit {
        VoiceUnit::Header(word) => {
            put_start(UnitKind::Hdu, nac, out);
            put_value(UnitKind::Hdu, 1, &word.mi, out);
            put_value(UnitKind::Hdu, 2, &[word.mfid], out);
            put_value(UnitKind::Hdu, 3, &[word.algid], out);
            put_value(UnitKind::Hdu, 4, &word.kid.to_be_bytes(), out);
            put_value(UnitKind::Hdu, 5, &word.tgid.to_be_bytes(), out);
        }
        VoiceUnit::Link1 { link, low, voice } => {
            put_start(UnitKind::Ldu1, nac, out);
            put_value(UnitKind::Ldu1, 1, &link.0, out);
            put_value(UnitKind::Ldu1, 2, low, out);
            put_key(UnitKind::Ldu1, 3, out);
            put_frames(voice, out);
        }
        VoiceUnit::Link2 { sync, low, voice } => {
            put_start(UnitKind::Ldu2, nac, out);
            put_value(UnitKind::Ldu2, 1, &sync.mi, out);
            put_value(UnitKind::Ldu2, 2, &[sync.algid], out);
            put_value(UnitKind::Ldu2, 3, &sync.kid.to_be_bytes(), out);
            put_value(UnitKind::Ldu2, 4, low, out);
            put_key(UnitKind::Ldu2, 5, out);
            put_frames(voice, out);
        }
        VoiceUnit::End => put_start(UnitKind::Tdu, nac, out),
        VoiceUnit::EndLink { link } => {
            put_start(UnitKind::Tdulc, nac, out);
            put_value(UnitKind::Tdulc, 1, &link.0, out);
        }
    }
}

// Appends the octets of the voice frames of an LDU1 or an LDU2.
fn put_frames(voice: &Voice, out: &mut Line)
    requires { length out.old + 324 ≤ 8192 }
    ensures text { out.new ≡ out.old ++ encode_lower (frame_octets voice.now) }
    ensures short { length out.new ≤ length out.old + 324 }
{
    let frames = voice.frames();
    for frame in frames {
        out.put_hex(&frame.0);
    }
}

/// Returns the header (HDU) of the values of a line. `None` is returned if and only if a value does not have its form.
pub fn hdu_value(values: &Values) -> Option<VoiceUnit>
    requires { length values.now ≡ 6 }
    ensures { result ≡ voice_in Hdu (drop 1 values.now) }
{
    let mi = octets_value::<9>(values.get(1))?;
    let mfid = octets_value::<1>(values.get(2))?;
    let algid = octets_value::<1>(values.get(3))?;
    let kid = octets_value::<2>(values.get(4))?;
    let tgid = octets_value::<2>(values.get(5))?;
    Some(VoiceUnit::Header(HeaderWord {
        mi,
        mfid: mfid[0],
        algid: algid[0],
        kid: u16::from_be_bytes(kid),
        tgid: u16::from_be_bytes(tgid),
    }))
}

/// Returns the LDU1, voice with link control, of the values of a line. `None` is returned if and only if a value does
/// not have its form.
pub fn ldu1_value(values: &Values) -> Option<VoiceUnit>
    requires { length values.now ≡ 4 }
    ensures { result ≡ voice_in Ldu1 (drop 1 values.now) }
{
    let link = octets_value::<9>(values.get(1))?;
    let low = octets_value::<2>(values.get(2))?;
    let voice = octets_value::<162>(values.get(3))?;
    Some(VoiceUnit::Link1 {
        link: LinkControl(link),
        low,
        voice: frames(&voice),
    })
}

/// Returns the LDU2, voice with encryption sync, of the values of a line. `None` is returned if and only if a value
/// does not have its form.
pub fn ldu2_value(values: &Values) -> Option<VoiceUnit>
    requires { length values.now ≡ 6 }
    ensures { result ≡ voice_in Ldu2 (drop 1 values.now) }
{
    let mi = octets_value::<9>(values.get(1))?;
    let algid = octets_value::<1>(values.get(2))?;
    let kid = octets_value::<2>(values.get(3))?;
    let low = octets_value::<2>(values.get(4))?;
    let voice = octets_value::<162>(values.get(5))?;
    Some(VoiceUnit::Link2 {
        sync: EncryptionSync {
            mi,
            algid: algid[0],
            kid: u16::from_be_bytes(kid),
        },
        low,
        voice: frames(&voice),
    })
}

/// Returns the TDULC, a terminator with link control, of the values of a line. `None` is returned if and only if a
/// value does not have its form.
pub fn tdulc_value(values: &Values) -> Option<VoiceUnit>
    requires { length values.now ≡ 2 }
    ensures { result ≡ voice_in Tdulc (drop 1 values.now) }
{
    let link = octets_value::<9>(values.get(1))?;
    Some(VoiceUnit::EndLink {
        link: LinkControl(link),
    })
}

// Returns the nine voice frames of an LDU1 or an LDU2, of their octets.
fn frames(octets: &[u8; 162]) -> Voice
    requires { length octets.now ≡ 162 }
    ensures { result ≡ frames_of 9 octets.now }
{
    Voice::new([
        frame(octets, 0),
        frame(octets, 1),
        frame(octets, 2),
        frame(octets, 3),
        frame(octets, 4),
        frame(octets, 5),
        frame(octets, 6),
        frame(octets, 7),
        frame(octets, 8),
    ])
}

// Returns voice frame `i` of octets.
fn frame(octets: &[u8], i: usize) -> VoiceFrame
    requires { 18 * i + 18 ≤ length octets.now }
    ensures { result ≡ record { 0 = take 18 (drop (18 * i) octets.now) } }
{
    let mut frame = [0; 18];
    frame.copy_from_slice(&octets[18 * i..18 * i + 18]);
    VoiceFrame(frame)
}
