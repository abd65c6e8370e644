//! Fields of data units
//!
//! What a data unit carries as numbers and octets, without its text. Each struct is of fixed size and contains no pointer. A
//! member that states yes or no is set to 1 or 0; a call takes 0 for no and all else for yes.

ghost use Rattle.std.specs.Prelude.{◌≡◌, ℕ, ◌≤◌, pos, true};
ghost use Rattle.p25_c.specs.Building.{IsWritingUnder};
ghost use Rattle.p25_c.specs.Fields.{fields_answer, fields_built, fields_left, frame_octets, frames_held, item_unit, no_fields, unit_answer, unit_left, voice_fields, voice_held};
ghost use Rattle.p25_c.specs.Items.{items_asked};

use crate::answers::{NO_UNIT, OUTSIDE, WRONG_DUID};
use crate::building::{sent_symbol, write_whole};
use crate::items::{blank, find_at, is_inside};
use p25_bch_nid::{HDU, LDU1, LDU2, PDU, TDU, TDULC};
use p25_link::{EncryptionSync, HeaderWord, LinkControl};
use p25_units::{Body, Item, Unit, VoiceUnit};
use p25_voice_units::{Voice, VoiceFrame};

// What `p25_unit_fields` returns when it sets the fields.

/// the fields are those of the data unit
const FIELDS: i32 = 1;

/// The fields of a data unit. Its DUID states which of them it has; the others are 0. TIA-102.BAAA, Voice Data Units.
///
///     HDU     mi algid kid   mfid tgid
///     LDU1    lc             lsd voice
///     LDU2    mi algid kid   lsd voice
///     TDULC   lc
///     TDU, PDU have none beside nac and duid
#[derive(Clone, Copy)]
#[repr(C)]
pub struct FieldParts {
    /// the network access code (NAC), 0 to 4095
    pub nac: u16,
    /// the key (KID)
    pub kid: u16,
    /// the talk group (TGID)
    pub tgid: u16,
    /// the data unit identifier (DUID)
    pub duid: u8,
    /// the manufacturer (MFID)
    pub mfid: u8,
    /// the algorithm (ALGID); 80 hex means that the voice is not encrypted
    pub algid: u8,
    /// whether lc is there
    pub has_lc: u8,
    /// whether mi, algid and kid are there
    pub has_mi: u8,
    /// whether mfid and tgid are there
    pub has_tgid: u8,
    /// whether lsd and voice are there
    pub has_voice: u8,
    /// link control (LC), which p25_link_read reads
    pub lc: [u8; 9],
    /// the message indicator (MI)
    pub mi: [u8; 9],
    /// low speed data (LSD)
    pub lsd: [u8; 2],
    /// nine voice frames of 144 bits as received, in the order of transmission
    pub voice: [[u8; 18]; 9],
}

/// Sets `fields` to those of the whole data unit that begins at bit `from` of a recording, whose octets are given as for
/// `p25_next_item`, and returns `P25_FIELDS`. For an item that was returned, `from` is its first bit. Returns `P25_OUTSIDE` as
/// `p25_next_item` does, or `P25_NO_UNIT` if no whole data unit begins there; then `fields` stays. Since 1.1.
#[unsafe(no_mangle)]
pub extern "C" fn p25_unit_fields(
    octets: &[u8],
    begin: u64,
    from: u64,
    fields: &mut FieldParts,
) -> i32
    ensures answer { result ≡ fields_answer (items_asked true begin from octets.now) }
    ensures fields { fields.new ≡ fields_left (items_asked true begin from octets.now) fields.old }
{
    if !is_inside(begin, from, octets.len()) {
        return OUTSIDE;
    }
    let mut found = blank();
    if !find_at(octets, begin, from, true, &mut found) {
        return NO_UNIT;
    }
    tell_fields(&found, fields)
}

// Sets `fields` to those of an item if it is a whole unit, and returns whether it is.
fn tell_fields(found: &Item, fields: &mut FieldParts) -> i32
    ensures answer { result ≡ unit_answer (item_unit found.now) }
    ensures fields { fields.new ≡ unit_left (item_unit found.now) fields.old }
{
    match found {
        Item::Whole { frame, .. } => {
            let nac = frame.unit.nac();
            *fields = match frame.unit.body() {
                Body::Voice(voice) => voice_fields(nac, voice),
                Body::Packet(_) => no_fields(nac, PDU),
            };
            FIELDS
        }
        Item::Broken { .. } | Item::NoUnit { .. } | Item::Gap { .. } | Item::Cut { .. } => NO_UNIT,
    }
}

// Fields of which none is there.
fn no_fields(nac: u16, duid: u8) -> FieldParts
    ensures { result ≡ no_fields nac duid }
{
    FieldParts {
        nac,
        kid: 0,
        tgid: 0,
        duid,
        mfid: 0,
        algid: 0,
        has_lc: 0,
        has_mi: 0,
        has_tgid: 0,
        has_voice: 0,
        lc: [0; 9],
        mi: [0; 9],
        lsd: [0; 2],
        voice: [[0; 18]; 9],
    }
}

// The fields of a voice unit.
fn voice_fields(nac: u16, voice: &VoiceUnit) -> FieldParts
    ensures { result ≡ voice_fields nac voice.now }
{
    match voice {
        VoiceUnit::Header(word) => FieldParts {
            has_mi: 1,
            has_tgid: 1,
            mi: word.mi,
            mfid: word.mfid,
            algid: word.algid,
            kid: word.kid,
            tgid: word.tgid,
            ..no_fields(nac, HDU)
        },
        VoiceUnit::Link1 { link, low, voice } => FieldParts {
            has_lc: 1,
            has_voice: 1,
            lc: link.0,
            lsd: *low,
            voice: frame_octets(voice.frames()),
            ..no_fields(nac, LDU1)
        },
        VoiceUnit::Link2 { sync, low, voice } => FieldParts {
            has_mi: 1,
            has_voice: 1,
            mi: sync.mi,
            algid: sync.algid,
            kid: sync.kid,
            lsd: *low,
            voice: frame_octets(voice.frames()),
            ..no_fields(nac, LDU2)
        },
        VoiceUnit::End => no_fields(nac, TDU),
        VoiceUnit::EndLink { link } => FieldParts {
            has_lc: 1,
            lc: link.0,
            ..no_fields(nac, TDULC)
        },
    }
}

// The octets of voice frames.
fn frame_octets(frames: &[VoiceFrame; 9]) -> [[u8; 18]; 9]
    ensures { result ≡ frame_octets frames.now }
{
    let mut octets = [[0; 18]; 9];
    for i in 0..9 {
        octets[i] = frames[i].0;
    }
    octets
}

/// Writes the octets of the voice unit of `fields`, with the status symbol `status`, 0 to 3, everywhere. Its member duid states
/// which data unit it is, and so which members the call looks at: those of the table above. It does not look at has_lc and its
/// kin. Returns how many octets it wrote, 18 to 216; the octets of the buffer after them stay.
///
/// Else it writes nothing and returns the first of these that applies: `P25_WRONG_NAC`, `P25_WRONG_STATUS`, `P25_WRONG_DUID`,
/// `P25_NO_ROOM`. Since 1.1.
#[unsafe(no_mangle)]
pub extern "C" fn p25_build_fields(fields: &FieldParts, status: u8, octets: &mut [u8]) -> i32
    ensures built { IsWritingUnder fields.now.nac status (λ symbol. fields_built symbol fields.now) octets.old octets.new result }
    ensures count { (count : ℕ) → result ≡ pos count → (18 ≤ count) × (count ≤ 216) }
{
    match sent_symbol(fields.nac, status) {
        Ok(symbol) => match voice_held(fields) {
            Some(voice) => write_whole(Unit::new(fields.nac, Body::Voice(voice)), symbol, octets),
            None => WRONG_DUID,
        },
        Err(answer) => answer,
    }
}

// The voice unit of fields.
fn voice_held(fields: &FieldParts) -> Option<VoiceUnit>
    ensures { result ≡ voice_held fields.now }
{
    let (lc, mi, low) = (fields.lc, fields.mi, fields.lsd);
    match fields.duid {
        HDU => Some(VoiceUnit::Header(HeaderWord {
            mi,
            mfid: fields.mfid,
            algid: fields.algid,
            kid: fields.kid,
            tgid: fields.tgid,
        })),
        LDU1 => Some(VoiceUnit::Link1 {
            link: LinkControl(lc),
            low,
            voice: frames_held(&fields.voice),
        }),
        LDU2 => Some(VoiceUnit::Link2 {
            sync: EncryptionSync {
                mi,
                algid: fields.algid,
                kid: fields.kid,
            },
            low,
            voice: frames_held(&fields.voice),
        }),
        TDU => Some(VoiceUnit::End),
        TDULC => Some(VoiceUnit::EndLink {
            link: LinkControl(lc),
        }),
        _ => None,
    }
}

// The voice frames of octets.
fn frames_held(octets: &[[u8; 18]; 9]) -> Voice
    ensures { result ≡ frames_held octets.now }
{
    let mut frames = [VoiceFrame([0; 18]); 9];
    for i in 0..9 {
        frames[i] = VoiceFrame(octets[i]);
    }
    Voice::new(frames)
}

#[cfg(test)]
mod tests;
