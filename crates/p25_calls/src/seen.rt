//! The values that a call takes from an item.

ghost use Rattle.std.specs.Prelude.{◌≡◌, ◌+◌, ◌^◌, ◌<◌, ◌==◌, IfSome};
ghost use Rattle.p25_bch_nid.specs.Duids.{duid_tdulc};
ghost use Rattle.p25_calls.specs.Seen.{algid_in, is_header, is_link_unit, is_terminator, is_voice, link_in, unit_end, unit_of};
ghost use Rattle.p25_units.specs.Items.{IsSoundItem, covered, place_of};

use p25_bch_nid::{HDU, LDU1, LDU2, PDU, TDU, TDULC};
use p25_link::LinkControl;
use p25_units::{Body, Item, VoiceUnit, frame_length};

/// A data unit, as a call sees it.
#[derive(Clone, Copy, Debug, PartialEq, Eq)]
pub struct UnitSeen {
    /// The position of its first bit.
    pub place: u64,
    /// The number of its bits.
    pub bits: u64,
    /// Its network access code (NAC).
    pub nac: u16,
    /// Its data unit identifier (DUID).
    pub duid: u8,
    /// Whether some field of it fails.
    pub broken: bool,
    /// Its link control (LC), if it carries one and no field fails.
    pub link: Option<LinkControl>,
    /// Its algorithm, if it has one and no field fails.
    pub algid: Option<u8>,
}

impl UnitSeen {
    /// Returns whether it is a voice data unit: any but a packet (PDU).
    pub fn is_voice(&self) -> bool
        ensures { result ≡ is_voice self.now }
    {
        self.duid != PDU
    }

    /// Returns whether it is a header data unit (HDU).
    pub fn is_header(&self) -> bool
        ensures { result ≡ is_header self.now }
    {
        self.duid == HDU
    }

    /// Returns whether it is a link data unit: an LDU1 or an LDU2, which carry voice.
    pub fn is_link_unit(&self) -> bool
        ensures { result ≡ is_link_unit self.now }
    {
        self.duid == LDU1 || self.duid == LDU2
    }

    /// Returns whether it is a terminator, with link control (TDULC) or without (TDU).
    pub fn is_terminator(&self) -> bool
        ensures { result ≡ is_terminator self.now }
    {
        self.duid == TDU || self.duid == TDULC
    }

    /// Returns whether it is a terminator with link control (TDULC).
    pub fn has_tdulc(&self) -> bool
        ensures { result ≡ (self.now.duid == duid_tdulc) }
    {
        self.duid == TDULC
    }

    /// Returns the position after its last bit.
    pub fn end(&self) -> u64
        requires { unit_end self.now < 2 ^ 61 }
        ensures { result ≡ unit_end self.now }
    {
        self.place + self.bits
    }
}

/// Returns the data unit of an item. `None` is returned if and only if the item is neither a whole nor a broken data
/// unit.
pub fn seen_unit(item: &Item) -> Option<UnitSeen>
    requires { place_of item.now < 2 ^ 60 }
    ensures unit { result ≡ unit_of item.now }
    ensures place { IfSome result (λ unit. unit.place ≡ place_of item.now) }
    ensures end { IfSome result (λ unit. unit_end unit < 2 ^ 61) }
    ensures sound { IsSoundItem item.now → IfSome result (λ unit. unit.nac < 4096) }
{
    match item {
        Item::Whole { place, frame, .. } => Some(UnitSeen {
            place: *place,
            bits: frame_length(&frame.unit) as u64,
            nac: frame.unit.nac(),
            duid: frame.unit.body().duid(),
            broken: false,
            link: link_in(frame.unit.body()),
            algid: algid_in(frame.unit.body()),
        }),
        Item::Broken {
            place,
            length,
            nac,
            duid,
            ..
        } => Some(UnitSeen {
            place: *place,
            bits: u64::from(*length),
            nac: *nac,
            duid: *duid,
            broken: true,
            link: None,
            algid: None,
        }),
        Item::NoUnit { .. } | Item::Gap { .. } | Item::Cut { .. } => None,
    }
}

// Returns the link control (LC) of a data unit, if it is an LDU1 or a TDULC.
fn link_in(body: &Body) -> Option<LinkControl>
    ensures { result ≡ link_in body.now }
{
    match body {
        Body::Voice(VoiceUnit::Link1 { link, .. } | VoiceUnit::EndLink { link }) => Some(*link),
        Body::Voice(VoiceUnit::Header(_) | VoiceUnit::Link2 { .. } | VoiceUnit::End)
        | Body::Packet(_) => None,
    }
}

// Returns the algorithm of a data unit, if it is an HDU or an LDU2.
fn algid_in(body: &Body) -> Option<u8>
    ensures { result ≡ algid_in body.now }
{
    match body {
        Body::Voice(VoiceUnit::Header(word)) => Some(word.algid),
        Body::Voice(VoiceUnit::Link2 { sync, .. }) => Some(sync.algid),
        Body::Voice(VoiceUnit::Link1 { .. } | VoiceUnit::End | VoiceUnit::EndLink { .. })
        | Body::Packet(_) => None,
    }
}

/// Returns the position after the last bit of an item.
pub fn item_end(item: &Item) -> u64
    requires { place_of item.now < 2 ^ 60 }
    ensures value { result ≡ place_of item.now + covered item.now }
    ensures short { result < 2 ^ 61 }
{
    item.place() + item.covered()
}
