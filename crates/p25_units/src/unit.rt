//! A data unit: its network and its body.

ghost use Rattle.std.specs.Prelude.{◌≡◌, ◌<◌, ◌≤◌, Ok, Some, length};
ghost use Rattle.p25_status.specs.Outcomes.{IfRead, read_or};
ghost use Rattle.p25_voice_units.specs.{Lengths.{voice_length_of}, Readings.{voice_reading_of}, declared.unit.VoiceUnit.TheVariants.{End}};
ghost use Rattle.p25_packet_blocks.specs.Reading.{header_bits, packet_reading_of, read_head_of, HasItsLength};
ghost use Rattle.p25_units.specs.{Fixes.{body_fixes_of}, Readings.{body_from, packet_body_from}, Units.{body_duid}, declared.unit.Body.TheVariants.{Voice}};

use p25_bch_nid::{Nid, PDU};
use p25_bits::BitBuf;
use p25_packet_blocks::{Packet, ReadHead};
use p25_status::ReadOutcome;
use p25_voice_units::{VoiceUnit, read_voice_in};
use std::marker::Model;

/// The body of a data unit, by its type.
#[derive(Clone, Debug, Drop, PartialEq, Eq)]
pub enum Body {
    /// A voice data unit: an HDU, an LDU1, an LDU2, a TDU or a TDULC.
    Voice(VoiceUnit),
    /// A packet of data (PDU).
    Packet(Packet),
}

impl Body {
    /// Returns the data unit identifier (DUID) of the data unit's type: that of HDU, LDU1, LDU2, TDU, TDULC or PDU.
    pub fn duid(&self) -> u8
        ensures value { result ≡ body_duid self.now }
        ensures fits { result ≤ 15 }
    {
        match self {
            Body::Voice(voice) => voice.duid(),
            Body::Packet(_) => PDU,
        }
    }
}

/// A data unit: its network access code (NAC), which is below 4,096, and its body.
#[derive(Clone, Debug, Drop, PartialEq, Eq)]
pub struct Unit {
    nac: u16,
    body: Body,
}

impl Model for Unit {
    ghost use Rattle.std.specs.Prelude.{◌≤◌};
    ghost use Rattle.p25_units.specs.UnitParts.{UnitParts};

    ghost Value = { UnitParts };

    ghost view = { λ unit. record { nac = unit.nac; body = unit.body } };

    ghost invariant = { λ unit. unit.nac ≤ 4095 };

    ghost inverse = { λ parts. record { nac = parts.nac; body = parts.body } };
}

impl Unit {
    /// Returns the data unit of a network access code (NAC) and a body.
    pub fn new(nac: u16, body: Body) -> Unit
        requires { nac < 4096 }
        ensures { result ≡ record { nac = nac; body = body } }
    {
        Unit { nac, body }
    }

    // Decodes bits without status symbols into the voice data unit (HDU, LDU1, LDU2, TDU or TDULC) of a network
    // identifier (NID). If it was a voice data unit before, no buffer for a packet is moved.
    pub(crate) fn read_voice(&mut self, nid: &Nid, bare: &BitBuf) -> ReadOutcome
        requires { voice_length_of nid.now.duid ≡ Some (length bare.now) }
        ensures nac { self.new.nac ≡ nid.now.nac }
        ensures body { read_or result self.new.body ≡ body_from (voice_reading_of nid.now.duid bare.now) }
        ensures wrong { IfRead result (λ wrong. wrong ≡ body_fixes_of self.new bare.now) }
        ensures most { IfRead result (λ wrong. wrong ≤ 864) }
    {
        self.nac = nid.nac;
        if let Body::Packet(_) = &self.body {
            self.make_voice();
        }
        match &mut self.body {
            Body::Voice(held) => read_voice_in(nid.duid, bare, held),
            Body::Packet(_) => unreachable!(),
        }
    }

    // Makes it carry a voice data unit, as a buffer into which one is decoded. A body is large and its buffer is
    // cleared, so it is made apart from its caller.
    #[inline(never)]
    fn make_voice(&mut self)
        ensures { self.new ≡ record self.old { body = Voice End } }
    {
        self.body = Body::Voice(VoiceUnit::End);
    }

    // Decodes a data unit without status symbols, whose header was decoded, into a packet (PDU) under a network access
    // code, and returns what `Packet::read` does. If it was a packet before, no buffer is moved. A packet is large, so
    // it is decoded apart from voice data units.
    #[inline(never)]
    pub(crate) fn read_packet(&mut self, nac: u16, read: ReadHead, bare: &BitBuf) -> ReadOutcome
        requires nac { nac < 4096 }
        requires head { read_head_of (header_bits bare.now) ≡ Ok read }
        requires there { HasItsLength bare.now }
        ensures nac { self.new.nac ≡ nac }
        ensures body { read_or result self.new.body ≡ packet_body_from (packet_reading_of bare.now) }
        ensures wrong { IfRead result (λ wrong. wrong ≡ body_fixes_of self.new bare.now) }
        ensures few { IfRead result (λ wrong. wrong ≤ length bare.now) }
    {
        self.nac = nac;
        match &mut self.body {
            Body::Packet(held) => held.read(read, bare),
            Body::Voice(_) => {
                let mut packet = Packet::empty();
                let outcome = packet.read(read, bare);
                self.body = Body::Packet(packet);
                outcome
            }
        }
    }

    /// Returns the network access code (NAC).
    pub fn nac(&self) -> u16
        ensures value { result ≡ self.now.nac }
        ensures fits { result < 4096 }
    {
        self.nac
    }

    /// Returns the body of the data unit.
    pub fn body(&self) -> &Body
        ensures { result.now ≡ self.now.body }
    {
        &self.body
    }
}
