//! The voice frames of an LDU1 or an LDU2.

ghost use Rattle.std.specs.Prelude.{◌≡◌, ◌<◌, length, slice_get, Some};

use std::marker::Model;

/// The 144 bits of a voice frame as eighteen octets, each octet's most significant bit first. They are carried as
/// received and not decoded. TIA-102.BAAA, Voice Code Words.
#[derive(Clone, Copy, Debug, PartialEq, Eq)]
pub struct VoiceFrame(pub [u8; 18]);

/// The nine voice frames of a logical link data unit, LDU1 or LDU2, in the order of transmission.
#[derive(Clone, Copy, Debug, PartialEq, Eq)]
pub struct Voice {
    frames: [VoiceFrame; 9],
}

impl Model for Voice {
    ghost use Rattle.std.specs.Prelude.{List, ◌≡◌, length};
    ghost use Rattle.p25_voice_units.specs.declared.voice.VoiceFrame.{VoiceFrame};

    ghost Value = { List VoiceFrame };

    ghost view = { λ voice. voice.frames };

    ghost invariant = { λ voice. length voice.frames ≡ 9 };

    ghost inverse = { λ frames. record { frames = frames } };
}

impl Voice {
    /// Returns the list of nine frames.
    pub fn new(frames: [VoiceFrame; 9]) -> Voice
        ensures list { result ≡ frames }
        ensures len { length result ≡ 9 }
    {
        Voice { frames }
    }

    /// Returns frame `i`, counted from 0.
    pub fn get(&self, i: usize) -> VoiceFrame
        requires { i < 9 }
        ensures { slice_get self.now i ≡ Some result }
    {
        self.frames[i]
    }

    /// Returns all nine frames, in order.
    pub fn frames(&self) -> &[VoiceFrame; 9]
        ensures value { result.now ≡ self.now }
        ensures len { length self.now ≡ 9 }
    {
        &self.frames
    }
}
