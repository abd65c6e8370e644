//! The flags of a selective retry (PDU): a list of bounded length, one for each block.

ghost use Rattle.std.specs.{Prelude.{◌≡◌, ◌<◌, ◌⊎◌, ◌↔◌, false, length, replicate, slice_get, slice_set, Some, IsSome}, Bool.{beq}};
ghost use Rattle.std.specs.{Cmp.{bool_eq_equiv, partial_equiv_from_equiv}, Cmp.Lexicographic.{pointwise, lists_equiv}};
ghost use Rattle.p25_bits.specs.Bits.{octet_bits};
ghost use Rattle.p25_packet_blocks.specs.FlagOctets.{flag_octets, flags_of_octets};

use crate::packet::Octets;
use p25_bits::BitBuf;
use std::marker::Model;

/// The flags of a selective retry (PDU), one for each block of a message: true means that the block was received. There are 64
/// or 128. TIA-102.BAAA, Packet Data.
#[derive(Clone, Debug, Drop)]
pub struct Flags {
    flags: [bool; 128],
    count: usize,
}

impl Model for Flags {
    ghost use Rattle.std.specs.Prelude.{◌≡◌, ◌⊎◌, List, Bool, take};

    ghost Value = { List Bool };

    ghost view = { λ flags. take flags.count flags.flags };

    ghost invariant = { λ flags. (flags.count ≡ 64) ⊎ (flags.count ≡ 128) };
}

impl Flags {
    /// Returns flags that are all false. It requires a count of 64 or 128.
    pub fn new(count: usize) -> Flags
        requires { (count ≡ 64) ⊎ (count ≡ 128) }
        ensures { result ≡ replicate count false }
    {
        Flags {
            flags: [false; 128],
            count,
        }
    }

    /// Returns the number of flags.
    pub fn len(&self) -> usize
        ensures value { result ≡ length self.now }
        ensures counts { (result ≡ 64) ⊎ (result ≡ 128) }
    {
        self.count
    }

    /// Returns all flags, in order.
    pub fn as_slice(&self) -> &[bool]
        ensures value { result.now ≡ self.now }
        ensures counts { (length self.now ≡ 64) ⊎ (length self.now ≡ 128) }
    {
        &self.flags[..self.count]
    }

    /// Returns flag `i`, counted from 0. It requires `i` below their number.
    pub fn get(&self, i: usize) -> bool
        requires { i < length self.now }
        ensures { slice_get self.now i ≡ Some result }
    {
        self.flags[i]
    }

    /// Writes flag `i`, counted from 0. It requires `i` below their number.
    pub fn set(&mut self, i: usize, flag: bool)
        requires { i < length self.old }
        ensures { self.new ≡ slice_set self.old i flag }
    {
        self.flags[i] = flag;
    }
}

/// Flags are equal if there are equally many and each is the same.
impl PartialEq for Flags {
    ghost eq = { pointwise beq };

    ghost laws = { partial_equiv_from_equiv (lists_equiv bool_eq_equiv) };

    fn eq(&self, other: &Flags) -> bool {
        self.as_slice() == other.as_slice()
    }
}

impl Eq for Flags {
    ghost laws = { lists_equiv bool_eq_equiv };
}

/// Encodes flags: returns the octets that a selective retry carries for them before its packet CRC. They are 8 octets
/// for 64 flags, and 20 for 128 flags, with four octets of 0 at the end. The first flag is the most significant bit of
/// the first octet. TIA-102.BAAA, Packet Data.
pub fn flags_make(flags: &Flags) -> Octets
    ensures octets { result ≡ flag_octets flags.now }
    ensures read { flags_of_octets result ≡ Some flags.now }
{
    let mut bits = BitBuf::new();
    bits.extend(&flags.flags[..flags.count]);
    let mut octets = Octets::new();
    for place in 0..bits.len() / 8 {
        octets.push(bits.field(8 * place, 8) as u8);
    }
    if bits.len() == 128 {
        octets.extend(&[0; 4]);
    }
    octets
}

// Returns the flags that octets write, eight an octet.
fn flags_in(octets: &[u8]) -> Flags
    requires { (length octets.now ≡ 8) ⊎ (length octets.now ≡ 16) }
    ensures { result ≡ octet_bits octets.now }
{
    let mut bits = BitBuf::new();
    bits.put_numbers(octets, 8);
    let mut flags = Flags::new(bits.len());
    for i in 0..bits.len() {
        flags.set(i, bits.get(i));
    }
    flags
}

/// Decodes the octets that a selective retry carried before its packet CRC: 64 flags from 8 octets, or 128 from the
/// first 16 of 20 octets. `None` is returned if and only if there are neither 8 nor 20 octets. TIA-102.BAAA, Packet
/// Data.
pub fn flags_read(octets: &Octets) -> Option<Flags>
    ensures flags { result ≡ flags_of_octets octets.now }
    ensures there { IsSome result ↔ ((length octets.now ≡ 8) ⊎ (length octets.now ≡ 20)) }
{
    let all = octets.octets();
    match all.len() {
        8 => Some(flags_in(all)),
        20 => Some(flags_in(&all[..16])),
        _ => None,
    }
}
