//! The network identifier (NID) of a data unit: its type and how it is built.

ghost use Rattle.std.specs.Prelude.{◌≡◌, ◌≤◌, ◌↔◌, ◌+◌, ◌*◌, ◌/◌, ◌%◌, IsSome, IfSome};

/// A network identifier (NID): the network of the traffic, and the type of the data unit that follows. TIA-102.BAAA,
/// Network Identifier.
#[derive(Clone, Copy, Debug, PartialEq, Eq)]
pub struct Nid {
    /// The network access code (NAC), below 4,096.
    pub nac: u16,
    /// The data unit identifier (DUID), below 16.
    pub duid: u8,
    ghost nac_fits: { nac ≤ 4095 },
    ghost duid_fits: { duid ≤ 15 },
}

/// A decoded network identifier (NID) with its number of bit errors.
#[derive(Clone, Copy, Debug, PartialEq, Eq)]
pub struct ReadNid {
    /// The identifier.
    pub nid: Nid,
    /// The number of its first 63 bits in which the received bits differ from the transmitted ones: the corrected bit
    /// errors.
    pub wrong: u32,
}

impl Nid {
    /// Returns the network identifier (NID) of a network access code (NAC) and a data unit identifier (DUID). `None` is
    /// returned if and only if the first is above 4,095 or the second above 15.
    pub fn new(nac: u16, duid: u8) -> Option<Nid>
        ensures fits { IsSome result ↔ ((nac ≤ 4095) × (duid ≤ 15)) }
        ensures value { IfSome result (λ nid. (nid.nac ≡ nac) × (nid.duid ≡ duid)) }
    {
        if nac <= 4095 && duid <= 15 {
            Some(Nid { nac, duid })
        } else {
            None
        }
    }
}

/// Returns the network identifier (NID) of a number: twelve bits of NAC and four bits of DUID, the highest first. Each
/// number has one.
impl From<u16> for Nid {
    ghost from_gives = { λ number nid. (nid.nac ≡ number / 16) × (nid.duid ≡ number % 16) };

    fn from(number: u16) -> Nid {
        Nid {
            nac: number / 16,
            duid: (number % 16) as u8,
        }
    }
}

/// Returns the number of a network identifier (NID): twelve bits of NAC and four bits of DUID, the highest first. It is
/// the information of the codeword.
impl From<Nid> for u16 {
    ghost from_gives = { λ nid number. number ≡ 16 * nid.nac + nid.duid };

    fn from(nid: Nid) -> u16 {
        16 * nid.nac + u16::from(nid.duid)
    }
}
