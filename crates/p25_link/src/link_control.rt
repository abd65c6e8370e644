//! Link control (LC).

ghost use Rattle.std.specs.Prelude.{◌≡◌, ◌≢◌, ◌↔◌, slice_index};
ghost use Rattle.p25_link.specs.{Kinds.{link_kind_of}, Words.{link_symbols, link_of_symbols, AreSymbolsOf, IsLinkControl, IsWordOf}};

use crate::symbols::{first_octets, symbols_of};
use p25_bits::{pair_at, triple_at};
use p25_gf64::Sym;

/// Link control (LC): nine octets with the source and the destination of a call. TIA-102.BAAA, Link Control Word.
#[derive(Clone, Copy, Debug, PartialEq, Eq)]
pub struct LinkControl(pub [u8; 9]);

/// The format of link control (LC), by its first octet. TIA-102.BAAA, Link Control Word, Formats.
#[derive(Clone, Copy, Debug, PartialEq, Eq)]
pub enum LinkKind {
    /// A call to a group (first octet 00 hex).
    Group {
        /// The manufacturer, octet 1.
        mfid: u8,
        /// Whether the call is an emergency: the first bit of octet 2.
        emergency: bool,
        /// The group, octets 4 and 5.
        group: u16,
        /// The radio unit that transmits, octets 6 to 8.
        source: u32,
    },
    /// A call from unit to unit (first octet 03 hex).
    Individual {
        /// The manufacturer, octet 1.
        mfid: u8,
        /// The radio unit that is called, octets 3 to 5.
        destination: u32,
        /// The radio unit that transmits, octets 6 to 8.
        source: u32,
    },
    /// Link control with another first octet, which is not interpreted.
    Other,
}

impl LinkControl {
    /// Returns the twelve symbols of the nine octets of link control (LC). TIA-102.BAAA, Link Control Word.
    pub fn symbols(&self) -> [Sym; 12]
        ensures { AreSymbolsOf link_symbols link_of_symbols IsLinkControl 12 self.now result }
    {
        symbols_of(&self.0, 0)
    }

    /// Returns the link control (LC) whose symbols these are. TIA-102.BAAA, Link Control Word.
    pub fn from_symbols(symbols: &[Sym; 12]) -> LinkControl
        ensures { IsWordOf link_symbols link_of_symbols symbols.now result }
    {
        LinkControl(first_octets(symbols))
    }

    /// Decodes link control (LC) by its first octet. `Other` is returned if and only if the first octet is neither 00
    /// nor 03 hex. TIA-102.BAAA, Link Control Word, Formats.
    pub fn kind(&self) -> LinkKind
        ensures value { result ≡ link_kind_of self.now }
        ensures other { (result ≡ LinkKind.Other) ↔ ((slice_index self.now.0 0 ≢ 0) × (slice_index self.now.0 0 ≢ 3)) }
    {
        let source = triple_at(&self.0, 6);
        match self.0[0] {
            0x00 => LinkKind::Group {
                mfid: self.0[1],
                emergency: self.0[2] / 128 == 1,
                group: pair_at(&self.0, 4),
                source,
            },
            0x03 => LinkKind::Individual {
                mfid: self.0[1],
                destination: triple_at(&self.0, 3),
                source,
            },
            _ => LinkKind::Other,
        }
    }
}
