//! The header of a packet (PDU): its type, its fields, and the headers that are built from them.

ghost use Rattle.std.specs.Prelude.{◌≡◌, ◌^◌, ◌<◌, true, false};
ghost use Rattle.p25_packet_blocks.specs.Heads.{head_format, head_is_full, head_blocks, head_pad, head_llid, head_syn, head_number, response_class, response_kind, response_status, confirmed_head, plain_head, response_head, opening_head, head_by_octets};

use p25_bits::triple_at;

/// The format of a confirmed packet (PDU). TIA-102.BAAA, Packet Data, Header Block.
pub const CONFIRMED_FORMAT: u8 = 0x16;

/// The format of an unconfirmed packet (PDU). TIA-102.BAAA, Packet Data, Header Block.
pub const PLAIN_FORMAT: u8 = 0x15;

/// The format of a response (PDU). TIA-102.BAAA, Packet Data, Header Block.
pub const RESPONSE_FORMAT: u8 = 0x03;

/// The ten octets of the header of a packet (PDU), without its CRC. All are kept unchanged; only the fields returned by
/// the methods below have a meaning here. TIA-102.BAAA, Packet Data, Header Block.
#[derive(Clone, Copy, Debug, PartialEq, Eq)]
pub struct PacketHead(pub [u8; 10]);

/// A decoded header of a packet (PDU) with its number of bit errors.
#[derive(Clone, Copy, Debug, PartialEq, Eq)]
pub struct ReadHead {
    /// The header.
    pub head: PacketHead,
    /// The number of bits in which the received header block differs from the nearest block: the corrected bit errors.
    pub wrong: u32,
}

impl PacketHead {
    /// Returns the format, five bits: 16 hex for a confirmed packet, 15 hex for an unconfirmed one and 03 hex for a
    /// response. TIA-102.BAAA, Packet Data, Header Block.
    #[tactic(auto, unfolding(crate::specs::Heads::head_format))]
    pub fn format(&self) -> u8
        ensures value { result ≡ head_format self.now }
        ensures below { result < 32 }
    {
        self.0[0] % 32
    }

    /// Returns the full message flag. TIA-102.BAAA, Packet Data, Header Block.
    #[tactic(auto, unfolding(crate::specs::Heads::head_is_full))]
    pub fn is_full(&self) -> bool
        ensures { result ≡ head_is_full self.now }
    {
        self.0[6] / 128 == 1
    }

    /// Returns the number of blocks to follow, seven bits. TIA-102.BAAA, Packet Data, Header Block.
    #[tactic(auto, unfolding(crate::specs::Heads::head_blocks))]
    pub fn blocks(&self) -> u8
        ensures value { result ≡ head_blocks self.now }
        ensures below { result < 128 }
    {
        self.0[6] % 128
    }

    /// Returns the number of pad octets, five bits. TIA-102.BAAA, Packet Data, Header Block.
    #[tactic(auto, unfolding(crate::specs::Heads::head_pad))]
    pub fn pad(&self) -> u8
        ensures value { result ≡ head_pad self.now }
        ensures below { result < 32 }
    {
        self.0[7] % 32
    }

    /// Returns the number N(S) of a confirmed packet, three bits. TIA-102.BAAA, Packet Data, Header Block.
    #[tactic(auto, unfolding(crate::specs::Heads::head_number))]
    pub fn number(&self) -> u8
        ensures value { result ≡ head_number self.now }
        ensures below { result < 8 }
    {
        self.0[8] / 16 % 8
    }

    /// Returns Syn, the flag of a confirmed packet that opens a session. TIA-102.BAAA, Packet Data, Header Block.
    #[tactic(auto, unfolding(crate::specs::Heads::head_syn))]
    pub fn syn(&self) -> bool
        ensures { result ≡ head_syn self.now }
    {
        self.0[8] / 128 == 1
    }

    /// Returns the logical link identifier, LLID, 24 bits. TIA-102.BAAA, Packet Data, Header Block.
    #[tactic(auto, unfolding(crate::specs::Heads::head_llid))]
    pub fn llid(&self) -> u32
        ensures value { result ≡ head_llid self.now }
        ensures below { result < 2 ^ 24 }
    {
        triple_at(&self.0, 3)
    }

    /// Returns the class of a response, two bits. TIA-102.BAAA, Packet Data, Header Block.
    #[tactic(auto, unfolding(crate::specs::Heads::response_class))]
    pub fn class(&self) -> u8
        ensures value { result ≡ response_class self.now }
        ensures below { result < 4 }
    {
        self.0[1] / 64
    }

    /// Returns the type of a response, three bits. TIA-102.BAAA, Packet Data, Header Block.
    #[tactic(auto, unfolding(crate::specs::Heads::response_kind))]
    pub fn kind(&self) -> u8
        ensures value { result ≡ response_kind self.now }
        ensures below { result < 8 }
    {
        self.0[1] / 8 % 8
    }

    /// Returns the status of a response, three bits. TIA-102.BAAA, Packet Data, Header Block.
    #[tactic(auto, unfolding(crate::specs::Heads::response_status))]
    pub fn status(&self) -> u8
        ensures value { result ≡ response_status self.now }
        ensures below { result < 8 }
    {
        self.0[1] % 8
    }
}

impl PacketHead {
    /// Returns the header of a confirmed packet of data: format 16 hex, and Syn 0. TIA-102.BAAA, Packet Data, Header Block.
    pub fn confirmed(llid: u32, full: bool, blocks: u8, pad: u8, number: u8) -> PacketHead
        requires llid { llid < 2 ^ 24 }
        requires blocks { blocks < 128 }
        requires pad { pad < 32 }
        requires number { number < 8 }
        ensures octets { result ≡ confirmed_head llid full blocks pad number }
        ensures format { head_format result ≡ 0x16 }
        ensures full { head_is_full result ≡ full }
        ensures blocks { head_blocks result ≡ blocks }
        ensures pad { head_pad result ≡ pad }
        ensures number { head_number result ≡ number }
        ensures syn { head_syn result ≡ false }
        ensures llid { head_llid result ≡ llid }
    {
        let seventh = 128 * u8::from(full) + blocks;
        head_by_octets(0x56, 0xC0, llid, seventh, pad, 16 * number + 8)
    }

    /// Returns the header of an unconfirmed packet of data: format 15 hex, with the full message flag. TIA-102.BAAA, Packet Data,
    /// Header Block.
    pub fn plain(llid: u32, blocks: u8, pad: u8) -> PacketHead
        requires llid { llid < 2 ^ 24 }
        requires blocks { blocks < 128 }
        requires pad { pad < 32 }
        ensures octets { result ≡ plain_head llid blocks pad }
        ensures format { head_format result ≡ 0x15 }
        ensures full { head_is_full result ≡ true }
        ensures blocks { head_blocks result ≡ blocks }
        ensures pad { head_pad result ≡ pad }
        ensures llid { head_llid result ≡ llid }
    {
        head_by_octets(0x35, 0xC0, llid, 128 + blocks, pad, 0)
    }

    /// Returns the header of a response: format 03 hex, with the full message flag. TIA-102.BAAA, Packet Data, Header Block.
    pub fn response(llid: u32, class: u8, kind: u8, status: u8, blocks: u8) -> PacketHead
        requires llid { llid < 2 ^ 24 }
        requires class { class < 4 }
        requires kind { kind < 8 }
        requires status { status < 8 }
        requires blocks { blocks < 128 }
        ensures octets { result ≡ response_head llid class kind status blocks }
        ensures format { head_format result ≡ 0x03 }
        ensures full { head_is_full result ≡ true }
        ensures blocks { head_blocks result ≡ blocks }
        ensures class { response_class result ≡ class }
        ensures kind { response_kind result ≡ kind }
        ensures status { response_status result ≡ status }
        ensures llid { head_llid result ≡ llid }
    {
        let second = 64 * class + 8 * kind + status;
        head_by_octets(0x23, second, llid, 128 + blocks, 0, 0)
    }

    /// Returns the header of the packet that opens a session anew: a confirmed packet of no blocks with Syn 1. TIA-102.BAAA,
    /// Packet Data, Header Block.
    pub fn opening(llid: u32, number: u8) -> PacketHead
        requires llid { llid < 2 ^ 24 }
        requires number { number < 8 }
        ensures octets { result ≡ opening_head llid number }
        ensures format { head_format result ≡ 0x16 }
        ensures full { head_is_full result ≡ true }
        ensures blocks { head_blocks result ≡ 0 }
        ensures pad { head_pad result ≡ 0 }
        ensures number { head_number result ≡ number }
        ensures syn { head_syn result ≡ true }
        ensures llid { head_llid result ≡ llid }
    {
        head_by_octets(0x56, 0xC0, llid, 0x80, 0, 0x88 + 16 * number)
    }
}

// Returns the header of ten octets: two, a 0, the LLID, the highest first, three more, and a 0.
fn head_by_octets(
    first: u8,
    second: u8,
    llid: u32,
    seventh: u8,
    eighth: u8,
    ninth: u8,
) -> PacketHead
    requires { llid < 2 ^ 24 }
    ensures { result ≡ head_by_octets first second llid seventh eighth ninth }
{
    PacketHead([
        first,
        second,
        0,
        (llid / 65536) as u8,
        (llid / 256 % 256) as u8,
        (llid % 256) as u8,
        seventh,
        eighth,
        ninth,
        0,
    ])
}
