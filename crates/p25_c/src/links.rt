//! Link control

ghost use Rattle.std.specs.Prelude.{◌≡◌};
ghost use Rattle.p25_c.specs.Fields.{link_told};
ghost use Rattle.p25_link.specs.Kinds.{link_kind_of};

use p25_link::{LinkControl, LinkKind};

// The kinds of link control (LC), by its first octet.

/// all else, which is not interpreted
const LINK_OTHER: u8 = 0;

/// a call to a group (00 hex)
const LINK_GROUP: u8 = 1;

/// a call from unit to unit (03 hex)
const LINK_INDIVIDUAL: u8 = 2;

/// What link control (LC) states of a call. A member that its kind does not have is 0. TIA-102.BAAA, Link Control Word.
#[derive(Clone, Copy)]
#[repr(C)]
pub struct LinkParts {
    /// the unit that speaks, 24 bits
    pub source: u32,
    /// from unit to unit: the unit that is called, 24 bits
    pub destination: u32,
    /// to a group: the group
    pub group: u16,
    /// one of the kinds above
    pub kind: u8,
    /// to a group or from unit to unit: the manufacturer (MFID)
    pub mfid: u8,
    /// to a group: 1 if the call is an emergency, else 0
    pub emergency: u8,
}

/// Sets `link` to what the nine octets of link control (LC) state. Since 1.1.
#[unsafe(no_mangle)]
pub extern "C" fn p25_link_read(lc: &[u8; 9], link: &mut LinkParts)
    ensures { link.new ≡ link_told (link_kind_of (record { 0 = lc.now })) }
{
    *link = link_told(LinkControl(*lc).kind());
}

// What a kind of link control is as numbers.
fn link_told(said: LinkKind) -> LinkParts
    ensures { result ≡ link_told said }
{
    let (kind, mfid, emergency, group, destination, source) = match said {
        LinkKind::Group {
            mfid,
            emergency,
            group,
            source,
        } => (LINK_GROUP, mfid, u8::from(emergency), group, 0, source),
        LinkKind::Individual {
            mfid,
            destination,
            source,
        } => (LINK_INDIVIDUAL, mfid, 0, 0, destination, source),
        LinkKind::Other => (LINK_OTHER, 0, 0, 0, 0, 0),
    };
    LinkParts {
        source,
        destination,
        group,
        kind,
        mfid,
        emergency,
    }
}
