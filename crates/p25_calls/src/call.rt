//! A call, and its growth with its data units.

ghost use Rattle.std.specs.Prelude.{◌≡◌, ◌+◌, ◌^◌, ◌<◌, ◌≤◌};
ghost use Rattle.p25_calls.specs.{Calls.{end_of}, Seen.{unit_end}, Taking.{call_of_one, extended, goes_on, if_linked}};

use crate::seen::UnitSeen;
use p25_link::LinkControl;

// The most bits between two data units of a call: as many as an LDU1 and an LDU2 have.
const SILENCE_MOST: u64 = 3_456;

/// The end of a call.
#[derive(Clone, Copy, Debug, PartialEq, Eq)]
pub enum CallEnd {
    /// With a TDU: a terminator without link control.
    Tdu,
    /// With a TDULC: a terminator with link control.
    Tdulc,
    /// Without a terminator (TDU or TDULC).
    Open,
}

/// A call: a longest run of voice data units without a break inside, which includes a link data unit (LDU1 or LDU2).
#[derive(Clone, Copy, Debug, PartialEq, Eq)]
pub struct Call {
    /// The position of the first data unit.
    pub place: u64,
    /// The number of bits from there to the end of the last data unit.
    pub bits: u64,
    /// The network access code (NAC) of its data units.
    pub nac: u16,
    /// Whether it begins without a header (HDU).
    pub late: bool,
    /// The end of the call.
    pub end: CallEnd,
    /// The number of its link data units (LDU1 or LDU2).
    pub links: u32,
    /// The number of its broken data units.
    pub broken: u32,
    /// The link control (LC) of the first whole data unit that carries one.
    pub link: Option<LinkControl>,
    /// The algorithm of the first whole data unit that has one.
    pub algid: Option<u8>,
}

impl Call {
    // Returns the run of one data unit.
    #[tactic(auto, unfolding(crate::specs::Calls::call_of, crate::specs::Runs::last_of))]
    pub(crate) fn of_one(unit: &UnitSeen) -> Call
        ensures { result ≡ call_of_one unit.now }
    {
        Call {
            place: unit.place,
            bits: unit.bits,
            nac: unit.nac,
            late: !unit.is_header(),
            end: end_with(unit),
            links: u32::from(unit.is_link_unit()),
            broken: u32::from(unit.broken),
            link: unit.link,
            algid: unit.algid,
        }
    }

    // Returns the run with one more data unit.
    pub(crate) fn extended(&self, unit: &UnitSeen) -> Call
        requires links { self.now.links + 1 < 2 ^ 32 }
        requires broken { self.now.broken + 1 < 2 ^ 32 }
        requires behind { self.now.place ≤ unit.now.place }
        requires end { unit_end unit.now < 2 ^ 61 }
        ensures { result ≡ extended self.now unit.now }
    {
        Call {
            place: self.place,
            bits: unit.end() - self.place,
            nac: self.nac,
            late: self.late,
            end: end_with(unit),
            links: self.links + u32::from(unit.is_link_unit()),
            broken: self.broken + u32::from(unit.broken),
            link: self.link.or(unit.link),
            algid: self.algid.or(unit.algid),
        }
    }

    // Returns whether there is no break between the last data unit and a data unit.
    pub(crate) fn goes_on(&self, unit: &UnitSeen) -> bool
        requires { self.now.place + self.now.bits < 2 ^ 61 }
        ensures { result ≡ goes_on self.now unit.now }
    {
        unit.is_voice()
            && self.nac == unit.nac
            && !unit.is_header()
            && unit.place <= self.place + self.bits + SILENCE_MOST
    }

    /// Returns the call of a run. `None` is returned if and only if it has no link data unit.
    pub fn if_linked(&self) -> Option<Call>
        ensures { result ≡ if_linked self.now }
    {
        if self.links > 0 { Some(*self) } else { None }
    }
}

// Returns the end of a call by its last data unit.
fn end_with(unit: &UnitSeen) -> CallEnd
    ensures { result ≡ end_of unit.now }
{
    if !unit.is_terminator() {
        CallEnd::Open
    } else if unit.has_tdulc() {
        CallEnd::Tdulc
    } else {
        CallEnd::Tdu
    }
}
