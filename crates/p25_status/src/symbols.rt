//! A status symbol: its type, and its conversions from and to numbers.

ghost use Rattle.std.specs.Prelude.{◌≡◌, ◌<◌, ◌↔◌, IsSome, IfSome};

use crate::list::BoundedList;
use std::error::Error;
use std::fmt;

/// A status symbol, a number from 0 to 3 that is transmitted as two bits, the higher one first. 1 is inbound busy, 3
/// inbound idle, 0 unknown or talk-around, and 2 unknown. TIA-102.BAAA, Status Symbols.
#[derive(Clone, Copy, Debug, PartialEq, Eq)]
pub struct Status {
    value: u8,
    pub ghost below: { value < 4 },
}

impl Default for Status {
    ghost use Rattle.std.specs.Prelude.{◌≡◌};
    ghost use Rattle.p25_status.specs.Status.{status_number};

    ghost is_default = { λ status. status_number status ≡ 0 };

    /// Returns the symbol 0, unknown or talk-around.
    fn default() -> Status {
        Status { value: 0 }
    }
}

impl Status {
    ghost use Rattle.p25_status.specs.Status.{status_number};

    /// Returns the status symbol of a number. `None` is returned if and only if the number is above 3.
    pub fn new(value: u8) -> Option<Status>
        ensures below { IsSome result ↔ (value < 4) }
        ensures number { IfSome result (λ status. status_number status ≡ value) }
    {
        if value < 4 {
            Some(Status { value })
        } else {
            None
        }
    }

    /// Returns the number of the symbol, from 0 to 3.
    pub fn value(self) -> u8
        ensures number { result ≡ status_number self }
        ensures below { result < 4 }
    {
        self.value
    }

    // Returns the symbol whose number two bits write, the first one higher.
    pub(crate) fn at_number(value: u8) -> Status
        requires { value < 4 }
        ensures { status_number result ≡ value }
    {
        Status { value }
    }
}

/// Returns the number of a status symbol.
impl From<Status> for u8 {
    ghost use Rattle.std.specs.Prelude.{◌≡◌};
    ghost use Rattle.p25_status.specs.Status.{status_number};

    ghost from_gives = { λ status value. value ≡ status_number status };

    fn from(status: Status) -> u8 {
        status.value()
    }
}

/// Returns the status symbol of a number, as `Status::new` does. `NotAStatus` is returned with the number, if and only
/// if the number is above 3.
impl TryFrom<u8> for Status {
    type Error = NotAStatus;

    ghost use Rattle.std.specs.Prelude.{◌≡◌, ◌≤◌, ◌<◌, MatchResult};
    ghost use Rattle.p25_status.specs.Status.{status_number};

    ghost try_from_gives = { λ value result. MatchResult result
        (λ status. (status_number status ≡ value) × (value < 4))
        (λ refused. (refused.0 ≡ value) × (4 ≤ value)) };

    fn try_from(value: u8) -> Result<Status, NotAStatus> {
        Status::new(value).ok_or(NotAStatus(value))
    }
}

/// A number above 3, which is the number of no status symbol.
#[derive(Clone, Copy, Debug, PartialEq, Eq)]
pub struct NotAStatus(pub u8);

impl fmt::Display for NotAStatus {
    ghost use Rattle.std.specs.Prelude.{Some, ◌++◌, codes, decimal};

    ghost output = { λ refused. Some (decimal refused.0 ++ codes " is no status symbol, since it is above 3") };

    fn fmt<W: fmt::Write>(&self, f: &mut fmt::Formatter<W>) -> fmt::Result {
        let value = self.0;
        write!(f, "{value} is no status symbol, since it is above 3")
    }
}

impl Error for NotAStatus {}

/// A list of at most 360 status symbols, as many as the longest data unit has.
pub type Statuses = BoundedList<Status, 360>;
