//! The events and the steps of a duplex world.

ghost use Rattle.std.specs.Prelude.{◌≡◌};
ghost use Rattle.p25_duplex.specs.DuplexSteps.{side_of};

use crate::side::Side;
use p25_messages::{Flips, Message};
use p25_stations::Step;

/// An event of one of the two stations, or of the channel between them.
#[derive(Clone, Debug, PartialEq, Eq, Drop)]
pub enum DuplexEvent {
    /// A message is offered to the sender of a station.
    Send(Side, Message),
    /// The timeout of a station's sender.
    Timeout(Side),
    /// The session of a station's sender is to be reopened.
    Reopen(Side),
    /// The newest transmission of the other station arrives at a station, with the bits at these positions inverted.
    Deliver {
        /// The station that receives it.
        to: Side,
        /// The positions of the inverted bits.
        flips: Flips,
    },
}

impl DuplexEvent {
    /// Returns the station of the event: that which acts or receives.
    pub fn side(&self) -> Side
        ensures { result ≡ side_of self.now }
    {
        match self {
            DuplexEvent::Send(side, _) => *side,
            DuplexEvent::Timeout(side) | DuplexEvent::Reopen(side) => *side,
            DuplexEvent::Deliver { to, .. } => *to,
        }
    }
}

/// A step of the duplex world.
#[derive(Clone, Debug, PartialEq, Eq, Drop)]
pub struct DuplexStep {
    /// The station that acts or receives.
    pub side: Side,
    /// The step. A delivery in which nothing is received has the direction of data.
    pub step: Step,
}
