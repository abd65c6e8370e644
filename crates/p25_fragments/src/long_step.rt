//! The events and the steps of a world of long messages.

use p25_messages::LongMessage;
use p25_stations::{Event, Step};

/// An event of a world of long messages.
#[derive(Clone, Debug, PartialEq, Eq, Drop)]
pub enum LongEvent {
    /// A long message is offered.
    Long(LongMessage),
    /// An event of the two stations and the channel between them, other than `Event::Send`.
    Inner(Event),
}

/// The meaning of a step for the long messages.
#[derive(Clone, Debug, PartialEq, Eq, Drop)]
pub enum Then {
    /// Nothing.
    Plain,
    /// The long message was taken, and the first of its parts offered.
    Started { parts: u8 },
    /// A long message or the opening packet is outstanding.
    Busy,
    /// The sender is down, so it takes no long message.
    Down,
    /// A part was delivered, and the long message is not whole yet.
    Part { number: u8 },
    /// The last part was delivered: the long message is whole.
    Whole(LongMessage),
    /// The delivered message is not the expected part.
    Refused,
    /// A part was acknowledged, and this is the offer of the next.
    Next(Step),
    /// The last part was acknowledged, and the long message with it.
    Finished,
}

/// A step of a world of long messages.
#[derive(Clone, Debug, PartialEq, Eq, Drop)]
pub struct LongStep {
    /// The step of the two stations: that of the event, or of the offer of the first part; `None` for `Busy` and `Down`
    /// alone.
    pub first: Option<Step>,
    /// Its meaning for the long messages.
    pub then: Then,
}
