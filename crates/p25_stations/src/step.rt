//! The events and the steps of a world of two stations.

ghost use Rattle.std.specs.Prelude.{◌≡◌, false};
ghost use Rattle.p25_stations.specs.Steps.{counted_when};

use p25_delivery::StepKind;
use p25_messages::{Flips, Message};

/// An event of the two stations or of the channel between them.
#[derive(Clone, Debug, PartialEq, Eq, Drop)]
pub enum Event {
    /// A message is offered to the sender.
    Send(Message),
    /// The timeout of the sender.
    Timeout,
    /// The session is to be reopened.
    Reopen,
    /// The newest transmission of data arrives at the receiver, with the bits at these positions inverted.
    ToReceiver(Flips),
    /// The newest response arrives at the sender, with the bits at these positions inverted.
    ToSender(Flips),
}

/// A step of the world.
#[derive(Clone, Debug, PartialEq, Eq, Drop)]
pub struct Step {
    /// The type of the step.
    pub kind: StepKind,
    /// Whether it is a delivery that decodes to another packet (PDU) than the transmitted one.
    pub false_pass: bool,
}

impl Step {
    /// Returns a step of a type that is no false pass: it is no delivery, or nothing was received in it.
    pub fn quiet(kind: StepKind) -> Step
        ensures { result ≡ record { kind = kind; false_pass = false } }
    {
        Step {
            kind,
            false_pass: false,
        }
    }

    /// Returns the number of false passes, plus one if the step is one; the number saturates at 2^64 - 1.
    #[tactic(auto, unfolding(crate::specs::Steps::counted_when))]
    pub fn counted(&self, false_passes: u64) -> u64
        ensures { result ≡ counted_when self.now.false_pass false_passes }
    {
        false_passes.saturating_add(u64::from(self.false_pass))
    }
}
