//! The invariant of a message.

ghost use Rattle.p25_delivery.specs.SoundHalves.{IsMessage};

use p25_bits::laws::octets_fit;
use p25_messages::Message;

/// **Theorem.** The laws of the world hold for each message: it has at most 2,028 octets, each below 256.
pub fn message_fits(message: &Message)
    ensures { IsMessage message.now }
{
    octets_fit(message.octets());
}
