//! The theorems on messages and on a delivery between two stations. No function here makes a call: its contract is the
//! theorem.

ghost use Rattle.std.specs.Prelude.{◌≡◌, ℕ, ◌+◌, ◌%◌, ◌≤◌, true, List, length, Some};
ghost use Rattle.p25_packet_blocks.specs.declared.block.Slot.{Slot};
ghost use Rattle.p25_delivery.specs.{MessageBlocks.{block_count, pad_count, message_octets, unpadded}, Places.{CarriesMessage, read_back}};
ghost use Rattle.p25_delivery.specs.Delivery.{Happening, Opening_again, first_delivery, delivery_run, sessions_of, first_number, happens};
ghost use Rattle.p25_delivery.specs.{Orderly.{IsCleanRun, AreCounted, AreOrderly, AreWhole}, Halves.{Sending, IsSending, Receiving, Nothing}};
ghost use Rattle.p25_delivery.specs.{AtOnce.{DeliversAtOnce, OpensAtOnce}, Facts.{DeliveryFacts}, SentPackets.{station_llid}};
ghost use Rattle.p25_messages.specs.declared.step_kind.StepKind.TheVariants.{Reopened};

use crate::{LLID, NAC};

/// **Theorem.** The octets of a message's blocks are read back as that message, whatever its length. This holds in
/// whatever order its blocks arrive, in one packet or in several.
pub fn messages_read_back()
    ensures octets { (message : List ℕ) → unpadded (message_octets message) (pad_count (length message)) ≡ Some message }
    ensures blocks { (message : List ℕ) (slots : List Slot) → CarriesMessage message slots →
        read_back (block_count (length message)) (pad_count (length message)) slots ≡ Some message }
{}

/// **Theorem.** Take any run of a delivery in which each packet that a station receives is true to the transmitted one.
/// Then every session is orderly: the delivered messages are the beginning of the sent ones, each once, and every
/// acknowledged message was delivered.
pub fn sessions_are_orderly()
    ensures { (events : List Happening) → IsCleanRun first_delivery events →
        AreOrderly (sessions_of (delivery_run first_delivery events)) }
{}

/// **Theorem.** The facts that a delivery keeps in every such run. They are about the messages sent, delivered and
/// acknowledged, V(R) and the number of the outstanding message, and the newest transmission of each direction. The
/// number of the first message of a session is one more than that of the packet that opens it.
pub fn facts_are_kept()
    ensures facts { (events : List Happening) → IsCleanRun first_delivery events → DeliveryFacts (delivery_run first_delivery events) }
    ensures first { (events : List Happening) → IsCleanRun first_delivery events → (number : ℕ) →
        (happens (delivery_run first_delivery events) Opening_again).1 ≡ Reopened number →
        first_number (happens (delivery_run first_delivery events) Opening_again).0 ≡ (number + 1) % 8 }
{}

/// **Theorem.** In every run, whatever is received, each session has at most one message sent that is not acknowledged,
/// and none acknowledged that was not sent.
pub fn sessions_are_counted()
    ensures { (events : List Happening) → AreCounted (sessions_of (delivery_run first_delivery events)) }
{}

/// **Theorem.** In every run, whatever is received, the sessions make up the lists. Joined, their sent messages are all
/// that were sent, and their delivered messages all that were delivered. Their counts of acknowledged messages add up
/// to that of the run, and there is one session more than messages were given up.
pub fn sessions_are_whole()
    ensures { (events : List Happening) → AreWhole (delivery_run first_delivery events) }
{}

/// **Theorem.** The effect of packets that are received as transmitted. After a clean run with nothing outstanding, an
/// offered message is taken, delivered and acknowledged. A sender that is down opens the session again, whatever the
/// receiver keeps.
pub fn undamaged_packets_do()
    ensures delivered { (events : List Happening) (message : List ℕ) → IsCleanRun first_delivery events →
        (delivery_run first_delivery events).outbound.sender.outstanding ≡ Nothing → length message ≤ 2028 →
        DeliversAtOnce (delivery_run first_delivery events).outbound.sender (delivery_run first_delivery events).inbound.receiver message }
    ensures opened { (sender : Sending) (receiver : Receiving) →
        IsSending sender → sender.down ≡ true → OpensAtOnce sender receiver }
{}

/// **Theorem.** The values of the network access code (NAC) and the logical link identifier (LLID) that both stations
/// use.
pub fn numbers()
    ensures nac { NAC ≡ 0x293 }
    ensures llid { LLID ≡ station_llid }
{}
