//! The request of a response to the sender that waits for it.

#![tactic(auto, unfolding(crate::specs::Asked::is_response, crate::specs::Asked::is_ack, crate::specs::Asked::asked_by_flags))]

ghost use Rattle.std.specs.{Prelude.{◌≡◌, ◌≤◌, ◌&&◌, nat_le, not, Bool, List, length, take}, List.{list_any}};
ghost use Rattle.p25_packet_blocks.specs.FlagOctets.{flags_of_octets};
ghost use Rattle.p25_delivery.specs.Asked.{is_response, is_ack, is_crc_nack, is_retry, wanted_flags, asked_by_flags, asked_of};

use crate::LLID;
use crate::sent::{ACK, CRC_NACK, RETRY_CLASS};
use p25_packet_blocks::{Flags, PacketHead, Plain, RESPONSE_FORMAT, flags_read};

// The request of a response to a sender with an outstanding message.
#[derive(Drop)]
pub enum Asked {
    // Nothing, because it is not a response to that message.
    Nothing,
    // The message was received: the next one.
    NextMessage,
    // The whole message again.
    WholeMessage,
    // The blocks whose flags are true.
    Blocks(Flags),
}

// Returns whether a header is that of a response with the LLID of the stations.
pub(crate) fn answers(head: PacketHead) -> bool
    ensures { result ≡ is_response head }
{
    head.format() == RESPONSE_FORMAT && head.llid() == LLID
}

// Returns whether a response is the ACK of a number.
pub(crate) fn acknowledges(head: PacketHead, number: u8) -> bool
    ensures { result ≡ is_ack head number }
{
    (head.class(), head.kind()) == ACK && head.status() == number
}

// Returns the request of a response while the message with a number and `blocks` blocks is outstanding.
#[tactic(auto, unfolding(crate::specs::Asked::asked_of, crate::specs::Asked::is_ack, crate::specs::Asked::is_retry, crate::specs::Asked::is_crc_nack))]
pub(crate) fn asked_by(response: &Plain, number: u8, blocks: u8) -> Asked
    requires { blocks ≤ 127 }
    ensures asked { result ≡ asked_of number blocks response.now }
    ensures enough { (wanted : List Bool) → result ≡ Asked.Blocks wanted → blocks ≤ length wanted }
{
    let head = response.head();
    if head.status() != number {
        return Asked::Nothing;
    }
    match (head.class(), head.kind()) {
        ACK => Asked::NextMessage,
        CRC_NACK => Asked::WholeMessage,
        (RETRY_CLASS, _) => asked_by_octets(response, blocks),
        _ => Asked::Nothing,
    }
}

// Returns the request of the flags of a selective retry.
fn asked_by_octets(response: &Plain, blocks: u8) -> Asked
    requires { blocks ≤ 127 }
    ensures asked { result ≡ asked_by_flags blocks (flags_of_octets response.now.octets) }
    ensures enough { (wanted : List Bool) → result ≡ Asked.Blocks wanted → blocks ≤ length wanted }
{
    match flags_read(response.octets()) {
        Some(flags) if misses_a_block(&flags, blocks as usize) => {
            Asked::Blocks(wanted(&flags, blocks as usize))
        }
        _ => Asked::Nothing,
    }
}

// Returns whether there is a flag for each of `blocks` blocks, and one of these is false.
fn misses_a_block(flags: &Flags, blocks: usize) -> bool
    ensures { result ≡ (nat_le blocks (length flags.now) && list_any not (take blocks flags.now)) }
{
    blocks <= flags.len() && flags.as_slice()[..blocks].contains(&false)
}

// Returns equally many flags, true for each of `blocks` blocks whose flag is false.
#[tactic(auto, unfolding(crate::specs::Asked::wanted_flags))]
fn wanted(flags: &Flags, blocks: usize) -> Flags
    requires { blocks ≤ length flags.now }
    ensures flags { result ≡ wanted_flags blocks flags.now }
    ensures len { length result ≡ length flags.now }
{
    let mut wanted = Flags::new(flags.len());
    for block in 0..blocks {
        wanted.set(block, !flags.get(block));
    }
    wanted
}
