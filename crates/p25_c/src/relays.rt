//! Items forwarded in place

ghost use Rattle.std.specs.Prelude.{◌<◌};
ghost use Rattle.p25_c.specs.{Building.{IsWritingUnder}, Relays.{relayed_at}, Rooms.{IsWriting}};

use crate::answers::OUTSIDE;
use crate::building::{sent_symbol, write_bits};
use crate::items::{blank, is_inside};
use crate::repeats::{cut, fill};
use p25_bits::BitBuf;
use p25_follow::relay_item;
use p25_status::Status;
use p25_stream::find_item;

/// Writes what `p25 relay` writes in place of the item that begins at bit `from` of a recording, whose octets are given as for
/// `p25_next_item`: of a whole data unit what `p25_bridge_at` writes; of a broken one its bits, with the sync, the network
/// identifier (NID) and the status symbols replaced by those of `nac`, 0 to 4095, and `status`, 0 to 3; of all else its bits as
/// they are. It writes as many bits as the item covers, and zeros after them in the last octet.
///
/// The octets must decide the item, as they do once `p25_next_item` or `p25_stream_next` has returned it. The call takes the
/// octets for all of the recording: a data unit of which bits are missing is forwarded as it came, under its old access code.
///
/// Returns how many octets it wrote, at most `P25_UNIT_ROOM`, and 0 if no item is left; the octets of the buffer after them stay.
/// Else it writes nothing and returns the first of these that applies: `P25_WRONG_NAC`, `P25_WRONG_STATUS`, `P25_OUTSIDE`,
/// `P25_NO_ROOM`. Since 1.1.
#[unsafe(no_mangle)]
pub extern "C" fn p25_relay_at(
    octets: &[u8],
    begin: u64,
    from: u64,
    nac: u16,
    status: u8,
    into: &mut [u8],
) -> i32
    ensures { IsWritingUnder nac status (λ symbol. relayed_at nac symbol begin from octets.now) into.old into.new result }
{
    match sent_symbol(nac, status) {
        Ok(symbol) => relay_at(octets, begin, from, nac, symbol, into),
        Err(answer) => answer,
    }
}

// Writes what is forwarded in place of the item at a position.
fn relay_at(octets: &[u8], begin: u64, from: u64, nac: u16, status: Status, into: &mut [u8]) -> i32
    requires { nac < 4096 }
    ensures { IsWriting (relayed_at nac status begin from octets.now) into.old into.new result }
{
    if !is_inside(begin, from, octets.len()) {
        return OUTSIDE;
    }
    let at = from - begin;
    let mut found = blank();
    if !find_item(octets, at as usize, from, true, &mut found) {
        return 0;
    }
    let mut bits = BitBuf::new();
    cut(octets, at, found.covered() as u32, &mut bits);
    relay_item(&found, nac, status, &mut bits);
    fill(&mut bits);
    write_bits(&bits, into)
}

#[cfg(test)]
mod tests;
