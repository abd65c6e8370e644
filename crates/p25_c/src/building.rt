//! Data units built from lines, repaired, and with another access code

ghost use Rattle.std.specs.Prelude.{◌≡◌, ℕ, ◌*◌, ◌<◌, ◌≤◌, pos, Ok, Err, IfOk, IfErr};
ghost use Rattle.p25_c.specs.{Building.{IsRefused, IsWritingUnder, built, fault_answer, unit_bridged, unit_repaired, wrong_status}, Rooms.{IsWriting}};
ghost use Rattle.p25_status.specs.{Status.{status_number}, declared.symbols.Status.{Status as Symbol}};
ghost use Rattle.p25_units.specs.Units.{IsWholeBody, frame_length_of, image_octets, whole_octets};

use crate::answers::{
    LINE_FORM, LINE_KEY, LINE_KIND, LINE_LONG, LINE_VALUE, NO_ROOM, WRONG_NAC, WRONG_STATUS,
};
use crate::repeats::{p25_bridge_at, p25_repair_at};
use crate::room::counted;
use p25_bits::BitBuf;
use p25_line::LineFault;
use p25_status::Status;
use p25_text::read_line;
use p25_units::{Frame, Unit, image};

/// The octets of the longest data unit: a buffer of so many is always large enough for one.
const UNIT_ROOM: usize = 3_240;

/// Writes the octets of the data unit of a line, as `p25 build` reads it, without its end of line: hdu, ldu1, ldu2, tdu, tdulc,
/// confirmed, plain or response, with its keys and values. All its status symbols are `status`, 0 to 3. Returns how many octets
/// it wrote, 18 to `P25_UNIT_ROOM`; the octets of the buffer after them stay.
///
/// Else it writes nothing and returns the first of these that applies: `P25_WRONG_STATUS`; the fault of the line,
/// `P25_LINE_LONG`, `P25_LINE_FORM`, `P25_LINE_KIND`, `P25_LINE_KEY` or `P25_LINE_VALUE`; `P25_NO_ROOM`.
#[unsafe(no_mangle)]
pub extern "C" fn p25_build(line: &[u8], status: u8, octets: &mut [u8]) -> i32
    ensures strange { 4 ≤ status → IsWriting (Err wrong_status) octets.old octets.new result }
    ensures built { (symbol : Symbol) → status_number symbol ≡ status → IsWriting (built symbol line.now) octets.old octets.new result }
{
    let Some(symbol) = Status::new(status) else {
        return WRONG_STATUS;
    };
    match read_line(line) {
        Ok(unit) => write_whole(unit, symbol, octets),
        Err(fault) => fault_answer(fault),
    }
}

// The number of a fault.
fn fault_answer(fault: LineFault) -> i32
    ensures { result ≡ fault_answer fault }
{
    match fault {
        LineFault::Long => LINE_LONG,
        LineFault::Form => LINE_FORM,
        LineFault::Kind => LINE_KIND,
        LineFault::Key => LINE_KEY,
        LineFault::Value => LINE_VALUE,
    }
}

// Writes the octets of a unit's image with one status symbol everywhere. No slot of a packet (PDU) is Bad.
pub(crate) fn write_whole(unit: Unit, status: Status, octets: &mut [u8]) -> i32
    requires { IsWholeBody unit.body }
    ensures value { IsWriting (Ok (image_octets status unit)) octets.old octets.new result }
    ensures count { (count : ℕ) → result ≡ pos count → 8 * count ≡ frame_length_of unit }
{
    let mut bits = BitBuf::new();
    image(&Frame::filled(unit, status), &mut bits);
    write_bits(&bits, octets)
}

// Writes the octets that bits fill if the buffer has capacity for them, and returns how many.
pub(crate) fn write_bits(bits: &BitBuf, room: &mut [u8]) -> i32
    ensures { IsWriting (Ok (whole_octets bits.now)) room.old room.new result }
{
    let count = bits.len() / 8;
    if count > room.len() {
        return NO_ROOM;
    }
    bits.take_numbers(0, 8, &mut room[..count]);
    counted(count)
}

/// Writes the data unit with which the octets begin as it was transmitted, as `p25 repair` writes it: the bit errors that its
/// codes correct are corrected, and its status symbols are those received. Returns how many octets it wrote, 18 to
/// `P25_UNIT_ROOM`; the octets of the buffer after them stay.
///
/// Else it writes nothing and returns the first of these that applies: `P25_NO_UNIT`, if the item at the first bit is no whole
/// data unit; `P25_NO_ROOM`.
#[unsafe(no_mangle)]
pub extern "C" fn p25_repair(octets: &[u8], into: &mut [u8]) -> i32
    ensures { IsWriting (unit_repaired octets.now) into.old into.new result }
{
    p25_repair_at(octets, 0, 0, into)
}

/// Writes the data unit with which the octets begin under the network access code (NAC) `nac`, 0 to 4095, and with the status
/// symbol `status`, 0 to 3, everywhere, as `p25 bridge` writes it. Returns how many octets it wrote, 18 to `P25_UNIT_ROOM`; the
/// octets of the buffer after them stay.
///
/// Else it writes nothing and returns the first of these that applies: `P25_WRONG_NAC`, `P25_WRONG_STATUS`, `P25_NO_UNIT` as
/// `p25_repair` does, `P25_NO_ROOM`.
#[unsafe(no_mangle)]
pub extern "C" fn p25_bridge(octets: &[u8], nac: u16, status: u8, into: &mut [u8]) -> i32
    ensures { IsWritingUnder nac status (λ symbol. unit_bridged nac symbol octets.now) into.old into.new result }
{
    p25_bridge_at(octets, 0, 0, nac, status, into)
}

// The status symbol of a number, if the network access code (NAC) beside it has 12 bits; else the number below 0 of the one that is too large.
pub(crate) fn sent_symbol(nac: u16, status: u8) -> Result<Status, i32>
    ensures symbol { IfOk result (λ symbol. (nac < 4096) × (status_number symbol ≡ status)) }
    ensures answer { IfErr result (IsRefused nac status) }
{
    if nac > 4_095 {
        return Err(WRONG_NAC);
    }
    Status::new(status).ok_or(WRONG_STATUS)
}
