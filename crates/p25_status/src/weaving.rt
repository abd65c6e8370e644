//! Status symbols between the bits of a data unit: how they are inserted and removed.

ghost use Rattle.std.specs.Prelude.{◌≡◌, ◌+◌, ◌*◌, ◌%◌, ◌≤◌, Bool, List, length};
ghost use Rattle.p25_bits.specs.Bits.{part};
ghost use Rattle.p25_status.specs.Woven.{woven, bare_of, statuses_of, StandsByPlaces};

use crate::symbols::{Status, Statuses};
use p25_bits::BitBuf;

/// The number of bits of a data unit before each of its status symbols. TIA-102.BAAA, Status Symbols.
pub const BARE_BLOCK_LENGTH: usize = 70;

/// The number of transmitted bits of such a block: the status symbol has two. TIA-102.BAAA, Status Symbols.
pub const SENT_BLOCK_LENGTH: usize = 72;

// The number of bits of a status symbol.
const STATUS_WIDTH: u32 = 2;

/// Inserts the status symbols: replaces `out` by a data unit's transmitted bits, with one of the status symbols, in
/// order, after every 70 bits of `bare`. It requires 70 bits for each symbol. TIA-102.BAAA, Status Symbols.
pub fn weave(bare: &BitBuf, statuses: &Statuses, out: &mut BitBuf)
    requires { length bare.now ≡ 70 * length statuses.now }
    ensures list { out.new ≡ woven bare.now statuses.now }
    ensures len { length out.new ≡ 72 * length statuses.now }
    ensures places { StandsByPlaces bare.now statuses.now out.new }
    ensures only { (other : List Bool) → StandsByPlaces bare.now statuses.now other → other ≡ out.new }
    ensures bare_again { bare_of out.new ≡ bare.now }
    ensures statuses_again { statuses_of out.new ≡ statuses.now }
{
    out.clear();
    for i in 0..statuses.len() {
        out.append(bare, BARE_BLOCK_LENGTH * i, BARE_BLOCK_LENGTH);
        out.put_field(u64::from(statuses.get(i).value()), STATUS_WIDTH);
    }
}

/// Removes the status symbols from `len` transmitted bits, those from position `at` on: `out` becomes the data unit's
/// bits without status symbols, and `statuses` its status symbols, one for every 72 bits. Both lose their former
/// contents. TIA-102.BAAA, Status Symbols.
pub fn unweave(bits: &BitBuf, at: usize, len: usize, out: &mut BitBuf, statuses: &mut Statuses)
    requires blocks { len % 72 ≡ 0 }
    requires most { len ≤ 25920 }
    requires there { at + len ≤ length bits.now }
    ensures bare { out.new ≡ bare_of (part at len bits.now) }
    ensures statuses { statuses.new ≡ statuses_of (part at len bits.now) }
    ensures woven { woven out.new statuses.new ≡ part at len bits.now }
    ensures places { StandsByPlaces out.new statuses.new (part at len bits.now) }
    ensures bare_len { length out.new ≡ 70 * length statuses.new }
    ensures len { 72 * length statuses.new ≡ len }
{
    // For the prover: the number of bits held bounds every position below.
    let _ = bits.len();
    out.clear();
    statuses.clear();
    for i in 0..len / SENT_BLOCK_LENGTH {
        let start = at + SENT_BLOCK_LENGTH * i;
        out.append(bits, start, BARE_BLOCK_LENGTH);
        let status = bits.field(start + BARE_BLOCK_LENGTH, STATUS_WIDTH);
        statuses.push(Status::at_number(status as u8));
    }
}
