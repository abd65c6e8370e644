//! Data units that lie end to end from a position on, with sync and NID written.

ghost use Rattle.std.specs.Prelude.{◌≡◌, ◌||◌, nat_le, ◌+◌, ◌≤◌, ◌++◌, IfSome, [], drop, false, true, length, take};
ghost use Rattle.p25_follow.specs.{Chains.{chain_by, with_front}, Expected.{name_of, names_of}, Following.{follow, left_of}};

use crate::expected::kind_length;
use crate::steps::step;
use crate::told::with_kind;
use p25_bch_nid::{Nid, nid_bits};
use p25_bits::BitBuf;
use p25_status::{BARE_BLOCK_LENGTH, SENT_BLOCK_LENGTH, SYNC};
use p25_unit_front::{AFTER_STATUS, BEFORE_STATUS, SENT_FRONT_LENGTH};

/// The most bits that a step examines: those of four logical link data units.
pub const STEP_REACH: usize = 6912;

// Appends `count` bits from a position on, with sync and NID of a name written.
fn put_with_front(name: &Nid, bits: &BitBuf, at: usize, count: usize, out: &mut BitBuf)
    requires some { 114 ≤ count }
    requires there { at + count ≤ length bits.now }
    requires room { length out.old + count ≤ 25928 }
    ensures list { out.new ≡ out.old ++ with_front (name_of name.now) (take count (drop at bits.now)) }
    ensures len { length out.new ≡ length out.old + count }
{
    // For the prover: the number of bits held bounds every position below.
    let _ = bits.len();
    let identifier = nid_bits(name);
    out.put_field(SYNC, 48);
    out.put_field(identifier >> AFTER_STATUS, BEFORE_STATUS);
    out.append(
        bits,
        at + BARE_BLOCK_LENGTH,
        SENT_BLOCK_LENGTH - BARE_BLOCK_LENGTH,
    );
    out.put_field(identifier % (1 << AFTER_STATUS), AFTER_STATUS);
    out.append(bits, at + SENT_FRONT_LENGTH, count - SENT_FRONT_LENGTH);
}

// Returns whether a step can be made over a number of bits: they are whole, or all bits that it examines are there.
fn can_step(whole: bool, count: usize) -> bool
    ensures { result ≡ (whole || nat_le 6912 count) }
{
    whole || count >= STEP_REACH
}

// The end of the data units that are written, and the name of the last one: none if no data unit is known there.
#[derive(Clone, Copy)]
struct Reached {
    before: Option<Nid>,
    at: usize,
}

// Appends the data units with which bits begin, end to end, after a data unit with a name or after none: as many as are
// known. If more bits may come, it stops at the first step that cannot be made.
fn put_units(
    whole: bool,
    before: Option<Nid>,
    bits: &BitBuf,
    end: &Option<Nid>,
    out: &mut BitBuf,
) -> Reached
    requires { length out.old + length bits.now ≤ 25928 }
    ensures there { result.at ≤ length bits.now }
    ensures list { out.new ++ chain_by whole (names_of result.before) (drop result.at bits.now) (names_of end.now)
        ≡ out.old ++ chain_by whole (names_of before) bits.now (names_of end.now) }
    ensures left { whole ≡ false → left_of (names_of result.before) (drop result.at bits.now) ≡ left_of (names_of before) bits.now }
    ensures waits { IfSome result.before (λ _. (whole || nat_le 6912 (length (drop result.at bits.now))) ≡ false) }
    ensures len { length out.new ≡ length out.old + result.at }
{
    let mut before = before;
    let mut at = 0;
    while let Some(name) = before {
        if !can_step(whole, bits.len() - at) {
            return Reached { before, at };
        }
        match step(&name, bits, at, end) {
            Some(kind) => {
                let next = with_kind(&name, kind);
                let count = kind_length(kind);
                put_with_front(&next, bits, at, count, out);
                at += count;
                before = Some(next);
            }
            None => before = None,
        }
    }
    Reached { before: None, at }
}

// Removes the first `count` bits.
fn drop_written(count: usize, bits: &mut BitBuf)
    requires { count ≤ length bits.old }
    ensures { bits.new ≡ drop count bits.old }
{
    if count != 0 {
        bits.drop_front(count);
    }
}

/// Appends the output for `bits`: the data units that follow one another there, each with sync and NID, and the other
/// bits unchanged. `before` names the data unit before them, if there is one. If the bits are `whole`, all of them are
/// written, and `end` names the data unit after them, if there is one. Otherwise the call stops when a step might need
/// more bits. The remaining bits stay in `bits`, and the call returns the name of the data unit before them.
pub fn put_chain(
    whole: bool,
    before: Option<Nid>,
    bits: &mut BitBuf,
    end: &Option<Nid>,
    out: &mut BitBuf,
) -> Option<Nid>
    requires { length out.old + length bits.old ≤ 25928 }
    ensures list { out.new ≡ out.old ++ chain_by whole (names_of before) bits.old (names_of end.now) }
    ensures left { whole ≡ false → follow (names_of result) bits.new ≡ left_of (names_of before) bits.old }
    ensures none { whole ≡ true → bits.new ≡ [] }
{
    let reached = put_units(whole, before, bits, end, out);
    match reached.before {
        Some(name) => {
            drop_written(reached.at, bits);
            Some(name)
        }
        None => {
            out.append(bits, reached.at, bits.len() - reached.at);
            bits.clear();
            None
        }
    }
}
