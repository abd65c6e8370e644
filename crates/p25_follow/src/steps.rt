//! The data unit with which bits begin, after a data unit with a name.

ghost use Rattle.std.specs.Prelude.{◌≡◌, ◌≤◌, drop, length};
ghost use Rattle.p25_follow.specs.{Expected.{name_of, names_of}, Steps.{fits_by, is_end, is_sure, step_of}, Told.{is_nothing}};

use crate::expected::{is_expected, kind_length, next_link};
use crate::told::{Told, look_at, told_at, with_kind};
use p25_bch_nid::Nid;
use p25_bits::BitBuf;

/// The most logical link data units without a detection over which the alignment may be certain. This number is this
/// project's choice.
pub const LINKS_MOST: u32 = 3;

/// The number of transmitted bits of a logical link data unit (LDU1 or LDU2).
pub const LINK_LENGTH: usize = 1728;

// Returns a detected type, if the bits of such a data unit are there.
#[tactic(auto, unfolding(crate::specs::Steps::fits_by))]
fn if_fits(told: Told, bits: &BitBuf, at: usize) -> Option<u8>
    requires { at ≤ length bits.now }
    ensures { result ≡ fits_by (drop at bits.now) told }
{
    match told {
        Told::Expected(kind) if kind_length(kind) <= bits.len() - at => Some(kind),
        _ => None,
    }
}

// Returns whether the data unit at the end of the bits may follow one with a name.
#[tactic(auto, unfolding(crate::specs::Steps::is_end))]
fn is_end(before: &Nid, end: &Option<Nid>) -> bool
    ensures { result ≡ is_end (name_of before.now) (names_of end.now) }
{
    match end {
        None => false,
        Some(end) => before.nac == end.nac && is_expected(before.duid, end.duid),
    }
}

// Returns whether nothing is detected.
fn is_nothing(told: Told) -> bool
    ensures { result ≡ is_nothing told }
{
    matches!(&told, Told::Nothing)
}

// Returns whether it is certain that data units lie end to end from a position on, over at most `links` logical link
// data units without a detection. The slowest test is last: whether a NID is correctable.
fn is_sure(links: u32, before: &Nid, bits: &BitBuf, at: usize, end: &Option<Nid>) -> bool
    requires { at ≤ length bits.now }
    ensures { result ≡ is_sure links (name_of before.now) (drop at bits.now) (names_of end.now) }
{
    if bits.len() <= at {
        return is_end(before, end);
    }
    let look = look_at(before, bits, at);
    if if_fits(look.told, bits, at).is_some() {
        return if_fits(told_at(look, bits, at), bits, at).is_some();
    }
    if !is_nothing(look.told) {
        return false;
    }
    if links == 0 || bits.len() - at < LINK_LENGTH {
        return false;
    }
    match next_link(before.duid) {
        None => false,
        Some(kind) => {
            let next = with_kind(before, kind);
            if !is_sure(links - 1, &next, bits, at + LINK_LENGTH, end) {
                return false;
            }
            is_nothing(told_at(look, bits, at))
        }
    }
}

/// Returns the type of the data unit that begins at position `at`. The data unit before it has the name `before`, and
/// `end` is the name of the data unit after the stretch, if there is one. `None` is returned if and only if no such
/// data unit is known. The bits of a returned data unit are there.
pub fn step(before: &Nid, bits: &BitBuf, at: usize, end: &Option<Nid>) -> Option<u8>
    requires { at ≤ length bits.now }
    ensures value { result ≡ step_of (name_of before.now) (drop at bits.now) (names_of end.now) }
{
    if bits.len() <= at {
        return None;
    }
    let look = look_at(before, bits, at);
    if if_fits(look.told, bits, at).is_some() {
        return if_fits(told_at(look, bits, at), bits, at);
    }
    if !is_nothing(look.told) {
        return None;
    }
    if is_sure(LINKS_MOST, before, bits, at, end) {
        next_link(before.duid)
    } else {
        None
    }
}
