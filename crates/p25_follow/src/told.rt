//! Detection of a data unit by its sync and NID, after another data unit. Its NID is decoded last, because that is
//! slowest.

ghost use Rattle.std.specs.Prelude.{◌≡◌, ◌+◌, ◌≤◌, ◌∷◌, [], drop, if◌then◌else◌, length, nat_le, nat_lt, ◌&&◌};
ghost use Rattle.p25_bch_nid.specs.Duids.{duid_tdu, duid_tdulc};
ghost use Rattle.p25_bits.specs.Bits.{part};
ghost use Rattle.p25_follow.specs.{declared.told.Told.TheVariants.{Expected, Nothing}, Expected.{expected_after, name_of}, Looks.{is_read, told_by_look}};
ghost use Rattle.p25_follow.specs.Told.{name_errors_of, nearest_kind, sync_errors_of, told_of};

use crate::expected::first_expected;
use p25_bch_nid::{Nid, TDU, TDULC};
use p25_bits::BitBuf;
use p25_status::{SYNC_LENGTH, sync_distance};
use p25_unit_front::{SENT_FRONT_LENGTH, front_fixes, read_front};

/// The detection of a data unit by its sync and NID.
#[derive(Clone, Copy, Debug, PartialEq, Eq)]
pub enum Told {
    /// It is of a type that may follow.
    Expected(u8),
    /// Its NID decodes to that of a data unit that may not follow here.
    Other,
    /// Its sync and NID are too far from those of all types that may follow, no type may follow, or fewer than 114 bits
    /// are there.
    Nothing,
}

/// The detection by sync and NID before the NID is decoded.
#[derive(Clone, Copy, Debug, PartialEq, Eq)]
pub struct Look {
    /// The detection if the NID is uncorrectable.
    pub told: Told,
    /// Whether that is the detection also if the NID is correctable.
    pub clear: bool,
}

/// The most bit errors among the first 63 bits of the NID of an expected data unit. This number is this project's
/// choice.
pub const IDENTIFIER_SLACK: u32 = 16;

/// The most bit errors among the 48 bits of its sync and these 63. This number is this project's choice.
pub const FRONT_SLACK: u32 = 30;

// The most bit errors among these 63 that the code corrects.
const IDENTIFIER_RADIUS: u32 = 11;

// Returns the number of bit errors in the sync of the data unit whose transmitted bits begin at a position.
fn sync_errors(bits: &BitBuf, at: usize) -> u32
    requires { at + 114 ≤ length bits.now }
    ensures value { result ≡ sync_errors_of (part at 114 bits.now) }
    ensures most { result ≤ 48 }
{
    sync_distance(bits.field(at, SYNC_LENGTH as u32))
}

// A type that may follow, and the number of bits in which the first 63 bits of the NID differ from those of such a data
// unit.
#[derive(Clone, Copy)]
struct Near {
    kind: u8,
    wrong: u32,
}

// Returns the distance of a data unit of a type, after one with a name, by the bit errors of its sync.
fn nearness(before: &Nid, bits: &BitBuf, at: usize, sync: u32, kind: u8) -> Near
    requires there { at + 114 ≤ length bits.now }
    requires sync { sync ≡ sync_errors_of (part at 114 bits.now) }
    requires kind { kind ≤ 15 }
    ensures kind { result.kind ≡ kind }
    ensures wrong { result.wrong ≡ name_errors_of (before.now.nac, result.kind) (part at 114 bits.now) }
{
    Near {
        kind,
        wrong: front_fixes(bits, at, &with_kind(before, kind)) - sync,
    }
}

// Returns the nearer of two types: the second only if it differs in fewer bits.
fn nearer(first: Near, next: Near) -> Near
    ensures { result ≡ (if nat_lt next.wrong first.wrong then next else first) }
{
    if next.wrong < first.wrong {
        next
    } else {
        first
    }
}

// Returns the nearest of the types that may follow a data unit with a name, given the first.
fn nearest(before: &Nid, bits: &BitBuf, at: usize, sync: u32, kind: u8) -> Near
    requires there { at + 114 ≤ length bits.now }
    requires sync { sync ≡ sync_errors_of (part at 114 bits.now) }
    requires kind { kind ≤ 15 }
    ensures kind { result.kind ≡ nearest_kind before.now.nac (part at 114 bits.now) kind (duid_tdulc ∷ duid_tdu ∷ []) }
    ensures wrong { result.wrong ≡ name_errors_of (before.now.nac, result.kind) (part at 114 bits.now) }
{
    let first = nearness(before, bits, at, sync, kind);
    let second = nearness(before, bits, at, sync, TDULC);
    let third = nearness(before, bits, at, sync, TDU);
    nearer(nearer(first, second), third)
}

// Returns the detection of the nearest type, by the bit errors of the sync.
fn told_near(sync: u32, near: Near) -> Told
    requires { sync ≤ 48 }
    ensures { result ≡ (if nat_le near.wrong 16 && nat_le (sync + near.wrong) 30 then Expected near.kind else Nothing) }
{
    if near.wrong <= IDENTIFIER_SLACK && sync + near.wrong <= FRONT_SLACK {
        Told::Expected(near.kind)
    } else {
        Told::Nothing
    }
}

// Returns the detection before decoding, for the bits from a position on after a data unit with a name, if some types
// may follow, given the first.
fn look_among(before: &Nid, bits: &BitBuf, at: usize, kind: u8) -> Look
    requires there { at + 114 ≤ length bits.now }
    requires list { expected_after before.now.duid ≡ kind ∷ duid_tdulc ∷ duid_tdu ∷ [] }
    requires kind { kind ≤ 15 }
    ensures { told_of (name_of before.now) (drop at bits.now) ≡ told_by_look result (is_read (drop at bits.now)) }
{
    let sync = sync_errors(bits, at);
    let found = nearest(before, bits, at, sync, kind);
    if found.wrong <= IDENTIFIER_RADIUS {
        Look {
            told: Told::Expected(found.kind),
            clear: true,
        }
    } else {
        Look {
            told: told_near(sync, found),
            clear: false,
        }
    }
}

/// Returns the detection before decoding, for the bits from position `at` on after a data unit with a name.
pub fn look_at(before: &Nid, bits: &BitBuf, at: usize) -> Look
    requires { at ≤ length bits.now }
    ensures { told_of (name_of before.now) (drop at bits.now) ≡ told_by_look result (is_read (drop at bits.now)) }
{
    if bits.len() - at < SENT_FRONT_LENGTH {
        return Look {
            told: Told::Nothing,
            clear: true,
        };
    }
    match first_expected(before.duid) {
        None => Look {
            told: Told::Nothing,
            clear: false,
        },
        Some(kind) => look_among(before, bits, at, kind),
    }
}

/// Returns the detection for the bits from position `at` on, given that before decoding. Their NID is decoded only if
/// that leaves it open.
pub fn told_at(look: Look, bits: &BitBuf, at: usize) -> Told
    requires { at ≤ length bits.now }
    ensures { result ≡ told_by_look look (is_read (drop at bits.now)) }
{
    if look.clear {
        return look.told;
    }
    if is_read(bits, at) {
        Told::Other
    } else {
        look.told
    }
}

// Returns whether the NID is correctable of the data unit whose transmitted bits begin at a position.
fn is_read(bits: &BitBuf, at: usize) -> bool
    requires { at ≤ length bits.now }
    ensures { result ≡ is_read (drop at bits.now) }
{
    if bits.len() - at < SENT_FRONT_LENGTH {
        return false;
    }
    match read_front(bits, at) {
        Some(_) => true,
        None => false,
    }
}

/// Returns the name of a data unit of the same network and of a type.
pub fn with_kind(name: &Nid, kind: u8) -> Nid
    requires { kind ≤ 15 }
    ensures network { result.nac ≡ name.now.nac }
    ensures kind { result.duid ≡ kind }
{
    Nid {
        nac: name.nac,
        duid: kind,
    }
}
