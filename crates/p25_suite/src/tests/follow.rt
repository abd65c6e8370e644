//! Recordings with damaged syncs, followed: whatever the reads, and with a read that fails.

ghost use Rattle.std.specs.Prelude.{◌≡◌, length};

use super::{Call, build, calm, ends, lines_of, writes};
use p25_tool::Outcome;
use std::alloc::Global;

// A terminator with link control (TDULC) and a terminator (TDU) of NAC 0, all zeros, with the status symbol 1.
const TERMINATORS: &[u8; 72] =
    b"\x55\x75\xF5\xFF\x77\xFF\x00\x0F\xED\xDF\x24\xA9\xD7\x87\x00\x00\x00\x01\x00\x00\x00\x00\x00\x00\
    \x00\x00\x01\x00\x00\x00\x00\x00\x00\x00\x00\x01\x00\x00\x00\x00\x00\x00\x00\x00\x01\x00\x00\x00\
    \x00\x00\x00\x00\x00\x01\x55\x75\xF5\xFF\x77\xFF\x00\x03\x35\x93\x0B\xDD\x3B\x2B\x00\x00\x00\x01";

// The output of `show` for them.
const BOTH_SHOWN: &[u8] =
    b"unit at=0 bits=432 fix=0 status=111111 tdulc nac=000 lc=000000000000000000\n\
    unit at=432 bits=144 fix=0 status=11 tdu nac=000\n";

// Its output if sync and NID of the second one are destroyed.
const ONE_SHOWN: &[u8] =
    b"unit at=0 bits=432 fix=0 status=111111 tdulc nac=000 lc=000000000000000000\n\
    gap at=432 bits=144\n";

// Sync and NID of the terminator as received: the purpose of the row, their first 14 octets, and whether they are
// written.
const FRONTS: [(&str, &[u8; 14], bool); 6] = [
    (
        "five wrong bits in the sync",
        b"\xAD\x75\xF5\xFF\x77\xFF\x00\x03\x35\x93\x0B\xDD\x3B\x2B",
        true,
    ),
    (
        "a sync all of whose bits are wrong",
        b"\xAA\x8A\x0A\x00\x88\x00\x00\x03\x35\x93\x0B\xDD\x3B\x2B",
        true,
    ),
    (
        "14 wrong bits in the sync and 16 in the identifier",
        b"\xAA\x89\xF5\xFF\x77\xFF\xAA\xA9\x9D\x1B\x83\x5D\x3B\x2B",
        true,
    ),
    (
        "15 wrong bits in the sync and 16 in the identifier",
        b"\xAA\x8B\xF5\xFF\x77\xFF\xAA\xA9\x9D\x1B\x83\x5D\x3B\x2B",
        false,
    ),
    (
        "5 wrong bits in the sync and 17 in the identifier",
        b"\xAD\x75\xF5\xFF\x77\xFF\xAA\xA9\x9D\x1B\x83\x55\x3B\x2B",
        false,
    ),
    (
        "a terminator of another network",
        b"\xAD\x75\xF5\xFF\x77\xFF\x00\x13\x05\xF2\x66\x27\x43\xA2",
        false,
    ),
];

// Whether the output for a sync and NID is that of its row, is shown so, and is unchanged a second time.
fn front_holds(alloc: Global, front: &[u8; 14], is_written: bool) -> bool {
    let mut came = *TERMINATORS;
    came[54..68].copy_from_slice(front);
    let out = if is_written { *TERMINATORS } else { came };
    let shown = if is_written { BOTH_SHOWN } else { ONE_SHOWN };
    writes(alloc, &[b"show"], &came, ONE_SHOWN)
        && writes(alloc, &[b"follow"], &came, &out)
        && writes(alloc, &[b"show"], &out, shown)
        && writes(alloc, &[b"follow"], &out, &out)
}

#[test]
fn fronts_after_a_terminator_with_link_control(rt: HostRuntime) {
    for (_, front, is_written) in &FRONTS {
        assert!(rt; front_holds(rt.alloc(), front, *is_written));
    }
}

// The octets of a call of a header, an LDU1, an LDU2 and a TDULC, in which each data unit but the header has five bit
// errors in its sync.
fn lost_call(call: &[u8; 585]) -> [u8; 585]
    ensures { length result ≡ 585 }
{
    let mut came = *call;
    came[99] ^= 0xF8;
    came[315] ^= 0xF8;
    came[531] ^= 0xF8;
    came
}

#[test]
fn a_call_whose_syncs_are_lost(rt: HostRuntime) {
    let mut call = [0; 585];
    assert!(rt; build(rt.alloc(), b"1", lines_of(4, false).octets(), &mut call) == 585);
    let came = lost_call(&call);
    assert!(rt; writes(rt.alloc(), &[b"check"], &call, b"check units=4 faults=0\n"));
    assert!(rt; writes(rt.alloc(), &[b"follow"], &came, &call));
    assert!(rt; writes(rt.alloc(), &[b"follow"], &call, &call));
    assert!(rt; writes(rt.alloc(), &[b"show"], &call, lines_of(4, true).octets()));
}

// Whether a read that fails ends the call after this number of first octets of the recording.
fn follow_ends_so(alloc: Global, came: &[u8], failing_read: u64, written: &[u8]) -> bool {
    let call = Call {
        failing_read,
        ..calm(&[b"follow"], came, 1)
    };
    ends(alloc, &call, Outcome::ReadFault, written)
}

// After a read fault the output is the decided part of the octets before it: no bit of a stretch with fewer than 6,912
// bits there.
#[test]
fn what_is_followed_before_a_read_fault(rt: HostRuntime) {
    let mut call = [0; 585];
    build(rt.alloc(), b"1", lines_of(4, false).octets(), &mut call);
    let came = lost_call(&call);
    let header = call.get(..99).unwrap_or(&[]);
    let rows: [(u64, &[u8]); 4] = [(99, b""), (100, header), (500, header), (586, header)];
    for (failing_read, written) in rows {
        assert!(rt; follow_ends_so(rt.alloc(), &came, failing_read, written));
    }
}
