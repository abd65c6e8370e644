//! Recordings that are forwarded in place.

use super::{build, invert, lines_of, put_short, words_of, writes};
use p25_io::{SliceSink, SteadySource};
use p25_line::Line;
use p25_tool::{Outcome, run};
use std::alloc::Global;

// Writes the output of a command for octets, and returns the number of octets: none if it is not done.
fn made(alloc: Global, words: &[&[u8]], input: &[u8], room: &mut [u8]) -> usize {
    let mut source = SteadySource::new(input, 4_096);
    let mut sink = SliceSink::new(room, &[]);
    match run(alloc, &words_of(words), &mut source, &mut sink) {
        Outcome::Done => sink.written().len(),
        _ => 0,
    }
}

#[test]
fn whole_units_are_forwarded_as_by_a_bridge(rt: HostRuntime) {
    let mut call = [0; 585];
    assert!(rt; build(rt.alloc(), b"1", lines_of(4, false).octets(), &mut call) == 585);
    let mut bridged = [0; 585];
    assert!(rt; made(rt.alloc(), &[b"bridge", b"123", b"0"], &call, &mut bridged) == 585);
    assert!(rt; writes(rt.alloc(), &[b"relay", b"123", b"0"], &call, &bridged));
    assert!(rt; writes(rt.alloc(), &[b"relay", b"293", b"1"], &call, &call));
}

// The output of `show` for the call after a relay under NAC 123 with the status symbol 2, whose LDU1 is broken.
fn broken_shown() -> Line {
    let mut text = Line::new();
    put_short(&mut text, b"unit at=0 bits=792 fix=0 status=22222222222 ");
    put_short(
        &mut text,
        b"hdu nac=123 mi=000000000000000000 mfid=00 algid=80 kid=0000 tgid=0001\n",
    );
    put_short(
        &mut text,
        b"broken at=792 bits=1728 nac=123 duid=5 fields=link_control\n",
    );
    put_short(
        &mut text,
        b"unit at=2520 bits=1728 fix=0 status=222222222222222222222222 ",
    );
    put_short(
        &mut text,
        b"ldu2 nac=123 mi=000000000000000000 algid=80 kid=0000 lsd=0000 voice=",
    );
    put_short(&mut text, &[b'0'; 324]);
    put_short(&mut text, b"\nunit at=4248 bits=432 fix=0 status=222222 ");
    put_short(&mut text, b"tdulc nac=123 lc=000000000001000001\n");
    text
}

// Breaks the LDU1 of a call: seven words of its link control become other codewords.
fn break_link(call: &mut [u8; 585]) {
    let mut link = [0; 216];
    link.copy_from_slice(&call[99..315]);
    invert(&mut link, &(405, 10, 4, 3));
    invert(&mut link, &(589, 10, 3, 3));
    call[99..315].copy_from_slice(&link);
}

#[test]
fn a_broken_unit_stays_in_its_place(rt: HostRuntime) {
    let mut call = [0; 585];
    build(rt.alloc(), b"1", lines_of(4, false).octets(), &mut call);
    break_link(&mut call);
    let mut relayed = [0; 585];
    assert!(rt; made(rt.alloc(), &[b"relay", b"123", b"2"], &call, &mut relayed) == 585);
    assert!(rt; writes(rt.alloc(), &[b"relay", b"123", b"2"], &call, &relayed));
    assert!(rt; writes(rt.alloc(), &[b"show"], &relayed, broken_shown().octets()));
}

// 64 octets in which no sync begins.
const NOISE: &[u8; 64] = &[0x3C; 64];

#[test]
fn noise_is_forwarded_as_it_came(rt: HostRuntime) {
    assert!(rt; writes(rt.alloc(), &[b"relay", b"123", b"0"], NOISE, NOISE));
    let mut came = [0x3C; 64];
    let mut sent = [0x3C; 64];
    assert!(rt; build(rt.alloc(), b"1", b"tdu nac=000", &mut came[20..38]) == 18);
    assert!(rt; build(rt.alloc(), b"0", b"tdu nac=123", &mut sent[20..38]) == 18);
    assert!(rt; writes(rt.alloc(), &[b"relay", b"123", b"0"], &came, &sent));
}

// The first 304 bits of a packet (PDU) of NAC 0, which are all but the last 12 of its header, and a terminator with
// link control (TDULC) with four bit errors in its sync, with which that header is uncorrectable.
const BEFORE_UNIT: &[u8; 92] =
    b"\x55\x75\xF5\xFF\x77\xFF\x00\x0C\xD9\x4C\x2F\x74\xEC\xAC\x08\xC8\x6B\x05\xE2\x2F\xF9\xF5\x29\x7D\
    \x92\x22\x59\x2C\x88\xB6\x88\x88\x86\x00\x88\x65\x9C\x22\
    \xD6\xF5\xF5\xFF\x77\xFF\x00\x0F\xED\xDF\x24\xA9\xD7\x87\x00\x00\x00\x01\x00\x00\x00\x00\x00\x00\
    \x00\x00\x01\x00\x00\x00\x00\x00\x00\x00\x00\x01\x00\x00\x00\x00\x00\x00\x00\x00\x01\x00\x00\x00\
    \x00\x00\x00\x00\x00\x01";

// The output for a data unit can make the header of a packet correctable that begins in the stretch before: then that
// packet is found, and the data unit is not.
#[test]
fn a_header_before_a_unit_can_read_afterwards(rt: HostRuntime) {
    let mut came = [0; 92];
    came.copy_from_slice(BEFORE_UNIT);
    let mut sent = came;
    sent[38] = 0x55;
    sent[39] = 0x75;
    assert!(rt;
        writes(
            rt.alloc(),
            &[b"show"],
            &came,
            b"nounit at=0 field=packet_header\ngap at=1 bits=303\n\
        unit at=304 bits=432 fix=4 status=111111 tdulc nac=000 lc=000000000000000000\n",
        )
    );
    assert!(rt; writes(rt.alloc(), &[b"relay", b"000", b"1"], &came, &sent));
    assert!(rt;
        writes(
            rt.alloc(),
            &[b"show"],
            &sent,
            b"broken at=0 bits=576 nac=000 duid=c fields=packet_crc\ngap at=576 bits=160\n",
        )
    );
}
