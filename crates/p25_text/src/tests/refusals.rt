//! Lines of data units that are refused, each with its first fault.

use super::repeated;
use crate::read_line;
use p25_line::LineFault;
use std::process::Abort;

// A line is refused with a fault.
fn refused(rt: &impl Abort, line: &[u8], fault: LineFault) {
    assert_eq!(rt; read_line(line).err(), Some(fault));
}

const FAULTS: [(&[u8], LineFault); 18] = [
    (b"", LineFault::Form),
    (b"tdu nac=000 ", LineFault::Form),
    (b"tdu  nac=000", LineFault::Form),
    (b"tdulc  nac=000 lc=000000000000000000", LineFault::Form),
    (b"tdu\tnac=000", LineFault::Form),
    (b"foo", LineFault::Kind),
    (b"TDU nac=000", LineFault::Kind),
    (b"HDU nac=000", LineFault::Kind),
    (b"ldu3 nac=00A", LineFault::Kind),
    (b"tdu nak=000", LineFault::Key),
    (b"tdu", LineFault::Key),
    (b"tdu nac=000 nac=000", LineFault::Key),
    (b"tdulc lc=000000000000000000 nac=000", LineFault::Key),
    (b"tdulc nac=00A lx=000000000000000000", LineFault::Key),
    (
        b"hdu nac=000 mi=0 mfid=00 algid=00 kid=0000",
        LineFault::Key,
    ),
    (b"tdu nac=00A", LineFault::Value),
    (b"tdu nac=00", LineFault::Value),
    (b"tdu nac=0000", LineFault::Value),
];

// The first fault of a line is returned.
#[test]
fn first_faults(rt: HostRuntime) {
    refused(&rt, &[b'a'; 8_193], LineFault::Long);
    for (line, fault) in &FAULTS {
        refused(&rt, line, *fault);
    }
}

// A value of a header (HDU) has as many digits as its key requires. The format of a packet (PDU) is that of its type,
// and there are as many blocks or octets as its header requires.
const VALUES: [&[u8]; 31] = [
    b"hdu nac=000 mi=0 mfid=00 algid=00 kid=0000 tgid=0000",
    b"hdu nac=000 mi=000000000000000000 mfid=000 algid=00 kid=0000 tgid=0000",
    b"hdu nac=000 mi=000000000000000000 mfid=00 algid=0 kid=0000 tgid=0000",
    b"hdu nac=000 mi=000000000000000000 mfid=00 algid=00 kid= tgid=0000",
    b"hdu nac=000 mi=000000000000000000 mfid=00 algid=00 kid=0000 tgid=000G",
    b"hdu nac=00A mi=000000000000000000 mfid=00 algid=00 kid=0000 tgid=0000",
    b"confirmed nac=000 head=56c0000000018000080 blocks=-",
    b"confirmed nac=000 head=56C00000000180000800 blocks=-",
    b"confirmed nac=000 head=35c00000000180000800 blocks=-",
    b"plain nac=000 head=23080000000180000000 octets=-",
    b"plain nac=000 head=56c00000000180000000 octets=-",
    b"response nac=000 head=35c00000000180000000 octets=-",
    b"confirmed nac=000 head=56c00000000181000800 blocks=-",
    b"confirmed nac=000 head=56c00000000180000800 blocks=",
    b"confirmed nac=000 head=56c00000000180000800 blocks=00:00000000000000000000000000000000",
    b"confirmed nac=000 head=56c00000000182000800 blocks=00:00000000000000000000000000000000",
    b"confirmed nac=000 head=56c00000000181000800 blocks=00:00000000000000000000000000000000,",
    b"confirmed nac=000 head=56c00000000181000800 blocks=,00:00000000000000000000000000000000",
    b"confirmed nac=000 head=56c00000000181000800 blocks=80:00000000000000000000000000000000",
    b"confirmed nac=000 head=56c00000000181000800 blocks=0:000000000000000000000000000000000",
    b"confirmed nac=000 head=56c00000000181000800 blocks=00-00000000000000000000000000000000",
    b"confirmed nac=000 head=56c00000000181000800 blocks=00:0000000000000000000000000000000",
    b"confirmed nac=000 head=56c00000000181000800 blocks=00:0000000000000000000000000000000F",
    b"plain nac=000 head=35c00000000180000000 octets=",
    b"plain nac=000 head=35c00000000180000000 octets=00",
    b"plain nac=000 head=35c00000000181000000 octets=-",
    b"plain nac=000 head=35c00000000181000000 octets=00000000000000",
    b"response nac=000 head=23080000000181000000 octets=000000000000000000",
    b"response nac=000 head=23080000000180000000 octets=00",
    b"plain nac=000 head=56c00000000180000800 octets=-",
    b"ldu1 nac=000 lc=000000000000000000 lsd=0000 voice=00",
];

#[test]
fn refused_values(rt: HostRuntime) {
    for line in &VALUES {
        refused(&rt, line, LineFault::Value);
    }
}

// A value of voice (LDU1) has as many digits as its key requires, and so has that of a terminator with link control (TDULC).
const VOICE: [&[(&[u8], usize)]; 5] = [
    &[(b"tdulc nac=000 lc=", 1), (b"0", 17)],
    &[
        (b"ldu1 nac=000 lc=000000000000000000 lsd=000 voice=", 1),
        (b"0", 324),
    ],
    &[
        (b"ldu1 nac=000 lc=000000000000000000 lsd=0000 voice=", 1),
        (b"0", 322),
    ],
    &[
        (b"ldu1 nac=000 lc=000000000000000000 lsd=0000 voice=", 1),
        (b"0", 326),
    ],
    &[
        (b"ldu1 nac=000 lc=000000000000000000 lsd=0000 voice=", 1),
        (b"F", 324),
    ],
];

#[test]
fn refused_voice_values(rt: HostRuntime) {
    for parts in &VOICE {
        refused(&rt, repeated(parts).octets(), LineFault::Value);
    }
}
