//! Lines of data units that are read, and written again unchanged.

use super::repeated;
use crate::{UnitLine, UnitText, read_line, unit_text};
use p25_line::{Line, LineFault};
use std::process::Abort;
use std::test::Fail;

// A line is read, and written again unchanged.
fn same_again(rt: &impl Abort, line: &[u8]) -> Result<(), Fail> {
    let unit = read_line(line)?;
    let mut text = Line::new();
    unit_text(&unit, &mut text);
    assert_eq!(rt; text.octets(), line);
    Ok(())
}

#[test]
fn unit_of_a_line(rt: HostRuntime) -> Result<(), Fail> {
    let line = "tdulc nac=293 lc=000000000001000001";
    let unit = read_line(line.as_bytes())?;
    let mut out = Line::new();
    unit_text(&unit, &mut out);
    assert_eq!(rt; out.to_string(rt.alloc())?.as_str(), line);
    Ok(())
}

// A data unit is parsed from its line and displayed as it, and so is its fault.
#[test]
fn unit_is_parsed_and_shown(rt: HostRuntime) -> Result<(), Fail> {
    let line = "plain nac=293 head=35c00000000181000000 octets=0123456789abcdef";
    let unit = line.parse::<UnitLine>()?;
    assert_eq!(rt; unit.to_string(rt.alloc())?.as_str(), line);
    assert_eq!(rt; UnitText(&unit.0).to_string(rt.alloc())?.as_str(), line);
    let fault = "tdu nac=29A".parse::<UnitLine>().err();
    assert_eq!(rt; fault, Some(LineFault::Value));
    Ok(())
}

// Lines of a TDU, an HDU, a TDULC and packets (PDU), of zeros and of other digits.
const SHORT: [&[u8]; 10] = [
    b"tdu nac=29a",
    b"hdu nac=000 mi=000000000000000000 mfid=00 algid=00 kid=0000 tgid=0000",
    b"hdu nac=fff mi=ffffffffffffffffff mfid=ff algid=ff kid=ffff tgid=ffff",
    b"tdulc nac=000 lc=000000000000000000",
    b"tdulc nac=fff lc=ffffffffffffffffff",
    b"confirmed nac=293 head=56c00000000180000800 blocks=-",
    b"confirmed nac=293 head=56c00000000181000800 blocks=7f:000102030405060708090a0b0c0d0e0f",
    b"plain nac=293 head=35c00000000180000000 octets=-",
    b"plain nac=293 head=35c00000000181000000 octets=0123456789abcdef",
    b"response nac=293 head=23080000000180000000 octets=-",
];

#[test]
fn short_lines(rt: HostRuntime) -> Result<(), Fail> {
    for line in &SHORT {
        same_again(&rt, line)?;
    }
    Ok(())
}

// Lines of voice (LDU1 and LDU2), and packets (PDU) of 127 blocks, with as many ones among their bits as possible.
const LONG: [&[(&[u8], usize)]; 6] = [
    &[
        (b"ldu1 nac=fff lc=ffffffffffffffffff lsd=ffff voice=", 1),
        (b"f", 324),
    ],
    &[
        (b"ldu2 nac=fff mi=ffffffffffffffffff algid=ff ", 1),
        (b"kid=ffff lsd=ffff voice=", 1),
        (b"f", 324),
    ],
    &[
        (b"ldu1 nac=000 lc=000000000000000000 lsd=0000 voice=", 1),
        (b"0", 324),
    ],
    &[
        (b"confirmed nac=fff head=f6ffffffffffffffffff blocks=", 1),
        (b"7f:ffffffffffffffffffffffffffffffff,", 126),
        (b"7f:ffffffffffffffffffffffffffffffff", 1),
    ],
    &[
        (b"plain nac=fff head=f5ffffffffffffffffff octets=", 1),
        (b"f", 3_040),
    ],
    &[
        (b"response nac=fff head=e3ffffffffffffffffff octets=", 1),
        (b"f", 3_040),
    ],
];

#[test]
fn long_lines(rt: HostRuntime) -> Result<(), Fail> {
    for parts in &LONG {
        same_again(&rt, repeated(parts).octets())?;
    }
    Ok(())
}
