//! Lines of scripts, read and refused.

use super::refused;
use crate::{Event, EventLine, Way, read_event};
use p25_line::LineFault;

const FAULTS: [(&str, LineFault); 15] = [
    ("", LineFault::Form),
    ("timeout ", LineFault::Form),
    ("send  61", LineFault::Form),
    ("timeouts", LineFault::Kind),
    ("Send 61", LineFault::Kind),
    ("data -", LineFault::Kind),
    ("send", LineFault::Key),
    ("send 61 62", LineFault::Key),
    ("timeout x", LineFault::Key),
    ("reopen now", LineFault::Key),
    ("deliver", LineFault::Key),
    ("deliver data", LineFault::Key),
    ("deliver data - -", LineFault::Key),
    ("deliver voice -", LineFault::Key),
    ("deliver voice 3,3", LineFault::Key),
];

// The first fault of a line is returned.
#[test]
fn first_faults(rt: HostRuntime) {
    assert_eq!(rt; read_event(&[b'a'; 8_193]).err(), Some(LineFault::Long));
    refused::<EventLine>(&rt, &FAULTS);
}

const VALUES: [&[u8]; 15] = [
    b"send 6",
    b"send 616",
    b"send 6A",
    b"send --",
    b"deliver data 3,3",
    b"deliver data 4,3",
    b"deliver data 03",
    b"deliver data 25920",
    b"deliver data 18446744073709551616",
    b"deliver data ,",
    b"deliver data 3,",
    b"deliver data ,3",
    b"deliver data 3,,4",
    b"deliver answer -,3",
    b"deliver answer +3",
];

// A message of 2,029 octets is too long, and other values are refused too.
#[test]
fn refused_values(rt: HostRuntime) {
    let mut long = [b'0'; 5 + 4_058];
    long[..5].copy_from_slice(b"send ");
    assert_eq!(rt; read_event(&long).err(), Some(LineFault::Value));
    for line in &VALUES {
        assert_eq!(rt; read_event(line).err(), Some(LineFault::Value));
    }
}

// Whether a line sends these octets.
fn sends(line: &[u8], octets: &[u8]) -> bool {
    match read_event(line) {
        Ok(Event::Send(message)) => message.octets() == octets,
        _ => false,
    }
}

// Whether a line delivers the newest transmission of this direction, with this number of bits inverted.
fn delivers(line: &[u8], to: Way, count: usize) -> bool {
    match read_event(line) {
        Ok(Event::ToReceiver(flips)) => to == Way::Packets && flips.len() == count,
        Ok(Event::ToSender(flips)) => to == Way::Answers && flips.len() == count,
        _ => false,
    }
}

#[test]
fn read_lines(rt: HostRuntime) {
    assert!(rt; sends(b"send 61ff", b"a\xff"));
    let mut long = [b'0'; 5 + 4_056];
    long[..5].copy_from_slice(b"send ");
    assert!(rt; sends(&long, &[0; 2_028]));
    assert!(rt; delivers(b"deliver data 0,9,25919", Way::Packets, 3));
    assert!(rt; delivers(b"deliver answer -", Way::Answers, 0));
    assert!(rt; matches!(read_event(b"timeout"), Ok(Event::Timeout)));
    assert!(rt; matches!(read_event(b"reopen"), Ok(Event::Reopen)));
}
