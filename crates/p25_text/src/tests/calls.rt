//! The texts of calls.

use crate::{CallText, call_text};
use p25_calls::{Call, CallEnd, LinkControl};
use p25_line::Line;
use std::test::Fail;

const CALL: Call = Call {
    place: 10_008,
    bits: 6_120,
    nac: 0x029,
    late: false,
    end: CallEnd::Tdu,
    links: 3,
    broken: 1,
    link: Some(LinkControl([0, 0, 0, 0, 0, 1, 0, 0, 0xA1])),
    algid: Some(0xAA),
};

// A call of each end (with a TDU, with a TDULC, and open), and its text.
const TEXTS: [(Call, &[u8]); 3] = [
    (
        CALL,
        b"call at=10008 bits=6120 nac=029 entry=header end=tdu links=3 broken=1 lc=0000000000010000a1 alg=aa",
    ),
    (
        Call {
            late: true,
            end: CallEnd::Tdulc,
            algid: None,
            ..CALL
        },
        b"call at=10008 bits=6120 nac=029 entry=late end=tdulc links=3 broken=1 lc=0000000000010000a1 alg=none",
    ),
    (
        Call {
            place: 0,
            end: CallEnd::Open,
            link: None,
            ..CALL
        },
        b"call at=0 bits=6120 nac=029 entry=header end=open links=3 broken=1 lc=none alg=aa",
    ),
];

#[test]
fn texts_of_calls(rt: HostRuntime) -> Result<(), Fail> {
    let mut line = Line::new();
    for (call, text) in TEXTS {
        assert!(rt; call.nac < 4_096);
        call_text(&call, &mut line);
        assert_eq!(rt; line.octets(), text);
        assert_eq!(rt;
            CallText::new(&call).to_string(rt.alloc())?.as_bytes(),
            text
        );
    }
    Ok(())
}
