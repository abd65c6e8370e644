//! Rows of data units with the calls among them.

ghost use Rattle.std.specs.Prelude.{◌≡◌, ◌≤◌};
ghost use Rattle.p25_units.specs.Items.{place_of};

use super::laws::call_laws;
use super::{Call, CallEnd, Caller, Item, LinkControl};
use crate::seen::item_end;
use p25_bch_nid::LDU1;
use p25_link::{EncryptionSync, HeaderWord};
use p25_units::{Body, FieldList, Frame, Statuses, Unit, VoiceUnit};
use p25_voice_units::{Voice, VoiceFrame};
use std::process::Abort;

// A caller with the calls that it returned, of which the first four are kept.
#[derive(Drop)]
struct Heard {
    caller: Caller,
    place: u64,
    count: u32,
    calls: [Option<Call>; 4],
    found: usize,
    ghost at: { caller.reached ≡ place },
    ghost taken: { caller.taken ≡ count },
    ghost few: { found ≤ 4 },
}

impl Heard {
    fn new() -> Heard {
        Heard {
            caller: Caller::new(),
            place: 0,
            count: 0,
            calls: [None; 4],
            found: 0,
        }
    }

    // Keeps a call, if there is one.
    fn keep(&mut self, call: Option<Call>) {
        if call.is_some() && self.found < 4 {
            self.calls[self.found] = call;
            self.found += 1;
        }
    }

    // The calls, in order.
    fn calls(&self) -> &[Option<Call>] {
        &self.calls[..self.found]
    }

    #[tactic(auto, unfolding(crate::specs::Taking::behind_item))]
    fn hear(&mut self, item: &Item)
        requires { place_of item.now ≡ self.old.place }
    {
        if self.place < 1_000_000 && self.count < 1_000 {
            let call = self.caller.take(item);
            self.place = item_end(item);
            self.count += 1;
            self.keep(call);
        }
    }

    fn gap(&mut self, length: u32) {
        let item = Item::Gap {
            place: self.place,
            length,
        };
        self.hear(&item);
    }

    fn broken(&mut self, nac: u16, duid: u8) {
        let item = Item::Broken {
            place: self.place,
            length: 1_728,
            nac,
            duid,
            fields: FieldList::new(),
        };
        self.hear(&item);
    }

    fn whole(&mut self, voice: VoiceUnit) {
        let item = Item::Whole {
            place: self.place,
            frame: Frame {
                unit: Unit::new(0x293, Body::Voice(voice)),
                statuses: Statuses::new(),
            },
            fixes: 0,
        };
        self.hear(&item);
    }

    fn finish(&mut self) {
        let call = self.caller.finish();
        self.place = 0;
        self.count = 0;
        self.keep(call);
    }
}

#[test]
fn call_of_one_unit(rt: HostRuntime) {
    let mut caller = Caller::new();
    let item = Item::Broken {
        place: 0,
        length: 1_728,
        nac: 0x293,
        duid: LDU1,
        fields: FieldList::new(),
    };
    let call = caller.take(&item).or(caller.finish());
    assert_eq!(rt; call.map(|call| call.bits), Some(1_728));
}

// The calls of broken data units, each after a number of bits of a gap.
fn heard_of(units: &[(u32, u16, u8)]) -> Heard {
    let mut heard = Heard::new();
    for (gap, nac, duid) in units {
        heard.gap(*gap);
        heard.broken(*nac, *duid);
    }
    heard.finish();
    heard
}

// The returned calls have these positions and numbers of bits.
fn have_spans(rt: &impl Abort, calls: &[Option<Call>], spans: &[(u64, u64)]) {
    assert_eq!(rt; calls.len(), spans.len());
    for (call, span) in calls.iter().zip(spans) {
        assert_eq!(rt; call.map(|call| (call.place, call.bits)), Some(*span));
    }
}

#[test]
fn breaks_divide_calls(rt: HostRuntime) {
    call_laws();
    // Each row: the bits of a gap before a data unit, its network access code (NAC) and its data unit identifier
    // (DUID); and the position and the bits of each call.
    let rows: [(&[(u32, u16, u8)], &[(u64, u64)]); 14] = [
        (&[(0, 0x293, 5), (3_456, 0x293, 10)], &[(0, 6912)]),
        (
            &[(0, 0x293, 5), (3_457, 0x293, 10)],
            &[(0, 1728), (5185, 1728)],
        ),
        (&[(0, 0x293, 5), (0, 0x294, 10)], &[(0, 1728), (1728, 1728)]),
        // A terminator (TDU, and then TDULC), a header (HDU) and a packet (PDU) between two data units.
        (
            &[(0, 1, 5), (0, 1, 3), (0, 1, 5)],
            &[(0, 3456), (3456, 1728)],
        ),
        (&[(0, 1, 5), (0, 1, 15), (0, 1, 15)], &[(0, 3456)]),
        (
            &[(0, 1, 5), (0, 1, 0), (0, 1, 5)],
            &[(0, 1728), (1728, 3456)],
        ),
        (
            &[(0, 1, 5), (0, 1, 12), (0, 1, 5)],
            &[(0, 1728), (3456, 1728)],
        ),
        (
            &[(0, 1, 0), (0, 1, 12), (0, 1, 5), (9, 1, 3)],
            &[(3456, 3465)],
        ),
        (&[(7, 0, 0), (0, 0, 10)], &[(7, 3456)]),
        (&[(0, 1, 5), (0, 1, 7)], &[(0, 3456)]),
        // No link data unit: neither an LDU1 nor an LDU2.
        (&[(0, 1, 0), (0, 1, 3)], &[]),
        (&[(0, 1, 3), (0, 1, 15)], &[]),
        (&[(0, 1, 12)], &[]),
        (&[], &[]),
    ];
    for (units, spans) in rows {
        have_spans(&rt, heard_of(units).calls(), spans);
    }
}

// An LDU1, voice with link control, and an LDU2, voice with encryption sync.
fn ldu1(last: u8) -> VoiceUnit {
    VoiceUnit::Link1 {
        link: LinkControl([0, 0, 0, 0, 0, 1, 0, 0, last]),
        low: [0; 2],
        voice: Voice::new([VoiceFrame([0; 18]); 9]),
    }
}

fn ldu2(algid: u8) -> VoiceUnit {
    VoiceUnit::Link2 {
        sync: EncryptionSync {
            mi: [0; 9],
            algid,
            kid: 0,
        },
        low: [0; 2],
        voice: Voice::new([VoiceFrame([0; 18]); 9]),
    }
}

// An HDU: a header.
fn header(algid: u8) -> VoiceUnit {
    VoiceUnit::Header(HeaderWord {
        mi: [0; 9],
        mfid: 0,
        algid,
        kid: 0,
        tgid: 0,
    })
}

#[test]
fn calls_tell_of_the_first_whole_unit(rt: HostRuntime) {
    let mut heard = Heard::new();
    heard.whole(header(0x80));
    heard.whole(ldu1(1));
    heard.whole(ldu2(0x81));
    heard.whole(ldu1(2));
    heard.whole(VoiceUnit::End);
    heard.broken(0x293, 5);
    heard.whole(ldu2(0xAA));
    heard.whole(VoiceUnit::EndLink {
        link: LinkControl([3; 9]),
    });
    heard.broken(0x29, 10);
    heard.finish();
    let calls = [
        Some(Call {
            place: 0,
            bits: 6120,
            nac: 0x293,
            late: false,
            end: CallEnd::Tdu,
            links: 3,
            broken: 0,
            link: Some(LinkControl([0, 0, 0, 0, 0, 1, 0, 0, 1])),
            algid: Some(0x80),
        }),
        Some(Call {
            place: 6120,
            bits: 3888,
            nac: 0x293,
            late: true,
            end: CallEnd::Tdulc,
            links: 2,
            broken: 1,
            link: Some(LinkControl([3; 9])),
            algid: Some(0xAA),
        }),
        Some(Call {
            place: 10_008,
            bits: 1728,
            nac: 0x029,
            late: true,
            end: CallEnd::Open,
            links: 1,
            broken: 1,
            link: None,
            algid: None,
        }),
    ];
    assert_eq!(rt; heard.calls(), calls.as_slice());
}

#[test]
fn a_finished_caller_is_new(rt: HostRuntime) {
    let mut heard = Heard::new();
    heard.broken(0x293, 5);
    heard.finish();
    heard.finish();
    heard.broken(0x294, 10);
    heard.finish();
    have_spans(&rt, heard.calls(), &[(0, 1728), (0, 1728)]);
}
