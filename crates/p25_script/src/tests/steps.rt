//! The texts of steps.

use super::is_text_of;
use crate::{Step, StepKind, Way, step_text};
use p25_line::Line;
use p25_messages::Message;
use p25_packet_blocks::Flags;
use p25_status::Field;
use std::test::Fail;

// Whether a step of this type, which is no false pass, has this text.
fn has_text(kind: StepKind, text: &[u8]) -> bool {
    let step = Step {
        kind,
        false_pass: false,
    };
    is_text_of(&step, text)
}

const SENDING: [(StepKind, &[u8]); 8] = [
    (
        StepKind::Taken {
            number: 7,
            blocks: 127,
        },
        b"send taken ns=7 blocks=127",
    ),
    (StepKind::Busy, b"send busy"),
    (StepKind::OfferDown, b"send down"),
    (
        StepKind::Resent {
            number: 0,
            tries: 16,
        },
        b"timeout sent ns=0 try=16",
    ),
    (StepKind::Idle, b"timeout idle"),
    (StepKind::TimeoutDown, b"timeout down"),
    (StepKind::Reopened { number: 4 }, b"reopen sent ns=4"),
    (StepKind::Up, b"reopen up"),
];

#[test]
fn texts_of_sending(rt: HostRuntime) {
    for (kind, text) in SENDING {
        assert!(rt; has_text(kind, text));
    }
}

const DELIVERIES: [(StepKind, &[u8]); 12] = [
    (StepKind::Nothing { way: Way::Packets }, b"data none"),
    (StepKind::Nothing { way: Way::Answers }, b"answer none"),
    (
        StepKind::Lost {
            way: Way::Packets,
            field: Field::Block(12),
        },
        b"data lost block.12",
    ),
    (
        StepKind::Lost {
            way: Way::Answers,
            field: Field::PacketCrc,
        },
        b"answer lost packet_crc",
    ),
    (StepKind::Ignored { way: Way::Packets }, b"data ignored"),
    (StepKind::Ignored { way: Way::Answers }, b"answer ignored"),
    (StepKind::SynHeard { number: 4 }, b"data opened ns=4"),
    (StepKind::Again { number: 6 }, b"data again ack=6"),
    (StepKind::RefusedCrc { number: 1 }, b"data refused crc ns=1"),
    (
        StepKind::RefusedOrder { last: 7 },
        b"data refused order vr=7",
    ),
    (
        StepKind::Acknowledged { number: 3 },
        b"answer acknowledged ns=3",
    ),
    (StepKind::LinkOpened { number: 2 }, b"answer opened ns=2"),
];

#[test]
fn texts_of_deliveries(rt: HostRuntime) {
    for (kind, text) in DELIVERIES {
        assert!(rt; has_text(kind, text));
    }
}

#[test]
fn texts_of_blocks(rt: HostRuntime) {
    let mut few = Flags::new(64);
    few.set(1, true);
    few.set(3, true);
    let kept = StepKind::Kept {
        number: 0,
        flags: few,
    };
    assert!(rt; has_text(kept, b"data kept ns=0 flags=5000000000000000"));
    let mut many = Flags::new(128);
    many.set(0, true);
    many.set(127, true);
    let kept = StepKind::Kept {
        number: 0,
        flags: many,
    };
    assert!(rt;
        has_text(
            kept,
            b"data kept ns=0 flags=80000000000000000000000000000001"
        )
    );
    let mut wanted = Flags::new(128);
    wanted.set(0, true);
    wanted.set(2, true);
    wanted.set(126, true);
    let retry = StepKind::Retry {
        number: 5,
        wanted,
        tries: 2,
    };
    assert!(rt; has_text(retry, b"answer retry ns=5 blocks=0,2,126 try=2"));
    let repeat = StepKind::Repeat {
        number: 0,
        tries: 2,
    };
    assert!(rt; has_text(repeat, b"answer repeat ns=0 try=2"));
    assert!(rt; has_text(StepKind::AnswerDown, b"answer down"));
}

#[test]
fn texts_of_messages(rt: HostRuntime) -> Result<(), Fail> {
    let message = Message::new(b"ac").ok_or("two octets are a message")?;
    let step = Step {
        kind: StepKind::Delivered { number: 0, message },
        false_pass: true,
    };
    assert!(rt; is_text_of(&step, b"data delivered ns=0 message=6163 false"));
    let longest = Message::new(&[255; 2_028]).ok_or("2,028 octets are a message")?;
    let step = Step {
        kind: StepKind::Delivered {
            number: 7,
            message: longest,
        },
        false_pass: true,
    };
    let mut line = Line::new();
    step_text(&step, &mut line);
    assert_eq!(rt; line.len(), 4_090);
    Ok(())
}
