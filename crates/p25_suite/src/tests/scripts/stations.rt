//! Scripts of messages: each step of the world, and the counts at the end.

use super::{Row, are_joined, calm, ends, tells};
use p25_io::SliceSink;
use p25_line::{Line, LineFault};
use p25_script::{closing_text, read_event, step_text};
use p25_stations::World;
use p25_tool::Outcome;
use std::alloc::Global;

// Fifteen timeouts, and the output if message 0 is transmitted again at each.
pub const TIMEOUTS: &[u8] =
    b"timeout\ntimeout\ntimeout\ntimeout\ntimeout\ntimeout\ntimeout\ntimeout\ntimeout\ntimeout\ntimeout\n\
    timeout\ntimeout\ntimeout\ntimeout\n";

const RESENT: &[u8] =
    b"timeout sent ns=0 try=2\ntimeout sent ns=0 try=3\ntimeout sent ns=0 try=4\ntimeout sent ns=0 try=5\n\
    timeout sent ns=0 try=6\ntimeout sent ns=0 try=7\ntimeout sent ns=0 try=8\ntimeout sent ns=0 try=9\n\
    timeout sent ns=0 try=10\ntimeout sent ns=0 try=11\ntimeout sent ns=0 try=12\ntimeout sent ns=0 try=13\n\
    timeout sent ns=0 try=14\ntimeout sent ns=0 try=15\ntimeout sent ns=0 try=16\n";

// The digits of 60 octets of 0, and of 1,036.
const ZEROS_60: &[u8] = &[b'0'; 120];

const ZEROS_1036: &[u8] = &[b'0'; 2_072];

const ROWS: [Row; 13] = [
    (
        "an empty script",
        &[b""],
        &[b"sent=0 delivered=0 acknowledged=0 false=0\n"],
    ),
    (
        "three messages",
        &[
            b"send -\ndeliver data -\ndeliver answer -\nsend 6162\ndeliver data -\ndeliver answer -\nsend 6261\n\
                deliver data -\ndeliver answer -\n",
        ],
        &[
            b"send taken ns=0 blocks=1\ndata delivered ns=0 message=-\nanswer acknowledged ns=0\n\
                send taken ns=1 blocks=1\ndata delivered ns=1 message=6162\nanswer acknowledged ns=1\n\
                send taken ns=2 blocks=1\ndata delivered ns=2 message=6261\nanswer acknowledged ns=2\n",
            b"sent=3 delivered=3 acknowledged=3 false=0\n",
        ],
    ),
    (
        "blocks that are asked for again",
        &[
            b"send ",
            ZEROS_60,
            b"\ndeliver data 366,367,514,515,516,517,768,769,916,917,918,919\ndeliver answer -\ndeliver data -\n\
                timeout\ndeliver data -\ndeliver answer -\nsend -\n",
        ],
        &[
            b"send taken ns=0 blocks=4\ndata kept ns=0 flags=5000000000000000\nanswer retry ns=0 blocks=0,2 try=2\n\
                data delivered ns=0 message=",
            ZEROS_60,
            b"\ntimeout sent ns=0 try=3\ndata again ack=0\nanswer acknowledged ns=0\nsend taken ns=1 blocks=1\n\
                sent=2 delivered=1 acknowledged=1 false=0\n",
        ],
    ),
    (
        "the last of 65 blocks asked for again",
        &[
            b"send ",
            ZEROS_1036,
            b"\ndeliver data 13219,13221,13223,13224,13260,13262,13264,13266,13268,13271,13272,13273,13275,13276,\
                13279,13310,13311,13312,13314,13316,13320,13322,13323,13324,13325,13326,13327,13329,13359,13360,13361,\
                13362,13364,13366,13368,13370,13371,13372,13373,13408,13410,13412,13414,13416,13418\ndeliver answer -\n\
                deliver data -\n",
        ],
        &[
            b"send taken ns=0 blocks=65\ndata kept ns=0 flags=ffffffffffffffff0000000000000000\n\
                answer retry ns=0 blocks=64 try=2\ndata delivered ns=0 message=",
            ZEROS_1036,
            b"\nsent=1 delivered=1 acknowledged=0 false=0\n",
        ],
    ),
    (
        "numbers begin again at eight",
        &[
            b"send -\ndeliver data -\ndeliver answer -\nsend -\ndeliver data -\ndeliver answer -\nsend -\n\
                deliver data -\ndeliver answer -\nsend -\ndeliver data -\ndeliver answer -\nsend -\ndeliver data -\n\
                deliver answer -\nsend -\ndeliver data -\ndeliver answer -\nsend -\ndeliver data -\ndeliver answer -\n\
                send -\ndeliver data -\ndeliver answer -\nsend -\ndeliver answer -\n",
        ],
        &[
            b"send taken ns=0 blocks=1\ndata delivered ns=0 message=-\nanswer acknowledged ns=0\n\
                send taken ns=1 blocks=1\ndata delivered ns=1 message=-\nanswer acknowledged ns=1\n\
                send taken ns=2 blocks=1\ndata delivered ns=2 message=-\nanswer acknowledged ns=2\n\
                send taken ns=3 blocks=1\ndata delivered ns=3 message=-\nanswer acknowledged ns=3\n\
                send taken ns=4 blocks=1\ndata delivered ns=4 message=-\nanswer acknowledged ns=4\n\
                send taken ns=5 blocks=1\ndata delivered ns=5 message=-\nanswer acknowledged ns=5\n\
                send taken ns=6 blocks=1\ndata delivered ns=6 message=-\nanswer acknowledged ns=6\n\
                send taken ns=7 blocks=1\ndata delivered ns=7 message=-\nanswer acknowledged ns=7\n\
                send taken ns=0 blocks=1\nanswer ignored\n",
            b"sent=9 delivered=8 acknowledged=8 false=0\n",
        ],
    ),
    (
        "sixteen tries",
        &[b"send -\nsend -\n", TIMEOUTS, b"timeout\nsend -\n"],
        &[
            b"send taken ns=0 blocks=1\nsend busy\n",
            RESENT,
            b"timeout down\nsend down\n",
            b"sent=1 delivered=0 acknowledged=0 false=0\n",
        ],
    ),
    (
        "a delivery that is opened again",
        &[
            b"send -\nsend -\n",
            TIMEOUTS,
            b"timeout\nsend -\nreopen\ndeliver data -\ndeliver answer -\nsend 6162\ndeliver data -\n\
                deliver answer -\n",
        ],
        &[
            b"send taken ns=0 blocks=1\nsend busy\n",
            RESENT,
            b"timeout down\nsend down\nreopen sent ns=4\ndata opened ns=4\nanswer opened ns=4\n\
                send taken ns=5 blocks=1\ndata delivered ns=5 message=6162\nanswer acknowledged ns=5\n",
            b"sent=2 delivered=1 acknowledged=1 false=0 sessions=2\n",
        ],
    ),
    (
        "a late answer behind a reopening",
        &[
            b"reopen\nsend -\ndeliver data -\n",
            TIMEOUTS,
            b"timeout\nreopen\ndeliver answer -\ndeliver data -\ndeliver answer -\n",
        ],
        &[
            b"reopen up\nsend taken ns=0 blocks=1\ndata delivered ns=0 message=-\n",
            RESENT,
            b"timeout down\nreopen sent ns=4\nanswer ignored\ndata opened ns=4\nanswer opened ns=4\n",
            b"sent=1 delivered=1 acknowledged=0 false=0 sessions=2\n",
        ],
    ),
    (
        "a retry that is asked for after sixteen tries",
        &[
            b"send -\ndeliver data 320,321,322,323,356,360,362,364,366,369,375,408,409,410,412,414,416,418,419,420,\
                421,422,423,425,457,458,459,460,462,464,466,506,508,510,512,514,516\n",
            TIMEOUTS,
            b"deliver answer -\n",
        ],
        &[
            b"send taken ns=0 blocks=1\ndata kept ns=0 flags=0000000000000000\n",
            RESENT,
            b"answer down\nsent=1 delivered=0 acknowledged=0 false=0\n",
        ],
    ),
    (
        "nothing sent, nothing outstanding and a lost packet",
        &[b"deliver data -\ndeliver answer -\ntimeout\nsend 6162\ndeliver data 0,1,2,3,4\n"],
        &[
            b"data none\nanswer none\ntimeout idle\nsend taken ns=0 blocks=1\ndata lost sync\n",
            b"sent=1 delivered=0 acknowledged=0 false=0\n",
        ],
    ),
    (
        "a message that comes as another one",
        &[
            b"send 6162\ndeliver data 322,360,361,363,364,367,369,375,408,409,412,416,426,427,458,460,461,462,465,\
                466,468,470,476,508,509,510,511,514\n",
        ],
        &[
            b"send taken ns=0 blocks=1\ndata delivered ns=0 message=6163 false\n",
            b"sent=1 delivered=1 acknowledged=0 false=1\n",
        ],
    ),
    (
        "a packet that comes with number 3",
        &[
            b"send 6162\ndeliver data 160,161,162,163,164,165,200,201,203,213,217,251,252,253,258,259,260,264,310,\
                314\ndeliver answer -\n",
        ],
        &[
            b"send taken ns=0 blocks=1\ndata refused order vr=7 false\nanswer ignored\n",
            b"sent=1 delivered=0 acknowledged=0 false=1\n",
        ],
    ),
    (
        "a block that comes with another octet, under the same packet CRC",
        &[
            b"send 6162\ndeliver data 320,322,323,375,418,419,422,423,425,426,427,468,469,470,476\n\
                deliver answer -\ndeliver data -\n",
        ],
        &[
            b"send taken ns=0 blocks=1\ndata refused crc ns=0 false\nanswer repeat ns=0 try=2\n\
                data delivered ns=0 message=6162\n",
            b"sent=1 delivered=1 acknowledged=0 false=1\n",
        ],
    ),
];

// Writes the text of the step that a world makes for a line, and returns whether there was one.
fn is_told(world: &mut World, line: &[u8], told: &mut SliceSink) -> bool {
    let mut out = Line::new();
    let Ok(event) = read_event(line) else {
        return false;
    };
    match world.step(&event) {
        Ok(step) => {
            step_text(&step, &mut out);
            are_joined(&[out.octets(), b"\n"], told)
        }
        Err(_) => false,
    }
}

// Writes the texts of the steps that a world makes for the lines of a script, and the text that closes its run.
fn are_told(alloc: Global, script: &[u8], told: &mut SliceSink) -> bool {
    let mut world = World::new(alloc);
    let mut start = 0;
    for i in 0..script.len() {
        if script[i] == b'\n' && start <= i {
            if !is_told(&mut world, &script[start..i], told) {
                return false;
            }
            start = i + 1;
        }
    }
    let mut out = Line::new();
    closing_text(&world, &mut out);
    are_joined(&[out.octets(), b"\n"], told)
}

// Whether a world that steps from line to line has the output of a row.
fn steps_tell(alloc: Global, row: &Row) -> bool {
    let (mut script_room, mut told_room, mut text_room) = ([0; 16_384], [0; 32_768], [0; 32_768]);
    let mut script = SliceSink::new(&mut script_room, &[]);
    let mut told = SliceSink::new(&mut told_room, &[]);
    let mut text = SliceSink::new(&mut text_room, &[]);
    let is_room = are_joined(row.1, &mut script) && are_joined(row.2, &mut text);
    is_room && are_told(alloc, script.written(), &mut told) && told.written() == text.written()
}

// The output of the command for a script is that of a world that steps from line to line.
#[test]
fn scripts_of_messages_and_steps_of_a_world(rt: HostRuntime) {
    for row in &ROWS {
        assert!(rt; tells(rt.alloc(), b"stations", row) && steps_tell(rt.alloc(), row));
    }
}

// A script with a line that is refused: its number and fault, and the output for the lines before.
type Refused = (&'static [u8], u64, LineFault, &'static [u8]);

const TAKEN: &[u8] = b"send taken ns=0 blocks=1\n";

const REFUSED: [Refused; 6] = [
    (b"foo\n", 1, LineFault::Kind, b""),
    (b"send -\nfoo\ndeliver data -\n", 2, LineFault::Kind, TAKEN),
    (b"send -\n\ndeliver data -\n", 2, LineFault::Form, TAKEN),
    (
        b"send -\ndeliver voice -\ndeliver data -\n",
        2,
        LineFault::Key,
        TAKEN,
    ),
    (
        b"send -\ndeliver data 3,3\ndeliver data -\n",
        2,
        LineFault::Value,
        TAKEN,
    ),
    (b"send -\ntdu nac=000", 2, LineFault::Kind, TAKEN),
];

fn is_refused(alloc: Global, row: &Refused) -> bool {
    let (script, line, fault, steps) = *row;
    let refused = Outcome::BadLine { line, fault };
    ends(alloc, &calm(b"stations", script, 7), refused, steps)
}

#[test]
fn a_refused_line_ends_a_script(rt: HostRuntime) {
    for row in &REFUSED {
        assert!(rt; is_refused(rt.alloc(), row));
    }
}
