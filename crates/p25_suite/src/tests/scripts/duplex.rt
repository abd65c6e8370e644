//! Scripts of both stations: the type of each step, the counts of both sides at the end, and lines that are refused.

use super::{Row, are_joined, calm, ends, tells};
use p25_io::SliceSink;
use p25_line::LineFault;
use p25_tool::Outcome;
use std::alloc::Global;

// Fifteen timeouts of each side, and the output if its message 0 is transmitted again at each.
const A_TIMEOUTS: &[u8] =
    b"a timeout\na timeout\na timeout\na timeout\na timeout\na timeout\na timeout\na timeout\na timeout\n\
    a timeout\na timeout\na timeout\na timeout\na timeout\na timeout\n";

const A_RESENT: &[u8] =
    b"a timeout sent ns=0 try=2\na timeout sent ns=0 try=3\na timeout sent ns=0 try=4\n\
    a timeout sent ns=0 try=5\na timeout sent ns=0 try=6\na timeout sent ns=0 try=7\na timeout sent ns=0 try=8\n\
    a timeout sent ns=0 try=9\na timeout sent ns=0 try=10\na timeout sent ns=0 try=11\n\
    a timeout sent ns=0 try=12\na timeout sent ns=0 try=13\na timeout sent ns=0 try=14\n\
    a timeout sent ns=0 try=15\na timeout sent ns=0 try=16\n";

const B_TIMEOUTS: &[u8] =
    b"b timeout\nb timeout\nb timeout\nb timeout\nb timeout\nb timeout\nb timeout\nb timeout\nb timeout\n\
    b timeout\nb timeout\nb timeout\nb timeout\nb timeout\nb timeout\n";

const B_RESENT: &[u8] =
    b"b timeout sent ns=0 try=2\nb timeout sent ns=0 try=3\nb timeout sent ns=0 try=4\n\
    b timeout sent ns=0 try=5\nb timeout sent ns=0 try=6\nb timeout sent ns=0 try=7\nb timeout sent ns=0 try=8\n\
    b timeout sent ns=0 try=9\nb timeout sent ns=0 try=10\nb timeout sent ns=0 try=11\n\
    b timeout sent ns=0 try=12\nb timeout sent ns=0 try=13\nb timeout sent ns=0 try=14\n\
    b timeout sent ns=0 try=15\nb timeout sent ns=0 try=16\n";

// The rows contain the positions in which the network identifiers (NID) of the network access codes (NAC) 293 and 292
// hex differ, and those in which the first transmissions of 6162 and of 6163 hex differ.
const ROWS: [Row; 9] = [
    (
        "an empty script",
        &[b""],
        &[b"a sent=0 delivered=0 acknowledged=0\nb sent=0 delivered=0 acknowledged=0\nfalse=0\n"],
    ),
    (
        "a message each way",
        &[
            b"a send 6162\nb send 6364\ndeliver ab -\ndeliver ba -\nb timeout\ndeliver ba -\ndeliver ab -\n",
        ],
        &[
            b"a send taken ns=0 blocks=1\nb send taken ns=0 blocks=1\nb data delivered ns=0 message=6162\n\
                a answer acknowledged ns=0\nb timeout sent ns=0 try=2\na data delivered ns=0 message=6364\n\
                b answer acknowledged ns=0\na sent=1 delivered=1 acknowledged=1\nb sent=1 delivered=1 acknowledged=1\n\
                false=0\n",
        ],
    ),
    (
        "nothing sent and nothing outstanding",
        &[b"deliver ab -\nb timeout\na reopen\n"],
        &[
            b"b data none\nb timeout idle\na reopen up\na sent=0 delivered=0 acknowledged=0\n\
                b sent=0 delivered=0 acknowledged=0\nfalse=0\n",
        ],
    ),
    (
        "data in the place of an answer, on both sides",
        &[
            b"a send 61\ndeliver ab -\nb send 62\ndeliver ba -\na timeout\ndeliver ab -\ndeliver ba -\nb timeout\n\
                deliver ba -\ndeliver ab -\n",
        ],
        &[
            b"a send taken ns=0 blocks=1\nb data delivered ns=0 message=61\nb send taken ns=0 blocks=1\n\
                a data delivered ns=0 message=62\na timeout sent ns=0 try=2\nb data again ack=0\n\
                a answer acknowledged ns=0\nb timeout sent ns=0 try=2\na data again ack=0\nb answer acknowledged ns=0\n\
                a sent=1 delivered=1 acknowledged=1\nb sent=1 delivered=1 acknowledged=1\nfalse=0\n",
        ],
    ),
    (
        "one side down and opened again",
        &[
            b"a send -\n",
            A_TIMEOUTS,
            b"a timeout\na reopen\ndeliver ab -\n",
        ],
        &[
            b"a send taken ns=0 blocks=1\n",
            A_RESENT,
            b"a timeout down\na reopen sent ns=4\nb data opened ns=4\n",
            b"a sent=1 delivered=0 acknowledged=0 sessions=2\nb sent=0 delivered=0 acknowledged=0\nfalse=0\n",
        ],
    ),
    (
        "both sides down and opened again",
        &[
            b"a send -\n",
            A_TIMEOUTS,
            b"a timeout\na reopen\ndeliver ab -\nb send -\n",
            B_TIMEOUTS,
            b"b timeout\nb reopen\ndeliver ba -\ndeliver ab -\na timeout\ndeliver ab -\ndeliver ba -\na send 61\n",
        ],
        &[
            b"a send taken ns=0 blocks=1\n",
            A_RESENT,
            b"a timeout down\na reopen sent ns=4\nb data opened ns=4\nb send taken ns=0 blocks=1\n",
            B_RESENT,
            b"b timeout down\nb reopen sent ns=4\na data opened ns=4\nb answer opened ns=4\n\
                a timeout sent ns=4 try=2\nb data opened ns=4\na answer opened ns=4\na send taken ns=5 blocks=1\n\
                a sent=2 delivered=0 acknowledged=0 sessions=2\nb sent=1 delivered=0 acknowledged=0 sessions=2\n\
                false=0\n",
        ],
    ),
    (
        "packets with the access code 292 hex both ways",
        &[
            b"a send 6162\ndeliver ab 59,66,67,73,74,79,81,82,84,85,87,88,89,90,91,92,94,97,98,99,100,104,108,111\n\
                deliver ab 0,1,2,3,4\ndeliver ab -\ndeliver ba 59,66,67,73,74,79,81,82,84,85,87,88,89,90,91,92,94,97,98,\
                99,100,104,108,111\ndeliver ba -\ndeliver ba -\n",
        ],
        &[
            b"a send taken ns=0 blocks=1\nb data ignored\nb data lost sync\nb data delivered ns=0 message=6162\n\
                a data ignored\na answer acknowledged ns=0\na answer ignored\na sent=1 delivered=1 acknowledged=1\n\
                b sent=0 delivered=0 acknowledged=0\nfalse=0\n",
        ],
    ),
    (
        "a false pass each way",
        &[
            b"a send 6162\nb send 6162\ndeliver ab 322,360,361,363,364,367,369,375,408,409,412,416,426,427,458,460,\
                461,462,465,466,468,470,476,508,509,510,511,514\ndeliver ba -\nb timeout\ndeliver ba 322,360,361,363,\
                364,367,369,375,408,409,412,416,426,427,458,460,461,462,465,466,468,470,476,508,509,510,511,514\n",
        ],
        &[
            b"a send taken ns=0 blocks=1\nb send taken ns=0 blocks=1\nb data delivered ns=0 message=6163 false\n\
                a answer acknowledged ns=0\nb timeout sent ns=0 try=2\na data delivered ns=0 message=6163 false\n\
                a sent=1 delivered=1 acknowledged=1\nb sent=1 delivered=1 acknowledged=0\nfalse=2\n",
        ],
    ),
    (
        "a false pass, a lost packet and a last line without its end",
        &[
            b"b send 6162\ndeliver ba 322,360,361,363,364,367,369,375,408,409,412,416,426,427,458,460,461,462,465,\
                466,468,470,476,508,509,510,511,514\ndeliver ab 0,1,2,3,4\na send 61",
        ],
        &[
            b"b send taken ns=0 blocks=1\na data delivered ns=0 message=6163 false\nb data lost sync\n\
                a send taken ns=0 blocks=1\na sent=1 delivered=0 acknowledged=0\nb sent=1 delivered=1 acknowledged=0\n\
                false=1\n",
        ],
    ),
];

#[test]
fn duplex_scripts_tell_their_steps(rt: HostRuntime) {
    for row in &ROWS {
        assert!(rt; tells(rt.alloc(), b"duplex", row));
    }
}

// A second line, and the reason for refusing it.
const LINES: [(&[u8], LineFault); 20] = [
    (b"", LineFault::Form),
    (b"a  timeout", LineFault::Form),
    (b"c timeout", LineFault::Kind),
    (b"A timeout", LineFault::Kind),
    (b"timeout", LineFault::Kind),
    (b"send 61", LineFault::Kind),
    (b"a", LineFault::Key),
    (b"a send", LineFault::Key),
    (b"a send 61 62", LineFault::Key),
    (b"a timeout x", LineFault::Key),
    (b"b reopen x", LineFault::Key),
    (b"b deliver ab -", LineFault::Key),
    (b"b sent 61", LineFault::Key),
    (b"deliver", LineFault::Key),
    (b"deliver ab", LineFault::Key),
    (b"deliver data -", LineFault::Key),
    (b"deliver aa 3,3", LineFault::Key),
    (b"deliver ab - -", LineFault::Key),
    (b"a send 6", LineFault::Value),
    (b"deliver ba 3,3", LineFault::Value),
];

// Whether a second line is refused so.
fn is_refused(alloc: Global, line: &[u8], fault: LineFault) -> bool {
    let mut room = [0; 256];
    let mut script = SliceSink::new(&mut room, &[]);
    let is_room = are_joined(&[b"a send 6162\n", line, b"\nb timeout\n"], &mut script);
    let refused = Outcome::BadLine { line: 2, fault };
    let call = calm(b"duplex", script.written(), 7);
    is_room && ends(alloc, &call, refused, b"a send taken ns=0 blocks=1\n")
}

#[test]
fn second_duplex_lines_are_refused(rt: HostRuntime) {
    for (line, fault) in &LINES {
        assert!(rt; is_refused(rt.alloc(), line, *fault));
    }
}
