//! Scripts of long messages: the meaning of each step, the counts at the end, and a line that is refused.

use super::stations::TIMEOUTS;
use super::{Row, calm, ends, tells};
use p25_line::LineFault;
use p25_tool::Outcome;

// The digits of 501 octets of 0 or, after the mark of a part, of 500; and those of 4,000 octets of 77 hex, and of 500.
const ZEROS_501: &[u8] = &[b'0'; 1_002];

const SEVENS_4000: &[u8] = &[b'7'; 8_000];

const SEVENS_500: &[u8] = &[b'7'; 1_000];

// The output if message 1 is transmitted again at each of fifteen timeouts.
const RESENT: &[u8] =
    b"timeout sent ns=1 try=2\ntimeout sent ns=1 try=3\ntimeout sent ns=1 try=4\ntimeout sent ns=1 try=5\n\
    timeout sent ns=1 try=6\ntimeout sent ns=1 try=7\ntimeout sent ns=1 try=8\ntimeout sent ns=1 try=9\n\
    timeout sent ns=1 try=10\ntimeout sent ns=1 try=11\ntimeout sent ns=1 try=12\ntimeout sent ns=1 try=13\n\
    timeout sent ns=1 try=14\ntimeout sent ns=1 try=15\ntimeout sent ns=1 try=16\n";

const ROWS: [Row; 5] = [
    (
        "an empty script",
        &[b""],
        &[b"taken=0 whole=0 acknowledged=0 false=0\n"],
    ),
    (
        "a long message in two parts",
        &[
            b"long ",
            ZEROS_501,
            b"\ndeliver data -\ndeliver answer -\ndeliver data -\ndeliver answer -\n",
        ],
        &[
            b"long taken parts=2\nsend taken ns=0 blocks=32\ndata delivered ns=0 message=",
            ZEROS_501,
            b"\npart 0\nanswer acknowledged ns=0\nsend taken ns=1 blocks=1\ndata delivered ns=1 message=8100\n\
                whole message=",
            ZEROS_501,
            b"\nanswer acknowledged ns=1\nlong acknowledged\ntaken=1 whole=1 acknowledged=1 false=0\n",
        ],
    ),
    (
        "an empty long message, and one while it is outstanding",
        &[b"long -\nlong -\ndeliver data -\n"],
        &[
            b"long taken parts=1\nsend taken ns=0 blocks=1\nlong busy\ndata delivered ns=0 message=80\n\
                whole message=-\ntaken=1 whole=1 acknowledged=0 false=0\n",
        ],
    ),
    (
        "a long message in eight parts",
        &[
            b"long ",
            SEVENS_4000,
            b"\ndeliver data -\ndeliver answer -\ndeliver data -\ndeliver answer -\ndeliver data -\n\
                deliver answer -\ndeliver data -\ndeliver answer -\ndeliver data -\ndeliver answer -\ndeliver data -\n\
                deliver answer -\ndeliver data -\ndeliver answer -\ndeliver data -\ndeliver answer -\n",
        ],
        &[
            b"long taken parts=8\nsend taken ns=0 blocks=32\ndata delivered ns=0 message=00",
            SEVENS_500,
            b"\npart 0\nanswer acknowledged ns=0\nsend taken ns=1 blocks=32\ndata delivered ns=1 message=01",
            SEVENS_500,
            b"\npart 1\nanswer acknowledged ns=1\nsend taken ns=2 blocks=32\ndata delivered ns=2 message=02",
            SEVENS_500,
            b"\npart 2\nanswer acknowledged ns=2\nsend taken ns=3 blocks=32\ndata delivered ns=3 message=03",
            SEVENS_500,
            b"\npart 3\nanswer acknowledged ns=3\nsend taken ns=4 blocks=32\ndata delivered ns=4 message=04",
            SEVENS_500,
            b"\npart 4\nanswer acknowledged ns=4\nsend taken ns=5 blocks=32\ndata delivered ns=5 message=05",
            SEVENS_500,
            b"\npart 5\nanswer acknowledged ns=5\nsend taken ns=6 blocks=32\ndata delivered ns=6 message=06",
            SEVENS_500,
            b"\npart 6\nanswer acknowledged ns=6\nsend taken ns=7 blocks=32\ndata delivered ns=7 message=87",
            SEVENS_500,
            b"\nwhole message=",
            SEVENS_4000,
            b"\nanswer acknowledged ns=7\nlong acknowledged\ntaken=1 whole=1 acknowledged=1 false=0\n",
        ],
    ),
    (
        "a long message that is given up in its second part",
        &[
            b"long ",
            ZEROS_501,
            b"\ndeliver data -\ndeliver answer -\n",
            TIMEOUTS,
            b"timeout\nlong -\nreopen\nlong -\ndeliver data -\ndeliver answer -\nlong 6162\ndeliver data -\n\
                deliver answer -\n",
        ],
        &[
            b"long taken parts=2\nsend taken ns=0 blocks=32\ndata delivered ns=0 message=",
            ZEROS_501,
            b"\npart 0\nanswer acknowledged ns=0\nsend taken ns=1 blocks=1\n",
            RESENT,
            b"timeout down\nlong down\nreopen sent ns=5\nlong busy\ndata opened ns=5\nanswer opened ns=5\n\
                long taken parts=1\nsend taken ns=6 blocks=1\ndata delivered ns=6 message=806162\nwhole message=6162\n\
                answer acknowledged ns=6\nlong acknowledged\ntaken=2 whole=1 acknowledged=1 false=0 sessions=2\n",
        ],
    ),
];

#[test]
fn scripts_of_long_messages_tell_their_steps(rt: HostRuntime) {
    for row in &ROWS {
        assert!(rt; tells(rt.alloc(), b"fragments", row));
    }
}

#[test]
fn send_is_no_line_of_long_messages(rt: HostRuntime) {
    let refused = Outcome::BadLine {
        line: 2,
        fault: LineFault::Kind,
    };
    let call = calm(b"fragments", b"timeout\nsend 61\n", 4_096);
    assert!(rt; ends(rt.alloc(), &call, refused, b"timeout idle\n"));
}
