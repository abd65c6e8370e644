//! The work of `build`: each line of the input as the data unit that it describes.

ghost use Rattle.std.specs.Prelude.{◌≡◌, []};
ghost use Rattle.p25_units.specs.Units.{IsSendableBody, image_octets};

use p25_bits::BitBuf;
use p25_filter::{LineMachine, LineRefusal, Text};
use p25_line::Line;
use p25_recording_filters::parts::put_octets;
use p25_status::Status;
use p25_text::read_line;
use p25_units::{Frame, Unit, image};
use std::marker::Model;

// The data units that the lines of an input describe, with one status symbol everywhere, and a buffer for the octets of a unit.
#[derive(Drop)]
pub(crate) struct Build {
    status: Status,
    out: Line,
}

impl Model for Build {
    ghost use Rattle.p25_status.specs.declared.symbols.Status.{Status};

    ghost Value = { Status };

    ghost view = { λ b. b.status };
}

impl Build {
    // Returns the machine that gives each unit this status symbol everywhere.
    pub(crate) fn new(status: Status) -> Build
        ensures { result ≡ status }
    {
        Build {
            status,
            out: Line::new(),
        }
    }
}

impl LineMachine for Build {
    ghost use Rattle.p25_tool.specs.{Machines.{build_rules}, LongLines.{build_long}};

    ghost rules = { build_rules };

    ghost long = { build_long };

    fn take(&mut self, line: &[u8], text: &mut Text) -> Result<(), LineRefusal> {
        let unit = read_line(line).map_err(LineRefusal::Fault)?;
        put_image(unit, self.status, &mut self.out, text);
        Ok(())
    }

    fn close(&self, _text: &mut Text) {}
}

// Writes to an empty text the octets of a data unit's image with one status symbol everywhere, by way of a buffer. It requires that no slot
// of a packet (PDU) is `Bad`.
fn put_image(unit: Unit, status: Status, out: &mut Line, text: &mut Text)
    requires sendable { IsSendableBody unit.body }
    requires empty { text.old ≡ [] }
    ensures { text.new ≡ image_octets status unit }
{
    let mut bits = BitBuf::new();
    image(&Frame::filled(unit, status), &mut bits);
    out.clear();
    put_octets(&bits, 0, out);
    text.put(out.octets());
}
