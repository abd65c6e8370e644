//! Chunks of output gathered on a page, so that many of them are written at once.

ghost use Rattle.std.specs.Prelude.{◌≡◌, [], OnOk, OnErr};
ghost use Rattle.p25_filter.specs.{declared.ending.FilterEnd.TheVariants.{WriteFault}, Futures.{Future, Progress}, Goings.{Comes, Goes}};

use p25_io::{Failed, Port};
use p25_line::{LINE_MOST, Line};

// Writes the page, and empties it. An empty page is not written.
pub(crate) fn flush<P: Port>(page: &mut Line, port: &mut P) -> Result<(), Failed>
    ensures ok { OnOk result ((now : Future) → Goes P.moves port.old page.old now [] port.new [] now) }
    ensures empty { OnOk result (page.new ≡ []) }
    ensures err { OnErr result ((now : Future) → Comes P.moves port.old page.old now [] WriteFault port.new) }
{
    if page.len() == 0 {
        return Ok(());
    }
    port.write(page.octets())?;
    page.clear();
    Ok(())
}

// Appends a chunk to the page. If the page has no capacity for it, the page is written first.
pub(crate) fn gather<P: Port>(page: &mut Line, piece: &Line, port: &mut P) -> Result<(), Failed>
    ensures ok { OnOk result ((before now : Future) → Progress before [] piece.now now → Goes P.moves port.old page.old before [] port.new page.new now) }
    ensures err { OnErr result ((now : Future) → Comes P.moves port.old page.old now [] WriteFault port.new) }
{
    if page.len() + piece.len() > LINE_MOST {
        flush(page, port)?;
    }
    page.put(piece.octets());
    Ok(())
}
